//! The set of a pattern that begins with a `[`.

ghost use Rattle.std.specs.Prelude.{◌≡◌, ◌<◌, ◌≤◌, ◌+◌, ◌∷◌, ◌^◌, length, drop, take, IfOk, IfSome, position, ◌==◌};
ghost use Rattle.eq_names.specs.Brackets as spec;

use crate::piece::{ByteRange, ByteRanges};
use eq_base::Memory;
use std::alloc::Global;

/// Whether a `!` stands behind the `[`.
pub fn is_negated(behind: &[u8]) -> bool
    ensures value { result ≡ spec.is_negated behind.now }
{
    behind.first().copied().unwrap_or(0) == b'!'
}

/// What stands behind the `[` or `[!`.
pub fn inside(behind: &[u8]) -> &[u8]
    ensures value { result.now ≡ spec.inside behind.now }
{
    if is_negated(behind) {
        behind.get(1..).unwrap_or(&[])
    } else {
        behind
    }
}

/// The place of the first `]`.
fn first_close(text: &[u8]) -> Option<usize>
    ensures value { result ≡ position (λ b. b == 93) text.now }
    ensures within { IfSome result (λ at. at < length text.now) }
{
    text.iter().position(|byte| *byte == b']')
}

/// The place of the closing `]`.
pub fn closing(text: &[u8]) -> Option<usize>
    ensures value { result ≡ spec.closing text.now }
    ensures within { IfSome result (λ at. at < length text.now) }
{
    if text.is_empty() {
        return None;
    }
    match first_close(&text[1..]) {
        Some(at) => Some(at + 1),
        None => None,
    }
}

/// The member at the front of what stands between brackets, and how many bytes it has.
fn member_at(text: &[u8]) -> (ByteRange, usize)
    requires { 0 < length text.now }
    ensures first { spec.members text.now ≡ result.0 ∷ spec.members (drop result.1 text.now) }
    ensures some { 0 < result.1 }
    ensures within { result.1 ≤ length text.now }
{
    let low = text[0];
    if 2 < text.len() && text[1] == b'-' {
        (ByteRange { low, high: text[2] }, 3)
    } else {
        (ByteRange { low, high: low }, 1)
    }
}

/// The members between brackets.
pub fn members(alloc: Global, text: &[u8]) -> Result<ByteRanges, Memory>
    ensures { IfOk result (λ ranges. ranges ≡ spec.members text.now) }
{
    let mut ranges = ByteRanges::new(alloc);
    let mut at = 0;
    while at < text.len() {
        let (range, len) = member_at(&text[at..]);
        ranges.push(range)?;
        at += len;
    }
    Ok(ranges)
}

/// Whether no range goes down.
pub fn are_ranges(ranges: &[ByteRange]) -> bool
    ensures { result ≡ spec.are_ranges ranges.now }
{
    ranges.iter().all(|range| range.low <= range.high)
}
