//! Decimals and sized constants.

ghost use Rattle.std.specs.Prelude.{◌≡◌, ◌<◌, ◌≤◌, ◌^◌, ℕ, length, IsTrue, ◌↔◌, SomeIff, true, false, ◌+◌, IfOk, IfErr, IfSome, IsSomeAnd, IfNone, ◌||◌, ◌==◌};
ghost use Rattle.std.specs.Char.{digit_value};
ghost use Rattle.std.specs.List.{list_any, list_all};
ghost use Rattle.eq_vlex.specs.Numbers as spec;
ghost use Rattle.eq_vlex.specs.declared.token.Constant.{Constant};

use crate::bytes::{Class, byte, run};
use crate::fault::LexKind;
use crate::piece::Piece;
use crate::token::{Constant, TokenKind};

/// The value of a digit or a letter, from 0 to 35, or 36 for another byte.
fn digit_value(byte: u8) -> u8
    ensures { result ≡ digit_value byte }
{
    match byte {
        b'0'..=b'9' => byte - b'0',
        b'A'..=b'Z' => byte - b'A' + 10,
        b'a'..=b'z' => byte - b'a' + 10,
        _ => 36,
    }
}

/// The base that a letter names, or 0.
fn base_of(letter: u8) -> u8
    ensures { result ≡ spec.base_of letter }
{
    match letter {
        b'b' | b'B' => 2,
        b'o' | b'O' => 8,
        b'd' | b'D' => 10,
        b'h' | b'H' => 16,
        _ => 0,
    }
}

fn is_digit_of(base: u8, byte: u8) -> bool
    ensures { result ≡ spec.is_digit_of base byte }
{
    digit_value(byte) < base
}

/// Whether a byte is an x, a z or a `?`.
fn is_unknown(byte: u8) -> bool
    ensures { result ≡ spec.is_unknown byte }
{
    matches!(byte, b'x' | b'X' | b'z' | b'Z' | b'?')
}

/// What comes after one s or S.
fn unsigned_part(tail: &[u8]) -> &[u8]
    ensures { result.now ≡ spec.unsigned_part tail.now }
{
    match tail {
        [b's' | b'S', rest @ ..] => rest,
        _ => tail,
    }
}

fn any_unknown(digits: &[u8]) -> bool
    ensures { result ≡ list_any spec.is_unknown digits.now }
{
    digits.iter().any(|digit| is_unknown(*digit))
}

/// Whether an x, a z or a `?` stands behind the base.
fn has_unknown(tail: &[u8]) -> bool
    ensures { result ≡ spec.has_unknown tail.now }
{
    match unsigned_part(tail) {
        [letter, digits @ ..] => (base_of(*letter) > 0) & any_unknown(digits),
        [] => false,
    }
}

/// A value and one more digit behind it, if that is below 2^128. A `_` changes nothing.
fn with_digit(base: u8, value: u128, digit: u8) -> Option<u128>
    ensures { SomeIff result (spec.with_digit base value digit < 2 ^ 128) (spec.with_digit base value digit) }
{
    if digit == b'_' {
        return Some(value);
    }
    let shifted = value.checked_mul(u128::from(base))?;
    shifted.checked_add(u128::from(digit_value(digit)))
}

/// The value of digits in a base, if it is below 2^128.
fn value_of(base: u8, digits: &[u8]) -> Option<u128>
    requires { 0 < base }
    ensures { SomeIff result (spec.value_of base digits.now < 2 ^ 128) (spec.value_of base digits.now) }
{
    let mut value: u128 = 0;
    for digit in digits {
        value = with_digit(base, value, *digit)?;
    }
    Some(value)
}

/// Whether a value has at most so many bits.
fn fits(value: u128, size: u32) -> bool
    requires { size ≤ 128 }
    ensures { IsTrue result ↔ (value < 2 ^ size) }
{
    size == 128 || value >> size == 0
}

fn all_digits(base: u8, digits: &[u8]) -> bool
    ensures { result ≡ list_all (λ b. spec.is_digit_of base b || b == 95) digits.now }
{
    digits
        .iter()
        .all(|digit| is_digit_of(base, *digit) || *digit == b'_')
}

fn any_digit(base: u8, digits: &[u8]) -> bool
    ensures { result ≡ list_any (spec.is_digit_of base) digits.now }
{
    digits.iter().any(|digit| is_digit_of(base, *digit))
}

/// Whether the bytes are digits of the base and `_`, with at least one digit.
fn are_digits(base: u8, digits: &[u8]) -> bool
    ensures { result ≡ spec.are_digits base digits.now }
{
    all_digits(base, digits) & any_digit(base, digits)
}

/// The value of digits in a base, if it has at most so many bits.
fn value_within(size: u32, base: u8, digits: &[u8]) -> Option<u128>
    requires bits { size ≤ 128 }
    requires base { 0 < base }
    ensures { SomeIff result (spec.value_of base digits.now < 2 ^ size) (spec.value_of base digits.now) }
{
    match value_of(base, digits) {
        Some(value) if fits(value, size) => Some(value),
        Some(_) => None,
        None => None,
    }
}

/// A size, if it is at most 128.
fn size_of(front: &[u8]) -> Option<u32>
    ensures { SomeIff result (spec.value_of 10 front.now ≤ 128) (spec.value_of 10 front.now) }
{
    match value_of(10, front) {
        Some(size) if size <= 128 => Some(size as u32),
        _ => None,
    }
}

/// The constant of a size and what stands behind its `'`.
fn constant(size: u32, tail: &[u8]) -> Option<Constant>
    requires { size ≤ 128 }
    ensures some { IfSome result (spec.IsSized size tail.now) }
    ensures none { IfNone result ((c : Constant) → ¬ spec.IsSized size tail.now c) }
{
    let [letter, digits @ ..] = tail else {
        return None;
    };
    let base = base_of(*letter);
    if size == 0 || base == 0 || !are_digits(base, digits) {
        return None;
    }
    let value = value_within(size, base, digits)?;
    Some(Constant { size, value })
}

/// A constant, or what is wrong with it.
fn sized(front: &[u8], tail: &[u8]) -> Result<Constant, LexKind>
    ensures ok { IfOk result (spec.IsSized (spec.value_of 10 front.now) tail.now) }
    ensures fault { IfErr result (spec.IsBadSized (spec.value_of 10 front.now) tail.now) }
{
    if has_unknown(tail) {
        return Err(LexKind::XValue);
    }
    let size = size_of(front).ok_or(LexKind::TooWide)?;
    constant(size, tail).ok_or(LexKind::BadNumber)
}

/// A decimal, if it is below 2^31 and nothing stands behind it.
fn decimal(front: &[u8], tail: &[u8]) -> Option<u32>
    ensures some { IfSome result (spec.IsDecimal front.now tail.now) }
    ensures none { IfNone result ((n : ℕ) → ¬ spec.IsDecimal front.now tail.now n) }
{
    match value_of(10, front) {
        Some(value) if value < 0x8000_0000 && tail.is_empty() => Some(value as u32),
        _ => None,
    }
}

/// A number with a `'`.
fn quoted_number(front: &[u8], tail: &[u8]) -> Result<Piece, LexKind>
    requires { length front.now + 1 + length tail.now < 2 ^ 32 }
    ensures ok { IfOk result (λ piece. IsSomeAnd piece.kind (spec.IsNumberOf true front.now tail.now piece.len)) }
    ensures fault { IfErr result (spec.IsBadNumberOf true front.now tail.now) }
{
    let constant = sized(front, tail)?;
    Ok(Piece {
        len: front.len() + 1 + tail.len(),
        kind: Some(TokenKind::Sized(constant)),
    })
}

/// A number without a `'`.
fn plain_number(front: &[u8], tail: &[u8]) -> Result<Piece, LexKind>
    requires { length front.now + length tail.now < 2 ^ 32 }
    ensures ok { IfOk result (λ piece. IsSomeAnd piece.kind (spec.IsNumberOf false front.now tail.now piece.len)) }
    ensures fault { IfErr result (spec.IsBadNumberOf false front.now tail.now) }
{
    let value = decimal(front, tail).ok_or(LexKind::BadNumber)?;
    Ok(Piece {
        len: front.len() + tail.len(),
        kind: Some(TokenKind::Decimal(value)),
    })
}

/// The number at the front of a text.
pub fn number(text: &[u8]) -> Result<Piece, LexKind>
    requires { length text.now ≤ 67_108_864 }
    ensures ok { IfOk result (λ piece. IsSomeAnd piece.kind (spec.IsNumber text.now piece.len)) }
    ensures fault { IfErr result (spec.IsBadNumber text.now) }
{
    let front = run(Class::Decimal, text);
    if byte(text, front.len()) == b'\'' {
        quoted_number(front, run(Class::Value, &text[front.len() + 1..]))
    } else {
        plain_number(front, run(Class::Word, &text[front.len()..]))
    }
}
