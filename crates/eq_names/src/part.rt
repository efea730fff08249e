//! The parts of a template.

ghost use Rattle.std.specs.Prelude.{◌≡◌, ◌≢◌, ◌<◌, ◌≤◌, ◌-◌, ◌++◌, All, length, IfOk, OnOk, slice_get, slice_range};
ghost use Rattle.eq_names.specs.Templates as spec;
ghost use Rattle.eq_names.specs.inner.Parts.{IsPartOf};

use crate::fault::TplErr;
use crate::span::Span;
use eq_base::{Items, Memory};

/// A part of a template: a byte that stands for itself, or the number of a wild.
#[derive(Clone, Copy, Debug, PartialEq, Eq)]
pub enum Part {
    Byte(u8),
    Wild(u32),
}

pub type Parts = Items<Part>;

/// What the byte behind a `%` stands for; 0 where there is none.
fn escaped(byte: u8, wilds: u32) -> Result<(Part, usize), TplErr>
    ensures { result ≡ spec.escaped wilds byte }
{
    match byte {
        b'%' | b'~' => Ok((Part::Byte(byte), 2)),
        b'1'..=b'9' => {
            let number = u32::from(byte - b'0');
            if number <= wilds {
                Ok((Part::Wild(number), 2))
            } else {
                Err(TplErr::NoCapture { number })
            }
        }
        _ => Err(TplErr::BadPercent),
    }
}

/// The part at the front of a text, and how many bytes it has.
pub fn part_at(text: &[u8], wilds: u32) -> Result<(Part, usize), TplErr>
    requires { 0 < length text.now }
    ensures part { result ≡ spec.part_at wilds text.now }
    ensures within { IfOk result (λ found. (0 < found.1) × (found.1 ≤ length text.now)) }
{
    if text[0] == b'%' {
        escaped(text.get(1).copied().unwrap_or(0), wilds)
    } else {
        Ok((Part::Byte(text[0]), 1))
    }
}

/// Puts the text of a span behind what was filled.
fn put_span(filled: &mut Vec<u8>, name: &[u8], span: Span) -> Result<(), Memory>
    requires { spec.IsSpanOf name.now span }
    ensures { OnOk result
        (filled.new.items ≡ filled.old.items ++ slice_range name.now span.start span.end) }
{
    filled.extend_from_slice(&name[span.start as usize..span.end as usize])
}

/// Puts the text of a part behind what was filled.
pub fn put_part(filled: &mut Vec<u8>, part: Part, name: &[u8], spans: &[Span]) -> Result<(), Memory>
    requires spans { All (spec.IsSpanOf name.now) spans.now }
    requires part { IsPartOf (length spans.now) part }
    ensures { OnOk result
        (filled.new.items ≡ filled.old.items ++ spec.part_text name.now spans.now part) }
{
    match part {
        Part::Byte(byte) => filled.push(byte)?,
        Part::Wild(number) => put_span(filled, name, spans[number as usize - 1])?,
    }
    Ok(())
}
