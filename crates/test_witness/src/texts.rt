//! Texts of lines, and what is wrong with a text.

use eq_base::Memory;
use eq_wit::{Evidence, WitErr, WitKind, read_evidence};
use std::alloc::Global;
use std::test::Fail;

/// The text of lines, of which one, counted from 1, has these bytes in place of its own; none where it is 0.
pub(crate) fn with_line(
    alloc: Global,
    lines: &[&[u8]],
    line: usize,
    bytes: &[u8],
) -> Result<Vec<u8>, Memory> {
    let mut text = Vec::new(alloc);
    for (place, own) in lines.iter().enumerate() {
        if place.wrapping_add(1) == line {
            text.extend_from_slice(bytes)?;
        } else {
            text.extend_from_slice(own)?;
        }
    }
    Ok(text)
}

/// What is read of a text.
pub(crate) fn read(alloc: Global, text: &[u8]) -> Result<Result<Evidence, WitErr>, Fail> {
    if text.len() > 0xFFFF_FFFF {
        return Err(Fail::from("a long text"));
    }
    Ok(read_evidence(alloc, text))
}

/// What is wrong with a text, or nothing.
pub(crate) fn first_fault(alloc: Global, text: &[u8]) -> Result<Option<(u32, WitKind)>, Fail> {
    match read(alloc, text)? {
        Ok(_) => Ok(None),
        Err(WitErr::At { line, kind }) => Ok(Some((line, kind))),
        Err(WitErr::Memory) => Err(Fail::from("no memory")),
    }
}
