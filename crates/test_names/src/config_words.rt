//! Words of as many bytes as there may be, and of one more.

use crate::configs::{FRAME, joined, read};
use eq_config::{ConfigErr, ConfigKind};
use std::alloc::{AllocError, Global};
use std::test::Fail;

/// What stands before something that comes so many times, that, how often, what stands behind it, and the fault.
pub(crate) type Row = (
    &'static [u8],
    &'static [u8],
    usize,
    &'static [u8],
    Option<(u32, ConfigKind)>,
);

/// What stands behind the files of gold.
pub(crate) const GATE: &[u8] =
    b"\nprep -top t\n[gate]\nread_verilog b\nprep -top u\n[strategy s]\nuse sat\n";

/// What stands behind the top of gold.
const TOPS: &[u8] = b"\n[gate]\nread_verilog b\nprep -top u\n[strategy s]\nuse sat\n";

/// Whole texts.
const WHOLE: [Row; 8] = [
    (b"[gold]\nread_verilog ", b"a", 1024, GATE, None),
    (
        b"[gold]\nread_verilog ",
        b"a",
        1025,
        GATE,
        Some((2, ConfigKind::BadWord)),
    ),
    (
        b"[gold]\nread_verilog a\nprep -top ",
        b"t",
        1024,
        TOPS,
        None,
    ),
    (
        b"[gold]\nread_verilog a\nprep -top ",
        b"t",
        1025,
        TOPS,
        Some((3, ConfigKind::BadWord)),
    ),
    (b"#", b"c", 1025, b"\n", Some((2, ConfigKind::Missing))),
    (b"", b"x", 1025, b"\n", Some((1, ConfigKind::NoSection))),
    (
        b"[",
        b"x",
        1025,
        b"]\n",
        Some((1, ConfigKind::UnknownSection)),
    ),
    (
        b"[gold]\n",
        b"x",
        1025,
        b"\n",
        Some((2, ConfigKind::UnknownLine)),
    ),
];

/// Lines behind the eight of the frame.
const BEHIND: [Row; 23] = [
    (b"[match ", b"a", 1024, b"]\n", None),
    (
        b"[match ",
        b"a",
        1025,
        b"]\n",
        Some((9, ConfigKind::BadWord)),
    ),
    (b"[strategy ", b"a", 1024, b"]\nuse sat\n", None),
    (
        b"[strategy ",
        b"a",
        1025,
        b"]\nuse sat\n",
        Some((9, ConfigKind::BadWord)),
    ),
    (b"apply ", b"a", 1024, b"\n", None),
    (b"apply ", b"a", 1025, b"\n", Some((9, ConfigKind::BadWord))),
    (b"[match]\ngold-match ", b"a", 1024, b" b\n", None),
    (
        b"[match]\ngold-match ",
        b"a",
        1025,
        b" b\n",
        Some((10, ConfigKind::BadWord)),
    ),
    (b"[match]\ngold-match a ", b"b", 1024, b"\n", None),
    (
        b"[match]\ngold-match a ",
        b"b",
        1025,
        b"\n",
        Some((10, ConfigKind::BadWord)),
    ),
    (b"[match]\ngold-match a ~", b"b", 1023, b"\n", None),
    (
        b"[match]\ngold-match a ~",
        b"b",
        1024,
        b"\n",
        Some((10, ConfigKind::BadWord)),
    ),
    (b"[collect]\ngroup ", b"a", 1024, b"\n", None),
    (
        b"[collect]\ngroup ",
        b"a",
        1025,
        b"\n",
        Some((10, ConfigKind::BadWord)),
    ),
    (b"[partition]\npath a ", b"b", 1024, b"\n", None),
    (
        b"[partition]\npath a ",
        b"b",
        1025,
        b"\n",
        Some((10, ConfigKind::BadWord)),
    ),
    (b"[partition]\nname a ", b"b", 1024, b"\n", None),
    (
        b"[partition]\nname a ",
        b"b",
        1025,
        b"\n",
        Some((10, ConfigKind::BadWord)),
    ),
    // a number's word
    (
        b"depth ",
        b"1",
        1024,
        b"\n",
        Some((9, ConfigKind::BadNumber)),
    ),
    (b"depth ", b"1", 1025, b"\n", Some((9, ConfigKind::BadWord))),
    (
        b"conflicts ",
        b"9",
        1025,
        b"\n",
        Some((9, ConfigKind::BadWord)),
    ),
    // words apart
    (b"depth", b" ", 1025, b"3\n", None),
    (b"#", b"c", 1025, b"\n", None),
];

/// A text with a part of it so many times.
fn made(alloc: Global, row: &Row) -> Result<Vec<u8>, AllocError> {
    let mut text = Vec::from_slice(alloc, row.0)?;
    for _ in 0..row.2 {
        text.extend_from_slice(row.1)?;
    }
    text.extend_from_slice(row.3)?;
    Ok(text)
}

/// Whether a text has this fault, or none.
pub(crate) fn has_fault(alloc: Global, text: &[u8], fault: Option<(u32, ConfigKind)>) -> bool {
    match fault {
        Some((line, kind)) => read(alloc, text).err() == Some(ConfigErr::At { line, kind }),
        None => read(alloc, text).is_ok(),
    }
}

/// Whether a text behind another has its fault.
fn holds(alloc: Global, before: &[u8], row: &Row) -> Result<bool, Fail> {
    let lines = made(alloc, row)?;
    let text = joined(alloc, before, &lines)?;
    Ok(has_fault(alloc, &text, row.4))
}

/// The first text behind another that hasn't its fault.
pub(crate) fn first_wrong(
    alloc: Global,
    before: &[u8],
    rows: &[Row],
) -> Result<Option<usize>, Fail> {
    for (place, row) in rows.iter().enumerate() {
        if !holds(alloc, before, row)? {
            return Ok(Some(place));
        }
    }
    Ok(None)
}

#[test]
fn the_words_of_sides_have_at_most_1024_bytes(rt: HostRuntime) -> Result<(), Fail> {
    assert_eq!(rt; first_wrong(rt.alloc(), b"", &WHOLE)?, None);
    Ok(())
}

#[test]
fn the_words_of_other_sections_have_at_most_1024_bytes(rt: HostRuntime) -> Result<(), Fail> {
    assert_eq!(rt; first_wrong(rt.alloc(), FRAME, &BEHIND)?, None);
    Ok(())
}
