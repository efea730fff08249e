//! How many files, rules and strategies there may be, and one more.

use crate::config_words::{GATE, Row, first_wrong, has_fault};
use crate::configs::FRAME;
use eq_config::ConfigKind;
use std::alloc::{AllocError, Global};
use std::test::Fail;

/// Whole texts.
const FILES: [Row; 7] = [
    (b"[gold]\n", b"read_verilog a\n", 64, GATE, None),
    (
        b"[gold]\n",
        b"read_verilog a\n",
        65,
        GATE,
        Some((66, ConfigKind::TooMany)),
    ),
    (b"[gold]\nread_verilog", b" a", 64, GATE, None),
    (
        b"[gold]\nread_verilog",
        b" a",
        65,
        GATE,
        Some((2, ConfigKind::TooMany)),
    ),
    (
        b"[gold]\nread_verilog",
        b" a",
        64,
        b"\nread_verilog b\n",
        Some((3, ConfigKind::TooMany)),
    ),
    (
        b"[gold]\nread_verilog",
        b" a",
        64,
        b"\nread_verilog -b\n",
        Some((3, ConfigKind::BadWord)),
    ),
    (
        b"[gold]\nread_verilog",
        b" a",
        64,
        b"\nread_verilog \x80\n",
        Some((3, ConfigKind::NotAscii)),
    ),
];

#[test]
fn a_side_has_at_most_64_files(rt: HostRuntime) -> Result<(), Fail> {
    assert_eq!(rt; first_wrong(rt.alloc(), b"", &FILES)?, None);
    Ok(())
}

/// Lines behind the eight of the frame.
const RULES: [Row; 13] = [
    (b"", b"apply a\n", 4096, b"", None),
    (
        b"",
        b"apply a\n",
        4097,
        b"",
        Some((4105, ConfigKind::TooMany)),
    ),
    (b"[match]\n", b"gold-match a b\n", 4096, b"", None),
    (
        b"[match]\n",
        b"gold-match a b\n",
        4097,
        b"",
        Some((4106, ConfigKind::TooMany)),
    ),
    (
        b"[match]\n",
        b"gate-nomatch a\n",
        4097,
        b"",
        Some((4106, ConfigKind::TooMany)),
    ),
    (b"[collect]\n", b"solo a\n", 4096, b"", None),
    (
        b"[collect]\n",
        b"solo a\n",
        4097,
        b"",
        Some((4106, ConfigKind::TooMany)),
    ),
    (b"[partition]\n", b"merge a\n", 4096, b"", None),
    (
        b"[partition]\n",
        b"merge a\n",
        4097,
        b"",
        Some((4106, ConfigKind::TooMany)),
    ),
    (
        b"",
        b"apply a\n",
        4094,
        b"[match]\ngold-nomatch a\n[collect]\nsolo a\n[match]\n#\n",
        None,
    ),
    (
        b"",
        b"apply a\n",
        4094,
        b"[match]\ngold-nomatch a\n[collect]\nsolo a\n[partition]\nmerge a\n",
        Some((4108, ConfigKind::TooMany)),
    ),
    (
        b"",
        b"apply a\n",
        4096,
        b"apply [\n",
        Some((4105, ConfigKind::BadWord)),
    ),
    (
        b"",
        b"apply a\n",
        4096,
        b"apply a\x80\n",
        Some((4105, ConfigKind::NotAscii)),
    ),
];

#[test]
fn there_are_at_most_4096_rules(rt: HostRuntime) -> Result<(), Fail> {
    assert_eq!(rt; first_wrong(rt.alloc(), FRAME, &RULES)?, None);
    Ok(())
}

/// So many strategies behind the frame's one, and what stands behind them.
fn strategies(alloc: Global, count: u32, behind: &[u8]) -> Result<Vec<u8>, AllocError> {
    let mut text = Vec::from_slice(alloc, FRAME)?;
    for i in 0..count {
        let section = format!(in alloc; "[strategy s{i}]\nuse sat\n")?;
        text.extend_from_slice(section.as_bytes())?;
    }
    text.extend_from_slice(behind)?;
    Ok(text)
}

/// How many strategies there are more, what stands behind them, and the fault.
const STRATEGIES: [(u32, &[u8], Option<(u32, ConfigKind)>); 6] = [
    (15, b"", None),
    (16, b"", Some((39, ConfigKind::TooMany))),
    (15, b"[strategy t]\n", Some((39, ConfigKind::TooMany))),
    (15, b"[strategy s]\n", Some((39, ConfigKind::Twice))),
    (15, b"[strategy .]\n", Some((39, ConfigKind::BadWord))),
    (14, b"[strategy s15]\nuse sat\n", None),
];

fn first_wrong_strategies(alloc: Global) -> Result<Option<usize>, Fail> {
    for (place, row) in STRATEGIES.iter().enumerate() {
        let text = strategies(alloc, row.0, row.1)?;
        if !has_fault(alloc, &text, row.2) {
            return Ok(Some(place));
        }
    }
    Ok(None)
}

#[test]
fn there_are_at_most_16_strategies(rt: HostRuntime) -> Result<(), Fail> {
    assert_eq!(rt; first_wrong_strategies(rt.alloc())?, None);
    Ok(())
}
