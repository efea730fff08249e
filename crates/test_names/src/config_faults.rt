//! First faults of texts that are no configurations.

use crate::configs::{FRAME, joined, read};
use eq_config::{ConfigErr, ConfigKind};
use std::alloc::Global;
use std::test::Fail;

/// Lines, the number of the first faulty one, and its fault.
type Row = (&'static [u8], u32, ConfigKind);

/// Whole texts.
const WHOLE: [Row; 48] = [
    // a byte that is no text
    (b"[gold]\nread_verilog \x80\n", 2, ConfigKind::NotAscii),
    (b"# \x80\n", 1, ConfigKind::NotAscii),
    (b"# end\r", 1, ConfigKind::NotAscii),
    (b"\x7f\n", 1, ConfigKind::NotAscii),
    (b"\x1f\n", 1, ConfigKind::NotAscii),
    (b"\n\x0b\n", 2, ConfigKind::NotAscii),
    (b"\n\0", 2, ConfigKind::NotAscii),
    (b"[gold]\r\r\n", 1, ConfigKind::NotAscii),
    (b"[gold]\r", 1, ConfigKind::NotAscii),
    (b"\r", 1, ConfigKind::NotAscii),
    (b"[gold]\rread_verilog a\n", 1, ConfigKind::NotAscii),
    // the first faulty line
    (b"[gild]\n\x80\n", 1, ConfigKind::UnknownSection),
    (b"[gold]\nx\n\x80\n", 2, ConfigKind::UnknownLine),
    (b"\r\n\n x\n[gild]\n", 3, ConfigKind::NoSection),
    // NotAscii before each other fault of one line
    (b"x\x80\n", 1, ConfigKind::NotAscii),
    (b"[gild\x80]\n", 1, ConfigKind::NotAscii),
    (b"[gold]\nx\x80\n", 2, ConfigKind::NotAscii),
    (b"[gold]\nprep top t\x80\n", 2, ConfigKind::NotAscii),
    (b"[strategy s]\ndepth 0\x80\n", 2, ConfigKind::NotAscii),
    (
        b"[gold]\nprep -top t\nprep -top t\x80\n",
        3,
        ConfigKind::NotAscii,
    ),
    // before the first heading
    (b"x\n", 1, ConfigKind::NoSection),
    (b"#\n\t\nread_verilog a\n", 3, ConfigKind::NoSection),
    (b"[gold] x\n", 1, ConfigKind::NoSection),
    (b"x [gold]\n", 1, ConfigKind::NoSection),
    (b"[\n", 1, ConfigKind::NoSection),
    (b"]\n", 1, ConfigKind::NoSection),
    // headings
    (b"[]\n", 1, ConfigKind::UnknownSection),
    (b"[ ]\n", 1, ConfigKind::UnknownSection),
    (b"[Gold]\n", 1, ConfigKind::UnknownSection),
    (b"[gol]\n", 1, ConfigKind::UnknownSection),
    (b"[gold]]\n", 1, ConfigKind::UnknownSection),
    (b"[[gold]\n", 1, ConfigKind::UnknownSection),
    (b"[gold x]\n", 1, ConfigKind::BadWord),
    (b"[gate x]\n", 1, ConfigKind::BadWord),
    (b"[options x]\n", 1, ConfigKind::BadWord),
    // the lines of a side
    (b"[gold]\nprep -top\n", 2, ConfigKind::BadWord),
    (b"[gold]\nprep -top a b\n", 2, ConfigKind::BadWord),
    (b"[gold]\nprep -to a\n", 2, ConfigKind::BadWord),
    (b"[gold]\nread_verilog\n", 2, ConfigKind::BadWord),
    (b"[gold]\nread_verilog -sv\n", 2, ConfigKind::BadWord),
    (b"[gold]\nread_verilog a -\n", 2, ConfigKind::BadWord),
    (b"[gold]\nreadverilog a\n", 2, ConfigKind::UnknownLine),
    (b"[gold]\nuse sat\n", 2, ConfigKind::UnknownLine),
    (b"[options]\nx\n", 2, ConfigKind::UnknownLine),
    (b"[gold]\nprep -top a\nprep -top a\n", 3, ConfigKind::Twice),
    (
        b"[gold]\nprep -top a\n[match]\n[gold]\n",
        4,
        ConfigKind::Twice,
    ),
    (b"[gate]\n\n[gate]\n", 3, ConfigKind::Twice),
    (b"[options]\n[options]\n", 2, ConfigKind::Twice),
];

/// Lines behind the eight of the frame, whose last section is a strategy.
const BEHIND: [Row; 69] = [
    (b"[strategy]\n", 9, ConfigKind::BadWord),
    (b"[strategy a b]\n", 9, ConfigKind::BadWord),
    (b"[strategy a.b]\n", 9, ConfigKind::BadWord),
    (b"[strategy [a]]\n", 9, ConfigKind::BadWord),
    (b"[strategy s]\n", 9, ConfigKind::Twice),
    (b"[match]\n[strategy s]\n", 10, ConfigKind::Twice),
    (b"[gold]\n", 9, ConfigKind::Twice),
    (b"[gate]\n", 9, ConfigKind::Twice),
    (b"[options]\n[match]\n[options]\n", 11, ConfigKind::Twice),
    (b"[options]\nuse sat\n", 10, ConfigKind::UnknownLine),
    (b"use sat\n", 9, ConfigKind::Twice),
    (b"use\n", 9, ConfigKind::BadWord),
    (b"use sby\n", 9, ConfigKind::BadWord),
    (b"use sat sat\n", 9, ConfigKind::BadWord),
    (b"Use sat\n", 9, ConfigKind::UnknownLine),
    (b"gold-match a b\n", 9, ConfigKind::UnknownLine),
    (b"[match] x\n", 9, ConfigKind::UnknownLine),
    (b"depth\n", 9, ConfigKind::BadWord),
    (b"depth 1 2\n", 9, ConfigKind::BadWord),
    (b"depth 0\n", 9, ConfigKind::BadNumber),
    (b"depth 00\n", 9, ConfigKind::BadNumber),
    (b"depth 01\n", 9, ConfigKind::BadNumber),
    (b"depth 65\n", 9, ConfigKind::BadNumber),
    (b"depth 100\n", 9, ConfigKind::BadNumber),
    (b"depth +1\n", 9, ConfigKind::BadNumber),
    (b"depth -1\n", 9, ConfigKind::BadNumber),
    (b"depth x\n", 9, ConfigKind::BadNumber),
    (b"depth 1x\n", 9, ConfigKind::BadNumber),
    (b"depth 0x1\n", 9, ConfigKind::BadNumber),
    (b"depth 4294967297\n", 9, ConfigKind::BadNumber),
    (b"depth 18446744073709551617\n", 9, ConfigKind::BadNumber),
    (b"conflicts 0\n", 9, ConfigKind::BadNumber),
    (b"conflicts 200001\n", 9, ConfigKind::BadNumber),
    (b"conflicts 1000000\n", 9, ConfigKind::BadNumber),
    (b"conflicts 020\n", 9, ConfigKind::BadNumber),
    (b"conflicts\n", 9, ConfigKind::BadWord),
    (b"depth 2\ndepth 2\n", 10, ConfigKind::Twice),
    (
        b"conflicts 2\ndepth 2\nconflicts 3\n",
        11,
        ConfigKind::Twice,
    ),
    (b"apply\n", 9, ConfigKind::BadWord),
    (b"apply a b\n", 9, ConfigKind::BadWord),
    (b"apply [a\n", 9, ConfigKind::BadWord),
    (b"apply [b-a]\n", 9, ConfigKind::BadWord),
    // a fault of the words before what comes twice
    (b"use sby\nuse sat\n", 9, ConfigKind::BadWord),
    (b"use sat sat\n", 9, ConfigKind::BadWord),
    (b"depth 2\ndepth 2 2\n", 10, ConfigKind::BadWord),
    (b"depth 2\ndepth 0\n", 10, ConfigKind::BadNumber),
    (
        b"conflicts 2\nconflicts 200001\n",
        10,
        ConfigKind::BadNumber,
    ),
    (b"[gold x]\n", 9, ConfigKind::BadWord),
    (b"[options]\n[options x]\n", 10, ConfigKind::BadWord),
    // rules
    (b"[match [a]\n", 9, ConfigKind::BadWord),
    (b"[match a b]\n", 9, ConfigKind::BadWord),
    (b"[match [b-a]]\n", 9, ConfigKind::BadWord),
    (b"[match]\ngold-match a\n", 10, ConfigKind::BadWord),
    (b"[match]\ngold-match a b c\n", 10, ConfigKind::BadWord),
    (b"[match]\ngold-match [ b\n", 10, ConfigKind::BadWord),
    (b"[match]\ngold-match a ~\n", 10, ConfigKind::BadWord),
    (b"[match]\ngold-match a %1\n", 10, ConfigKind::BadWord),
    (b"[match]\ngate-match a* %2\n", 10, ConfigKind::BadWord),
    (b"[match]\ngate-match a* ~%\n", 10, ConfigKind::BadWord),
    (b"[match]\ngold-nomatch\n", 10, ConfigKind::BadWord),
    (b"[match]\ngate-nomatch a b\n", 10, ConfigKind::BadWord),
    (b"[match]\ngroup a\n", 10, ConfigKind::UnknownLine),
    (b"[collect]\nmerge a\n", 10, ConfigKind::UnknownLine),
    (b"[collect a b]\n", 9, ConfigKind::BadWord),
    (b"[collect]\nsolo a b\n", 10, ConfigKind::BadWord),
    (b"[partition]\nsolo a\n", 10, ConfigKind::UnknownLine),
    (b"[partition]\npath a\n", 10, ConfigKind::BadWord),
    (b"[partition]\nname a %1\n", 10, ConfigKind::BadWord),
    (b"[partition a b]\n", 9, ConfigKind::BadWord),
];

/// Texts in which no line is faulty and something is missing.
const MISSING: [(&[u8], u32); 19] = [
    (b"", 1),
    (b"\n", 2),
    (b"#", 2),
    (
        b"[gate]\nread_verilog b\nprep -top u\n[strategy s]\nuse sat\n",
        6,
    ),
    (b"[gold]\n", 1),
    (b"\n[gold]\nprep -top t\n[gate]\n", 2),
    (b"\n[gold]\nread_verilog a\n[gate]\n", 2),
    (b"[gold]\nread_verilog a\nprep -top t\n", 4),
    (b"[gold]\nread_verilog a\nprep -top t", 4),
    (b"[gate]\n[gold]\nread_verilog a\nprep -top t\n", 1),
    (
        b"[gold]\nread_verilog a\nprep -top t\n[gate]\nprep -top u\n[strategy s]\n",
        4,
    ),
    (
        b"[gold]\nread_verilog a\nprep -top t\n[gate]\nread_verilog b\n[strategy s]\n",
        4,
    ),
    (
        b"[gold]\nread_verilog a\nprep -top t\n[gate]\nread_verilog b\nprep -top u\n",
        7,
    ),
    (
        b"[gold]\nread_verilog a\nprep -top t\n[gate]\nread_verilog b\nprep -top u\n[options]\n\n",
        9,
    ),
    (
        b"[gold]\nread_verilog a\nprep -top t\n[gate]\nread_verilog b\nprep -top u\n[strategy s]\n",
        7,
    ),
    (
        b"[gold]\nread_verilog a\nprep -top t\n[gate]\nread_verilog b\nprep -top u\n[strategy s]\ndepth 2\n[strategy t]\nuse sat\n",
        7,
    ),
    (
        b"[gold]\nread_verilog a\nprep -top t\n[gate]\nread_verilog b\nprep -top u\n[strategy s]\nuse sat\n[strategy t]\napply a\n[strategy u]\n",
        9,
    ),
    (b"[strategy s]\n[gate]\n[match]\n", 4),
    (b"[strategy s]\n[gate]\n[match]\n[gold]\n", 4),
];

fn has_fault(alloc: Global, text: &[u8], line: u32, kind: ConfigKind) -> bool {
    read(alloc, text).err() == Some(ConfigErr::At { line, kind })
}

/// The first text that hasn't its fault.
fn first_wrong_whole(alloc: Global) -> Option<usize> {
    for (row, (text, line, kind)) in WHOLE.iter().enumerate() {
        if !has_fault(alloc, text, *line, *kind) {
            return Some(row);
        }
    }
    None
}

#[test]
fn the_first_faulty_line_has_the_first_kind(rt: HostRuntime) -> Result<(), Fail> {
    assert_eq!(rt; first_wrong_whole(rt.alloc()), None);
    Ok(())
}

/// Whether lines behind the frame have this fault.
fn has_fault_behind(alloc: Global, row: &Row) -> Result<bool, Fail> {
    let text = joined(alloc, FRAME, row.0)?;
    Ok(has_fault(alloc, &text, row.1, row.2))
}

fn first_wrong_behind(alloc: Global) -> Result<Option<usize>, Fail> {
    for (place, row) in BEHIND.iter().enumerate() {
        if !has_fault_behind(alloc, row)? {
            return Ok(Some(place));
        }
    }
    Ok(None)
}

#[test]
fn lines_of_each_section_have_their_faults(rt: HostRuntime) -> Result<(), Fail> {
    assert_eq!(rt; first_wrong_behind(rt.alloc())?, None);
    Ok(())
}

fn first_wrong_missing(alloc: Global) -> Option<usize> {
    for (row, (text, line)) in MISSING.iter().enumerate() {
        if !has_fault(alloc, text, *line, ConfigKind::Missing) {
            return Some(row);
        }
    }
    None
}

#[test]
fn what_is_missing_is_told_where_no_line_is_faulty(rt: HostRuntime) -> Result<(), Fail> {
    assert_eq!(rt; first_wrong_missing(rt.alloc()), None);
    Ok(())
}
