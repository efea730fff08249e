//! Configurations: what their lines say, and how they are printed.

use crate::config_value::{sections, sides};
use eq_base::Bytes;
use eq_config::{Config, ConfigErr, print_config, read_config};
use std::alloc::{AllocError, Global};
use std::test::Fail;

/// Two sides and a strategy, on eight lines.
pub(crate) const FRAME: &[u8] =
    b"[gold]\nread_verilog a\nprep -top t\n[gate]\nread_verilog b\nprep -top u\n[strategy s]\nuse sat\n";

/// One text behind another.
pub(crate) fn joined(alloc: Global, first: &[u8], second: &[u8]) -> Result<Vec<u8>, AllocError> {
    let mut text = Vec::from_slice(alloc, first)?;
    text.extend_from_slice(second)?;
    Ok(text)
}

/// Reads a text of fitting length.
pub(crate) fn read(alloc: Global, text: &[u8]) -> Result<Config, ConfigErr> {
    if 67_108_864 < text.len() {
        return Err(ConfigErr::Memory);
    }
    read_config(alloc, text)
}

/// A text, and its files and tops.
const SIDES: [(&[u8], &[u8]); 5] = [
    (FRAME, b"a top t b top u "),
    (
        b"[gold]\nread_verilog a b\nread_verilog\tc\nprep -top t\n[gate]\nprep -top -top\nread_verilog b\n[strategy s]\nuse sat\n",
        b"a b c top t b top -top ",
    ),
    (
        b"[strategy s]\nuse sat\n[gate]\nread_verilog #b [gold]\nprep -top u\n[ gold ]\nprep -top t\nread_verilog a-\n",
        b"a- top t #b [gold] top u ",
    ),
    (
        b"# c\n\n \t\n [gold]\t\r\nread_verilog a\r\n  prep \t-top t  \r\n#x\n[gate]\nread_verilog b\nprep -top u\n[options]\n[strategy s]\nuse sat\n\n",
        b"a top t b top u ",
    ),
    (
        b"[options]\n# [gold]\n[gold]\nread_verilog a\nprep -top t\n[gate]\nread_verilog a\nprep -top t\n[strategy s]\nuse sat",
        b"a top t a top t ",
    ),
];

/// Lines behind the frame, and what they say with it.
const SECTIONS: [(&[u8], &[u8]); 31] = [
    (b"", b"(strategy s 5 20000 ) "),
    (b"depth 3\n", b"(strategy s 3 20000 ) "),
    (b"depth 3", b"(strategy s 3 20000 ) "),
    (b"depth 3\r\n", b"(strategy s 3 20000 ) "),
    (b"conflicts 7\n", b"(strategy s 5 7 ) "),
    (b"conflicts 1\ndepth 1\n", b"(strategy s 1 1 ) "),
    (b"depth 64\nconflicts 200000\n", b"(strategy s 64 200000 ) "),
    (
        b"apply *\napply a[0-9]?\n",
        b"(strategy s 5 20000 apply * apply a[0-9]? ) ",
    ),
    (
        b"[strategy -_aZ09]\ndepth 2\nuse sat\n",
        b"(strategy s 5 20000 ) (strategy -_aZ09 2 20000 ) ",
    ),
    (
        b"[strategy t]\nuse sat\napply b\n[strategy S]\nuse sat\n",
        b"(strategy s 5 20000 ) (strategy t 5 20000 apply b ) (strategy S 5 20000 ) ",
    ),
    (b"[match]\n", b"(match * ) (strategy s 5 20000 ) "),
    (b"[match *]\n", b"(match * ) (strategy s 5 20000 ) "),
    (b"[ match\t t* ]\n", b"(match t* ) (strategy s 5 20000 ) "),
    (b"[match [ab]]\n", b"(match [ab] ) (strategy s 5 20000 ) "),
    (
        b"[match]\ngold-match a* b%1\n",
        b"(match * GoldMatch a* b%1 same ) (strategy s 5 20000 ) ",
    ),
    (
        b"[match]\ngold-match a* ~b%1\n",
        b"(match * GoldMatch a* b%1 inverted ) (strategy s 5 20000 ) ",
    ),
    (
        b"[match]\ngate-match a* b%1\n",
        b"(match * GateMatch a* b%1 same ) (strategy s 5 20000 ) ",
    ),
    (
        b"[match]\ngate-match a* ~b%1\n",
        b"(match * GateMatch a* b%1 inverted ) (strategy s 5 20000 ) ",
    ),
    (
        b"[match]\ngold-match a* ~~%1\n",
        b"(match * GoldMatch a* ~%1 inverted ) (strategy s 5 20000 ) ",
    ),
    (
        b"[match]\ngold-match a* %~%1\n",
        b"(match * GoldMatch a* %~%1 same ) (strategy s 5 20000 ) ",
    ),
    (
        b"[match]\ngold-nomatch a\ngate-nomatch b\n",
        b"(match * GoldNo a GateNo b ) (strategy s 5 20000 ) ",
    ),
    (
        b"[match b]\ngate-nomatch b\n[match a]\ngold-nomatch a\n[match a]\n",
        b"(match b GateNo b ) (match a GoldNo a ) (match a ) (strategy s 5 20000 ) ",
    ),
    (b"[collect]\n", b"(collect * ) (strategy s 5 20000 ) "),
    (
        b"[collect t]\ngroup a\njoin b\nsolo c\n",
        b"(collect t Group a Join b Solo c ) (strategy s 5 20000 ) ",
    ),
    (b"[partition]\n", b"(partition * ) (strategy s 5 20000 ) "),
    (
        b"[partition t]\nmerge a\npath b c\nname d? n%1\n",
        b"(partition t Merge a Path b to c Rename d? n%1 ) (strategy s 5 20000 ) ",
    ),
    (
        b"[partition]\nname d ~d\n",
        b"(partition * Rename d ~d ) (strategy s 5 20000 ) ",
    ),
    (
        b"[partition]\nmerge a\n[match]\n[collect]\nsolo b\n[match b]\n[partition]\nmerge c\n",
        b"(match * ) (match b ) (collect * Solo b ) (partition * Merge a ) (partition * Merge c ) (strategy s 5 20000 ) ",
    ),
    (b"[options]\n", b"(strategy s 5 20000 ) "),
    (
        b"#\n  # x\n\ndepth 2\n#depth 3\n",
        b"(strategy s 2 20000 ) ",
    ),
    (b"apply #a\n", b"(strategy s 5 20000 apply #a ) "),
];

/// Whether a text has these files and tops.
fn has_sides(alloc: Global, text: &[u8], wanted: &[u8]) -> Result<bool, Fail> {
    let config = read(alloc, text)?;
    Ok(sides(alloc, &config)?.as_slice() == wanted)
}

/// The first text that has others.
fn first_other_sides(alloc: Global) -> Result<Option<usize>, Fail> {
    for (row, (text, wanted)) in SIDES.iter().enumerate() {
        if !has_sides(alloc, text, wanted)? {
            return Ok(Some(row));
        }
    }
    Ok(None)
}

#[test]
fn files_are_read_in_their_order(rt: HostRuntime) -> Result<(), Fail> {
    assert_eq!(rt; first_other_sides(rt.alloc())?, None);
    Ok(())
}

/// The configuration of these lines behind the frame.
pub(crate) fn behind_the_frame(alloc: Global, lines: &[u8]) -> Result<Config, Fail> {
    let text = joined(alloc, FRAME, lines)?;
    Ok(read(alloc, &text)?)
}

/// Whether lines behind the frame say this.
fn says(alloc: Global, lines: &[u8], wanted: &[u8]) -> Result<bool, Fail> {
    let config = behind_the_frame(alloc, lines)?;
    Ok(sections(alloc, &config)?.as_slice() == wanted)
}

/// The first lines that say another thing.
fn first_other_sections(alloc: Global) -> Result<Option<usize>, Fail> {
    for (row, (lines, wanted)) in SECTIONS.iter().enumerate() {
        if !says(alloc, lines, wanted)? {
            return Ok(Some(row));
        }
    }
    Ok(None)
}

#[test]
fn each_line_says_what_stands_in_it(rt: HostRuntime) -> Result<(), Fail> {
    assert_eq!(rt; first_other_sections(rt.alloc())?, None);
    Ok(())
}

/// Lines behind the frame, and what is printed of the whole behind `[gate]` and its two lines.
const PRINTED: [(&[u8], &[u8]); 6] = [
    (
        b"depth 3\n",
        b"[strategy s]\nuse sat\ndepth 3\nconflicts 20000\n",
    ),
    (b"", b"[strategy s]\nuse sat\ndepth 5\nconflicts 20000\n"),
    (
        b" conflicts \t200000\r\napply b\n\n[options]",
        b"[strategy s]\nuse sat\ndepth 5\nconflicts 200000\napply b\n",
    ),
    (
        b"apply a*\napply b\n[strategy t]\nconflicts 9\nuse sat",
        b"[strategy s]\nuse sat\ndepth 5\nconflicts 20000\napply a*\napply b\n[strategy t]\nuse sat\ndepth 5\nconflicts 9\n",
    ),
    (
        b"# no\n[match]\ngold-match a* ~b%1\ngate-match c d\ngold-nomatch e\ngate-nomatch f\n[match g]\ngate-match a* ~%1\n",
        b"[match *]\ngold-match a* ~b%1\ngate-match c d\ngold-nomatch e\ngate-nomatch f\n[match g]\ngate-match a* ~%1\n[strategy s]\nuse sat\ndepth 5\nconflicts 20000\n",
    ),
    (
        b"[partition]\nmerge a\npath  b  c\nname d? n%1\n[collect]\ngroup a\njoin b\nsolo c\n",
        b"[collect *]\ngroup a\njoin b\nsolo c\n[partition *]\nmerge a\npath b c\nname d? n%1\n[strategy s]\nuse sat\ndepth 5\nconflicts 20000\n",
    ),
];

/// What is printed of the frame's sides.
const PRINTED_SIDES: &[u8] =
    b"[gold]\nread_verilog a\nprep -top t\n[gate]\nread_verilog b\nprep -top u\n";

fn printed(alloc: Global, lines: &[u8]) -> Result<Bytes, Fail> {
    let config = behind_the_frame(alloc, lines)?;
    Ok(print_config(alloc, &config)?)
}

/// Whether this is printed of lines behind the frame.
fn is_printed(alloc: Global, lines: &[u8], wanted: &[u8]) -> Result<bool, Fail> {
    let whole = joined(alloc, PRINTED_SIDES, wanted)?;
    Ok(printed(alloc, lines)?.as_slice() == whole.as_slice())
}

/// The first lines of which another text is printed.
fn first_other_text(alloc: Global) -> Result<Option<usize>, Fail> {
    for (row, (lines, wanted)) in PRINTED.iter().enumerate() {
        if !is_printed(alloc, lines, wanted)? {
            return Ok(Some(row));
        }
    }
    Ok(None)
}

#[test]
fn a_configuration_is_printed_line_by_line(rt: HostRuntime) -> Result<(), Fail> {
    assert_eq!(rt; first_other_text(rt.alloc())?, None);
    Ok(())
}
