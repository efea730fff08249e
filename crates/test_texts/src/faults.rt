//! The first faults of texts that have no tokens, and texts of one byte.

use crate::tokens::tokens_of;
use eq_vlex::{LexErr, LexKind};
use std::alloc::Global;
use std::test::Fail;

/// A text, and the place and the kind of its first fault.
type Fault = (&'static [u8], u32, LexKind);

static FAULTS_OF_NUMBERS: [Fault; 31] = [
    (b"2147483648", 0, LexKind::BadNumber),
    (b"1a", 0, LexKind::BadNumber),
    (b"1_a", 0, LexKind::BadNumber),
    (b"4'o20", 0, LexKind::BadNumber),
    (b"3'd8", 0, LexKind::BadNumber),
    (b"4'b12", 0, LexKind::BadNumber),
    (b"0'h0", 0, LexKind::BadNumber),
    (b"'h1", 0, LexKind::BadNumber),
    (b"4'", 0, LexKind::BadNumber),
    (b"4'h", 0, LexKind::BadNumber),
    (b"4'h_", 0, LexKind::BadNumber),
    (b"4'q", 0, LexKind::BadNumber),
    (b"4'xb", 0, LexKind::BadNumber),
    (b"4'sb1", 0, LexKind::BadNumber),
    (b"4's?", 0, LexKind::BadNumber),
    (b"4'ssbx", 0, LexKind::BadNumber),
    (b"8 'h1", 2, LexKind::BadNumber),
    (b"1'b1'b1", 4, LexKind::BadNumber),
    (
        b"128'd340282366920938463463374607431768211456",
        0,
        LexKind::BadNumber,
    ),
    (b"4'bx", 0, LexKind::XValue),
    (b"4'b1?", 0, LexKind::XValue),
    (b"4'hZ", 0, LexKind::XValue),
    (b"4'SbX", 0, LexKind::XValue),
    (b"'bx", 0, LexKind::XValue),
    (b"0'bx", 0, LexKind::XValue),
    (b"129'hx", 0, LexKind::XValue),
    (b"4'bqx", 0, LexKind::XValue),
    (b"129'h0", 0, LexKind::TooWide),
    (b"129'q", 0, LexKind::TooWide),
    (b"129's?", 0, LexKind::TooWide),
    (
        b"99999999999999999999999999999999999999999'h0",
        0,
        LexKind::TooWide,
    ),
];

static FAULTS_ELSEWHERE: [Fault; 24] = [
    (b"\x00", 0, LexKind::BadByte),
    (b"a\xFF", 1, LexKind::BadByte),
    (b"\x0B", 0, LexKind::BadByte),
    (b"$a", 0, LexKind::BadByte),
    (b"1$", 1, LexKind::BadByte),
    (b"a / b", 2, LexKind::BadByte),
    (b"( *)", 2, LexKind::BadByte),
    (b"\"a\"", 0, LexKind::BadByte),
    (b"\\", 0, LexKind::BadByte),
    (b"\\ a", 0, LexKind::BadByte),
    (b"a \\", 2, LexKind::BadByte),
    (b"\\a\x80", 0, LexKind::BadByte),
    (b"\\a\x01", 0, LexKind::BadByte),
    (b"\\a\x7F b", 0, LexKind::BadByte),
    (b"/*/", 0, LexKind::OpenComment),
    (b"a /* 1a", 2, LexKind::OpenComment),
    (b"/* *", 0, LexKind::OpenComment),
    (b"(*)", 0, LexKind::OpenAttribute),
    (b"a (* \" *)", 2, LexKind::OpenAttribute),
    (b"(* \"\\\" *)", 0, LexKind::OpenAttribute),
    (b"(*", 0, LexKind::OpenAttribute),
    (b"$ 1a", 0, LexKind::BadByte),
    (b"1a $", 0, LexKind::BadNumber),
    (b"\n\n 129'h0", 3, LexKind::TooWide),
];

fn has_fault(alloc: Global, text: &[u8], at: u32, kind: LexKind) -> bool {
    tokens_of(alloc, text).err() == Some(LexErr::At { at, kind })
}

/// The first text that has another fault.
fn first_other(alloc: Global, rows: &[Fault]) -> Option<usize> {
    rows.iter()
        .position(|(text, at, kind)| !has_fault(alloc, text, *at, *kind))
}

#[test]
fn numbers_have_their_first_faults(rt: HostRuntime) {
    assert_eq!(rt; first_other(rt.alloc(), &FAULTS_OF_NUMBERS), None);
}

#[test]
fn texts_have_their_first_faults(rt: HostRuntime) {
    assert_eq!(rt; first_other(rt.alloc(), &FAULTS_ELSEWHERE), None);
}

/// Whether a text of one byte has one token, none, or the fault that is wanted.
fn one_byte_is_read(alloc: Global, byte: u8) -> Result<bool, Fail> {
    let one_token = b"()[]{};,.:@=?~!&|^+-<>_";
    let white = b" \t\r\n\x0C";
    let text = [byte];
    if byte == b'\'' {
        return Ok(has_fault(alloc, &text, 0, LexKind::BadNumber));
    }
    let count = if byte.is_ascii_alphanumeric() || one_token.contains(&byte) {
        1
    } else if white.contains(&byte) {
        0
    } else {
        return Ok(has_fault(alloc, &text, 0, LexKind::BadByte));
    };
    Ok(tokens_of(alloc, &text)?.len() == count)
}

#[test]
fn each_byte_alone_is_read(rt: HostRuntime) -> Result<(), Fail> {
    for byte in 0..=255_u8 {
        assert!(rt; one_byte_is_read(rt.alloc(), byte)?, "byte {byte}");
    }
    Ok(())
}
