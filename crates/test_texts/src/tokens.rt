//! The tokens of texts, and the lines of places.

use eq_vlex::{Constant, Key, LexErr, Mark, TokenKind, Tokens, line_of, tokens};
use std::alloc::Global;
use std::test::Fail;

/// What a token should be.
pub(crate) enum Wanted {
    Word(&'static [u8]),
    Key(Key),
    Decimal(u32),
    Sized(u32, u128),
    Mark(Mark),
}

/// A text, and its tokens, each with its span.
pub(crate) type Row = (&'static [u8], &'static [(Wanted, u32, u32)]);

static SEPARATORS: [Row; 23] = [
    (b"", &[]),
    (b" \t\r\n\x0C", &[]),
    (
        b"n\x0Co",
        &[(Wanted::Word(b"n"), 0, 1), (Wanted::Word(b"o"), 2, 3)],
    ),
    (b"//", &[]),
    (b"f//", &[(Wanted::Word(b"f"), 0, 1)]),
    (b"//\r\ng", &[(Wanted::Word(b"g"), 4, 5)]),
    (b"// (*\nb", &[(Wanted::Word(b"b"), 6, 7)]),
    (b"/* (* */a", &[(Wanted::Word(b"a"), 8, 9)]),
    (b"/**/e", &[(Wanted::Word(b"e"), 4, 5)]),
    (b"/*/*/d", &[(Wanted::Word(b"d"), 5, 6)]),
    (b"/***/l", &[(Wanted::Word(b"l"), 5, 6)]),
    (b"(* \"*)\" *)x", &[(Wanted::Word(b"x"), 10, 11)]),
    (b"(* a *)(* b *)c", &[(Wanted::Word(b"c"), 14, 15)]),
    (b"(* \"\\\"*)\" *)h", &[(Wanted::Word(b"h"), 12, 13)]),
    (b"(* \"\\\\\" *)i", &[(Wanted::Word(b"i"), 10, 11)]),
    (b"(* \\\"*)\" *)m", &[(Wanted::Word(b"m"), 11, 12)]),
    (b"(**)k", &[(Wanted::Word(b"k"), 4, 5)]),
    (b"(***)j", &[(Wanted::Word(b"j"), 5, 6)]),
    (b"(*\n// *)v", &[(Wanted::Word(b"v"), 8, 9)]),
    (b"/*\x00\xFF*/p", &[(Wanted::Word(b"p"), 6, 7)]),
    (b"//\x00\xFF\nq", &[(Wanted::Word(b"q"), 5, 6)]),
    (b"(*\x00\xFF*)r", &[(Wanted::Word(b"r"), 6, 7)]),
    (b"(*\"\x00\xFF*)\"*)s", &[(Wanted::Word(b"s"), 10, 11)]),
];

static NAMES: [Row; 12] = [
    (
        b"\\a+b ;",
        &[
            (Wanted::Word(b"a+b"), 0, 4),
            (Wanted::Mark(Mark::Semicolon), 5, 6),
        ],
    ),
    (b"\\module ", &[(Wanted::Word(b"module"), 0, 7)]),
    (b"\\a", &[(Wanted::Word(b"a"), 0, 2)]),
    (
        b"\\a\x0Cb",
        &[(Wanted::Word(b"a"), 0, 2), (Wanted::Word(b"b"), 3, 4)],
    ),
    (b"\\/*c", &[(Wanted::Word(b"/*c"), 0, 4)]),
    (b"\\\\ ", &[(Wanted::Word(b"\\"), 0, 2)]),
    (b"a$1_B", &[(Wanted::Word(b"a$1_B"), 0, 5)]),
    (b"_0", &[(Wanted::Word(b"_0"), 0, 2)]),
    (b"modules", &[(Wanted::Word(b"modules"), 0, 7)]),
    (b"Module", &[(Wanted::Word(b"Module"), 0, 6)]),
    (b"end_", &[(Wanted::Word(b"end_"), 0, 4)]),
    (
        b"a.b",
        &[
            (Wanted::Word(b"a"), 0, 1),
            (Wanted::Mark(Mark::Dot), 1, 2),
            (Wanted::Word(b"b"), 2, 3),
        ],
    ),
];

static NUMBERS: [Row; 18] = [
    (b"0", &[(Wanted::Decimal(0), 0, 1)]),
    (b"007", &[(Wanted::Decimal(7), 0, 3)]),
    (b"1_0", &[(Wanted::Decimal(10), 0, 3)]),
    (b"1_", &[(Wanted::Decimal(1), 0, 2)]),
    (b"2147483647", &[(Wanted::Decimal(2147483647), 0, 10)]),
    (
        b"1?",
        &[
            (Wanted::Decimal(1), 0, 1),
            (Wanted::Mark(Mark::Question), 1, 2),
        ],
    ),
    (b"4'b10_1", &[(Wanted::Sized(4, 5), 0, 7)]),
    (b"4'B1", &[(Wanted::Sized(4, 1), 0, 4)]),
    (b"4'o17", &[(Wanted::Sized(4, 15), 0, 5)]),
    (b"3'd7", &[(Wanted::Sized(3, 7), 0, 4)]),
    (b"8'd255", &[(Wanted::Sized(8, 255), 0, 6)]),
    (b"12'hfFf", &[(Wanted::Sized(12, 0xFFF), 0, 7)]),
    (b"4'h_1", &[(Wanted::Sized(4, 1), 0, 5)]),
    (b"1_2'h0_0", &[(Wanted::Sized(12, 0), 0, 8)]),
    (
        b"128'hffffffffffffffffffffffffffffffff",
        &[(
            Wanted::Sized(128, 0xFFFF_FFFF_FFFF_FFFF_FFFF_FFFF_FFFF_FFFF),
            0,
            37,
        )],
    ),
    (
        b"128'D340282366920938463463374607431768211455",
        &[(
            Wanted::Sized(128, 0xFFFF_FFFF_FFFF_FFFF_FFFF_FFFF_FFFF_FFFF),
            0,
            44,
        )],
    ),
    (
        b"8'HFF;",
        &[
            (Wanted::Sized(8, 255), 0, 5),
            (Wanted::Mark(Mark::Semicolon), 5, 6),
        ],
    ),
    (
        b"1'b1 ?",
        &[
            (Wanted::Sized(1, 1), 0, 4),
            (Wanted::Mark(Mark::Question), 5, 6),
        ],
    ),
];

/// A text, a place, and the line of the place.
static LINES: [(&[u8], u32, u32); 10] = [
    (b"", 0, 1),
    (b"", 9, 1),
    (b"a\nb\n\nc", 0, 1),
    (b"a\nb\n\nc", 1, 1),
    (b"a\nb\n\nc", 2, 2),
    (b"a\nb\n\nc", 3, 2),
    (b"a\nb\n\nc", 4, 3),
    (b"a\nb\n\nc", 5, 4),
    (b"a\nb\n\nc", 6, 4),
    (b"a\rb", 3, 1),
];

/// The tokens of a text of fitting length.
pub(crate) fn tokens_of(alloc: Global, text: &[u8]) -> Result<Tokens, LexErr> {
    if 67_108_864 < text.len() {
        return Err(LexErr::Memory);
    }
    tokens(alloc, text)
}

fn is_wanted(kind: &TokenKind, wanted: &Wanted) -> bool {
    match (kind, wanted) {
        (TokenKind::Word(name), Wanted::Word(bytes)) => name.bytes() == *bytes,
        (TokenKind::Key(key), Wanted::Key(other)) => *key == *other,
        (TokenKind::Decimal(value), Wanted::Decimal(other)) => *value == *other,
        (TokenKind::Sized(Constant { size, value }), Wanted::Sized(bits, number)) => {
            *size == *bits && *value == *number
        }
        (TokenKind::Mark(mark), Wanted::Mark(other)) => *mark == *other,
        _ => false,
    }
}

/// Whether a text has these tokens.
fn has_tokens(alloc: Global, text: &[u8], wanted: &[(Wanted, u32, u32)]) -> Result<bool, Fail> {
    let tokens = tokens_of(alloc, text)?;
    let same = tokens.as_slice().iter().zip(wanted).all(|(token, (kind, start, end))| {
        token.start == *start && token.end == *end && is_wanted(&token.kind, kind)
    });
    Ok(same && tokens.len() == wanted.len())
}

/// The first text that has other tokens.
pub(crate) fn first_other(alloc: Global, rows: &[Row]) -> Result<Option<usize>, Fail> {
    for (place, (text, wanted)) in rows.iter().enumerate() {
        if !has_tokens(alloc, text, wanted)? {
            return Ok(Some(place));
        }
    }
    Ok(None)
}

#[test]
fn separators_are_skipped(rt: HostRuntime) -> Result<(), Fail> {
    assert_eq!(rt; first_other(rt.alloc(), &SEPARATORS)?, None);
    Ok(())
}

#[test]
fn names_are_read(rt: HostRuntime) -> Result<(), Fail> {
    assert_eq!(rt; first_other(rt.alloc(), &NAMES)?, None);
    Ok(())
}

#[test]
fn numbers_are_read(rt: HostRuntime) -> Result<(), Fail> {
    assert_eq!(rt; first_other(rt.alloc(), &NUMBERS)?, None);
    Ok(())
}

#[test]
fn a_name_may_have_four_million_bytes(rt: HostRuntime) -> Result<(), Fail> {
    let text = vec![in rt.alloc(); b'a'; 4_000_000]?;
    let tokens = tokens_of(rt.alloc(), &text)?;
    assert_eq!(rt; tokens.len(), 1);
    assert_eq!(rt; tokens.get(0).map(|token| token.end), Some(4_000_000));
    Ok(())
}

/// The line of a place in a text of fitting length.
fn line_in(text: &[u8], at: u32) -> Option<u32> {
    if 67_108_864 < text.len() {
        return None;
    }
    Some(line_of(text, at))
}

#[test]
fn places_have_their_lines(rt: HostRuntime) {
    for (text, at, line) in LINES {
        assert_eq!(rt; line_in(text, at), Some(line), "in {text:?} at {at}");
    }
}
