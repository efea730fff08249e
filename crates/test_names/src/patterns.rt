//! Patterns: which names they match, where their wilds stand, and which texts are none.

use eq_names::{Captures, PatErr, Pattern, are_name_bytes};
use std::alloc::Global;
use std::test::Fail;

/// A pattern, a name, and where the wilds stand in it where it matches.
type Row = (&'static [u8], &'static [u8], Option<&'static [(u64, u64)]>);

fn same_spans(spans: &Captures, wanted: &[(u64, u64)]) -> bool {
    if spans.len() != wanted.len() {
        return false;
    }
    for (span, (start, end)) in spans.as_slice().iter().zip(wanted) {
        if span.start != *start || span.end != *end {
            return false;
        }
    }
    true
}

/// Reads a pattern of fewer than 4,096 bytes.
fn read(alloc: Global, text: &[u8]) -> Result<Pattern, PatErr> {
    if !are_name_bytes(text) || 4096 < text.len() {
        return Err(PatErr::Memory);
    }
    Pattern::read(alloc, text)
}

fn is_captured(alloc: Global, pattern: &Pattern, row: Row) -> Result<bool, Fail> {
    let (_text, name, wanted) = row;
    match (pattern.captures(alloc, name)?, wanted) {
        (Some(spans), Some(wanted)) => Ok(same_spans(&spans, wanted)),
        (None, None) => Ok(true),
        (Some(_spans), None) => Ok(false),
        (None, Some(_wanted)) => Ok(false),
    }
}

fn holds(alloc: Global, row: Row) -> Result<bool, Fail> {
    let pattern = read(alloc, row.0)?;
    Ok(pattern.matches(row.1) == row.2.is_some() && is_captured(alloc, &pattern, row)?)
}

/// The first row that isn't so.
fn first_wrong(alloc: Global, rows: &[Row]) -> Result<Option<usize>, Fail> {
    for (i, row) in rows.iter().enumerate() {
        if !holds(alloc, *row)? {
            return Ok(Some(i));
        }
    }
    Ok(None)
}

const STARS: [Row; 16] = [
    (b"a*b*", b"aXbYb", Some(&[(1, 2), (3, 5)])),
    (b"a*b*", b"aX", None),
    (b"*", b"", Some(&[(0, 0)])),
    (b"*", b"abc", Some(&[(0, 3)])),
    (b"**", b"ab", Some(&[(0, 0), (0, 2)])),
    (b"a*a", b"aa", Some(&[(1, 1)])),
    (b"a*a", b"a", None),
    (b"*?", b"abc", Some(&[(0, 2), (2, 3)])),
    (b"?*", b"abc", Some(&[(0, 1), (1, 3)])),
    (b"?*", b"", None),
    (b"*?*", b"ab", Some(&[(0, 0), (0, 1), (1, 2)])),
    (b"*a*", b"banana", Some(&[(0, 1), (2, 6)])),
    (b"*ab*ab", b"xabyab", Some(&[(0, 1), (3, 4)])),
    (b"*ab*ab", b"ababab", Some(&[(0, 0), (2, 4)])),
    (b"*ab*ab", b"xab", None),
    (b"a*bc*c", b"abbcbcc", Some(&[(1, 2), (4, 6)])),
];

#[test]
fn stars_take_the_shortest_run_that_leaves_a_match(rt: HostRuntime) -> Result<(), Fail> {
    assert_eq!(rt; first_wrong(rt.alloc(), &STARS)?, None);
    Ok(())
}

const ONE_SPAN: Option<&'static [(u64, u64)]> = Some(&[(0, 1)]);

const SETS: [Row; 28] = [
    (b"[!a-c]?", b"b1", None),
    (b"[!a-c]?", b"d1", Some(&[(0, 1), (1, 2)])),
    (b"[a-c]", b"a", ONE_SPAN),
    (b"[a-c]", b"c", ONE_SPAN),
    (b"[a-c]", b"d", None),
    (b"[c-c]", b"c", ONE_SPAN),
    (b"[]]", b"]", ONE_SPAN),
    (b"[]-a]", b"`", ONE_SPAN),
    (b"[]-a]", b"-", None),
    (b"[]-a]", b"b", None),
    (b"[]-]", b"-", ONE_SPAN),
    (b"[a-]", b"-", ONE_SPAN),
    (b"[a-]", b"b", None),
    (b"[-a]", b"-", ONE_SPAN),
    (b"[+--]", b",", ONE_SPAN),
    (b"[+--]", b".", None),
    (b"[a-b-c]", b"-", ONE_SPAN),
    (b"[a-b-d]", b"c", None),
    (b"[!]]", b"a", ONE_SPAN),
    (b"[!]]", b"]", None),
    (b"[!-a]", b"-", None),
    (b"[a!]", b"!", ONE_SPAN),
    (b"[!!]", b"!", None),
    (b"[[]", b"[", ONE_SPAN),
    (b"[*?]", b"*", ONE_SPAN),
    (b"[*?]", b"a", None),
    (b"[ab]", b"ab", None),
    (b"[ab]", b"", None),
];

#[test]
fn sets_are_as_in_the_brackets_of_posix(rt: HostRuntime) -> Result<(), Fail> {
    assert_eq!(rt; first_wrong(rt.alloc(), &SETS)?, None);
    Ok(())
}

const NO_SPAN: Option<&'static [(u64, u64)]> = Some(&[]);

const BYTES: [Row; 10] = [
    (b"!", b"!", NO_SPAN),
    (b"!a", b"!a", NO_SPAN),
    (b"a]", b"a]", NO_SPAN),
    (b"a-b", b"a-b", NO_SPAN),
    (b"a-c", b"b", None),
    (b"mem[10]", b"mem[10]", None),
    (b"mem[10]", b"mem1", Some(&[(3, 4)])),
    (b"mem[[]10]", b"mem[10]", Some(&[(3, 4)])),
    (b"mem?10?", b"mem[10]", Some(&[(3, 4), (6, 7)])),
    (
        b"?*[0-9]????????*",
        b"a1bcdefghi",
        Some(&[
            (0, 1),
            (1, 1),
            (1, 2),
            (2, 3),
            (3, 4),
            (4, 5),
            (5, 6),
            (6, 7),
            (7, 8),
            (8, 9),
            (9, 10),
            (10, 10),
        ]),
    ),
];

#[test]
fn each_other_byte_stands_for_itself(rt: HostRuntime) -> Result<(), Fail> {
    assert_eq!(rt; first_wrong(rt.alloc(), &BYTES)?, None);
    Ok(())
}

const FAULTS: [(&'static [u8], PatErr); 15] = [
    (b"", PatErr::Empty),
    (b"[]", PatErr::OpenBracket),
    (b"[", PatErr::OpenBracket),
    (b"[!", PatErr::OpenBracket),
    (b"[!]", PatErr::OpenBracket),
    (b"[a", PatErr::OpenBracket),
    (b"[a]b[", PatErr::OpenBracket),
    (b"[][", PatErr::OpenBracket),
    (b"[z-a]", PatErr::EmptyRange),
    (b"[!z-a]", PatErr::EmptyRange),
    (b"[a--]", PatErr::EmptyRange),
    (b"[z-a", PatErr::OpenBracket),
    (b"[z-a][", PatErr::EmptyRange),
    (b"[][z-a]", PatErr::EmptyRange),
    (b"*?[a-c-a-Z]", PatErr::EmptyRange),
];

/// The first text that hasn't its fault.
fn first_other_fault(alloc: Global) -> Option<usize> {
    for (i, (text, fault)) in FAULTS.iter().enumerate() {
        if read(alloc, text).err() != Some(*fault) {
            return Some(i);
        }
    }
    None
}

#[test]
fn what_is_no_pattern_has_its_first_fault(rt: HostRuntime) -> Result<(), Fail> {
    assert_eq!(rt; first_other_fault(rt.alloc()), None);
    Ok(())
}

/// A name of 1,024 times `a`, and these bytes.
fn long_name(alloc: Global, end: &[u8]) -> Result<Vec<u8>, Fail> {
    let mut name = vec![in alloc; b'a'; 1024]?;
    name.extend_from_slice(end)?;
    Ok(name)
}

fn holds_of_a_long_name(
    alloc: Global,
    end: &[u8],
    spans: Option<&[(u64, u64)]>,
) -> Result<bool, Fail> {
    let pattern = read(alloc, b"*a*a*a*a*b")?;
    let name = long_name(alloc, end)?;
    match (pattern.captures(alloc, &name)?, spans) {
        (Some(found), Some(wanted)) => Ok(pattern.matches(&name) && same_spans(&found, wanted)),
        (None, None) => Ok(!pattern.matches(&name)),
        (Some(_found), None) => Ok(false),
        (None, Some(_wanted)) => Ok(false),
    }
}

#[test]
fn no_pattern_makes_the_walk_go_back_without_end(rt: HostRuntime) -> Result<(), Fail> {
    let spans: [(u64, u64); 5] = [(0, 0), (1, 1), (2, 2), (3, 3), (4, 1024)];
    assert!(rt; holds_of_a_long_name(rt.alloc(), b"", None)?);
    assert!(rt; holds_of_a_long_name(rt.alloc(), b"b", Some(&spans))?);
    Ok(())
}

/// Whether the text is no pattern, or is printed as it was read.
fn is_printed_back(alloc: Global, text: &[u8]) -> Result<bool, Fail> {
    match read(alloc, text) {
        Ok(pattern) => Ok(pattern.print(alloc)?.bytes() == text),
        Err(fault) => Ok(fault != PatErr::Memory),
    }
}

const IN_BRACKETS: [u8; 7] = [b'a', b'*', b'?', b'[', b']', b'!', b'-'];

/// Whether all of `[`, this, any three of the bytes and `]` are printed back.
fn are_printed_back(alloc: Global, first: u8) -> Result<bool, Fail> {
    for second in IN_BRACKETS {
        for third in IN_BRACKETS {
            for last in IN_BRACKETS {
                if !is_printed_back(alloc, &[b'[', first, second, third, last, b']'])? {
                    return Ok(false);
                }
            }
        }
    }
    Ok(true)
}

#[test]
fn a_pattern_is_printed_as_it_was_read(rt: HostRuntime) -> Result<(), Fail> {
    for first in IN_BRACKETS {
        assert!(rt; are_printed_back(rt.alloc(), first)?, "{first}");
    }
    Ok(())
}
