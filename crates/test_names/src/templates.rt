//! Templates: what they are filled to, and which texts are none.

ghost use Rattle.std.specs.Prelude.{◌≡◌, IfOk};
ghost use Rattle.eq_names.specs.Templates.{IsTemplate};

use eq_names::{Name, PatErr, Pattern, Template, TplErr, are_name_bytes};
use std::alloc::Global;
use std::test::Fail;

/// A pattern, a name, a template, and the text that it is filled to.
type Row = (
    &'static [u8],
    &'static [u8],
    &'static [u8],
    Option<&'static [u8]>,
);

const FILLED: [Row; 12] = [
    (b"a*b*", b"aXbYb", b"%1_%2", Some(b"X_Yb")),
    (b"a*b*", b"aXbYb", b"%2.%2%1", Some(b"Yb.YbX")),
    (b"a*", b"aX", b"%%%1", Some(b"%X")),
    (b"a*", b"aX", b"%~%1", Some(b"~X")),
    (b"a*", b"aX", b"~%1", Some(b"~X")),
    (b"a*", b"aX", b"%%1", Some(b"%1")),
    (b"a", b"a", b"n", Some(b"n")),
    (b"a*", b"a", b"%1", None),
    (b"a*", b"a", b"%1%1", None),
    (b"a*", b"a", b"%1b", Some(b"b")),
    (b"[0-9]?*", b"7xyz", b"%3%2%1", Some(b"yzx7")),
    (b"?????????", b"abcdefghi", b"%9%8", Some(b"ih")),
];

const FAULTS: [(&'static [u8], u32, TplErr); 10] = [
    (b"", 2, TplErr::Empty),
    (b"%", 2, TplErr::BadPercent),
    (b"a%", 2, TplErr::BadPercent),
    (b"%0", 2, TplErr::BadPercent),
    (b"%a", 2, TplErr::BadPercent),
    (b"%3", 2, TplErr::NoCapture { number: 3 }),
    (b"%1", 0, TplErr::NoCapture { number: 1 }),
    (b"%3%", 2, TplErr::NoCapture { number: 3 }),
    (b"%x%3", 2, TplErr::BadPercent),
    (b"%%%~%9", 8, TplErr::NoCapture { number: 9 }),
];

/// Reads a pattern of fewer than 4,096 bytes.
fn pattern(alloc: Global, text: &[u8]) -> Result<Pattern, PatErr> {
    if !are_name_bytes(text) || 4096 < text.len() {
        return Err(PatErr::Memory);
    }
    Pattern::read(alloc, text)
}

fn template(alloc: Global, text: &[u8], wilds: u32) -> Result<Template, TplErr>
    ensures { IfOk result (λ template. IsTemplate template wilds) }
{
    if !are_name_bytes(text) {
        return Err(TplErr::Memory);
    }
    Template::read(alloc, text, wilds)
}

fn is_text(filled: Option<Name>, wanted: Option<&[u8]>) -> bool {
    match (filled, wanted) {
        (Some(name), Some(wanted)) => name.bytes() == wanted,
        (None, None) => true,
        (Some(_name), None) => false,
        (None, Some(_wanted)) => false,
    }
}

/// The template filled with what the wilds of the pattern capture in the name.
fn filled(alloc: Global, row: Row) -> Result<Option<Name>, Fail> {
    let pattern = pattern(alloc, row.0)?;
    let template = template(alloc, row.2, pattern.wilds())?;
    if !are_name_bytes(row.1) {
        return Ok(None);
    }
    match pattern.captures(alloc, row.1)? {
        Some(spans) => Ok(template.fill(alloc, row.1, &spans)?),
        None => Ok(None),
    }
}

/// The first row that isn't so.
fn first_wrong(alloc: Global) -> Result<Option<usize>, Fail> {
    for (i, row) in FILLED.iter().enumerate() {
        if !is_text(filled(alloc, *row)?, row.3) {
            return Ok(Some(i));
        }
    }
    Ok(None)
}

#[test]
fn a_number_stands_for_what_its_wild_captured(rt: HostRuntime) -> Result<(), Fail> {
    assert_eq!(rt; first_wrong(rt.alloc())?, None);
    Ok(())
}

/// The first text that hasn't its fault.
fn first_other_fault(alloc: Global) -> Option<usize> {
    for (i, (text, wilds, fault)) in FAULTS.iter().enumerate() {
        if template(alloc, text, *wilds).err() != Some(*fault) {
            return Some(i);
        }
    }
    None
}

#[test]
fn what_is_no_template_has_its_first_fault(rt: HostRuntime) -> Result<(), Fail> {
    assert_eq!(rt; first_other_fault(rt.alloc()), None);
    Ok(())
}

/// Whether the template is printed as it was read.
fn is_printed_back(alloc: Global, text: &[u8]) -> Result<bool, Fail> {
    let template = template(alloc, text, 9)?;
    Ok(template.print(alloc)?.bytes() == text)
}

#[test]
fn a_template_is_printed_as_it_was_read(rt: HostRuntime) -> Result<(), Fail> {
    assert!(rt; is_printed_back(rt.alloc(), b"a%1%%%~~b%9]")?);
    Ok(())
}
