//! Texts read into their trees, which are written as texts.

use crate::tokens::tokens_of;
use crate::tree_text::source_text;
use eq_vparse::{ParseErr, Source, parse};
use std::alloc::{AllocError, Global};
use std::test::Fail;

/// A text or a part of one, and its tree or its refusal.
pub(crate) type Row = (&'static str, &'static str);

/// One text behind another.
pub(crate) fn joined(alloc: Global, parts: &[&str]) -> Result<String, AllocError> {
    let mut text = String::new(alloc);
    for part in parts {
        text.push_str(part)?;
    }
    Ok(text)
}

/// A text between two others.
pub(crate) fn between(
    alloc: Global,
    before: &str,
    text: &str,
    behind: &str,
) -> Result<String, AllocError> {
    let mut whole = String::new(alloc);
    whole.push_str(before)?;
    whole.push_str(text)?;
    whole.push_str(behind)?;
    Ok(whole)
}

/// One text so many times.
pub(crate) fn times(alloc: Global, part: &str, count: usize) -> Result<String, AllocError> {
    let mut text = String::new(alloc);
    for _ in 0..count {
        text.push_str(part)?;
    }
    Ok(text)
}

/// The tree of a text of fitting length.
pub(crate) fn tree_of(alloc: Global, text: &[u8]) -> Result<Result<Source, ParseErr>, Fail> {
    let tokens = tokens_of(alloc, text)?;
    if 67_108_864 < tokens.len() {
        return Err(Fail::from("too many tokens"));
    }
    Ok(parse(alloc, &tokens))
}

/// The tree of a text, or its refusal with the number of the token.
pub(crate) fn reading(alloc: Global, text: &str) -> Result<String, Fail> {
    match tree_of(alloc, text.as_bytes())? {
        Ok(source) => Ok(source_text(alloc, &source)?),
        Err(ParseErr::Syntax { token }) => Ok(format!(in alloc; "syntax {token}")?),
        Err(ParseErr::TooDeep { token }) => Ok(format!(in alloc; "too deep {token}")?),
        Err(ParseErr::Memory) => Err(Fail::from("memory")),
    }
}

/// Whether a text is read as wanted.
fn is_read(alloc: Global, text: &str, wanted: &str) -> Result<bool, Fail> {
    Ok(reading(alloc, text)?.as_str() == wanted)
}

/// Whether a text between two others is read as a tree between two others.
fn is_read_between(
    alloc: Global,
    row: &Row,
    text: &[&'static str; 2],
    tree: &[&'static str; 2],
) -> Result<bool, Fail> {
    let whole = between(alloc, text[0], row.0, text[1])?;
    let wanted = between(alloc, tree[0], row.1, tree[1])?;
    is_read(alloc, &whole, &wanted)
}

/// The first text that isn't read as wanted. Each text and each wanted tree stands between two others.
pub(crate) fn first_wrong(
    alloc: Global,
    rows: &[Row],
    text: &[&'static str; 2],
    tree: &[&'static str; 2],
) -> Result<Option<usize>, Fail> {
    for (place, row) in rows.iter().enumerate() {
        if !is_read_between(alloc, row, text, tree)? {
            return Ok(Some(place));
        }
    }
    Ok(None)
}
