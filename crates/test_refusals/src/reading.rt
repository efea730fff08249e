//! Texts read, and the first refusal of their modules. The top is the module `t`.

use eq_analysis::{all_modules, check_modules};
use eq_names::Name;
use eq_verilog::ElabKind;
use eq_vlex::tokens;
use eq_vparse::{Source, parse};
use std::alloc::Global;
use std::test::Fail;

/// A text, and the name that its refusal tells.
pub(crate) type Row = (&'static str, &'static str);

fn source_of(alloc: Global, text: &[u8]) -> Result<Source, Fail> {
    if 67_108_864 < text.len() {
        return Err(Fail::from("too long"));
    }
    let tokens = tokens(alloc, text)?;
    if 67_108_864 < tokens.len() {
        return Err(Fail::from("too many tokens"));
    }
    Ok(parse(alloc, &tokens)?)
}

fn sources_of(alloc: Global, texts: &[&str]) -> Result<Vec<Source>, Fail> {
    let mut sources = Vec::new(alloc);
    for text in texts {
        let source = source_of(alloc, text.as_bytes())?;
        sources.push(source)?;
    }
    Ok(sources)
}

/// Whether the modules of texts are refused for this, with this name.
pub(crate) fn is_refused(
    alloc: Global,
    texts: &[&str],
    kind: ElabKind,
    name: &str,
) -> Result<bool, Fail> {
    let sources = sources_of(alloc, texts)?;
    let modules = all_modules(alloc, &sources)?;
    let top = Name::read(alloc, b"t")?;
    match check_modules(alloc, &modules, &top)? {
        Ok(_) => Ok(false),
        Err(fault) => Ok(fault.kind == kind && fault.name.bytes() == name.as_bytes()),
    }
}

/// Whether the modules of texts aren't refused.
pub(crate) fn is_accepted(alloc: Global, texts: &[&str]) -> Result<bool, Fail> {
    let sources = sources_of(alloc, texts)?;
    let modules = all_modules(alloc, &sources)?;
    let top = Name::read(alloc, b"t")?;
    Ok(check_modules(alloc, &modules, &top)?.is_ok())
}

/// The first row that isn't refused for this, with its name.
pub(crate) fn first_wrong(
    alloc: Global,
    kind: ElabKind,
    rows: &[Row],
) -> Result<Option<usize>, Fail> {
    for (place, row) in rows.iter().enumerate() {
        if !is_refused(alloc, &[row.0], kind, row.1)? {
            return Ok(Some(place));
        }
    }
    Ok(None)
}
