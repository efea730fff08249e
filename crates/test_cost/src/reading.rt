//! Texts read, and what their designs cost. The top is the module `t`.

use eq_analysis::{Table, all_tables, duplicate_module};
use eq_cost::{design_cost, too_large};
use eq_names::{Name, NameTable};
use eq_vlex::tokens;
use eq_vparse::{Module, Source, parse};
use std::alloc::{AllocError, Global};
use std::test::Fail;

/// What a design costs, and the same where it is too much.
#[derive(Clone, Copy, Debug, PartialEq, Eq)]
pub(crate) struct Told {
    pub cost: u64,
    pub excess: Option<u64>,
}

fn source_of(alloc: Global, text: &[u8]) -> Result<Source, Fail> {
    if 67_108_864 < text.len() {
        return Err(Fail::from("too long"));
    }
    let tokens = tokens(alloc, text)?;
    if 67_108_864 < tokens.len() {
        return Err(Fail::from("too many tokens"));
    }
    Ok(parse(alloc, &tokens)?)
}

fn modules_in(alloc: Global, source: &Source) -> Result<Vec<&Module>, AllocError> {
    let mut all = Vec::new(alloc);
    for module in source.modules.as_slice() {
        all.push(module)?;
    }
    Ok(all)
}

/// The cost of these modules. The top is `t`.
fn cost_of(alloc: Global, modules: &[&Module]) -> Result<Told, Fail> {
    let mut names = NameTable::new(alloc)?;
    if duplicate_module(alloc, &mut names, modules)?.is_some() {
        return Err(Fail::from("two modules of one name"));
    }
    let tables: Vec<Table> = all_tables(alloc, modules)?;
    let top = Name::read(alloc, b"t")?;
    Ok(Told {
        cost: design_cost(alloc, &names, &tables, &top)?,
        excess: too_large(alloc, &names, &tables, &top)?,
    })
}

/// What the design of a text costs.
pub(crate) fn told_of(alloc: Global, text: &[u8]) -> Result<Told, Fail> {
    let source = source_of(alloc, text)?;
    let modules = modules_in(alloc, &source)?;
    cost_of(alloc, &modules)
}
