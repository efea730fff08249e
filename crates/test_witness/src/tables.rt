//! Parts as tables, and strategies.

use eq_bits::{Node, Part};
use eq_config::{Patterns, Strategy};
use eq_names::{Name, Pattern, are_name_bytes};
use std::alloc::Global;
use std::test::Fail;
use test_parts::{Sides, is_table, part};

pub(crate) struct Table {
    pub(crate) inputs: u32,
    pub(crate) nodes: &'static [Node],
    pub(crate) outputs: &'static [Sides],
}

/// The part of a table. It, its inputs and its outputs all have the name y.
pub(crate) fn made(alloc: Global, table: &Table) -> Result<Part, Fail> {
    if !is_table(table.inputs, table.nodes, table.outputs) {
        return Err(Fail::from("no part"));
    }
    let name = Name::read(alloc, b"y")?;
    Ok(part(alloc, &name, table.inputs, table.nodes, table.outputs)?)
}

/// A pattern, or none where it is empty, a depth, and how many conflicts.
pub(crate) type Plan = (&'static [u8], u32, u64);

fn pattern(alloc: Global, text: &[u8]) -> Result<Pattern, Fail> {
    if !are_name_bytes(text) || 0xFFFF_FFFF < text.len() {
        return Err(Fail::from("no pattern"));
    }
    Ok(Pattern::read(alloc, text)?)
}

fn patterns(alloc: Global, text: &[u8]) -> Result<Patterns, Fail> {
    let mut patterns = Patterns::new(alloc);
    if !text.is_empty() {
        patterns.push(pattern(alloc, text)?)?;
    }
    Ok(patterns)
}

fn strategy(alloc: Global, plan: &Plan) -> Result<Strategy, Fail> {
    let (text, depth, conflicts) = plan;
    let name = Name::read(alloc, b"s")?;
    let apply = patterns(alloc, text)?;
    Ok(Strategy {
        name,
        depth: *depth,
        conflicts: *conflicts,
        apply,
    })
}

pub(crate) fn strategies(alloc: Global, plans: &[Plan]) -> Result<Vec<Strategy>, Fail> {
    let mut all = Vec::new(alloc);
    for plan in plans {
        all.push(strategy(alloc, plan)?)?;
    }
    Ok(all)
}
