//! Values of tables.

use eq_base::{Bytes, Items, Memory};
use eq_config::{Patterns, Strategy};
use eq_names::Name;
use eq_part::Partition;
use eq_report::{Refusal, refusal_line};
use std::alloc::Global;
use std::test::Fail;

pub(crate) fn name(alloc: Global, text: &str) -> Result<Name, Fail> {
    Ok(Name::read(alloc, text.as_bytes())?)
}

pub(crate) fn bytes(alloc: Global, text: &str) -> Result<Bytes, Memory> {
    Bytes::from_slice(alloc, text.as_bytes())
}

/// Whether the line of a refusal is this one.
pub(crate) fn is_told(alloc: Global, refusal: &Refusal, expected: &str) -> Result<bool, Memory> {
    let line = refusal_line(alloc, refusal)?;
    Ok(line.as_slice() == expected.as_bytes())
}

/// A strategy's name, depth and conflicts.
pub(crate) type Limits = (&'static str, u32, u64);

fn strategy(alloc: Global, limits: Limits) -> Result<Strategy, Fail> {
    Ok(Strategy {
        name: name(alloc, limits.0)?,
        depth: limits.1,
        conflicts: limits.2,
        apply: Patterns::new(alloc),
    })
}

pub(crate) fn strategies(alloc: Global, all: &[Limits]) -> Result<Vec<Strategy>, Fail> {
    let mut strategies = Vec::new(alloc);
    for limits in all {
        let strategy = strategy(alloc, *limits)?;
        strategies.push(strategy)?;
    }
    Ok(strategies)
}

pub(crate) fn partitions(alloc: Global, names: &[&str]) -> Result<Vec<Partition>, Fail> {
    let mut parts = Vec::new(alloc);
    for text in names {
        let name = name(alloc, text)?;
        parts.push(Partition {
            name,
            outputs: Items::new(alloc),
        })?;
    }
    Ok(parts)
}
