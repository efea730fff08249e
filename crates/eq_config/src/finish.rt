//! What is missing where no line is faulty, and the whole where nothing is.

ghost use Rattle.std.specs.Prelude.{◌≡◌, List, map, OnOk, IfOk, is_some, true, None, option_copied};
ghost use Rattle.eq_config.specs.Configs as spec;
ghost use Rattle.eq_config.specs.inner.Wholes.{missing_in_draft, config_of_draft, side_of_section};

use crate::config::{Config, Side, Strategies, Strategy};
use crate::draft::Draft;
use crate::limits::{DEFAULT_CONFLICTS, DEFAULT_DEPTH};
use crate::section::{SideSection, StrategySection, StrategySections};
use eq_base::Memory;
use std::alloc::Global;

/// The line at which a side misses something.
fn missing_side(side: &SideSection, end: u32) -> Option<u32>
    ensures { result ≡ spec.missing_side end side.now.line side.now.files side.now.top }
{
    match side.line {
        None => Some(end),
        Some(line) => {
            if side.files.is_empty() || side.top.is_none() {
                Some(line)
            } else {
                None
            }
        }
    }
}

/// The line of the first strategy without `use`.
fn missing_use(strategies: &[StrategySection]) -> Option<u32>
    ensures { result ≡ spec.missing_use strategies.now }
{
    for s in strategies {
        if !s.used {
            return Some(s.line);
        }
    }
    None
}

/// The line at which a strategy or its `use` is missing.
fn missing_strategy(strategies: &[StrategySection], end: u32) -> Option<u32>
    ensures { result ≡ spec.missing_strategy end strategies.now }
{
    if strategies.is_empty() {
        return Some(end);
    }
    missing_use(strategies)
}

/// The line at which something is missing, where the number of lines is one below `end`.
pub fn missing(draft: &Draft, end: u32) -> Option<u32>
    ensures { result ≡ missing_in_draft end draft.now }
{
    if let Some(line) = missing_side(&draft.gold, end) {
        return Some(line);
    }
    if let Some(line) = missing_side(&draft.gate, end) {
        return Some(line);
    }
    missing_strategy(draft.strategies.as_slice(), end)
}

/// A side that misses nothing.
fn side(section: SideSection) -> Side
    requires { is_some section.top ≡ true }
    ensures { result ≡ side_of_section section }
{
    let SideSection {
        line: _,
        files,
        top,
    } = section;
    match top {
        Some(top) => Side { files, top },
        None => unreachable!(),
    }
}

/// A strategy with its defaults.
fn strategy(section: StrategySection) -> Strategy
    ensures { result ≡ spec.strategy_of section }
{
    Strategy {
        name: section.name,
        depth: section.depth.unwrap_or(DEFAULT_DEPTH),
        conflicts: section.conflicts.unwrap_or(DEFAULT_CONFLICTS),
        apply: section.apply,
    }
}

fn strategies(alloc: Global, mut sections: StrategySections) -> Result<Strategies, Memory>
    ensures { IfOk result (λ all. all ≡ map spec.strategy_of sections) }
{
    let mut all = Strategies::new(alloc);
    while !sections.is_empty() {
        let first = sections.remove(0);
        all.push(strategy(first))?;
    }
    Ok(all)
}

/// What the lines say, where nothing is missing.
pub fn finish(alloc: Global, draft: Draft, end: u32) -> Result<Config, Memory>
    requires { missing_in_draft end draft ≡ None }
    ensures { IfOk result (λ config. config ≡ config_of_draft draft) }
{
    Ok(Config {
        gold: side(draft.gold),
        gate: side(draft.gate),
        matches: draft.matches,
        collects: draft.collects,
        partitions: draft.partitions,
        strategies: strategies(alloc, draft.strategies)?,
    })
}
