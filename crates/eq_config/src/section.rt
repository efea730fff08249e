//! Sections as they grow, line by line.

ghost use Rattle.std.specs.Prelude.{◌≡◌, ◌++◌, ◌∷◌, [], List, ℕ, OnOk, IfOk, map, is_some, ◌==◌};
ghost use Rattle.std.specs.List.{list_any};
ghost use Rattle.std.specs.Str.{bytes_eq};
ghost use Rattle.eq_config.specs.Sections as spec;
ghost use Rattle.eq_config.specs.Limits.{last_passes};

use crate::config::{
    CollectRule, CollectSections, MatchRule, MatchSections, Names, PartRule, PartSections, Patterns,
};
use eq_base::{Items, Memory};
use eq_names::{Name, Pattern};

/// What the lines say of a side.
#[derive(Drop)]
pub struct SideSection {
    /// The line of its heading.
    pub line: Option<u32>,
    pub files: Names,
    pub top: Option<Name>,
}

/// What the lines of a strategy say.
#[derive(Drop)]
pub struct StrategySection {
    /// The line of its heading.
    pub line: u32,
    pub name: Name,
    /// It has its line `use sat`.
    pub used: bool,
    pub depth: Option<u32>,
    pub conflicts: Option<u64>,
    pub apply: Patterns,
}

pub type StrategySections = Items<StrategySection>;

/// A rule more in the last section.
pub fn add_match(all: &mut MatchSections, rule: MatchRule) -> Result<(), Memory>
    ensures { OnOk result (all.new ≡ spec.on_last
        (λ s. record { top = s.top; rules = s.rules ++ rule ∷ [] }) all.old) }
{
    if let Some(mut last) = all.pop() {
        last.rules.push(rule)?;
        all.push(last)?;
    }
    Ok(())
}

/// A rule more in the last section.
pub fn add_collect(all: &mut CollectSections, rule: CollectRule) -> Result<(), Memory>
    ensures { OnOk result (all.new ≡ spec.on_last
        (λ s. record { top = s.top; rules = s.rules ++ rule ∷ [] }) all.old) }
{
    if let Some(mut last) = all.pop() {
        last.rules.push(rule)?;
        all.push(last)?;
    }
    Ok(())
}

/// A rule more in the last section.
pub fn add_part(all: &mut PartSections, rule: PartRule) -> Result<(), Memory>
    ensures { OnOk result (all.new ≡ spec.on_last
        (λ s. record { top = s.top; rules = s.rules ++ rule ∷ [] }) all.old) }
{
    if let Some(mut last) = all.pop() {
        last.rules.push(rule)?;
        all.push(last)?;
    }
    Ok(())
}

/// The last strategy is used.
pub fn set_used(all: &mut StrategySections) -> Result<(), Memory>
    ensures { OnOk result (all.new ≡ spec.on_last spec.with_use all.old) }
{
    if let Some(mut last) = all.pop() {
        last.used = true;
        all.push(last)?;
    }
    Ok(())
}

/// The depth of the last strategy.
pub fn set_depth(all: &mut StrategySections, depth: u32) -> Result<(), Memory>
    ensures { OnOk result (all.new ≡ spec.on_last (spec.with_depth depth) all.old) }
{
    if let Some(mut last) = all.pop() {
        last.depth = Some(depth);
        all.push(last)?;
    }
    Ok(())
}

/// The conflicts of the last strategy.
pub fn set_conflicts(all: &mut StrategySections, conflicts: u64) -> Result<(), Memory>
    ensures { OnOk result (all.new ≡ spec.on_last (spec.with_conflicts conflicts) all.old) }
{
    if let Some(mut last) = all.pop() {
        last.conflicts = Some(conflicts);
        all.push(last)?;
    }
    Ok(())
}

/// A pattern more for the last strategy.
pub fn add_apply(all: &mut StrategySections, pattern: Pattern) -> Result<(), Memory>
    ensures { OnOk result (all.new ≡ spec.on_last (spec.with_apply pattern) all.old) }
{
    if let Some(mut last) = all.pop() {
        last.apply.push(pattern)?;
        all.push(last)?;
    }
    Ok(())
}

/// Whether the last strategy is used.
pub fn is_last_used(all: &[StrategySection]) -> bool
    ensures { result ≡ last_passes (λ s. s.used) all.now }
{
    match all.last() {
        Some(last) => last.used,
        None => false,
    }
}

/// Whether the last strategy has a depth.
pub fn has_last_depth(all: &[StrategySection]) -> bool
    ensures { result ≡ last_passes (λ s. is_some s.depth) all.now }
{
    match all.last() {
        Some(last) => last.depth.is_some(),
        None => false,
    }
}

/// Whether the last strategy has conflicts.
pub fn has_last_conflicts(all: &[StrategySection]) -> bool
    ensures { result ≡ last_passes (λ s. is_some s.conflicts) all.now }
{
    match all.last() {
        Some(last) => last.conflicts.is_some(),
        None => false,
    }
}

/// Whether a strategy has this name.
pub fn is_named(all: &[StrategySection], name: &[u8]) -> bool
    ensures { result ≡ list_any (λ s. bytes_eq s.name name.now) all.now }
{
    all.iter().any(|s| s.name.bytes() == name)
}
