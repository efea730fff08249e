//! The lines of all partition sections, in their order.

ghost use Rattle.std.specs.Prelude.{◌≡◌, ◌<◌, All, IfOk, length};
ghost use Rattle.eq_net.specs.Whole.{parts_of};
ghost use Rattle.eq_match.specs.Divided.{AreApart};
ghost use Rattle.eq_match.specs.Fitting.{PartRuleFits};
ghost use Rattle.eq_part.specs.Partitions.{HaveGoldBits, RuleMakes, RulesMake, SectionFits, SectionMakes, SectionsMake};
ghost use Rattle.eq_part.specs.inner.States.{IsState, division_of};

use crate::joining::unite_between;
use crate::merging::merge;
use crate::renaming::rename;
use crate::state::State;
use eq_base::Memory;
use eq_config::{PartRule, PartSection};
use eq_match::Pair;
use eq_names::Name;
use eq_net::Net;
use std::alloc::Global;

/// One line.
fn line(
    alloc: Global,
    gold: &Net,
    pairs: &[Pair],
    rule: &PartRule,
    state: State,
) -> Result<State, Memory>
    requires there { All (λ p. p.gold.net < length gold.now.nets) pairs.now }
    requires bits { HaveGoldBits (parts_of gold.now) pairs.now }
    requires fits { PartRuleFits rule.now }
    requires state { IsState pairs.now state }
    ensures state { IfOk result (IsState pairs.now) }
    ensures line { IfOk result (λ after. RuleMakes (parts_of gold.now) pairs.now rule.now
        (division_of state) (division_of after)) }
{
    match rule {
        PartRule::Merge(pattern) => merge(alloc, gold, pairs, pattern, state),
        PartRule::Path(from, to) => unite_between(alloc, gold, pairs, from, to, state),
        PartRule::Rename(pattern, template) => {
            rename(alloc, gold, pairs, pattern, template, state)
        }
    }
}

/// The lines of a section.
fn lines(
    alloc: Global,
    gold: &Net,
    pairs: &[Pair],
    rules: &[PartRule],
    start: State,
) -> Result<State, Memory>
    requires there { All (λ p. p.gold.net < length gold.now.nets) pairs.now }
    requires bits { HaveGoldBits (parts_of gold.now) pairs.now }
    requires fits { All PartRuleFits rules.now }
    requires state { IsState pairs.now start }
    ensures state { IfOk result (IsState pairs.now) }
    ensures lines { IfOk result (λ after. RulesMake (parts_of gold.now) pairs.now rules.now
        (division_of start) (division_of after)) }
{
    let mut state = start;
    for rule in rules {
        state = line(alloc, gold, pairs, rule, state)?;
    }
    Ok(state)
}

/// A section, which counts where its heading is for gold's top.
fn section(
    alloc: Global,
    gold: &Net,
    pairs: &[Pair],
    top: &Name,
    section: &PartSection,
    start: State,
) -> Result<State, Memory>
    requires there { All (λ p. p.gold.net < length gold.now.nets) pairs.now }
    requires bits { HaveGoldBits (parts_of gold.now) pairs.now }
    requires fits { SectionFits section.now }
    requires state { IsState pairs.now start }
    ensures state { IfOk result (IsState pairs.now) }
    ensures section { IfOk result (λ after. SectionMakes (parts_of gold.now) pairs.now top.now
        section.now (division_of start) (division_of after)) }
{
    if section.top.matches(top.bytes()) {
        lines(alloc, gold, pairs, section.rules.as_slice(), start)
    } else {
        Ok(start)
    }
}

/// All sections in order.
pub fn sections(
    alloc: Global,
    gold: &Net,
    pairs: &[Pair],
    top: &Name,
    list: &[PartSection],
    start: State,
) -> Result<State, Memory>
    requires there { All (λ p. p.gold.net < length gold.now.nets) pairs.now }
    requires bits { HaveGoldBits (parts_of gold.now) pairs.now }
    requires fits { All SectionFits list.now }
    requires state { IsState pairs.now start }
    ensures state { IfOk result (IsState pairs.now) }
    ensures sections { IfOk result (λ after. SectionsMake (parts_of gold.now) pairs.now top.now
        list.now (division_of start) (division_of after)) }
{
    let mut state = start;
    for one in list {
        state = section(alloc, gold, pairs, top, one, state)?;
    }
    Ok(state)
}
