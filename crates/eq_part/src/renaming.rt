//! The line `name`.

ghost use Rattle.std.specs.Prelude.{◌≡◌, ◌≢◌, ◌<◌, ◌&&◌, ◌+◌, ℕ, List, Bool, Option, true, false, [], not, All, IfOk, OnOk, length, replicate, slice_set, if◌then◌else◌};
ghost use Rattle.eq_model.specs.Frames.{values};
ghost use Rattle.eq_names.specs.Patterns.{Matches};
ghost use Rattle.eq_names.specs.Name.{IsName};
ghost use Rattle.eq_net.specs.Net.{name_at};
ghost use Rattle.eq_net.specs.Whole.{parts_of};
ghost use Rattle.eq_match.specs.Fitting.{FitsPattern};
ghost use Rattle.eq_match.specs.Groups.{TellsHits};
ghost use Rattle.eq_match.specs.Leaders.{AreLeaders, leader_at};
ghost use Rattle.eq_match.specs.NetPairs.{IsFilling};
ghost use Rattle.eq_match.specs.Pairs.{gold_net};
ghost use Rattle.eq_part.specs.Partitions.{RuleMakes, renamed};
ghost use Rattle.eq_part.specs.inner.Renaming.{AreRenamed, IsText, text_of};
ghost use Rattle.eq_part.specs.inner.States.{IsState, division_of, is_chosen, name_at as given};

use crate::state::{GivenNames, State};
use eq_base::Memory;
use eq_config::PartRule;
use eq_match::{Pair, hit_pairs};
use eq_names::{Name, Pattern, Template};
use eq_net::Net;
use std::alloc::Global;

/// The template filled with what the pattern captures of a name that it matches; None where that is no text.
fn filling(
    alloc: Global,
    pattern: &Pattern,
    template: &Template,
    name: &Name,
) -> Result<Option<Name>, Memory>
    requires fits { FitsPattern pattern.now template.now }
    requires hit { Matches pattern.now name.now }
    ensures text { IfOk result IsText }
    ensures filled { IfOk result (λ t. IsFilling pattern.now template.now name.now (text_of t)) }
{
    let bytes = name.bytes();
    match pattern.captures(alloc, bytes)? {
        Some(spans) => template.fill(alloc, bytes, &spans),
        None => Ok(None),
    }
}

/// A name is given, unless it is none.
fn give(names: &mut GivenNames, at: usize, text: Option<Name>)
    requires there { at < length names.old }
    requires text { IsText text }
    ensures { names.new ≡ slice_set names.old at (renamed (given names.old at) (text_of text)) }
{
    if let Some(text) = text {
        names.set(at, Some(text));
    }
}

/// Whether a position is the first chosen one of its leader.
fn is_due(pair: &Pair, hit: bool, done: bool) -> bool
    ensures { result ≡ (not pair.now.input && hit && not done) }
{
    !pair.input && hit && !done
}

fn no_marks(alloc: Global, count: usize) -> Result<Vec<bool>, Memory>
    ensures { IfOk result (λ marks. marks.items ≡ replicate count false) }
{
    vec![in alloc; false; count]
}

/// At one position: a chosen position that is the first of its leader gives it its name.
fn rename_at(
    alloc: Global,
    gold: &Net,
    pair: &Pair,
    pattern: &Pattern,
    template: &Template,
    names: &mut GivenNames,
    leader: u32,
) -> Result<(), Memory>
    requires there { pair.now.gold.net < length gold.now.nets }
    requires leader { leader < length names.old }
    requires fits { FitsPattern pattern.now template.now }
    requires hit { Matches pattern.now (name_at gold.now.nets pair.now.gold.net) }
    ensures { OnOk result ((text : List ℕ) ×
        IsFilling pattern.now template.now (name_at gold.now.nets pair.now.gold.net) text ×
        (names.new ≡ slice_set names.old leader (renamed (given names.old leader) text))) }
{
    let net = &gold.nets.as_slice()[pair.gold.net as usize];
    let text = filling(alloc, pattern, template, &net.name)?;
    give(names, leader as usize, text);
    Ok(())
}

/// One position.
fn rename_one(
    alloc: Global,
    gold: &Net,
    pairs: &[Pair],
    pattern: &Pattern,
    template: &Template,
    hits: &[bool],
    leaders: &[u32],
    names: &mut GivenNames,
    done: &mut Vec<bool>,
    position: usize,
) -> Result<(), Memory>
    requires there { All (λ p. p.gold.net < length gold.now.nets) pairs.now }
    requires fits { FitsPattern pattern.now template.now }
    requires hits { TellsHits (parts_of gold.now) pairs.now pattern.now (values hits.now) }
    requires hit_count { length hits.now ≡ length pairs.now }
    requires leader_count { length leaders.now ≡ length pairs.now }
    requires lead { AreLeaders leaders.now }
    requires name_count { length names.old ≡ length pairs.now }
    requires within { position < length pairs.now }
    requires marks { length done.old.items ≡ length names.old }
    ensures { OnOk result ((before : List (Option (List ℕ))) →
        AreRenamed (parts_of gold.now) pairs.now pattern.now template.now leaders.now
        (is_chosen pairs.now (values hits.now)) position before done.old.items names.old →
        AreRenamed (parts_of gold.now) pairs.now pattern.now template.now leaders.now
        (is_chosen pairs.now (values hits.now)) (position + 1) before done.new.items names.new) }
{
    let pair = &pairs[position];
    let leader = leaders[position];
    if is_due(pair, hits[position], done[leader as usize]) {
        done[leader as usize] = true;
        rename_at(alloc, gold, pair, pattern, template, names, leader)?;
    }
    Ok(())
}

/// All positions in order.
fn rename_all(
    alloc: Global,
    gold: &Net,
    pairs: &[Pair],
    pattern: &Pattern,
    template: &Template,
    hits: &[bool],
    leaders: &[u32],
    names: &mut GivenNames,
) -> Result<(), Memory>
    requires there { All (λ p. p.gold.net < length gold.now.nets) pairs.now }
    requires fits { FitsPattern pattern.now template.now }
    requires hits { TellsHits (parts_of gold.now) pairs.now pattern.now (values hits.now) }
    requires hit_count { length hits.now ≡ length pairs.now }
    requires leader_count { length leaders.now ≡ length pairs.now }
    requires lead { AreLeaders leaders.now }
    requires name_count { length names.old ≡ length pairs.now }
    ensures { OnOk result ((done : List Bool) ×
        AreRenamed (parts_of gold.now) pairs.now pattern.now template.now leaders.now
        (is_chosen pairs.now (values hits.now)) (length pairs.now) names.old done names.new) }
{
    let mut done = no_marks(alloc, pairs.len())?;
    for position in 0..pairs.len() {
        rename_one(
            alloc, gold, pairs, pattern, template, hits, leaders, names, &mut done, position,
        )?;
    }
    Ok(())
}

/// Each partition with an output that the pattern hits takes the name that its first such output gives it.
pub fn rename(
    alloc: Global,
    gold: &Net,
    pairs: &[Pair],
    pattern: &Pattern,
    template: &Template,
    state: State,
) -> Result<State, Memory>
    requires there { All (λ p. p.gold.net < length gold.now.nets) pairs.now }
    requires fits { FitsPattern pattern.now template.now }
    requires state { IsState pairs.now state }
    ensures state { IfOk result (IsState pairs.now) }
    ensures line { IfOk result (λ after. RuleMakes (parts_of gold.now) pairs.now
        (PartRule.Rename pattern.now template.now) (division_of state) (division_of after)) }
{
    let hits = hit_pairs(alloc, gold, pairs, pattern)?;
    let mut state = state;
    let hits = hits.as_slice();
    let leaders = state.classes.leaders();
    rename_all(
        alloc,
        gold,
        pairs,
        pattern,
        template,
        hits,
        leaders,
        &mut state.names,
    )?;
    Ok(state)
}
