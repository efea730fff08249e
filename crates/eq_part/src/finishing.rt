//! The partitions when all lines are read: lists of outputs, each with its name.

ghost use Rattle.std.specs.Prelude.{◌≡◌, ◌<◌, ℕ, true, false, All, IfOk, length, map};
ghost use Rattle.eq_model.specs.Frames.{values};
ghost use Rattle.eq_net.specs.Net.{HasBit, name_at};
ghost use Rattle.eq_net.specs.Naming.{name_of_bit};
ghost use Rattle.eq_net.specs.Whole.{parts_of};
ghost use Rattle.eq_match.specs.Classes.{classes};
ghost use Rattle.eq_match.specs.Groups.{is_held};
ghost use Rattle.eq_match.specs.Pairs.{gold_net};
ghost use Rattle.eq_part.specs.Partitions.{HoldsNet, IsNameOf};
ghost use Rattle.eq_part.specs.inner.Named.{IsList, IsNamed};
ghost use Rattle.eq_part.specs.inner.States.{IsState, division_of};

use crate::state::State;
use crate::types::{Partition, Partitions};
use crate::wholes::split_nets;
use eq_base::Memory;
use eq_match::laws::classes_divide;
use eq_match::{Pair, Positions, classes_of};
use eq_names::Name;
use eq_net::{Net, bit_text};
use std::alloc::Global;

/// The name of a partition's first output: its net's, where the partition holds the net, and else its bit's.
fn default_name(alloc: Global, gold: &Net, pair: &Pair, split: bool) -> Result<Name, Memory>
    requires { HasBit gold.now.nets pair.now.gold }
    ensures whole { split ≡ false → IfOk result (λ name. name ≡ name_at gold.now.nets pair.now.gold.net) }
    ensures split { split ≡ true → IfOk result (λ name. name ≡ name_of_bit gold.now.nets pair.now.gold) }
{
    if split {
        bit_text(alloc, gold, pair.gold)
    } else {
        gold.nets.as_slice()[pair.gold.net as usize]
            .name
            .copy(alloc)
    }
}

/// The name of the partition whose first output is here.
fn name_of(
    alloc: Global,
    gold: &Net,
    pairs: &[Pair],
    split: &[bool],
    state: &State,
    first: u32,
) -> Result<Name, Memory>
    requires there { first < length pairs.now }
    requires bits { All (λ p. HasBit gold.now.nets p.gold) pairs.now }
    requires state { IsState pairs.now state.now }
    requires count { length split.now ≡ length gold.now.nets }
    requires whole { (i : ℕ) → i < length pairs.now → values split.now (gold_net pairs.now i) ≡ false →
        HoldsNet pairs.now (division_of state.now).together i }
    requires split { (i : ℕ) → i < length pairs.now → values split.now (gold_net pairs.now i) ≡ true →
        ¬ HoldsNet pairs.now (division_of state.now).together i }
    ensures { IfOk result (λ name. IsNameOf (parts_of gold.now) pairs.now (division_of state.now) first name) }
{
    let leader = state.classes.leader(first as usize);
    match &state.names.as_slice()[leader as usize] {
        Some(name) => name.copy(alloc),
        None => {
            let pair = &pairs[first as usize];
            default_name(alloc, gold, pair, split[pair.gold.net as usize])
        }
    }
}

/// The partition with these outputs.
fn part_of(
    alloc: Global,
    gold: &Net,
    pairs: &[Pair],
    split: &[bool],
    state: &State,
    list: &[u32],
) -> Result<Partition, Memory>
    requires list { IsList (length pairs.now) list.now }
    requires bits { All (λ p. HasBit gold.now.nets p.gold) pairs.now }
    requires state { IsState pairs.now state.now }
    requires count { length split.now ≡ length gold.now.nets }
    requires whole { (i : ℕ) → i < length pairs.now → values split.now (gold_net pairs.now i) ≡ false →
        HoldsNet pairs.now (division_of state.now).together i }
    requires split { (i : ℕ) → i < length pairs.now → values split.now (gold_net pairs.now i) ≡ true →
        ¬ HoldsNet pairs.now (division_of state.now).together i }
    ensures outputs { IfOk result (λ p. p.outputs ≡ list.now) }
    ensures name { IfOk result (IsNamed (parts_of gold.now) pairs.now (division_of state.now)) }
{
    let name = name_of(alloc, gold, pairs, split, state, list[0])?;
    Ok(Partition {
        name,
        outputs: Positions::from_slice(alloc, list)?,
    })
}

/// The partitions with these outputs.
fn parts_with(
    alloc: Global,
    gold: &Net,
    pairs: &[Pair],
    split: &[bool],
    state: &State,
    lists: &[Positions],
) -> Result<Partitions, Memory>
    requires lists { All (IsList (length pairs.now)) lists.now }
    requires bits { All (λ p. HasBit gold.now.nets p.gold) pairs.now }
    requires state { IsState pairs.now state.now }
    requires count { length split.now ≡ length gold.now.nets }
    requires whole { (i : ℕ) → i < length pairs.now → values split.now (gold_net pairs.now i) ≡ false →
        HoldsNet pairs.now (division_of state.now).together i }
    requires split { (i : ℕ) → i < length pairs.now → values split.now (gold_net pairs.now i) ≡ true →
        ¬ HoldsNet pairs.now (division_of state.now).together i }
    ensures outputs { IfOk result (λ parts. map (λ p. p.outputs) parts ≡ lists.now) }
    ensures names { IfOk result (All (IsNamed (parts_of gold.now) pairs.now (division_of state.now))) }
{
    let mut parts = Partitions::new(alloc);
    for list in lists {
        parts.push(part_of(alloc, gold, pairs, split, state, list.as_slice())?)?;
    }
    Ok(parts)
}

/// The partitions that are left when all lines are read.
pub fn finish(
    alloc: Global,
    gold: &Net,
    pairs: &[Pair],
    state: &State,
) -> Result<Partitions, Memory>
    requires bits { All (λ p. HasBit gold.now.nets p.gold) pairs.now }
    requires state { IsState pairs.now state.now }
    ensures outputs { IfOk result (λ parts. map (λ p. p.outputs) parts ≡
        classes (length pairs.now) (is_held pairs.now) (division_of state.now).together) }
    ensures names { IfOk result (All (IsNamed (parts_of gold.now) pairs.now (division_of state.now))) }
{
    classes_divide();
    let leaders = state.classes.leaders();
    let split = split_nets(alloc, gold.nets.len(), pairs, leaders)?;
    let lists = classes_of(alloc, pairs, &state.classes)?;
    parts_with(
        alloc,
        gold,
        pairs,
        split.as_slice(),
        state,
        lists.as_slice(),
    )
}
