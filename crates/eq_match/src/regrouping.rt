//! How classes change: positions leave their classes, or classes are united.

ghost use Rattle.std.specs.Prelude.{◌≡◌, ℕ, ◌+◌, ◌*◌, ◌<◌, ◌≤◌, ◌&&◌, ◌||◌, ◌==◌, ◌^◌, true, false, not, if◌then◌else◌, All, IfOk, length, replicate, slice_set, slice_index_or};
ghost use Rattle.eq_model.specs.Frames.{values};
ghost use Rattle.eq_match.specs.Classes.{SameClasses, alone, gathered, touches};
ghost use Rattle.eq_match.specs.Groups.{is_held};
ghost use Rattle.eq_match.specs.Leaders.{AreLeaders, one_leader, leader_at};
ghost use Rattle.eq_match.specs.inner.Keys.{AreKeys, AreLed, common_key, own_key};

use crate::classes::Classes;
use crate::types::Pair;
use eq_base::{Bits, Memory};
use std::alloc::Global;

fn either(test: bool, one: u32, other: u32) -> u32
    ensures { result ≡ (if test then one else other) }
{
    if test { one } else { other }
}

/// A hit position's own key, and beyond all positions the leaders' of others.
fn own_keys(alloc: Global, hits: &[bool], leaders: &[u32]) -> Result<Vec<u32>, Memory>
    requires count { length hits.now ≡ length leaders.now }
    requires leaders { AreLeaders leaders.now }
    requires few { length leaders.now < 2 ^ 31 }
    ensures { IfOk result (λ keys.
        AreKeys keys.items (length leaders.now) (own_key (length leaders.now) (values hits.now) leaders.now)) }
{
    let count = leaders.len() as u32;
    let mut keys = Vec::new(alloc);
    for (position, hit) in hits.iter().enumerate() {
        keys.push(either(*hit, position as u32, count + leaders[position]))?;
    }
    Ok(keys)
}

/// One key for all positions that are marked, and the leaders' of others.
fn common_keys(alloc: Global, marks: &[bool], leaders: &[u32]) -> Result<Vec<u32>, Memory>
    requires count { length marks.now ≡ length leaders.now }
    requires leaders { AreLeaders leaders.now }
    ensures { IfOk result (λ keys.
        AreKeys keys.items (length leaders.now) (common_key (length leaders.now) (values marks.now) leaders.now)) }
{
    let count = leaders.len() as u32;
    let mut keys = Vec::new(alloc);
    for (position, mark) in marks.iter().enumerate() {
        keys.push(either(*mark, count, leaders[position]))?;
    }
    Ok(keys)
}

fn no_marks(alloc: Global, count: usize) -> Result<Vec<bool>, Memory>
    ensures { IfOk result (λ marks. marks.items ≡ replicate count false) }
{
    vec![in alloc; false; count]
}

/// Sets a mark where it is to be set, and leaves it otherwise.
fn mark(marks: &mut Vec<bool>, at: u32, on: bool)
    requires { at < length marks.old.items }
    ensures { marks.new.items ≡ slice_set marks.old.items at (on || values marks.old.items at) }
{
    let old = marks[at as usize];
    marks[at as usize] = on || old;
}

fn is_led(pair: &Pair, hit: bool) -> bool
    ensures { result ≡ (not pair.now.input && hit) }
{
    !pair.input && hit
}

/// The leaders of the pairs that are hit and no inputs.
fn led(alloc: Global, pairs: &[Pair], hits: &[bool], leaders: &[u32]) -> Result<Vec<bool>, Memory>
    requires pairs { length pairs.now ≡ length leaders.now }
    requires hits { length hits.now ≡ length leaders.now }
    requires leaders { AreLeaders leaders.now }
    ensures count { IfOk result (λ marks. length marks.items ≡ length leaders.now) }
    ensures marks { IfOk result (λ marks.
        AreLed leaders.now (λ j. is_held pairs.now j && values hits.now j) (length leaders.now) marks.items) }
{
    let mut marks = no_marks(alloc, leaders.len())?;
    for (position, leader) in leaders.iter().enumerate() {
        let on = is_led(&pairs[position], hits[position]);
        mark(&mut marks, *leader, on);
    }
    Ok(marks)
}

/// Of each position whether its leader is marked.
fn followers(alloc: Global, marks: &[bool], leaders: &[u32]) -> Result<Bits, Memory>
    requires count { length marks.now ≡ length leaders.now }
    requires leaders { AreLeaders leaders.now }
    ensures count { IfOk result (λ bits. length bits ≡ length leaders.now) }
    ensures bits { IfOk result (λ bits. (i : ℕ) → i < length leaders.now →
        values bits i ≡ values marks.now (leader_at leaders.now i)) }
{
    let mut bits = Bits::new(alloc);
    for leader in leaders {
        bits.push(marks[*leader as usize])?;
    }
    Ok(bits)
}

impl Classes {
    /// Each hit position becomes a class of its own.
    pub fn alone(&self, alloc: Global, hits: &[bool]) -> Result<Classes, Memory>
        requires count { length hits.now ≡ length self.now }
        requires few { length self.now < 2 ^ 31 }
        ensures count { IfOk result (λ after. length after ≡ length self.now) }
        ensures leaders { IfOk result AreLeaders }
        ensures classes { IfOk result (λ after. SameClasses (length self.now) (one_leader after)
            (alone (values hits.now) (one_leader self.now))) }
    {
        let leaders = self.leaders();
        let keys = own_keys(alloc, hits, leaders)?;
        Classes::by_keys(alloc, 2 * leaders.len(), keys.as_slice())
    }

    /// The marked positions leave their classes and make one.
    pub fn gathered(&self, alloc: Global, marks: &[bool]) -> Result<Classes, Memory>
        requires count { length marks.now ≡ length self.now }
        ensures count { IfOk result (λ after. length after ≡ length self.now) }
        ensures leaders { IfOk result AreLeaders }
        ensures classes { IfOk result (λ after. SameClasses (length self.now) (one_leader after)
            (gathered (values marks.now) (one_leader self.now))) }
    {
        let leaders = self.leaders();
        let keys = common_keys(alloc, marks, leaders)?;
        Classes::by_keys(alloc, leaders.len() + 1, keys.as_slice())
    }

    /// Of each position whether its class has a hit pair that is no input.
    pub fn touched(&self, alloc: Global, pairs: &[Pair], hits: &[bool]) -> Result<Bits, Memory>
        requires pairs { length pairs.now ≡ length self.now }
        requires hits { length hits.now ≡ length self.now }
        ensures count { IfOk result (λ bits. length bits ≡ length self.now) }
        ensures bits { IfOk result (λ bits. (i : ℕ) → i < length self.now → values bits i ≡
            touches (length self.now) (is_held pairs.now) (values hits.now) (one_leader self.now) i) }
    {
        let leaders = self.leaders();
        let marks = led(alloc, pairs, hits, leaders)?;
        followers(alloc, marks.as_slice(), leaders)
    }
}
