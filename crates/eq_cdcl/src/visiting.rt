//! A literal that became false: the clauses that watch it look for another literal to watch.
ghost use Rattle.std.specs.Prelude.{◌≡◌, ◌<◌, ◌≤◌, All, length, IfOk, OnOk, MatchBool, MatchOption, IsTrue, ◌+◌, Contains};
ghost use Rattle.eq_proof.specs.Assigned.{AllBelow};
ghost use Rattle.eq_proof.specs.Sets.{IsFalse};
ghost use Rattle.eq_cdcl.specs.inner.Slots.{IsProper};
ghost use Rattle.eq_cdcl.specs.inner.Sound.{IsSound};
ghost use Rattle.eq_cdcl.specs.inner.Found.{IsConflict};
ghost use Rattle.eq_cdcl.specs.inner.Watched.{IsAtEntry, Watching, list_of};
ghost use Rattle.eq_cdcl.specs.inner.Visiting.{AreFalseBut, Implies, IsAnother, IsVisited, Visiting, Visits};

use crate::known::Known;
use crate::trail::{Trail, Value};
use crate::watches::Watches;
use eq_base::Memory;
use eq_proof::Lit;

/// What became of an entry.
#[derive(Clone, Copy, Debug)]
pub enum Visited {
    /// It stays, and its clause has a true literal.
    Kept,
    /// Its clause watches another literal.
    Moved,
    /// The clause with this number is falsified.
    Conflict(u64),
}

/// Visits the literal at the head. Answers the number of a clause that is falsified, if there is one.
pub fn visit(
    trail: &mut Trail,
    watches: &mut Watches,
    known: &Known<'_>,
) -> Result<Option<u64>, Memory>
    requires below { All (AllBelow trail.old.size) known.now }
    requires sound { IsSound known.now trail.old }
    requires watching { Watching known.now trail.old watches.old }
    requires more { watches.old.head < length trail.old.lits }
    ensures sound { OnOk result (IsSound known.now trail.new) }
    ensures visited { IfOk result (IsVisited known.now trail.new watches.new) }
    ensures head { OnOk result (watches.new.head ≡ watches.old.head) }
    ensures size { OnOk result (trail.new.size ≡ trail.old.size) }
    ensures longer { OnOk result (length trail.old.lits ≤ length trail.new.lits) }
{
    let l = trail.lit(watches.head).negation();
    let mut i = 0;
    while i < watches.entries(l) {
        match visit_entry(trail, watches, known, l, i)? {
            Visited::Kept => i += 1,
            Visited::Moved => {}
            Visited::Conflict(number) => return Ok(Some(number)),
        }
    }
    Ok(None)
}

// Visits the entry at a place.
fn visit_entry(
    trail: &mut Trail,
    watches: &mut Watches,
    known: &Known<'_>,
    l: Lit,
    i: usize,
) -> Result<Visited, Memory>
    requires below { All (AllBelow trail.old.size) known.now }
    requires visiting { Visiting known.now trail.old watches.old l i }
    requires within { i < length (list_of watches.old.lists.items l) }
    ensures visits { IfOk result (Visits known.now trail.new watches.old watches.new l i) }
    ensures head { OnOk result (watches.new.head ≡ watches.old.head) }
    ensures size { OnOk result (trail.new.size ≡ trail.old.size) }
    ensures longer { OnOk result (length trail.old.lits ≤ length trail.new.lits) }
{
    let watch = watches.entry(l, i);
    if is_true(trail, watch.blocker) {
        return Ok(Visited::Kept);
    }
    match watches.pair(watch.clause).other(l) {
        Some(other) => visit_clause(trail, watches, known, l, i, watch.clause, other),
        None => Ok(Visited::Kept),
    }
}

// Visits a clause that watches a literal and another one: that is true, or the clause watches a further literal from now
// on, or the other one becomes true, or the clause is falsified.
fn visit_clause(
    trail: &mut Trail,
    watches: &mut Watches,
    known: &Known<'_>,
    l: Lit,
    i: usize,
    clause: u32,
    other: Lit,
) -> Result<Visited, Memory>
    requires below { All (AllBelow trail.old.size) known.now }
    requires visiting { Visiting known.now trail.old watches.old l i }
    requires entry { IsAtEntry watches.old.pairs.items watches.old.lists.items l i clause other }
    ensures visits { IfOk result (Visits known.now trail.new watches.old watches.new l i) }
    ensures head { OnOk result (watches.new.head ≡ watches.old.head) }
    ensures size { OnOk result (trail.new.size ≡ trail.old.size) }
    ensures longer { OnOk result (length trail.old.lits ≤ length trail.new.lits) }
{
    if is_true(trail, other) {
        return Ok(Visited::Kept);
    }
    match another(trail, known.at(u64::from(clause)), other) {
        Some(next) => {
            watches.shift(l, i, clause, other, next)?;
            Ok(Visited::Moved)
        }
        None => imply(trail, clause, other),
    }
}

// A literal of a clause that isn't false, other than the one given.
fn another(trail: &Trail, clause: &[Lit], other: Lit) -> Option<Lit>
    requires { AllBelow trail.now.size clause.now }
    ensures { MatchOption result (AreFalseBut trail.now.lits clause.now other)
        (IsAnother trail.now.lits clause.now other) }
{
    for l in clause {
        if *l == other {
            continue;
        }
        if !is_false(trail, *l) {
            return Some(*l);
        }
    }
    None
}

fn is_true(trail: &Trail, l: Lit) -> bool
    requires { l.var < trail.now.size }
    ensures { IsTrue result → IsProper l × Contains trail.now.lits l }
{
    match trail.value(l) {
        Value::True => true,
        Value::False => false,
        Value::Unassigned => false,
    }
}

fn is_false(trail: &Trail, l: Lit) -> bool
    requires { l.var < trail.now.size }
    ensures { MatchBool result (IsFalse trail.now.lits l) (IsProper l × (¬ IsFalse trail.now.lits l)) }
{
    match trail.value(l) {
        Value::False => true,
        Value::True | Value::Unassigned => false,
    }
}

// The literal becomes true by the clause at a place, unless it is false.
fn imply(trail: &mut Trail, clause: u32, l: Lit) -> Result<Visited, Memory>
    requires { l.var < trail.old.size }
    ensures implies { IfOk result (Implies trail.old trail.new l clause) }
    ensures size { OnOk result (trail.new.size ≡ trail.old.size) }
    ensures longer { OnOk result (length trail.old.lits ≤ length trail.new.lits) }
{
    let number = u64::from(clause) + 1;
    match trail.value(l) {
        Value::Unassigned => {
            trail.imply(l, number)?;
            Ok(Visited::Kept)
        }
        Value::True => Ok(Visited::Kept),
        Value::False => Ok(Visited::Conflict(number)),
    }
}
