//! The clauses of a formula before the search: each watches its first two literals, and the literal of a clause of one
//! becomes true.
ghost use Rattle.std.specs.Prelude.{◌≡◌, ◌<◌, ◌≤◌, ◌+◌, ◌*◌, [], ◌∷◌, All, Some, length, take, slice_get, IfOk, OnOk, MatchBool, MatchOption};
ghost use Rattle.eq_proof.specs.Assigned.{AllBelow};
ghost use Rattle.eq_proof.specs.Sets.{IsFalse};
ghost use Rattle.eq_cdcl.specs.inner.Sound.{IsSound};
ghost use Rattle.eq_cdcl.specs.inner.Found.{IsConflict};
ghost use Rattle.eq_cdcl.specs.inner.Asserting.{HasNoDecision};
ghost use Rattle.eq_cdcl.specs.inner.Watched.{Watching};

use crate::known::Known;
use crate::trail::{Trail, Value};
use crate::watches::Watches;
use eq_base::Memory;
use eq_proof::Lit;

/// Watches all clauses. Answers the number of one that is falsified, if there is one.
pub fn start(
    trail: &mut Trail,
    watches: &mut Watches,
    known: &Known<'_>,
) -> Result<Option<u64>, Memory>
    requires below { All (AllBelow trail.old.size) known.now }
    requires sound { IsSound known.now trail.old }
    requires root { HasNoDecision trail.old.reasons }
    requires watching { Watching [] trail.old watches.old }
    requires head { watches.old.head ≡ 0 }
    ensures sound { OnOk result (IsSound known.now trail.new) }
    ensures root { OnOk result (HasNoDecision trail.new.reasons) }
    ensures found { IfOk result (λ found. MatchOption found
        (Watching known.now trail.new watches.new) (IsConflict known.now trail.new.lits)) }
    ensures size { OnOk result (trail.new.size ≡ trail.old.size) }
{
    for place in 0..known.len() {
        if start_clause(trail, watches, known, place)? {
            return Ok(Some(place + 1));
        }
    }
    Ok(None)
}

// Watches the clause at a place, and answers whether it is falsified.
fn start_clause(
    trail: &mut Trail,
    watches: &mut Watches,
    known: &Known<'_>,
    place: u64,
) -> Result<bool, Memory>
    requires below { All (AllBelow trail.old.size) known.now }
    requires sound { IsSound known.now trail.old }
    requires root { HasNoDecision trail.old.reasons }
    requires within { place < length known.now }
    requires watching { Watching (take place known.now) trail.old watches.old }
    requires head { watches.old.head ≡ 0 }
    ensures sound { OnOk result (IsSound known.now trail.new) }
    ensures root { OnOk result (HasNoDecision trail.new.reasons) }
    ensures bad { IfOk result (λ bad. MatchBool bad (IsConflict known.now trail.new.lits (place + 1))
        (Watching (take (place + 1) known.now) trail.new watches.new)) }
    ensures head { OnOk result (watches.new.head ≡ 0) }
    ensures size { OnOk result (trail.new.size ≡ trail.old.size) }
{
    match known.at(place) {
        [] => Ok(true),
        [l] => start_unit(trail, watches, known, place, *l),
        [first, second, ..] => {
            watches.attach(*first, *second)?;
            Ok(false)
        }
    }
}

// The same of a clause of one literal.
fn start_unit(
    trail: &mut Trail,
    watches: &mut Watches,
    known: &Known<'_>,
    place: u64,
    l: Lit,
) -> Result<bool, Memory>
    requires within { l.var < trail.old.size }
    requires sound { IsSound known.now trail.old }
    requires root { HasNoDecision trail.old.reasons }
    requires unit { slice_get known.now place ≡ Some (l ∷ []) }
    requires watching { Watching (take place known.now) trail.old watches.old }
    requires head { watches.old.head ≡ 0 }
    ensures sound { OnOk result (IsSound known.now trail.new) }
    ensures root { OnOk result (HasNoDecision trail.new.reasons) }
    ensures bad { IfOk result (λ bad. MatchBool bad (IsConflict known.now trail.new.lits (place + 1))
        (Watching (take (place + 1) known.now) trail.new watches.new)) }
    ensures head { OnOk result (watches.new.head ≡ 0) }
    ensures size { OnOk result (trail.new.size ≡ trail.old.size) }
{
    match trail.value(l) {
        Value::False => Ok(true),
        Value::True => {
            watches.attach_root(l)?;
            Ok(false)
        }
        Value::Unassigned => {
            trail.imply(l, place + 1)?;
            watches.attach_root(l)?;
            Ok(false)
        }
    }
}
