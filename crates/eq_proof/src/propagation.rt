//! Unit propagation by sweeps over all clauses.
ghost use Rattle.std.specs.Prelude.{◌≡◌, ◌<◌, All, IfOk, OnOk, MatchBool};
ghost use Rattle.eq_proof.specs.Assigned.{AllBelow};
ghost use Rattle.eq_proof.specs.Sets.{IsSubset};
ghost use Rattle.eq_proof.specs.Propagation.{IsForced, IsRefused, IsDone, Sweeps};

use crate::earlier::Earlier;
use crate::judgement::{Judgement, judge};
use crate::trail::Trail;
use eq_base::Memory;

/// What a sweep over all clauses finds.
#[derive(Clone, Copy, Debug)]
pub enum Finding {
    /// A clause is falsified.
    Conflicting,
    /// A literal became true.
    Changed,
    /// No clause is falsified and none is unit.
    Settled,
}

/// Makes the literals of unit clauses true until none is unit, or until one is falsified: then it answers `false`.
///
/// The cost of a sweep is the length of all clauses, and there are at most as many as variables.
pub fn propagate(trail: &mut Trail, before: &Earlier<'_>) -> Result<bool, Memory>
    requires { All (AllBelow trail.old.size) before.now }
    ensures kept { OnOk result (IsSubset trail.old.lits trail.new.lits) }
    ensures forced { OnOk result (IsForced before.now trail.old.lits trail.new.lits) }
    ensures answer { IfOk result (λ yes. MatchBool yes (IsDone before.now trail.new.lits) (IsRefused before.now trail.old.lits)) }
    ensures size { trail.new.size ≡ trail.old.size }
{
    loop {
        match sweep(trail, before)? {
            Finding::Conflicting => return Ok(false),
            Finding::Changed => {}
            Finding::Settled => return Ok(true),
        }
    }
}

// Judges each clause once, and makes the literal of a unit clause true at once.
fn sweep(trail: &mut Trail, before: &Earlier<'_>) -> Result<Finding, Memory>
    requires { All (AllBelow trail.old.size) before.now }
    ensures kept { OnOk result (IsSubset trail.old.lits trail.new.lits) }
    ensures forced { OnOk result (IsForced before.now trail.old.lits trail.new.lits) }
    ensures answer { IfOk result (Sweeps before.now trail.old trail.new) }
    ensures size { trail.new.size ≡ trail.old.size }
{
    let mut changed = false;
    for place in 0..before.len() {
        match judge(trail, before.at(place)) {
            Judgement::Conflict => return Ok(Finding::Conflicting),
            Judgement::Propagates(l) => {
                trail.assign(l)?;
                changed = true;
            }
            Judgement::Idle => {}
        }
    }
    Ok(found(changed))
}

// What a sweep without conflict found.
fn found(changed: bool) -> Finding
    ensures { MatchBool changed (result ≡ Finding.Changed) (result ≡ Finding.Settled) }
{
    if changed {
        Finding::Changed
    } else {
        Finding::Settled
    }
}
