//! Unit propagation by two watched literals a clause (Moskewicz, Madigan, Zhao, Zhang, Malik, 'Chaff', 2001).
ghost use Rattle.std.specs.Prelude.{◌≡◌, ◌≤◌, All, length, IfOk, OnOk};
ghost use Rattle.eq_proof.specs.Assigned.{AllBelow};
ghost use Rattle.eq_cdcl.specs.inner.Sound.{IsSound};
ghost use Rattle.eq_cdcl.specs.inner.Found.{Finds};
ghost use Rattle.eq_cdcl.specs.inner.Watched.{Watching};
ghost use Rattle.eq_cdcl.specs.inner.Propagating.{IsAtEnd};

use crate::known::Known;
use crate::trail::Trail;
use crate::visiting::visit;
use crate::watches::Watches;
use eq_base::Memory;

/// What propagation comes to.
#[derive(Clone, Copy, Debug)]
pub enum Propagated {
    /// The clause with this number is falsified.
    Conflict(u64),
    /// No clause is falsified and none is unit.
    Settled,
}

/// Makes the literals of unit clauses true until a clause is falsified or none is unit.
///
/// Each literal of the trail that hasn't been visited is, in order. Its cost is that of the clauses that watch its
/// negation.
pub fn propagate(
    trail: &mut Trail,
    watches: &mut Watches,
    known: &Known<'_>,
) -> Result<Propagated, Memory>
    requires below { All (AllBelow trail.old.size) known.now }
    requires sound { IsSound known.now trail.old }
    requires watching { Watching known.now trail.old watches.old }
    ensures sound { OnOk result (IsSound known.now trail.new) }
    ensures watching { OnOk result (Watching known.now trail.new watches.new) }
    ensures found { IfOk result (Finds known.now trail.new.lits) }
    ensures end { IfOk result (IsAtEnd trail.new watches.new) }
    ensures size { OnOk result (trail.new.size ≡ trail.old.size) }
    ensures longer { OnOk result (length trail.old.lits ≤ length trail.new.lits) }
{
    while watches.head < trail.len() {
        match visit(trail, watches, known)? {
            Some(number) => return Ok(Propagated::Conflict(number)),
            None => watches.head += 1,
        }
    }
    Ok(Propagated::Settled)
}
