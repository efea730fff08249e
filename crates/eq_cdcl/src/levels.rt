//! Levels of a trail: each begins with a decision, and level 0 is what stands before the first.
ghost use Rattle.std.specs.Prelude.{◌≡◌, ◌≤◌, length, IfSome, IfNone};
ghost use Rattle.eq_cdcl.specs.inner.Asserting.{IsLastDecision, HasNoDecision};
ghost use Rattle.eq_cdcl.specs.inner.Watched.{IsCut};

use crate::trail::{Reason, Trail};

/// The place of the last decision, if there is one.
pub fn last_decision(trail: &Trail) -> Option<usize>
    requires { length trail.now.reasons ≡ length trail.now.lits }
    ensures some { IfSome result (IsLastDecision trail.now.reasons) }
    ensures none { IfNone result (HasNoDecision trail.now.reasons) }
    ensures room { length trail.now.lits ≤ trail.now.size }
{
    for place in (0..trail.len()).rev() {
        if let Reason::Decision = trail.reason(place) {
            return Some(place);
        }
    }
    None
}

/// How many literals are of level 0.
pub fn root_len(trail: &Trail) -> usize
    requires { length trail.now.reasons ≡ length trail.now.lits }
    ensures within { result ≤ length trail.now.lits }
    ensures cut { IsCut trail.now result }
{
    for place in 0..trail.len() {
        if let Reason::Decision = trail.reason(place) {
            return place;
        }
    }
    trail.len()
}
