//! Which strategies may be tried, so that what they come to can be printed.

ghost use Rattle.std.specs.Prelude.{◌≤◌, ◌↔◌, All, IsTrue};
ghost use Rattle.eq_wit.specs.Tried.{MayBeTried};

use eq_bits::Part;
use eq_config::Strategy;
use eq_induct::are_usable;

/// Whether each strategy may learn a clause.
fn may_learn(s: &[Strategy]) -> bool
    ensures { IsTrue result ↔ All (λ s. 1 ≤ s.conflicts) s.now }
{
    s.iter().all(|strategy| 1 <= strategy.conflicts)
}

/// Whether strategies are such as a configuration has, and may be tried on a part.
pub fn may_be_tried(part: &Part, s: &[Strategy]) -> bool
    ensures { IsTrue result ↔ MayBeTried part.now s.now }
{
    s.len() <= 16 && are_usable(part, s) && may_learn(s)
}
