//! The line `merge`.

ghost use Rattle.std.specs.Prelude.{◌≡◌, ◌<◌, All, IfOk, length};
ghost use Rattle.eq_net.specs.Whole.{parts_of};
ghost use Rattle.eq_part.specs.Partitions.{RuleMakes};
ghost use Rattle.eq_part.specs.inner.States.{IsState, division_of};

use crate::state::State;
use crate::uniting::unite;
use eq_base::Memory;
use eq_config::PartRule;
use eq_match::{Pair, hit_pairs};
use eq_names::Pattern;
use eq_net::Net;
use std::alloc::Global;

/// The partitions with an output that the pattern hits are united.
pub fn merge(
    alloc: Global,
    gold: &Net,
    pairs: &[Pair],
    pattern: &Pattern,
    state: State,
) -> Result<State, Memory>
    requires there { All (λ p. p.gold.net < length gold.now.nets) pairs.now }
    requires state { IsState pairs.now state }
    ensures state { IfOk result (IsState pairs.now) }
    ensures line { IfOk result (λ after. RuleMakes (parts_of gold.now) pairs.now
        (PartRule.Merge pattern.now) (division_of state) (division_of after)) }
{
    let hits = hit_pairs(alloc, gold, pairs, pattern)?;
    let marks = state.classes.touched(alloc, pairs, hits.as_slice())?;
    unite(alloc, pairs, state, marks.as_slice())
}
