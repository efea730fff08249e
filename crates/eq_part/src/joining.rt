//! The line `path`.

ghost use Rattle.std.specs.Prelude.{◌≡◌, ◌<◌, All, IfOk, length};
ghost use Rattle.eq_net.specs.Whole.{parts_of};
ghost use Rattle.eq_part.specs.Partitions.{HaveGoldBits, RuleMakes};
ghost use Rattle.eq_part.specs.inner.States.{IsState, division_of};

use crate::path::on_path;
use crate::state::State;
use crate::uniting::unite;
use eq_base::Memory;
use eq_config::PartRule;
use eq_match::{Pair, hit_pairs};
use eq_names::Pattern;
use eq_net::Net;
use std::alloc::Global;

/// The partitions that lie on a path are united.
pub fn unite_between(
    alloc: Global,
    gold: &Net,
    pairs: &[Pair],
    from: &Pattern,
    to: &Pattern,
    state: State,
) -> Result<State, Memory>
    requires there { All (λ p. p.gold.net < length gold.now.nets) pairs.now }
    requires bits { HaveGoldBits (parts_of gold.now) pairs.now }
    requires state { IsState pairs.now state }
    ensures state { IfOk result (IsState pairs.now) }
    ensures line { IfOk result (λ after. RuleMakes (parts_of gold.now) pairs.now
        (PartRule.Path from.now to.now) (division_of state) (division_of after)) }
{
    let starts = hit_pairs(alloc, gold, pairs, from)?;
    let ends = hit_pairs(alloc, gold, pairs, to)?;
    let leaders = state.classes.leaders();
    let marks = on_path(
        alloc,
        gold,
        pairs,
        leaders,
        starts.as_slice(),
        ends.as_slice(),
    )?;
    unite(alloc, pairs, state, marks.as_slice())
}
