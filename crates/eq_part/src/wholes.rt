//! Which nets of gold stand in one partition with all their bits.

ghost use Rattle.std.specs.Prelude.{◌≡◌, ◌<◌, ◌&&◌, ◌||◌, ◌==◌, ℕ, true, false, not, All, IfOk, length, replicate, slice_set, slice_index_or};
ghost use Rattle.eq_model.specs.Frames.{values};
ghost use Rattle.eq_match.specs.Leaders.{leader_at, one_leader};
ghost use Rattle.eq_match.specs.Pairs.{gold_net};
ghost use Rattle.eq_part.specs.Partitions.{HoldsNet};
ghost use Rattle.eq_part.specs.inner.Wholes.{AreKept, AreSplit};

use eq_base::Memory;
use eq_match::Pair;
use std::alloc::Global;

fn no_leaders(alloc: Global, count: usize) -> Result<Vec<u32>, Memory>
    ensures { IfOk result (λ kept. kept.items ≡ replicate count 0) }
{
    vec![in alloc; 0; count]
}

fn no_marks(alloc: Global, count: usize) -> Result<Vec<bool>, Memory>
    ensures { IfOk result (λ marks. marks.items ≡ replicate count false) }
{
    vec![in alloc; false; count]
}

/// Of each net the leader of one of its pairs.
fn net_leaders(
    alloc: Global,
    nets: usize,
    pairs: &[Pair],
    leaders: &[u32],
) -> Result<Vec<u32>, Memory>
    requires there { All (λ p. p.gold.net < nets) pairs.now }
    requires count { length leaders.now ≡ length pairs.now }
    ensures { IfOk result (λ kept. AreKept pairs.now leaders.now kept.items nets (length pairs.now)) }
{
    let mut kept = no_leaders(alloc, nets)?;
    for (position, pair) in pairs.iter().enumerate() {
        kept[pair.gold.net as usize] = leaders[position];
    }
    Ok(kept)
}

/// Sets a mark where it is to be set, and leaves it otherwise.
fn mark(marks: &mut Vec<bool>, at: u32, on: bool)
    requires { at < length marks.old.items }
    ensures { marks.new.items ≡ slice_set marks.old.items at (on || values marks.old.items at) }
{
    let old = marks[at as usize];
    marks[at as usize] = on || old;
}

fn differ(one: u32, other: u32) -> bool
    ensures { result ≡ not (one == other) }
{
    one != other
}

/// The nets whose pairs don't all have the leader that is kept.
fn split_by(
    alloc: Global,
    pairs: &[Pair],
    leaders: &[u32],
    kept: &[u32],
) -> Result<Vec<bool>, Memory>
    requires there { All (λ p. p.gold.net < length kept.now) pairs.now }
    requires count { length leaders.now ≡ length pairs.now }
    ensures count { IfOk result (λ split. length split.items ≡ length kept.now) }
    ensures split { IfOk result (λ split.
        AreSplit pairs.now leaders.now kept.now (length kept.now) (length pairs.now) split.items) }
{
    let mut split = no_marks(alloc, kept.len())?;
    for (position, pair) in pairs.iter().enumerate() {
        let net = pair.gold.net;
        let on = differ(leaders[position], kept[net as usize]);
        mark(&mut split, net, on);
    }
    Ok(split)
}

/// The nets whose pairs stand in several partitions.
pub fn split_nets(
    alloc: Global,
    nets: usize,
    pairs: &[Pair],
    leaders: &[u32],
) -> Result<Vec<bool>, Memory>
    requires there { All (λ p. p.gold.net < nets) pairs.now }
    requires count { length leaders.now ≡ length pairs.now }
    ensures count { IfOk result (λ split. length split.items ≡ nets) }
    ensures whole { IfOk result (λ split. (i : ℕ) → i < length pairs.now →
        values split.items (gold_net pairs.now i) ≡ false → HoldsNet pairs.now (one_leader leaders.now) i) }
    ensures split { IfOk result (λ split. (i : ℕ) → i < length pairs.now →
        values split.items (gold_net pairs.now i) ≡ true → ¬ HoldsNet pairs.now (one_leader leaders.now) i) }
{
    let kept = net_leaders(alloc, nets, pairs, leaders)?;
    split_by(alloc, pairs, leaders, kept.as_slice())
}
