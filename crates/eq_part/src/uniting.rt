//! Unions of partitions.

ghost use Rattle.std.specs.Prelude.{◌≡◌, ◌≢◌, ◌<◌, ℕ, true, false, not, ◌&&◌, None, if◌then◌else◌, IfOk, IfSome, IfNone, length, slice_set};
ghost use Rattle.eq_model.specs.Frames.{values};
ghost use Rattle.eq_match.specs.Leaders.{leader_at, one_leader};
ghost use Rattle.eq_part.specs.Partitions.{SameDivision, are_several, union};
ghost use Rattle.eq_part.specs.inner.States.{AreFilled, AreForgotten, IsState, division_of, is_chosen};

use crate::state::{GivenNames, State};
use eq_base::Memory;
use eq_match::Pair;
use std::alloc::Global;

fn is_chosen(pair: &Pair, mark: bool) -> bool
    ensures { result ≡ (not pair.now.input && mark) }
{
    !pair.input && mark
}

/// The leader of a marked pair that is no input.
fn chosen_leader(pairs: &[Pair], marks: &[bool], leaders: &[u32]) -> Option<u32>
    requires pairs { length pairs.now ≡ length leaders.now }
    requires marks { length marks.now ≡ length leaders.now }
    ensures some { IfSome result (λ leader. (i : ℕ) × (i < length leaders.now) ×
        (is_chosen pairs.now (values marks.now) i ≡ true) × (leader_at leaders.now i ≡ leader)) }
    ensures none { IfNone result ((i : ℕ) → i < length leaders.now →
        is_chosen pairs.now (values marks.now) i ≡ false) }
{
    for (position, leader) in leaders.iter().enumerate() {
        if is_chosen(&pairs[position], marks[position]) {
            return Some(*leader);
        }
    }
    None
}

/// Whether a marked pair that is no input has another leader.
fn has_other(pairs: &[Pair], marks: &[bool], leaders: &[u32], leader: u32) -> bool
    requires pairs { length pairs.now ≡ length leaders.now }
    requires marks { length marks.now ≡ length leaders.now }
    ensures some { result ≡ true → (i : ℕ) × (i < length leaders.now) ×
        (is_chosen pairs.now (values marks.now) i ≡ true) × (leader_at leaders.now i ≢ leader) }
    ensures none { result ≡ false → (i : ℕ) → i < length leaders.now →
        is_chosen pairs.now (values marks.now) i ≡ true → leader_at leaders.now i ≡ leader }
{
    for (position, other) in leaders.iter().enumerate() {
        if is_chosen(&pairs[position], marks[position]) && *other != leader {
            return true;
        }
    }
    false
}

/// Whether two marked pairs that are no inputs stand in different partitions.
fn are_several(pairs: &[Pair], marks: &[bool], leaders: &[u32]) -> bool
    requires pairs { length pairs.now ≡ length leaders.now }
    requires marks { length marks.now ≡ length leaders.now }
    ensures { result ≡ are_several pairs.now (values marks.now) (one_leader leaders.now) }
{
    match chosen_leader(pairs, marks, leaders) {
        Some(leader) => has_other(pairs, marks, leaders, leader),
        None => false,
    }
}

/// Forgets a name where there is a mark.
fn forget_one(names: &mut GivenNames, at: usize, mark: bool)
    requires { at < length names.old }
    ensures { names.new ≡ (if mark then slice_set names.old at None else names.old) }
{
    if mark {
        names.set(at, None);
    }
}

/// Forgets the names at marked positions.
fn forget(names: &mut GivenNames, marks: &[bool])
    requires { length marks.now ≡ length names.old }
    ensures { AreForgotten (values marks.now) (length marks.now) names.old names.new }
{
    for (position, mark) in marks.iter().enumerate() {
        forget_one(names, position, *mark);
    }
}

/// The marked partitions, of which there are several, as one, without a name.
fn unite_several(
    alloc: Global,
    pairs: &[Pair],
    state: State,
    marks: &[bool],
) -> Result<State, Memory>
    requires state { IsState pairs.now state }
    requires count { length marks.now ≡ length pairs.now }
    requires marks { AreFilled pairs.now state (values marks.now) }
    requires several { are_several pairs.now (values marks.now) (one_leader state.classes) ≡ true }
    ensures state { IfOk result (IsState pairs.now) }
    ensures united { IfOk result (λ after. SameDivision (length pairs.now) (division_of after)
        (union pairs.now (values marks.now) (division_of state))) }
{
    let mut state = state;
    state.classes = state.classes.gathered(alloc, marks)?;
    forget(&mut state.names, marks);
    Ok(state)
}

/// The marked partitions united, and the union without a name. One partition alone stays as it is.
pub fn unite(alloc: Global, pairs: &[Pair], state: State, marks: &[bool]) -> Result<State, Memory>
    requires state { IsState pairs.now state }
    requires count { length marks.now ≡ length pairs.now }
    requires marks { AreFilled pairs.now state (values marks.now) }
    ensures state { IfOk result (IsState pairs.now) }
    ensures united { IfOk result (λ after. SameDivision (length pairs.now) (division_of after)
        (union pairs.now (values marks.now) (division_of state))) }
{
    if are_several(pairs, marks, state.classes.leaders()) {
        unite_several(alloc, pairs, state, marks)
    } else {
        Ok(state)
    }
}
