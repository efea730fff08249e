//! After a conflict: what it teaches is logged and watched, and the search goes back.
ghost use Rattle.std.specs.Prelude.{◌≡◌, ◌<◌, ◌≤◌, ◌⊎◌, ◌+◌, ◌*◌, ◌^◌, ℕ, false, Some, All, length, slice_get, take, min, IfOk, OnOk, IfSome};
ghost use Rattle.eq_proof.specs.Assigned.{AllBelow};
ghost use Rattle.eq_proof.specs.Literal.{code_of};
ghost use Rattle.eq_proof.specs.Sets.{HasNoValue};
ghost use Rattle.eq_cdcl.specs.inner.Assignment.{cut_to, extended};
ghost use Rattle.eq_cdcl.specs.inner.Knowledge.{known_of, IsLogged};
ghost use Rattle.eq_cdcl.specs.inner.Sound.{IsSound};
ghost use Rattle.eq_cdcl.specs.inner.Found.{IsConflict};
ghost use Rattle.eq_cdcl.specs.inner.Resolved.{marked};
ghost use Rattle.eq_cdcl.specs.inner.Asserting.{IsLastDecision};
ghost use Rattle.eq_cdcl.specs.inner.Slots.{IsProper};
ghost use Rattle.eq_cdcl.specs.inner.Teaching.{IsTakenUp};
ghost use Rattle.eq_cdcl.specs.inner.Watched.{IsCut, Watching};

use crate::heuristics::Heuristics;
use crate::known::Known;
use crate::learning::{Learned, learn};
use crate::levels::root_len;
use crate::trail::{Reason, Trail};
use crate::watches::Watches;
use eq_base::{Bits, Memory};
use eq_proof::{Formula, Lit, Log};
use std::alloc::Global;

/// Logs what a conflict teaches, and goes back to the level on which the learned clause asserts a literal, or to level 0.
pub fn go_back(
    alloc: Global,
    f: &Formula,
    trail: &mut Trail,
    watches: &mut Watches,
    heuristics: &mut Heuristics,
    log: &mut Log,
    marks: Bits,
    conflict: u64,
    start: usize,
) -> Result<Bits, Memory>
    requires sound { IsSound (known_of f.now.clauses log.old) trail.old }
    requires watching { Watching (known_of f.now.clauses log.old) trail.old watches.old }
    requires conflict { IsConflict (known_of f.now.clauses log.old) trail.old.lits conflict }
    requires start { IsLastDecision trail.old.reasons start }
    requires clear { (p : ℕ) → marked marks p ≡ false }
    requires room { length trail.old.lits ≤ length marks }
    requires below { All (AllBelow trail.old.size) (known_of f.now.clauses log.old) }
    requires logged { IsLogged f.now.clauses log.old }
    requires few { length log.old + 1 < 2 ^ 32 }
    ensures sound { OnOk result (IsSound (known_of f.now.clauses log.new) trail.new) }
    ensures watching { OnOk result
        (Watching (known_of f.now.clauses log.new) trail.new watches.new) }
    ensures size { OnOk result (trail.new.size ≡ trail.old.size) }
    ensures below { OnOk result (All (AllBelow trail.new.size) (known_of f.now.clauses log.new)) }
    ensures clear { IfOk result (λ unset. (p : ℕ) → marked unset p ≡ false) }
    ensures room { IfOk result (λ unset. length unset ≡ length marks) }
    ensures logged { OnOk result (IsLogged f.now.clauses log.new) }
    ensures len { OnOk result (length log.new ≡ length log.old + 1) }
{
    let known = Known::new(f, log);
    let number = known.len() + 1;
    let learned = learn(alloc, trail, &known, heuristics, marks, conflict, start)?;
    let Learned {
        step,
        literal,
        second,
        cut,
        marks,
    } = learned;
    take_up(trail, watches, heuristics, literal, second, cut, number)?;
    log.push(step)?;
    restart(trail, watches, heuristics)?;
    Ok(marks)
}

// Cuts the trail, and puts the literal of the learned clause, which has this number, on it.
fn take_up(
    trail: &mut Trail,
    watches: &mut Watches,
    heuristics: &mut Heuristics,
    literal: Lit,
    second: Option<Lit>,
    cut: usize,
    number: u64,
) -> Result<(), Memory>
    requires cut { cut ≤ length trail.old.lits }
    requires literal { literal.var < trail.old.size }
    requires second { IfSome second (λ k. k.var < trail.old.size) }
    requires no_value { HasNoValue (take cut trail.old.lits) literal }
    requires room { length watches.old.lists.items ≡ 2 * trail.old.size }
    ensures trail { OnOk result (trail.new ≡
        extended (cut_to cut trail.old) literal (Reason.Implied number)) }
    ensures proper { OnOk result (IsProper literal) }
    ensures head { OnOk result (watches.new.head ≡ min watches.old.head cut) }
    ensures watches { OnOk result (IsTakenUp watches.old.pairs.items watches.old.lists.items
        watches.new.pairs.items watches.new.lists.items literal second) }
{
    take_back(trail, heuristics, cut)?;
    watches.go_back(cut);
    trail.imply(literal, number)?;
    watch(watches, literal, second)
}

// Appends a clause that watches a literal and another one, where there is one.
fn watch(watches: &mut Watches, literal: Lit, second: Option<Lit>) -> Result<(), Memory>
    requires literal { code_of literal < length watches.old.lists.items }
    requires second { IfSome second (λ k. code_of k < length watches.old.lists.items) }
    ensures head { OnOk result (watches.new.head ≡ watches.old.head) }
    ensures watches { OnOk result (IsTakenUp watches.old.pairs.items watches.old.lists.items
        watches.new.pairs.items watches.new.lists.items literal second) }
{
    match second {
        Some(second) => watches.attach(literal, second),
        None => watches.attach_root(literal),
    }
}

// Goes back to level 0 where a round of conflicts ends.
fn restart(
    trail: &mut Trail,
    watches: &mut Watches,
    heuristics: &mut Heuristics,
) -> Result<(), Memory>
    requires same { length trail.old.reasons ≡ length trail.old.lits }
    ensures trail { OnOk result ((len : ℕ) × (len ≤ length trail.old.lits) × IsCut trail.old len
        × (trail.new ≡ cut_to len trail.old) × (watches.new.head ≡ min watches.old.head len)) }
    ensures pairs { watches.new.pairs ≡ watches.old.pairs }
    ensures lists { watches.new.lists ≡ watches.old.lists }
{
    let len = stays(trail, heuristics.restarts());
    watches.go_back(len);
    take_back(trail, heuristics, len)
}

// How many literals stay: those of level 0, or all.
fn stays(trail: &Trail, restarts: bool) -> usize
    requires { length trail.now.reasons ≡ length trail.now.lits }
    ensures within { result ≤ length trail.now.lits }
    ensures cut { IsCut trail.now result }
{
    if restarts {
        root_len(trail)
    } else {
        trail.len()
    }
}

// Takes back all literals but the first `len`. Their variables may be decided again.
fn take_back(trail: &mut Trail, heuristics: &mut Heuristics, len: usize) -> Result<(), Memory>
    requires { len ≤ length trail.old.lits }
    ensures { OnOk result (trail.new ≡ cut_to len trail.old) }
{
    for place in len..trail.len() {
        heuristics.release(trail.lit(place))?;
    }
    trail.cut(len);
    Ok(())
}
