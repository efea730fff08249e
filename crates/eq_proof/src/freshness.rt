//! Whether a step is fresh: whether its clause says what propagation over the clauses before it doesn't give.
ghost use Rattle.std.specs.Prelude.{◌≡◌, ◌↔◌, [], ℕ, All, Contains, IfOk, OnOk, IfSome, IfNone, IsTrue, MatchBool};
ghost use Rattle.eq_proof.specs.Clause.{IsClause};
ghost use Rattle.eq_proof.specs.Literal.{Literal};
ghost use Rattle.eq_proof.specs.Assigned.{AllBelow};
ghost use Rattle.std.specs.Prelude.{List};
ghost use Rattle.eq_proof.specs.Sets.{IsConsistent, IsSubset};
ghost use Rattle.eq_proof.specs.Propagation.{OthersFalse};
ghost use Rattle.eq_proof.specs.Fresh.{IsFresh, IsOpenFor, IsFirstStale, AllFresh};

use crate::earlier::Earlier;
use crate::formula::Formula;
use crate::lit::Lit;
use crate::log::Log;
use crate::propagation::propagate;
use crate::trail::{Trail, Value};
use crate::variables::highest;
use eq_base::Memory;
use std::alloc::Global;

/// The first step that isn't fresh, counted from 0.
///
/// This is the plain way: for each literal of each clause the others are made false, and sweeps over all
/// clauses before it go on until nothing changes.
pub fn first_stale(alloc: Global, f: &Formula, log: &Log) -> Result<Option<u32>, Memory>
    ensures stale { IfOk result (λ answer. IfSome answer (λ index. IsFirstStale f.now.clauses log.now index)) }
    ensures fresh { IfOk result (λ answer. IfNone answer (AllFresh f.now.clauses log.now)) }
{
    let most = f.vars.max(highest(log));
    let mut trail = Trail::new(alloc, most as usize + 1)?;
    for index in 0..log.len() {
        let step = log.at(index);
        let before = Earlier::new(f, log, index);
        if !is_fresh(&mut trail, &before, step.clause)? {
            return Ok(Some(index));
        }
    }
    Ok(None)
}

// Whether a clause is fresh after the clauses before it. The trail is empty before and after.
fn is_fresh(trail: &mut Trail, before: &Earlier<'_>, clause: &[Lit]) -> Result<bool, Memory>
    requires empty { trail.old.lits ≡ [] }
    requires clause_below { AllBelow trail.old.size clause.now }
    requires before_below { All (AllBelow trail.old.size) before.now }
    ensures answer { IfOk result (λ yes. IsTrue yes ↔ IsFresh before.now clause.now) }
    ensures empty { OnOk result (trail.new.lits ≡ []) }
    ensures size { trail.new.size ≡ trail.old.size }
{
    for l in clause {
        if leaves_open(trail, before, clause, *l)? {
            return Ok(true);
        }
    }
    Ok(false)
}

// Whether some settled set makes a clause unit with this literal of it open. The trail is empty before and after.
fn leaves_open(
    trail: &mut Trail,
    before: &Earlier<'_>,
    clause: &[Lit],
    l: Lit,
) -> Result<bool, Memory>
    requires empty { trail.old.lits ≡ [] }
    requires member { Contains clause.now l }
    requires clause_below { AllBelow trail.old.size clause.now }
    requires before_below { All (AllBelow trail.old.size) before.now }
    ensures answer { IfOk result (λ yes. IsTrue yes ↔ IsOpenFor before.now clause.now l) }
    ensures empty { OnOk result (trail.new.lits ≡ []) }
    ensures size { trail.new.size ≡ trail.old.size }
{
    let open = closure_leaves_open(trail, before, clause, l)?;
    trail.clear();
    Ok(open)
}

// The same, with a trail that isn't empty afterwards.
fn closure_leaves_open(
    trail: &mut Trail,
    before: &Earlier<'_>,
    clause: &[Lit],
    l: Lit,
) -> Result<bool, Memory>
    requires empty { trail.old.lits ≡ [] }
    requires member { Contains clause.now l }
    requires clause_below { AllBelow trail.old.size clause.now }
    requires before_below { All (AllBelow trail.old.size) before.now }
    ensures answer { IfOk result (λ yes. IsTrue yes ↔ IsOpenFor before.now clause.now l) }
    ensures size { trail.new.size ≡ trail.old.size }
{
    if !assume_others_false(trail, clause, l)? {
        return Ok(false);
    }
    if !propagate(trail, before)? {
        return Ok(false);
    }
    match trail.value(l) {
        Value::Unassigned => Ok(true),
        Value::True => Ok(false),
        Value::False => Ok(false),
    }
}

// Makes all literals of a clause but one false, unless that can't be.
fn assume_others_false(trail: &mut Trail, clause: &[Lit], l: Lit) -> Result<bool, Memory>
    requires empty { trail.old.lits ≡ [] }
    requires below { AllBelow trail.old.size clause.now }
    ensures possible { IfOk result (λ yes. IsTrue yes → OthersFalse trail.new.lits clause.now l) }
    ensures least { IfOk result (λ yes. IsTrue yes → (set : List Literal) → OthersFalse set clause.now l → IsSubset trail.new.lits set) }
    ensures refused { IfOk result (λ yes. MatchBool yes (Unit {0}) ((set : List Literal) → IsConsistent set → ¬ OthersFalse set clause.now l)) }
    ensures size { trail.new.size ≡ trail.old.size }
{
    for m in clause {
        if *m == l {
            continue;
        }
        match trail.value(*m) {
            Value::Unassigned => trail.assign(m.negation())?,
            Value::True => return Ok(false),
            Value::False => {}
        }
    }
    Ok(true)
}
