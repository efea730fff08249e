//! From a conflict to the step that is logged.
ghost use Rattle.std.specs.Prelude.{◌≡◌, ◌<◌, ◌≤◌, ◌↔◌, [], ℕ, false, Some, All, Contains, length, reverse, slice_get, IfOk};
ghost use Rattle.eq_proof.specs.Literal.{Literal};
ghost use Rattle.eq_proof.specs.Derivation.{IsDerivation};
ghost use Rattle.eq_cdcl.specs.inner.Sound.{IsSound};
ghost use Rattle.eq_cdcl.specs.inner.Found.{IsConflict};
ghost use Rattle.eq_cdcl.specs.inner.Resolved.{marked};
ghost use Rattle.eq_cdcl.specs.inner.Asserting.{IsLastDecision, HasNoDecision};
ghost use Rattle.eq_cdcl.specs.inner.Teaching.{Teaches};

use crate::analysis::Analysis;
use crate::heuristics::Heuristics;
use crate::known::Known;
use crate::trail::Trail;
use eq_base::{Bits, Items, Memory, Numbers};
use eq_proof::{Clause, Lit, Step};
use std::alloc::Global;

/// What a conflict teaches.
#[derive(Debug, Drop)]
pub struct Learned {
    pub step: Step,
    /// The literal of its clause that is to become true.
    pub literal: Lit,
    /// Of the clause's other literals the one that became false last, if there is one.
    pub second: Option<Lit>,
    /// How many literals of the trail stay: those up to the asserting level.
    pub cut: usize,
    /// The marks of the analysis, all unset again.
    pub marks: Bits,
}

/// Learns from a conflict on a level that begins at the place `start`.
pub fn learn(
    alloc: Global,
    trail: &Trail,
    known: &Known<'_>,
    heuristics: &mut Heuristics,
    marks: Bits,
    conflict: u64,
    start: usize,
) -> Result<Learned, Memory>
    requires sound { IsSound known.now trail.now }
    requires conflict { IsConflict known.now trail.now.lits conflict }
    requires start { IsLastDecision trail.now.reasons start }
    requires clear { (p : ℕ) → marked marks p ≡ false }
    requires room { length trail.now.lits ≤ length marks }
    ensures teaches { IfOk result (Teaches known.now trail.now) }
    ensures clear { IfOk result (λ learned. (p : ℕ) → marked learned.marks p ≡ false) }
    ensures room { IfOk result (λ learned. length learned.marks ≡ length marks) }
{
    let mut analysis = Analysis::new(alloc, marks);
    let count = analysis.begin(trail, known, heuristics, conflict, start)?;
    let uip = analysis.find_uip(trail, known, heuristics, count, start)?;
    analysis.keep(trail, uip)?;
    let cut = analysis.collect(trail, known, heuristics, uip, start)?;
    let Analysis { marks, kept, ants } = analysis;
    heuristics.decay();
    let literal = first_of(kept.as_slice());
    let second = second_of(&kept);
    let step = into_step(alloc, &kept, ants)?;
    Ok(Learned {
        step,
        literal,
        second,
        cut,
        marks,
    })
}

// The first of some literals.
fn first_of(kept: &[Lit]) -> Lit
    requires { 0 < length kept.now }
    ensures { slice_get kept.now 0 ≡ Some result }
{
    kept[0]
}

// The second, if there is one.
fn second_of(kept: &Items<Lit>) -> Option<Lit>
    ensures { slice_get kept.now 1 ≡ result }
{
    kept.get(1).copied()
}

/// Derives the empty clause from a conflict on level 0.
pub fn refute(
    alloc: Global,
    trail: &Trail,
    known: &Known<'_>,
    heuristics: &mut Heuristics,
    marks: Bits,
    conflict: u64,
) -> Result<Step, Memory>
    requires sound { IsSound known.now trail.now }
    requires conflict { IsConflict known.now trail.now.lits conflict }
    requires root { HasNoDecision trail.now.reasons }
    requires clear { (p : ℕ) → marked marks p ≡ false }
    requires room { length trail.now.lits ≤ length marks }
    ensures derived { IfOk result (λ step. IsDerivation known.now step) }
    ensures empty { IfOk result (λ step. step.clause ≡ []) }
{
    let mut analysis = Analysis::new(alloc, marks);
    let _ = analysis.begin(trail, known, heuristics, conflict, 0)?;
    analysis.refute(trail, known, heuristics)?;
    let none = Items::new(alloc);
    let step = into_step(alloc, &none, analysis.ants)?;
    Ok(step)
}

// The step of these literals and antecedents, of which the last comes first.
fn into_step(alloc: Global, kept: &Items<Lit>, ants: Vec<u64>) -> Result<Step, Memory>
    requires { All (λ n. 1 ≤ n) ants.items }
    ensures members { IfOk result (λ step. (l : Literal) → Contains step.clause l ↔
        Contains kept.now l) }
    ensures ants { IfOk result (λ step. step.ants ≡ reverse ants.items) }
{
    let clause = Clause::of(alloc, kept.as_slice())?;
    let ants = Numbers::from_vec(in_order(ants));
    Ok(Step { clause, ants })
}

fn in_order(mut ants: Vec<u64>) -> Vec<u64>
    ensures { result.items ≡ reverse ants.items }
{
    ants.reverse();
    ants
}
