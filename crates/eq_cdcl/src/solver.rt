//! The solver.
ghost use Rattle.std.specs.Prelude.{◌≡◌, ◌≤◌, ◌<◌, ◌+◌, ◌-◌, ◌^◌, [], ℕ, false, All, length, IfOk, OnOk};
ghost use Rattle.eq_proof.specs.Assigned.{AllBelow};
ghost use Rattle.eq_proof.specs.Satisfying.{SatisfiesAll};
ghost use Rattle.eq_proof.specs.Derivation.{AllDerive, EndsEmpty};
ghost use Rattle.eq_cdcl.specs.Halting.{value_in};
ghost use Rattle.eq_cdcl.specs.inner.Knowledge.{known_of, IsLogged};
ghost use Rattle.eq_cdcl.specs.inner.Sound.{IsSound};
ghost use Rattle.eq_cdcl.specs.inner.Found.{IsConflict};
ghost use Rattle.eq_cdcl.specs.inner.Resolved.{marked};
ghost use Rattle.eq_cdcl.specs.inner.Asserting.{HasNoDecision};
ghost use Rattle.eq_cdcl.specs.Logged.{FreshBelow};
ghost use Rattle.eq_cdcl.specs.Answer.{IfSat, IfUnsat, IfSpent};
ghost use Rattle.eq_cdcl.specs.inner.Answering.{IsAnswer, IsRefutation};
ghost use Rattle.eq_cdcl.specs.inner.Watched.{Watching};

use crate::backtracking::go_back;
use crate::heuristics::Heuristics;
use crate::known::Known;
use crate::learning::refute;
use crate::levels::last_decision;
use crate::marking::unmarked;
use crate::search::{Halt, search, values};
use crate::starting::start;
use crate::trail::Trail;
use crate::watches::Watches;
use eq_base::{Bits, Memory};
use eq_proof::{Formula, Log};
use std::alloc::Global;

/// What a search comes to.
#[derive(Debug, Drop)]
pub enum Solved {
    /// Values that satisfy the formula, that of the variable v at the place v - 1.
    Sat(Bits),
    /// A log that ends with the empty clause.
    Unsat(Log),
    /// A log of as many learned clauses as the budget allows.
    Spent(Log),
}

/// Searches for values that satisfy a formula, and learns at most `budget` clauses.
///
/// Each learned clause is a fresh derivation: it says what propagation over the clauses before it doesn't give.
pub fn solve(alloc: Global, f: &Formula, budget: u64) -> Result<Solved, Memory>
    requires { budget ≤ 1_000_000 }
    ensures sat_len { IfOk result (λ solved. IfSat solved (λ bits. length bits ≡ f.now.vars)) }
    ensures sat_satisfies { IfOk result (λ solved. IfSat solved
        (λ bits. SatisfiesAll (value_in bits) f.now.clauses)) }
    ensures unsat_derives { IfOk result (λ solved. IfUnsat solved
        (λ log. AllDerive f.now.clauses log)) }
    ensures unsat_ends { IfOk result (λ solved. IfUnsat solved (λ log. EndsEmpty log)) }
    ensures unsat_fresh { IfOk result (λ solved. IfUnsat solved
        (λ log. FreshBelow f.now.clauses log (length log - 1))) }
    ensures unsat_within { IfOk result (λ solved. IfUnsat solved (λ log. length log ≤ budget + 1)) }
    ensures spent_derives { IfOk result (λ solved. IfSpent solved
        (λ log. AllDerive f.now.clauses log)) }
    ensures spent_fresh { IfOk result (λ solved. IfSpent solved
        (λ log. FreshBelow f.now.clauses log (length log))) }
    ensures spent_exact { IfOk result (λ solved. IfSpent solved (λ log. length log ≡ budget)) }
{
    let size = f.vars as usize + 1;
    let mut trail = Trail::new(alloc, size)?;
    let mut watches = Watches::new(alloc, 2 * size)?;
    let marks = unmarked(alloc, size)?;
    let mut heuristics = Heuristics::new(alloc, f.vars)?;
    let log = Log::new(alloc);
    begin(
        alloc,
        f,
        budget,
        &mut trail,
        &mut watches,
        &mut heuristics,
        marks,
        log,
    )
}

// Watches the formula's clauses, and searches unless one is falsified.
fn begin(
    alloc: Global,
    f: &Formula,
    budget: u64,
    trail: &mut Trail,
    watches: &mut Watches,
    heuristics: &mut Heuristics,
    marks: Bits,
    log: Log,
) -> Result<Solved, Memory>
    requires few { budget ≤ 1_000_000 }
    requires trail { trail.old ≡ record { size = f.now.vars + 1; lits = []; reasons = [] } }
    requires watching { Watching [] trail.old watches.old }
    requires head { watches.old.head ≡ 0 }
    requires clear { (p : ℕ) → marked marks p ≡ false }
    requires room { length marks ≡ trail.old.size }
    requires log { log ≡ [] }
    ensures { IfOk result (IsAnswer f.now.clauses f.now.vars budget) }
{
    let known = Known::new(f, &log);
    match start(trail, watches, &known)? {
        Some(conflict) => {
            // Its clause says that there are no more literals than marks.
            let _ = trail.len();
            refuted(alloc, f, trail, heuristics, marks, log, conflict)
        }
        None => run(alloc, f, budget, trail, watches, heuristics, marks, log),
    }
}

// Searches on from a trail and a log.
fn run(
    alloc: Global,
    f: &Formula,
    budget: u64,
    trail: &mut Trail,
    watches: &mut Watches,
    heuristics: &mut Heuristics,
    mut marks: Bits,
    mut log: Log,
) -> Result<Solved, Memory>
    requires few { budget ≤ 1_000_000 }
    requires size { trail.old.size ≡ f.now.vars + 1 }
    requires sound { IsSound (known_of f.now.clauses log) trail.old }
    requires watching { Watching (known_of f.now.clauses log) trail.old watches.old }
    requires below { All (AllBelow trail.old.size) (known_of f.now.clauses log) }
    requires clear { (p : ℕ) → marked marks p ≡ false }
    requires room { length marks ≡ trail.old.size }
    requires logged { IsLogged f.now.clauses log }
    requires within { length log ≤ budget }
    ensures { IfOk result (IsAnswer f.now.clauses f.now.vars budget) }
{
    loop {
        let known = Known::new(f, &log);
        let conflict = match search(trail, watches, &known, heuristics, f.vars)? {
            Halt::Satisfied => return Ok(Solved::Sat(values(alloc, trail, f.vars)?)),
            Halt::Conflict(number) => number,
        };
        let Some(start) = last_decision(trail) else {
            return refuted(alloc, f, trail, heuristics, marks, log, conflict);
        };
        if u64::from(log.len()) == budget {
            return Ok(Solved::Spent(log));
        }
        marks = go_back(
            alloc, f, trail, watches, heuristics, &mut log, marks, conflict, start,
        )?;
    }
}

// The log that a conflict on level 0 ends.
fn refuted(
    alloc: Global,
    f: &Formula,
    trail: &Trail,
    heuristics: &mut Heuristics,
    marks: Bits,
    mut log: Log,
    conflict: u64,
) -> Result<Solved, Memory>
    requires sound { IsSound (known_of f.now.clauses log) trail.now }
    requires conflict { IsConflict (known_of f.now.clauses log) trail.now.lits conflict }
    requires root { HasNoDecision trail.now.reasons }
    requires clear { (p : ℕ) → marked marks p ≡ false }
    requires room { length trail.now.lits ≤ length marks }
    requires logged { IsLogged f.now.clauses log }
    requires few { length log + 1 < 2 ^ 32 }
    ensures { IfOk result (IsRefutation f.now.clauses (length log)) }
{
    let known = Known::new(f, &log);
    let step = refute(alloc, trail, &known, heuristics, marks, conflict)?;
    log.push(step)?;
    Ok(Solved::Unsat(log))
}
