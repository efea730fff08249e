//! The solver on formulas with many variables.

use eq_base::Memory;
use eq_cdcl::{Solved, solve};
use eq_proof::{Clause, Clauses, Formula, Lit};
use std::alloc::Global;
use std::test::Fail;

/// How many variables a chain has.
const LENGTH: u32 = 400_000;

/// A variable implies the next one.
fn implication(alloc: Global, var: u32) -> Result<Clause, Memory> {
    let var = var.clamp(1, LENGTH);
    let lits = [Lit::new(var, false), Lit::new(var + 1, true)];
    Clause::of(alloc, lits.as_slice())
}

/// Each variable implies the next one, the last of them first, and the first one is true.
fn chain(alloc: Global) -> Result<Clauses, Memory> {
    let mut clauses = Clauses::new(alloc);
    for before in 1..LENGTH {
        clauses.push(implication(alloc, LENGTH - before)?)?;
    }
    let lits = [Lit::new(1, true)];
    clauses.push(Clause::of(alloc, lits.as_slice())?)?;
    Ok(clauses)
}

/// Whether the solver finds that all variables are true, without learning.
fn is_all_true(alloc: Global) -> Result<bool, Fail> {
    let clauses = chain(alloc)?;
    if !clauses.are_within(LENGTH) {
        return Err(Fail::from("a variable is too large"));
    }
    let f = Formula {
        vars: LENGTH,
        clauses,
    };
    Ok(match solve(alloc, &f, 0)? {
        Solved::Sat(bits) => bits.as_slice().iter().all(|bit| *bit),
        _ => false,
    })
}

#[test]
fn long_chains_are_satisfied(rt: HostRuntime) -> Result<(), Fail> {
    let all_true = is_all_true(rt.alloc())?;
    assert!(rt; all_true);
    Ok(())
}
