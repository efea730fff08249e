//! The solver's answers, checked by the checker of logs.

use crate::values::{PIGEONS, formula};
use eq_base::Memory;
use eq_cdcl::{Solved, solve};
use eq_proof::{Checked, Formula, Log, check, first_stale};
use std::alloc::Global;
use std::test::Fail;

/// The pigeons over the variables 21 to 32, between twenty clauses of two further variables each.
const PADDED: [i16; 130] = [
    21, 22, 23, 0, 24, 25, 26, 0, 27, 28, 29, 0, 30, 31, 32, 0, // each is in a hole
    -21, -24, 0, -21, -27, 0, -21, -30, 0, -24, -27, 0, -24, -30, 0, -27, -30, 0, // hole 0
    -22, -25, 0, -22, -28, 0, -22, -31, 0, -25, -28, 0, -25, -31, 0, -28, -31, 0, // hole 1
    -23, -26, 0, -23, -29, 0, -23, -32, 0, -26, -29, 0, -26, -32, 0, -29, -32, 0, // hole 2
    1, 2, 0, 3, 4, 0, 5, 6, 0, 7, 8, 0, 9, 10, 0, // below
    11, 12, 0, 13, 14, 0, 15, 16, 0, 17, 18, 0, 19, 20, 0, // below
    33, 34, 0, 35, 36, 0, 37, 38, 0, 39, 40, 0, 41, 42, 0, // above
    43, 44, 0, 45, 46, 0, 47, 48, 0, 49, 50, 0, 51, 52, 0, // above
];

/// Whether a log is one of derivations whose last is the only empty and the only stale one.
pub(crate) fn refutes(alloc: Global, f: &Formula, log: &Log) -> bool {
    let others = log.len().saturating_sub(1);
    let checked = Checked {
        nonempty: u64::from(others),
        ends: true,
    };
    check(alloc, f, log) == Ok(checked) && first_stale(alloc, f, log) == Ok(Some(others))
}

/// Whether a log has this many steps, all fresh derivations.
pub(crate) fn is_spent(alloc: Global, f: &Formula, log: &Log, steps: u32) -> bool {
    let checked = Checked {
        nonempty: u64::from(steps),
        ends: false,
    };
    log.len() == steps
        && check(alloc, f, log) == Ok(checked)
        && first_stale(alloc, f, log) == Ok(None)
}

/// What is to be answered: values, a refutation with so many steps where their number is told, or so many steps.
enum Want {
    Sat(&'static [bool]),
    Unsat(Option<u32>),
    Spent(u32),
}

/// A formula, how many clauses may be learned, and what is to be answered.
struct Case {
    vars: u32,
    clauses: &'static [i16],
    budget: u64,
    want: Want,
}

/// Both values of two variables are ruled out, which takes one learned clause.
const BOTH: [i16; 12] = [1, 2, 0, 1, -2, 0, -1, 2, 0, -1, -2, 0];

/// All values of three variables are ruled out. Whichever is decided first, a clause of two literals is learned, which
/// makes one true after going back; then one of one literal, and at level 0 another.
const EIGHT: [i16; 32] = [
    1, 2, 3, 0, 1, 2, -3, 0, 1, -2, 3, 0, 1, -2, -3, 0, // 1 is false
    -1, 2, 3, 0, -1, 2, -3, 0, -1, -2, 3, 0, -1, -2, -3, 0, // 1 is true
];

/// 1 is learned first, since it is decided to be false first. The search goes on from there: the other three variables are
/// left, of which all values are ruled out.
const LATER: [i16; 38] = [
    1, 2, 0, 1, -2, 0, // 1 is true
    2, 3, 4, 0, 2, 3, -4, 0, 2, -3, 4, 0, 2, -3, -4, 0, // 2 is false
    -2, 3, 4, 0, -2, 3, -4, 0, -2, -3, 4, 0, -2, -3, -4, 0, // 2 is true
];

const CASES: [Case; 17] = [
    Case {
        vars: 12,
        clauses: &PIGEONS,
        budget: 1,
        want: Want::Spent(1),
    },
    Case {
        vars: 12,
        clauses: &PIGEONS,
        budget: 20_000,
        want: Want::Unsat(None),
    },
    Case {
        vars: 52,
        clauses: &PADDED,
        budget: 20_000,
        want: Want::Unsat(None),
    },
    // decided without learning
    Case {
        vars: 2,
        clauses: &[],
        budget: 0,
        want: Want::Sat(&[false, false]),
    },
    Case {
        vars: 2,
        clauses: &[0],
        budget: 0,
        want: Want::Unsat(Some(1)),
    },
    Case {
        vars: 2,
        clauses: &[1, 2, 0, 0],
        budget: 0,
        want: Want::Unsat(Some(1)),
    },
    Case {
        vars: 2,
        clauses: &[1, 0, -1, 0],
        budget: 0,
        want: Want::Unsat(Some(1)),
    },
    Case {
        vars: 2,
        clauses: &[1, -1, 0],
        budget: 0,
        want: Want::Sat(&[false, false]),
    },
    Case {
        vars: 2,
        clauses: &[1, 0, -1, 2, 0],
        budget: 0,
        want: Want::Sat(&[true, true]),
    },
    Case {
        vars: 2,
        clauses: &[1, 0, -1, 2, 0, -2, 0],
        budget: 0,
        want: Want::Unsat(Some(1)),
    },
    Case {
        vars: 2,
        clauses: &BOTH,
        budget: 0,
        want: Want::Spent(0),
    },
    Case {
        vars: 2,
        clauses: &BOTH,
        budget: 1,
        want: Want::Unsat(Some(2)),
    },
    Case {
        vars: 3,
        clauses: &EIGHT,
        budget: 2,
        want: Want::Spent(2),
    },
    Case {
        vars: 3,
        clauses: &EIGHT,
        budget: 3,
        want: Want::Unsat(Some(4)),
    },
    // clauses of one literal are learned in the middle
    Case {
        vars: 4,
        clauses: &LATER,
        budget: 3,
        want: Want::Spent(3),
    },
    Case {
        vars: 4,
        clauses: &LATER,
        budget: 4,
        want: Want::Unsat(Some(5)),
    },
    Case {
        vars: 3,
        clauses: &[1, 2, 0, 1, -2, 0, -1, 3, 0, -2, -3, 0],
        budget: 1,
        want: Want::Sat(&[true, false, true]),
    },
];

/// Whether an answer is the one that is wanted, and its log shows it.
fn is_wanted(alloc: Global, f: &Formula, solved: &Solved, want: &Want) -> bool {
    match (solved, want) {
        (Solved::Sat(bits), Want::Sat(values)) => bits.as_slice() == *values,
        (Solved::Unsat(log), Want::Unsat(steps)) => {
            steps.is_none_or(|steps| log.len() == steps) && refutes(alloc, f, log)
        }
        (Solved::Spent(log), Want::Spent(steps)) => is_spent(alloc, f, log, *steps),
        _ => false,
    }
}

/// Whether a formula is solved as it should be.
fn is_solved_so(alloc: Global, case: &Case) -> Result<bool, Fail> {
    let f = formula(alloc, case.vars, case.clauses)?;
    answers_so(alloc, &f, case)
}

fn answers_so(alloc: Global, f: &Formula, case: &Case) -> Result<bool, Fail> {
    let solved = solve(alloc, f, case.budget.min(1_000_000))?;
    Ok(is_wanted(alloc, f, &solved, &case.want))
}

fn first_wrong(alloc: Global) -> Result<Option<usize>, Fail> {
    for (row, case) in CASES.iter().enumerate() {
        if !is_solved_so(alloc, case)? {
            return Ok(Some(row));
        }
    }
    Ok(None)
}

#[test]
fn formulas_are_solved(rt: HostRuntime) -> Result<(), Fail> {
    assert_eq!(rt; first_wrong(rt.alloc())?, None);
    Ok(())
}

/// How many steps a refutation of a formula has.
fn steps_of(alloc: Global, f: &Formula) -> Result<Option<u32>, Memory> {
    Ok(match solve(alloc, f, 20_000)? {
        Solved::Unsat(log) => Some(log.len()),
        _ => None,
    })
}

/// Whether a formula is refuted within a budget.
fn is_refuted(alloc: Global, f: &Formula, budget: u32) -> Result<bool, Memory> {
    Ok(match solve(alloc, f, u64::from(budget.min(1_000_000)))? {
        Solved::Unsat(log) => refutes(alloc, f, &log),
        _ => false,
    })
}

/// Whether a budget is spent on a formula.
fn spends(alloc: Global, f: &Formula, budget: u32) -> Result<bool, Memory> {
    Ok(match solve(alloc, f, u64::from(budget.min(1_000_000)))? {
        Solved::Spent(log) => is_spent(alloc, f, &log, budget),
        _ => false,
    })
}

/// Whether a formula is refuted within as many learned clauses as its refutation has, and not within one less.
fn is_exact(alloc: Global, vars: u32, clauses: &[i16]) -> Result<bool, Fail> {
    let f = formula(alloc, vars, clauses)?;
    let Some(steps) = steps_of(alloc, &f)? else {
        return Ok(false);
    };
    let learned = steps.saturating_sub(1);
    Ok(is_refuted(alloc, &f, learned)? && spends(alloc, &f, learned.saturating_sub(1))?)
}

#[test]
fn pigeons_are_refuted_with_just_the_budget(rt: HostRuntime) -> Result<(), Fail> {
    let exact = is_exact(rt.alloc(), 12, PIGEONS.as_slice())?;
    assert!(rt; exact);
    Ok(())
}
