//! The checker and the search for stale steps on formulas and logs made by hand.

use crate::values::{PIGEONS, Row, clause, formula, lits, log, step};
use eq_base::Memory;
use eq_proof::{CheckErr, Checked, Formula, Log, Step, check, first_stale};
use std::alloc::Global;
use std::test::Fail;

/// A formula and a log, how the log is checked, and its first stale step.
struct Case {
    vars: u32,
    clauses: &'static [i16],
    steps: &'static [Row],
    checked: Result<Checked, CheckErr>,
    stale: Option<u32>,
}

/// A variable that is true and false.
const CLASH: [i16; 4] = [1, 0, -1, 0];

/// Numbers 23 to 30 over the pigeons: pigeon 0 is in no hole. Once number 26 is there, propagation gives -6 from 2 and -2
/// from 6.
const REFUTATION: [Row; 8] = [
    (&[-1, -5], &[6, 7, 14, 15, 3, 4, 22]),
    (&[-1, -6], &[6, 7, 20, 21, 3, 4, 16]),
    (&[-1], &[5, 23, 2, 24]),
    (&[-2, -4], &[12, 13, 8, 9, 3, 4, 22]),
    (&[-2, -6], &[12, 13, 20, 21, 3, 4, 10]),
    (&[-2], &[11, 26, 2, 27]),
    (&[-3, -4], &[18, 19, 8, 9, 3, 4, 16]),
    (&[], &[25, 28, 1, 17, 18, 19, 29, 2, 14, 3, 15, 4, 10]),
];

/// The first four of these.
const PART: [Row; 4] = [
    (&[-1, -5], &[6, 7, 14, 15, 3, 4, 22]),
    (&[-1, -6], &[6, 7, 20, 21, 3, 4, 16]),
    (&[-1], &[5, 23, 2, 24]),
    (&[-2, -4], &[12, 13, 8, 9, 3, 4, 22]),
];

/// The first three of these, and a fourth at whose end number 16 isn't falsified.
const WRONG_FOURTH: [Row; 4] = [
    (&[-1, -5], &[6, 7, 14, 15, 3, 4, 22]),
    (&[-1, -6], &[6, 7, 20, 21, 3, 4, 16]),
    (&[-1], &[5, 23, 2, 24]),
    (&[-2, -4], &[12, 13, 8, 9, 3, 4, 16]),
];

const CASES: [Case; 6] = [
    Case {
        vars: 1,
        clauses: &CLASH,
        steps: &[(&[], &[1, 2])],
        checked: Ok(Checked {
            nonempty: 0,
            ends: true,
        }),
        stale: Some(0),
    },
    Case {
        vars: 1,
        clauses: &CLASH,
        steps: &[(&[], &[2])],
        checked: Err(CheckErr::BadStep { index: 0 }),
        stale: Some(0),
    },
    Case {
        vars: 1,
        clauses: &CLASH,
        steps: &[],
        checked: Ok(Checked {
            nonempty: 0,
            ends: false,
        }),
        stale: None,
    },
    Case {
        vars: 12,
        clauses: &PIGEONS,
        steps: &REFUTATION,
        checked: Ok(Checked {
            nonempty: 7,
            ends: true,
        }),
        stale: Some(4),
    },
    Case {
        vars: 12,
        clauses: &PIGEONS,
        steps: &PART,
        checked: Ok(Checked {
            nonempty: 4,
            ends: false,
        }),
        stale: None,
    },
    Case {
        vars: 12,
        clauses: &PIGEONS,
        steps: &WRONG_FOURTH,
        checked: Err(CheckErr::BadStep { index: 3 }),
        stale: None,
    },
];

/// Whether a log is checked so, and whether its first stale step is this one.
fn holds(alloc: Global, case: &Case) -> Result<bool, Fail> {
    let f = formula(alloc, case.vars, case.clauses)?;
    let log = log(alloc, case.steps)?;
    Ok(check(alloc, &f, &log) == case.checked && first_stale(alloc, &f, &log) == Ok(case.stale))
}

fn first_wrong(alloc: Global) -> Result<Option<usize>, Fail> {
    for (row, case) in CASES.iter().enumerate() {
        if !holds(alloc, case)? {
            return Ok(Some(row));
        }
    }
    Ok(None)
}

#[test]
fn logs_are_checked(rt: HostRuntime) -> Result<(), Fail> {
    assert_eq!(rt; first_wrong(rt.alloc())?, None);
    Ok(())
}

/// First steps over the pigeons that are no derivations.
const WRONG: [Row; 10] = [
    // no antecedents
    (&[-1, -5], &[]),
    // the first has three literals without value
    (&[-1, -5], &[3, 6, 7, 14, 15, 4, 22]),
    // the last is unit
    (&[-1, -5], &[6, 7, 14, 15, 3, 4]),
    // the last has a true literal
    (&[-1, -5], &[6, 7, 14, 15, 3, 4, 1]),
    // one before the last has a true literal
    (&[-1, -5], &[1, 6, 7, 14, 15, 3, 4, 22]),
    // one before the last has all literals false
    (&[-1, -5], &[6, 7, 14, 15, 3, 4, 22, 22]),
    // its own number, and one after it
    (&[-1, -5], &[6, 7, 14, 15, 3, 4, 23]),
    (&[-1, -5], &[6, 7, 14, 15, 3, 4, 24]),
    // the clause says too much
    (&[-1], &[5, 6, 7, 2]),
    // a literal stands beside its negation
    (&[-1, 1], &[5, 6, 7, 2]),
];

/// Whether a log of one step is refused.
fn is_refused(alloc: Global, f: &Formula, step: Row) -> Result<bool, Fail> {
    let one = log(alloc, &[step])?;
    Ok(check(alloc, f, &one) == Err(CheckErr::BadStep { index: 0 }))
}

/// The first of these that isn't refused.
fn first_accepted(alloc: Global) -> Result<Option<usize>, Fail> {
    let f = formula(alloc, 12, &PIGEONS)?;
    for (row, step) in WRONG.iter().enumerate() {
        if !is_refused(alloc, &f, *step)? {
            return Ok(Some(row));
        }
    }
    Ok(None)
}

#[test]
fn wrong_steps_are_refused(rt: HostRuntime) -> Result<(), Fail> {
    assert_eq!(rt; first_accepted(rt.alloc())?, None);
    Ok(())
}

/// First steps over the pigeons, and whether they are fresh.
const FRESHNESS: [(&[i16], bool); 9] = [
    (&[-1, -5], true),
    (&[-1], true),
    (&[1, 2], true),
    (&[13], true),
    (&[1, 2, 3], false),
    (&[1, 2, 3, 4], false),
    (&[-1, -4, -5], false),
    (&[-1, 1], false),
    (&[], false),
];

/// Whether a log of one step is said to be fresh, or stale where it is.
fn is_judged(
    alloc: Global,
    f: &Formula,
    numbers: &'static [i16],
    fresh: bool,
) -> Result<bool, Fail> {
    let one = log(alloc, &[(numbers, &[])])?;
    let stale = if fresh { None } else { Some(0) };
    Ok(first_stale(alloc, f, &one) == Ok(stale))
}

/// The first of these that is fresh and is said to be stale, or the other way round.
fn first_misjudged(alloc: Global) -> Result<Option<usize>, Fail> {
    let f = formula(alloc, 12, &PIGEONS)?;
    for (row, (numbers, fresh)) in FRESHNESS.iter().enumerate() {
        if !is_judged(alloc, &f, numbers, *fresh)? {
            return Ok(Some(row));
        }
    }
    Ok(None)
}

#[test]
fn fresh_steps_are_known(rt: HostRuntime) -> Result<(), Fail> {
    assert_eq!(rt; first_misjudged(rt.alloc())?, None);
    Ok(())
}

/// Whether a clause of some literals is in order and has each once.
fn clause_is_in_order(alloc: Global) -> Result<bool, Memory> {
    let made = clause(alloc, &[3, -1, 1, -1, 3])?;
    let wanted = lits(alloc, &[1, -1, 3])?;
    Ok(made.lits() == wanted.as_slice())
}

#[test]
fn a_clause_is_in_order_and_has_each_literal_once(rt: HostRuntime) -> Result<(), Fail> {
    assert!(rt; clause_is_in_order(rt.alloc())?);
    Ok(())
}

/// What may move between threads and be shared by them.
fn crosses<T: Send + Sync>(_value: &T) {}

/// The types of formulas, logs, steps and faults cross threads.
fn all_cross(f: &Formula, log: &Log, step: &Step, fault: &CheckErr) {
    crosses(f);
    crosses(log);
    crosses(step);
    crosses(fault);
}

fn crossing(alloc: Global) -> Result<(), Fail> {
    let step = step(alloc, &[1], &[])?;
    let f = formula(alloc, 1, &CLASH)?;
    all_cross(&f, &Log::new(alloc), &step, &CheckErr::Memory);
    Ok(())
}

#[test]
fn formulas_logs_and_faults_cross_threads(rt: HostRuntime) -> Result<(), Fail> {
    crossing(rt.alloc())
}
