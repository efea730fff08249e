//! Formulas and logs of numbers, as in DIMACS and LRAT.

use eq_base::{Memory, Numbers};
use eq_proof::{Clause, Clauses, Formula, Lit, Log, Step};
use std::alloc::Global;
use std::test::Fail;

/// A clause's numbers, and its antecedents.
pub(crate) type Row = (&'static [i16], &'static [u64]);

/// Four pigeons in three holes: variable 3 i + j + 1 says that pigeon i is in hole j.
pub(crate) const PIGEONS: [i16; 70] = [
    1, 2, 3, 0, 4, 5, 6, 0, 7, 8, 9, 0, 10, 11, 12, 0, // each is in a hole
    -1, -4, 0, -1, -7, 0, -1, -10, 0, -4, -7, 0, -4, -10, 0, -7, -10, 0, // hole 0
    -2, -5, 0, -2, -8, 0, -2, -11, 0, -5, -8, 0, -5, -11, 0, -8, -11, 0, // hole 1
    -3, -6, 0, -3, -9, 0, -3, -12, 0, -6, -9, 0, -6, -12, 0, -9, -12, 0, // hole 2
];

/// The literal with this number; 0 has none, and is read as 1.
fn lit(number: i16) -> Lit {
    let var = u32::from(number.unsigned_abs()).max(1);
    Lit::new(var, 0 <= number)
}

/// The literals with these numbers.
pub(crate) fn lits(alloc: Global, numbers: &[i16]) -> Result<Vec<Lit>, Memory> {
    let mut lits = Vec::new(alloc);
    for number in numbers {
        lits.push(lit(*number))?;
    }
    Ok(lits)
}

/// The clause of the literals with these numbers.
pub(crate) fn clause(alloc: Global, numbers: &[i16]) -> Result<Clause, Memory> {
    let lits = lits(alloc, numbers)?;
    Clause::of(alloc, lits.as_slice())
}

/// The clauses of these numbers, each ended by 0.
fn clauses(alloc: Global, numbers: &[i16]) -> Result<Clauses, Memory> {
    let mut clauses = Clauses::new(alloc);
    let mut lits = Vec::new(alloc);
    for number in numbers {
        if *number == 0 {
            clauses.push(Clause::of(alloc, lits.as_slice())?)?;
            lits = Vec::new(alloc);
        } else {
            lits.push(lit(*number))?;
        }
    }
    Ok(clauses)
}

/// The formula of clauses of these numbers, each ended by 0.
pub(crate) fn formula(alloc: Global, vars: u32, numbers: &[i16]) -> Result<Formula, Fail> {
    let clauses = clauses(alloc, numbers)?;
    if !clauses.are_within(vars) {
        return Err(Fail::from("a variable is too large"));
    }
    Ok(Formula { vars, clauses })
}

pub(crate) fn step(alloc: Global, numbers: &[i16], ants: &[u64]) -> Result<Step, Fail> {
    if !Step::are_from_one(ants) {
        return Err(Fail::from("an antecedent is 0"));
    }
    let clause = clause(alloc, numbers)?;
    let ants = Numbers::from_slice(alloc, ants)?;
    Ok(Step { clause, ants })
}

/// The log of these steps.
pub(crate) fn log(alloc: Global, rows: &[Row]) -> Result<Log, Fail> {
    let mut log = Log::new(alloc);
    for (numbers, ants) in rows {
        if 1000 <= log.len() {
            return Err(Fail::from("too many steps"));
        }
        log.push(step(alloc, numbers, ants)?)?;
    }
    Ok(log)
}
