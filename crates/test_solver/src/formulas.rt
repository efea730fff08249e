//! Formulas of parts, literal by literal.

use crate::tables::{
    INPUTS_ALONE, KINDS, NOTHING, ONE_NODE, REPEATS, SMALLEST, TWO_OUTPUTS, Table, made,
};
use eq_base::Memory;
use eq_bits::Part;
use eq_proof::{Formula, Lit};
use eq_unroll::{Query, clause_count, formula, is_unrollable};
use std::alloc::Global;
use std::test::Fail;

/// The smallest part in one cycle.
const SMALLEST_BASE_1: [i16; 78] = [
    1, -3, 0, 2, -3, 0, -1, -2, 3, 0, 3, -4, 0, -3, 4, 0, // a & b, and its net
    1, 5, 0, -1, -5, 0, 2, 6, 0, -2, -6, 0, 5, 7, 0, -5, -7, 0, 6, 8, 0, -6, -8, 0, // ~~a, ~~b
    7, -9, 0, 8, -9, 0, -7, -8, 9, 0, 9, 10, 0, -9, -10, 0, // ~a | ~b
    10, 11, 0, -10, -11, 0, 11, -12, 0, -11, 12, 0, // its negation, and its net
    4, 12, -13, 0, -4, -12, -13, 0, 13, 0, // they differ
];

/// The same in two cycles, and equal in the first.
const SMALLEST_STEP_1: [i16; 152] = [
    1, -3, 0, 2, -3, 0, -1, -2, 3, 0, 3, -4, 0, -3, 4, 0, // frame 0
    1, 5, 0, -1, -5, 0, 2, 6, 0, -2, -6, 0, 5, 7, 0, -5, -7, 0, 6, 8, 0, -6, -8, 0, //
    7, -9, 0, 8, -9, 0, -7, -8, 9, 0, 9, 10, 0, -9, -10, 0, //
    10, 11, 0, -10, -11, 0, 11, -12, 0, -11, 12, 0, //
    13, -15, 0, 14, -15, 0, -13, -14, 15, 0, 15, -16, 0, -15, 16, 0, // frame 1
    13, 17, 0, -13, -17, 0, 14, 18, 0, -14, -18, 0, //
    17, 19, 0, -17, -19, 0, 18, 20, 0, -18, -20, 0, //
    19, -21, 0, 20, -21, 0, -19, -20, 21, 0, 21, 22, 0, -21, -22, 0, //
    22, 23, 0, -22, -23, 0, 23, -24, 0, -23, 24, 0, //
    -4, 12, 0, 4, -12, 0, // equal in frame 0
    16, 24, -25, 0, -16, -24, -25, 0, 25, 0, // they differ in frame 1
];

/// Each kind of node in two cycles from the initial values.
const KINDS_BASE_2: [i16; 174] = [
    4, 0, -5, 0, 1, 6, 0, -1, -6, 0, 2, -7, 0, 1, -7, 0, -1, -2, 7, 0, // constants, Not, And
    2, 3, -8, 0, -2, -3, -8, 0, 2, -3, 8, 0, -2, 3, 8, 0, // Xor
    -1, -2, 9, 0, -1, 2, -9, 0, 1, -3, 9, 0, 1, 3, -9, 0, 9, -10, 0, -9, 10, 0, // Mux, Buf
    11, 0, -12, 0, 11, 12, -13, 0, -11, -12, -13, 0, -11, 12, 13, 0, 11, -12, 13, 0, // registers
    17, 0, -18, 0, 14, 19, 0, -14, -19, 0, 15, -20, 0, 14, -20, 0, -14, -15, 20, 0, // frame 1
    15, 16, -21, 0, -15, -16, -21, 0, 15, -16, 21, 0, -15, 16, 21, 0, //
    -14, -15, 22, 0, -14, 15, -22, 0, 14, -16, 22, 0, 14, 16, -22, 0, 22, -23, 0, -22, 23, 0, //
    7, -24, 0, -7, 24, 0, 13, -25, 0, -13, 25, 0, // registers from frame 0
    24, 25, -26, 0, -24, -25, -26, 0, -24, 25, 26, 0, 24, -25, 26, 0, //
    23, 26, -27, 0, -23, -26, -27, 0, 27, 0, // they differ in frame 1
];

/// Each kind of node in two cycles from any values, and equal in the first.
const KINDS_STEP_1: [i16; 176] = [
    4, 0, -5, 0, 1, 6, 0, -1, -6, 0, 2, -7, 0, 1, -7, 0, -1, -2, 7, 0, // frame 0
    2, 3, -8, 0, -2, -3, -8, 0, 2, -3, 8, 0, -2, 3, 8, 0, //
    -1, -2, 9, 0, -1, 2, -9, 0, 1, -3, 9, 0, 1, 3, -9, 0, 9, -10, 0, -9, 10, 0, //
    11, 12, -13, 0, -11, -12, -13, 0, -11, 12, 13, 0, 11, -12, 13, 0, //
    17, 0, -18, 0, 14, 19, 0, -14, -19, 0, 15, -20, 0, 14, -20, 0, -14, -15, 20, 0, // frame 1
    15, 16, -21, 0, -15, -16, -21, 0, 15, -16, 21, 0, -15, 16, 21, 0, //
    -14, -15, 22, 0, -14, 15, -22, 0, 14, -16, 22, 0, 14, 16, -22, 0, 22, -23, 0, -22, 23, 0, //
    7, -24, 0, -7, 24, 0, 13, -25, 0, -13, 25, 0, // registers from frame 0
    24, 25, -26, 0, -24, -25, -26, 0, -24, 25, 26, 0, 24, -25, 26, 0, //
    -10, 13, 0, 10, -13, 0, // equal in frame 0
    23, 26, -27, 0, -23, -26, -27, 0, 27, 0, // they differ in frame 1
];

/// Literals that stand once, and clauses with a literal and its negation.
const REPEATS_BASE_1: [i16; 79] = [
    1, -3, 0, 1, -3, 0, -1, 3, 0, // And 0 0
    1, -4, 0, -1, -4, 0, 1, -1, 4, 0, 1, -1, 4, 0, // Xor 0 0
    -1, 5, 0, 1, -1, -5, 0, 1, -2, 5, 0, 1, 2, -5, 0, // Mux 0 0 1
    -1, -2, 6, 0, 1, -2, -6, 0, -1, 2, 6, 0, 1, 2, -6, 0, // Mux 1 0 0
    -1, -2, 7, 0, -1, 2, -7, 0, 1, -1, 7, 0, 1, -7, 0, // Mux 0 1 0
    3, 4, -8, 0, -3, -4, -8, 0, 8, 0, //
];

const TWO_OUTPUTS_STEP_1: [i16; 83] = [
    1, -3, 0, 2, -3, 0, -1, -2, 3, 0, // frame 0
    1, 2, -4, 0, -1, -2, -4, 0, -1, 2, 4, 0, 1, -2, 4, 0, //
    5, -7, 0, 6, -7, 0, -5, -6, 7, 0, // frame 1
    5, 6, -8, 0, -5, -6, -8, 0, -5, 6, 8, 0, 5, -6, 8, 0, //
    -1, 3, 0, 1, -3, 0, -2, 4, 0, 2, -4, 0, // both equal in frame 0
    5, 7, -9, 0, -5, -7, -9, 0, 6, 8, -10, 0, -6, -8, -10, 0, 9, 10, 0, // one differs in frame 1
];

/// A part's query, the greatest variable of its formula, and its clauses, each ended by 0.
struct Case {
    part: &'static Table,
    query: Query,
    k: u32,
    vars: u32,
    numbers: &'static [i16],
}

const CASES: [Case; 13] = [
    Case {
        part: &SMALLEST,
        query: Query::Base,
        k: 1,
        vars: 13,
        numbers: &SMALLEST_BASE_1,
    },
    Case {
        part: &SMALLEST,
        query: Query::Step,
        k: 1,
        vars: 25,
        numbers: &SMALLEST_STEP_1,
    },
    Case {
        part: &KINDS,
        query: Query::Base,
        k: 2,
        vars: 27,
        numbers: &KINDS_BASE_2,
    },
    Case {
        part: &KINDS,
        query: Query::Step,
        k: 1,
        vars: 27,
        numbers: &KINDS_STEP_1,
    },
    Case {
        part: &REPEATS,
        query: Query::Base,
        k: 1,
        vars: 8,
        numbers: &REPEATS_BASE_1,
    },
    Case {
        part: &TWO_OUTPUTS,
        query: Query::Base,
        k: 1,
        vars: 6,
        numbers: &[
            1, -3, 0, 2, -3, 0, -1, -2, 3, 0, 1, 2, -4, 0, -1, -2, -4, 0, -1, 2, 4, 0, 1, -2, 4, 0,
            1, 3, -5, 0, -1, -3, -5, 0, 2, 4, -6, 0, -2, -4, -6, 0, 5, 6, 0,
        ],
    },
    Case {
        part: &TWO_OUTPUTS,
        query: Query::Step,
        k: 1,
        vars: 10,
        numbers: &TWO_OUTPUTS_STEP_1,
    },
    Case {
        part: &INPUTS_ALONE,
        query: Query::Base,
        k: 1,
        vars: 3,
        numbers: &[1, 2, -3, 0, -1, -2, -3, 0, 3, 0],
    },
    Case {
        part: &INPUTS_ALONE,
        query: Query::Step,
        k: 2,
        vars: 7,
        numbers: &[
            -1, 2, 0, 1, -2, 0, -3, 4, 0, 3, -4, 0, 5, 6, -7, 0, -5, -6, -7, 0, 7, 0,
        ],
    },
    Case {
        part: &ONE_NODE,
        query: Query::Base,
        k: 1,
        vars: 2,
        numbers: &[1, -2, 0, -1, -2, 0, 2, 0],
    },
    Case {
        part: &ONE_NODE,
        query: Query::Step,
        k: 1,
        vars: 3,
        numbers: &[1, -1, 0, 1, -1, 0, 2, -3, 0, -2, -3, 0, 3, 0],
    },
    Case {
        part: &NOTHING,
        query: Query::Base,
        k: 64,
        vars: 0,
        numbers: &[0],
    },
    Case {
        part: &NOTHING,
        query: Query::Step,
        k: 64,
        vars: 0,
        numbers: &[0],
    },
];

/// The number of a literal, as in DIMACS.
fn number(lit: Lit) -> i16 {
    let number = i16::try_from(lit.var()).unwrap_or(i16::MAX);
    if lit.positive() {
        number
    } else {
        number.wrapping_neg()
    }
}

/// The numbers of a clause, and 0.
fn push_numbers(numbers: &mut Vec<i16>, clause: &[Lit]) -> Result<(), Memory> {
    for lit in clause {
        numbers.push(number(*lit))?;
    }
    numbers.push(0)?;
    Ok(())
}

/// The numbers of all clauses.
pub(crate) fn numbers_of(alloc: Global, f: &Formula) -> Result<Vec<i16>, Memory> {
    let mut numbers = Vec::new(alloc);
    for place in 0..f.clauses.len() {
        push_numbers(&mut numbers, f.clauses.at(place))?;
    }
    Ok(numbers)
}

/// The formula of a part's query, if its length is what is counted.
pub(crate) fn counted(alloc: Global, part: &Part, query: Query, k: u32) -> Result<Formula, Fail> {
    if !is_unrollable(part, k) {
        return Err(Fail::from("k is out of range"));
    }
    let f = formula(alloc, part, query, k)?;
    if f.clauses.len() as u64 != clause_count(part, query, k) {
        return Err(Fail::from("another number of clauses"));
    }
    Ok(f)
}

fn has_numbers(alloc: Global, f: &Formula, numbers: &[i16]) -> Result<bool, Memory> {
    Ok(numbers_of(alloc, f)?.as_slice() == numbers)
}

/// Whether a query's formula is this one.
fn is_so(alloc: Global, case: &Case) -> Result<bool, Fail> {
    let part = made(alloc, case.part)?;
    let f = counted(alloc, &part, case.query, case.k)?;
    Ok(f.vars == case.vars && has_numbers(alloc, &f, case.numbers)?)
}

fn first_wrong(alloc: Global) -> Result<Option<usize>, Fail> {
    for (row, case) in CASES.iter().enumerate() {
        if !is_so(alloc, case)? {
            return Ok(Some(row));
        }
    }
    Ok(None)
}

#[test]
fn formulas_have_their_literals(rt: HostRuntime) -> Result<(), Fail> {
    assert_eq!(rt; first_wrong(rt.alloc())?, None);
    Ok(())
}
