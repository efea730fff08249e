//! The solver's answers for drawn formulas, checked by evaluation and by a listing of all values.

use crate::solving::{is_spent, refutes};
use crate::values::formula;
use eq_base::Memory;
use eq_cdcl::{Solved, solve};
use eq_proof::Formula;
use std::alloc::Global;
use std::test::Fail;

/// Numbers that look random.
#[derive(Drop)]
struct Draw {
    state: u64,
}

impl Draw {
    // Steele and Vigna, 'Computationally easy, spectrally good multipliers for congruential pseudorandom number generators', 2021.
    fn next(&mut self, below: u64) -> u64 {
        self.state = self
            .state
            .wrapping_mul(0xd134_2543_de82_ef95)
            .wrapping_add(1);
        (self.state >> 40) % below.max(1)
    }
}

const VARIABLES: u64 = 20;

/// Numbers of a clause with three different variables.
fn draw_clause(draw: &mut Draw) -> [i16; 4] {
    let a = draw.next(VARIABLES);
    let b = a.wrapping_add(1).wrapping_add(draw.next(9)) % VARIABLES;
    let c = a.wrapping_add(10).wrapping_add(draw.next(10)) % VARIABLES;
    let signs = draw.next(8);
    [
        signed(a, signs % 2),
        signed(b, signs / 2 % 2),
        signed(c, signs / 4),
        0,
    ]
}

/// Numbers of 86 clauses.
fn draw_numbers(alloc: Global, draw: &mut Draw) -> Result<Vec<i16>, Memory> {
    let mut numbers = Vec::new(alloc);
    for _ in 0..86 {
        let clause = draw_clause(draw);
        numbers.extend_from_slice(clause.as_slice())?;
    }
    Ok(numbers)
}

fn signed(place: u64, sign: u64) -> i16 {
    let number = i16::try_from(place % VARIABLES + 1).unwrap_or(1);
    if sign == 0 {
        number
    } else {
        number.wrapping_neg()
    }
}

/// The values of a variable in 64 lists of values at once: all of the first six variables, and one of the others.
fn lanes(place: u32, others: u32) -> u64 {
    match place {
        0 => 0xaaaa_aaaa_aaaa_aaaa,
        1 => 0xcccc_cccc_cccc_cccc,
        2 => 0xf0f0_f0f0_f0f0_f0f0,
        3 => 0xff00_ff00_ff00_ff00,
        4 => 0xffff_0000_ffff_0000,
        5 => 0xffff_ffff_0000_0000,
        _ => {
            if others >> (place.wrapping_sub(6) % 32) & 1 == 1 {
                u64::MAX
            } else {
                0
            }
        }
    }
}

/// In which of 64 lists of values all clauses are satisfied.
fn satisfied(numbers: &[i16], others: u32) -> u64 {
    let mut all = u64::MAX;
    let mut any = 0u64;
    for number in numbers {
        if *number == 0 {
            all &= any;
            any = 0;
            if all == 0 {
                return 0;
            }
        } else {
            let values = lanes(u32::from(number.unsigned_abs()).wrapping_sub(1), others);
            any |= if 0 < *number { values } else { !values };
        }
    }
    all
}

/// Whether one of all lists of values of so many variables, at most 37, satisfies all clauses.
pub(crate) fn is_satisfiable(numbers: &[i16], variables: u32) -> bool {
    let lists = 1u32 << variables.saturating_sub(6).min(31);
    for others in 0..lists {
        if satisfied(numbers, others) != 0 {
            return true;
        }
    }
    false
}

/// Whether these values satisfy all clauses.
fn satisfies(numbers: &[i16], bits: &[bool]) -> bool {
    let mut holds = false;
    for number in numbers {
        if *number == 0 {
            if !holds {
                return false;
            }
            holds = false;
        } else {
            let place = usize::from(number.unsigned_abs()).wrapping_sub(1);
            holds |= bits.get(place).copied() == Some(0 < *number);
        }
    }
    true
}

/// Whether the answer within a budget shows what it must, and is the one that is wanted unless the budget is spent.
fn agrees(
    alloc: Global,
    f: &Formula,
    numbers: &[i16],
    want: bool,
    budget: u32,
) -> Result<bool, Memory> {
    Ok(match solve(alloc, f, u64::from(budget.min(1_000_000)))? {
        Solved::Sat(bits) => want && bits.len() == 20 && satisfies(numbers, bits.as_slice()),
        Solved::Unsat(log) => !want && refutes(alloc, f, &log),
        Solved::Spent(log) => budget < 3 && is_spent(alloc, f, &log, budget),
    })
}

/// Whether a drawn formula has a solution, if the solver agrees with ample budget and with little.
fn drawn(alloc: Global, draw: &mut Draw) -> Result<Option<bool>, Fail> {
    let numbers = draw_numbers(alloc, draw)?;
    let numbers = numbers.as_slice();
    let f = formula(alloc, 20, numbers)?;
    let want = is_satisfiable(numbers, 20);
    let agrees = agrees(alloc, &f, numbers, want, 1_000_000)?
        && agrees(alloc, &f, numbers, want, 2)?;
    Ok(if agrees { Some(want) } else { None })
}

/// How many of a hundred drawn formulas have a solution, if the solver agrees on all.
fn satisfiable(alloc: Global) -> Result<Option<u32>, Fail> {
    let mut draw = Draw { state: 7 };
    let mut count = 0u32;
    for _ in 0..100 {
        let Some(is_satisfiable) = drawn(alloc, &mut draw)? else {
            return Ok(None);
        };
        count = count.saturating_add(u32::from(is_satisfiable));
    }
    Ok(Some(count))
}

#[test]
fn drawn_formulas_are_solved(rt: HostRuntime) -> Result<(), Fail> {
    let count = satisfiable(rt.alloc())?;
    assert!(rt; count.is_some_and(|count| 20 < count && count < 80));
    Ok(())
}
