//! Which queries hold of small parts: by a listing of all values of the formula's variables, and by the solver, whose values
//! show a run.

ghost use Rattle.eq_proof.specs.Satisfying.{SatisfiesAll};
ghost use Rattle.eq_unroll.specs.Query.{IsUnrollable};
ghost use Rattle.eq_unroll.specs.Unrolling.{unrolled};
ghost use Rattle.eq_unroll.specs.Values.{value_of};

use crate::drawing::is_satisfiable;
use crate::formulas::{counted, numbers_of};
use crate::tables::{
    AND_AND_OR, COUNTER, DELAYS, INPUTS_ALONE, NOTHING, ONE_NODE, SECOND_DIFFERS, SMALLEST,
    STAYS_AT_0, STAYS_AT_1, TOGGLES, Table, made,
};
use eq_base::Memory;
use eq_bits::{Difference, Part, Scratch, replay};
use eq_cdcl::{Solved, solve};
use eq_proof::Formula;
use eq_unroll::{Query, formula, is_unrollable, run_of};
use std::alloc::Global;
use std::test::Fail;

/// A part, a query, a number of cycles, and the first cycle and output that differ in each run that shows the query.
type Row = (&'static Table, Query, u32, Option<(u32, u32)>);

const ROWS: [Row; 30] = [
    (&SMALLEST, Query::Base, 1, None),
    (&SMALLEST, Query::Step, 1, None),
    (&AND_AND_OR, Query::Base, 1, Some((0, 0))),
    (&AND_AND_OR, Query::Step, 1, Some((1, 0))),
    (&INPUTS_ALONE, Query::Base, 1, Some((0, 0))),
    (&INPUTS_ALONE, Query::Step, 1, Some((1, 0))),
    (&INPUTS_ALONE, Query::Step, 2, Some((2, 0))),
    (&SECOND_DIFFERS, Query::Base, 1, Some((0, 1))),
    (&SECOND_DIFFERS, Query::Step, 1, Some((1, 1))),
    (&ONE_NODE, Query::Base, 1, None),
    (&ONE_NODE, Query::Step, 1, None),
    (&NOTHING, Query::Base, 1, None),
    (&NOTHING, Query::Step, 1, None),
    // Base begins at the initial values
    (&STAYS_AT_0, Query::Base, 1, None),
    (&STAYS_AT_0, Query::Base, 2, None),
    (&STAYS_AT_0, Query::Step, 1, None),
    (&STAYS_AT_1, Query::Base, 1, Some((0, 0))),
    (&STAYS_AT_1, Query::Base, 2, Some((0, 0))),
    (&STAYS_AT_1, Query::Step, 1, None),
    // what is equal in one cycle is so in the next
    (&TOGGLES, Query::Base, 2, None),
    (&TOGGLES, Query::Step, 1, None),
    (&DELAYS, Query::Base, 3, None),
    (&DELAYS, Query::Step, 1, Some((1, 0))),
    (&DELAYS, Query::Step, 2, None),
    // at 2 in the third cycle from 0
    (&COUNTER, Query::Base, 2, None),
    (&COUNTER, Query::Base, 3, Some((2, 0))),
    (&COUNTER, Query::Base, 4, None),
    (&COUNTER, Query::Step, 1, Some((1, 0))),
    (&COUNTER, Query::Step, 2, Some((2, 0))),
    (&COUNTER, Query::Step, 3, Some((3, 0))),
];

/// Whether some values of its variables satisfy a formula.
fn has_solution(alloc: Global, f: &Formula) -> Result<bool, Memory> {
    let numbers = numbers_of(alloc, f)?;
    Ok(is_satisfiable(numbers.as_slice(), f.vars))
}

fn is_listed_so(alloc: Global, row: &Row) -> Result<bool, Fail> {
    let (table, query, k, wanted) = row;
    let part = made(alloc, table)?;
    let f = counted(alloc, &part, *query, *k)?;
    Ok(has_solution(alloc, &f)? == wanted.is_some())
}

fn first_wrong(alloc: Global) -> Result<Option<usize>, Fail> {
    for (at, row) in ROWS.iter().enumerate() {
        if !is_listed_so(alloc, row)? {
            return Ok(Some(at));
        }
    }
    Ok(None)
}

#[test]
fn formulas_are_satisfiable_where_queries_hold(rt: HostRuntime) -> Result<(), Fail> {
    assert_eq!(rt; first_wrong(rt.alloc())?, None);
    Ok(())
}

/// The first cycle and output that differ in the run that satisfying values show.
fn replayed(
    alloc: Global,
    part: &Part,
    query: Query,
    k: u32,
    values: &[bool],
) -> Result<Option<Difference>, Fail>
    requires unrollable { IsUnrollable part.now k }
    requires satisfies { SatisfiesAll (value_of values.now) (unrolled part.now query k) }
{
    let run = run_of(alloc, part, query, k, values)?;
    if 65 < run.inputs.len() {
        return Err(Fail::from("too many cycles"));
    }
    let mut scratch = Scratch::new(alloc, part)?;
    Ok(replay(part, &run, &mut scratch))
}

/// The same for the values that the solver finds.
fn shown(alloc: Global, part: &Part, query: Query, k: u32) -> Result<Option<Difference>, Fail> {
    if !is_unrollable(part, k) {
        return Err(Fail::from("k is out of range"));
    }
    let f = formula(alloc, part, query, k)?;
    match solve(alloc, &f, 1_000_000)? {
        Solved::Sat(values) => replayed(alloc, part, query, k, values.as_slice()),
        Solved::Unsat(_) => Ok(None),
        Solved::Spent(_) => Err(Fail::from("the budget is spent")),
    }
}

fn is_shown_so(alloc: Global, row: &Row) -> Result<bool, Fail> {
    let (table, query, k, wanted) = row;
    let part = made(alloc, table)?;
    let difference = shown(alloc, &part, *query, *k)?;
    Ok(difference.map(|d| (d.cycle, d.output)) == *wanted)
}

fn first_not_shown(alloc: Global) -> Result<Option<usize>, Fail> {
    for (at, row) in ROWS.iter().enumerate() {
        if !is_shown_so(alloc, row)? {
            return Ok(Some(at));
        }
    }
    Ok(None)
}

#[test]
fn values_show_runs_that_differ(rt: HostRuntime) -> Result<(), Fail> {
    assert_eq!(rt; first_not_shown(rt.alloc())?, None);
    Ok(())
}
