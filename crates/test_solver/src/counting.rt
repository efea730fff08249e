//! How many clauses formulas have, and of how many cycles they are made.

use crate::formulas::counted;
use crate::tables::{COUNTER, KINDS, NOTHING, SMALLEST, TWO_OUTPUTS, Table, made};
use eq_bits::Part;
use eq_unroll::{Query, is_unrollable};
use std::alloc::Global;
use std::test::Fail;

/// Parts, and the greatest variable and the number of clauses of Base and of Step at 64 cycles.
const LONGEST: [(&Table, [(u32, usize); 2]); 5] = [
    // in each frame 22
    (&SMALLEST, [(769, 1_411), (781, 1_561)]),
    // in each frame 21, and 2 in the first or 4 in a later one for the registers
    (&KINDS, [(833, 1_601), (846, 1_752)]),
    (&TWO_OUTPUTS, [(258, 453), (262, 716)]),
    // in each frame 10, and 2 or 4
    (&COUNTER, [(385, 897), (391, 1_037)]),
    (&NOTHING, [(0, 1), (0, 1)]),
];

/// The greatest variable and the number of clauses of a query at 64 cycles.
fn sizes(alloc: Global, part: &Part, query: Query) -> Result<(u32, usize), Fail> {
    let f = counted(alloc, part, query, 64)?;
    Ok((f.vars, f.clauses.len()))
}

fn both_sizes(alloc: Global, table: &Table) -> Result<[(u32, usize); 2], Fail> {
    let part = made(alloc, table)?;
    let base = sizes(alloc, &part, Query::Base)?;
    let step = sizes(alloc, &part, Query::Step)?;
    Ok([base, step])
}

fn first_miscounted(alloc: Global) -> Result<Option<usize>, Fail> {
    for (row, (table, wanted)) in LONGEST.iter().enumerate() {
        if both_sizes(alloc, table)? != *wanted {
            return Ok(Some(row));
        }
    }
    Ok(None)
}

#[test]
fn clauses_are_counted_at_64_cycles(rt: HostRuntime) -> Result<(), Fail> {
    assert_eq!(rt; first_miscounted(rt.alloc())?, None);
    Ok(())
}

/// Whether formulas are made from 1 to 64 cycles alone.
fn has_range(alloc: Global) -> Result<bool, Fail> {
    let part = made(alloc, &COUNTER)?;
    Ok(
        [1, 2, 64].iter().all(|k| is_unrollable(&part, *k))
            && [0, 65, 4_294_967_295]
                .iter()
                .all(|k| !is_unrollable(&part, *k)),
    )
}

#[test]
fn formulas_are_made_from_1_to_64_cycles(rt: HostRuntime) -> Result<(), Fail> {
    assert!(rt; has_range(rt.alloc())?);
    Ok(())
}
