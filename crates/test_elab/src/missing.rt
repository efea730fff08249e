//! The first bit without driver that is read or is one of an output.

use crate::lines::{NEXT_UNDRIVEN, NO_OUTPUT, OUTPUT_FIRST, READ_BEHIND, READ_FIRST, UNREAD};
use crate::nets::made;
use eq_marks::first_missed;
use eq_net::Net;
use std::alloc::Global;
use std::test::Fail;

/// A netlist of the tables in `lines`.
#[derive(Clone, Copy)]
enum Case {
    Unread,
    ReadBehind,
    NoOutput,
    OutputFirst,
    ReadFirst,
    NextUndriven,
}

/// A netlist, and the number of its first bit that is missed.
type Row = (Case, Option<u32>);

const ROWS: [Row; 6] = [
    (Case::Unread, None),
    // bits 0 to 2 are of the input
    (Case::ReadBehind, Some(5)),
    (Case::NoOutput, Some(1)),
    (Case::OutputFirst, Some(1)),
    (Case::ReadFirst, Some(2)),
    (Case::NextUndriven, Some(1)),
];

fn netlist(alloc: Global, case: Case) -> Result<Net, Fail> {
    match case {
        Case::Unread => made(alloc, &UNREAD, None),
        Case::ReadBehind => made(alloc, &READ_BEHIND, None),
        Case::NoOutput => made(alloc, &NO_OUTPUT, None),
        Case::OutputFirst => made(alloc, &OUTPUT_FIRST, None),
        Case::ReadFirst => made(alloc, &READ_FIRST, None),
        Case::NextUndriven => made(alloc, &NEXT_UNDRIVEN, None),
    }
}

/// The number of the first bit that is missed.
fn missed(alloc: Global, net: &Net) -> Result<Option<u32>, Fail> {
    let found = first_missed(
        alloc,
        net.nets.as_slice(),
        net.words.as_slice(),
        net.drivers.as_slice(),
    )?;
    Ok(found)
}

fn is_right(alloc: Global, row: &Row) -> Result<bool, Fail> {
    let (case, wanted) = *row;
    let net = netlist(alloc, case)?;
    Ok(missed(alloc, &net)? == wanted)
}

/// The first row of which something else is said.
fn first_wrong(alloc: Global) -> Result<Option<usize>, Fail> {
    for (number, row) in ROWS.iter().enumerate() {
        if !is_right(alloc, row)? {
            return Ok(Some(number));
        }
    }
    Ok(None)
}

#[test]
fn tells_the_first_bit_that_is_missed(rt: HostRuntime) -> Result<(), Fail> {
    assert_eq!(rt; first_wrong(rt.alloc())?, None);
    Ok(())
}
