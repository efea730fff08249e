//! The first bit that takes another bit as data, as if that were a clock.

use crate::lines::{CLOCK_OUT, CLOCK_STORED, COPIED, COPIED_AND_READ, IGNORING, INVERTING};
use crate::nets::made;
use eq_marks::first_taking;
use eq_net::Net;
use std::alloc::Global;
use std::test::Fail;

/// A netlist of the tables in `lines`.
#[derive(Clone, Copy)]
enum Case {
    Ignoring,
    Inverting,
    ClockOut,
    CopiedAndRead,
    Copied,
    Stored,
}

/// A netlist, the bit that is taken, and the first bit that takes it.
type Row = (Case, u32, Option<u32>);

const ROWS: [Row; 7] = [
    (Case::Ignoring, 0, None),
    // a copy that is an output belongs to the bit
    (Case::Ignoring, 1, Some(2)),
    (Case::Inverting, 1, Some(2)),
    (Case::ClockOut, 0, Some(2)),
    (Case::CopiedAndRead, 0, Some(3)),
    (Case::Copied, 0, None),
    (Case::Stored, 0, Some(3)),
];

fn netlist(alloc: Global, case: Case) -> Result<Net, Fail> {
    match case {
        Case::Ignoring => made(alloc, &IGNORING, None),
        Case::Inverting => made(alloc, &INVERTING, None),
        Case::ClockOut => made(alloc, &CLOCK_OUT, None),
        Case::CopiedAndRead => made(alloc, &COPIED_AND_READ, None),
        Case::Copied => made(alloc, &COPIED, None),
        Case::Stored => made(alloc, &CLOCK_STORED, None),
    }
}

/// The first bit that takes a bit as data.
fn taking(alloc: Global, net: &Net, bit: u32) -> Result<Option<u32>, Fail> {
    let found = first_taking(
        alloc,
        net.nets.as_slice(),
        net.words.as_slice(),
        net.drivers.as_slice(),
        bit,
    )?;
    Ok(found)
}

fn is_right(alloc: Global, row: &Row) -> Result<bool, Fail> {
    let (case, bit, wanted) = *row;
    let net = netlist(alloc, case)?;
    Ok(taking(alloc, &net, bit)? == wanted)
}

/// The first row of which something else is said.
fn first_wrong(alloc: Global) -> Result<Option<usize>, Fail> {
    for (number, row) in ROWS.iter().enumerate() {
        if !is_right(alloc, row)? {
            return Ok(Some(number));
        }
    }
    Ok(None)
}

#[test]
fn tells_the_first_bit_that_takes_another(rt: HostRuntime) -> Result<(), Fail> {
    assert_eq!(rt; first_wrong(rt.alloc())?, None);
    Ok(())
}
