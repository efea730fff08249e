//! Whether two netlists can be compared: each refusal with two places at once and at neighbours in the order, and clocks
//! through plain copies and instances.

use crate::lines::{
    CLOCK_OUT, CLOCK_STORED, COPIED, COPIED_AND_READ, IGNORING, INVERTING, MORE, RENAMED, REVERSED,
    STORED, STORED_WIDER, TURNED, TWO_INPUTS, WIDER, WIRES,
};
use crate::nets::made;
use eq_marks::{PortErr, same_ports};
use eq_net::Net;
use std::alloc::Global;
use std::test::Fail;

/// A netlist of the tables above.
#[derive(Clone, Copy)]
enum Side {
    Wires,
    More,
    Renamed,
    Reversed,
    Turned,
    TwoInputs,
    Wider,
    Stored,
    StoredByA,
    StoredWider,
    Ignoring,
    Inverting,
    ClockOut,
    CopiedAndRead,
    Copied,
    ClockStored,
}

/// Gold, gate, and what is refused.
type Row = (Side, Side, Option<PortErr>);

const ROWS: [Row; 22] = [
    // the same ports, in another order too
    (Side::Wires, Side::Wires, None),
    (Side::Wires, Side::Turned, None),
    // two that one side lacks
    (
        Side::More,
        Side::Wires,
        Some(PortErr::Missing {
            in_gate: true,
            port: 1,
        }),
    ),
    (
        Side::Wires,
        Side::More,
        Some(PortErr::Missing {
            in_gate: false,
            port: 1,
        }),
    ),
    // each lacks two, and gate's are told first
    (
        Side::Wires,
        Side::Renamed,
        Some(PortErr::Missing {
            in_gate: true,
            port: 0,
        }),
    ),
    // one that gold lacks, before two other directions
    (
        Side::Wires,
        Side::Reversed,
        Some(PortErr::Missing {
            in_gate: false,
            port: 2,
        }),
    ),
    // one that gate lacks, before two other directions
    (
        Side::More,
        Side::Reversed,
        Some(PortErr::Missing {
            in_gate: true,
            port: 2,
        }),
    ),
    // a direction before a width that stands before it
    (
        Side::Wires,
        Side::TwoInputs,
        Some(PortErr::Direction { port: 1 }),
    ),
    (
        Side::Turned,
        Side::TwoInputs,
        Some(PortErr::Direction { port: 0 }),
    ),
    // two widths
    (Side::More, Side::Wider, Some(PortErr::Width { port: 1 })),
    // a width before a clock
    (
        Side::StoredByA,
        Side::StoredWider,
        Some(PortErr::Width { port: 1 }),
    ),
    // the same clock, and two clocks
    (Side::Stored, Side::Stored, None),
    (
        Side::Stored,
        Side::StoredByA,
        Some(PortErr::Clock { port: 0 }),
    ),
    (
        Side::StoredByA,
        Side::Stored,
        Some(PortErr::Clock { port: 1 }),
    ),
    // one side has no clock
    (Side::Stored, Side::Ignoring, None),
    (Side::Ignoring, Side::Stored, None),
    (Side::Stored, Side::Copied, None),
    // and takes the other's as data: it reads it, is it, reads it behind copies, or keeps it
    (
        Side::Inverting,
        Side::Stored,
        Some(PortErr::Clock { port: 1 }),
    ),
    (
        Side::Stored,
        Side::Inverting,
        Some(PortErr::Clock { port: 0 }),
    ),
    (
        Side::Stored,
        Side::ClockOut,
        Some(PortErr::Clock { port: 0 }),
    ),
    (
        Side::Stored,
        Side::CopiedAndRead,
        Some(PortErr::Clock { port: 0 }),
    ),
    (
        Side::Stored,
        Side::ClockStored,
        Some(PortErr::Clock { port: 0 }),
    ),
];

fn plain(alloc: Global, side: Side) -> Result<Net, Fail> {
    match side {
        Side::More => made(alloc, &MORE, None),
        Side::Renamed => made(alloc, &RENAMED, None),
        Side::Reversed => made(alloc, &REVERSED, None),
        Side::Turned => made(alloc, &TURNED, None),
        Side::TwoInputs => made(alloc, &TWO_INPUTS, None),
        Side::Wider => made(alloc, &WIDER, None),
        _ => made(alloc, &WIRES, None),
    }
}

fn clocked(alloc: Global, side: Side) -> Result<Net, Fail> {
    match side {
        Side::StoredByA => made(alloc, &STORED, Some(1)),
        Side::StoredWider => made(alloc, &STORED_WIDER, Some(0)),
        _ => made(alloc, &STORED, Some(0)),
    }
}

fn without_clock(alloc: Global, side: Side) -> Result<Net, Fail> {
    match side {
        Side::Inverting => made(alloc, &INVERTING, None),
        Side::ClockOut => made(alloc, &CLOCK_OUT, None),
        Side::CopiedAndRead => made(alloc, &COPIED_AND_READ, None),
        Side::Copied => made(alloc, &COPIED, None),
        Side::ClockStored => made(alloc, &CLOCK_STORED, None),
        _ => made(alloc, &IGNORING, None),
    }
}

fn netlist(alloc: Global, side: Side) -> Result<Net, Fail> {
    match side {
        Side::Wires
        | Side::More
        | Side::Renamed
        | Side::Reversed
        | Side::Turned
        | Side::TwoInputs
        | Side::Wider => plain(alloc, side),
        Side::Stored | Side::StoredByA | Side::StoredWider => clocked(alloc, side),
        Side::Ignoring
        | Side::Inverting
        | Side::ClockOut
        | Side::CopiedAndRead
        | Side::Copied
        | Side::ClockStored => without_clock(alloc, side),
    }
}

/// What is refused of two netlists.
fn refused(alloc: Global, gold: &Net, gate: &Net) -> Option<PortErr> {
    match same_ports(alloc, gold, gate) {
        Ok(()) => None,
        Err(fault) => Some(fault),
    }
}

fn is_right(alloc: Global, row: &Row) -> Result<bool, Fail> {
    let (gold, gate, wanted) = *row;
    let gold = netlist(alloc, gold)?;
    let gate = netlist(alloc, gate)?;
    Ok(refused(alloc, &gold, &gate) == wanted)
}

/// The first row of which something else is said.
fn first_wrong(alloc: Global) -> Result<Option<usize>, Fail> {
    for (number, row) in ROWS.iter().enumerate() {
        if !is_right(alloc, row)? {
            return Ok(Some(number));
        }
    }
    Ok(None)
}

#[test]
fn tells_the_first_port_that_does_not_fit(rt: HostRuntime) -> Result<(), Fail> {
    assert_eq!(rt; first_wrong(rt.alloc())?, None);
    Ok(())
}
