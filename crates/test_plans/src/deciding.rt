//! From two netlists and the lines of a configuration to a verdict on the designs, through all layers.

use crate::chains::chain;
use crate::comparing::compared;
use crate::configs::config;
use crate::crossing::{crossing_gate, crossing_gold};
use crate::ports::have_same_ports;
use eq_compose::Whole;
use eq_net::Net;
use std::alloc::Global;
use std::test::Fail;

/// The netlists of gold and of gate, chains from 3 on, the lines behind the frame, and what is said; nothing where there is no plan.
type Row = (u8, u8, &'static [u8], Option<Whole>);

const ROWS: [Row; 11] = [
    // a design and itself, partition by partition and as one
    (3, 3, b"", Some(Whole::Pass)),
    (3, 3, b"[partition]\nmerge *\n", Some(Whole::Pass)),
    // with a register
    (4, 4, b"", Some(Whole::Pass)),
    (4, 4, b"[match]\ngold-nomatch *\n", Some(Whole::Pass)),
    // the designs are equal, but `m` and `n` are free where `y` is looked at by itself
    (3, 5, b"", Some(Whole::Fail)),
    (3, 5, b"[partition]\nmerge [nmy]\n", Some(Whole::Pass)),
    (3, 5, b"[match]\ngold-nomatch n\n", Some(Whole::Pass)),
    // an inverted pair of equal signals
    (3, 3, b"[match]\ngold-match m ~m\n", Some(Whole::Fail)),
    // gold's first output reads its second, and gate's second its first
    (0, 1, b"", Some(Whole::Pass)),
    (1, 0, b"", Some(Whole::Pass)),
    // two partitions of one name
    (3, 3, b"[partition]\nname [mn] x\n", None),
];

fn netlist(alloc: Global, number: u8) -> Result<Net, Fail> {
    match number {
        0 => crossing_gold(alloc),
        1 => crossing_gate(alloc),
        _ => chain(alloc, number),
    }
}

/// Whether this is said of a row.
fn is_right(alloc: Global, row: &Row) -> Result<bool, Fail> {
    let (gold, gate, lines, wanted) = *row;
    let gold = netlist(alloc, gold)?;
    let gate = netlist(alloc, gate)?;
    let Some(config) = config(alloc, lines)? else {
        return Ok(false);
    };
    if !have_same_ports(&gold, &gate) {
        return Ok(false);
    }
    Ok(compared(alloc, &gold, &gate, &config)? == wanted)
}

/// The first row of which something else is said.
fn first_wrong(alloc: Global) -> Result<Option<usize>, Fail> {
    for (number, row) in ROWS.iter().enumerate() {
        if !is_right(alloc, row)? {
            return Ok(Some(number));
        }
    }
    Ok(None)
}

#[test]
fn two_netlists_are_compared_through_all_layers(rt: HostRuntime) -> Result<(), Fail> {
    assert_eq!(rt; first_wrong(rt.alloc())?, None);
    Ok(())
}
