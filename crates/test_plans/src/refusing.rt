//! Plans that are refused, and with what.

use crate::cells::celled;
use crate::chains::netlist;
use crate::configs::config;
use crate::planning::planned;
use crate::ports::have_same_ports;
use crate::tables::registers::{NAMED_GATE, NAMED_GOLD};
use eq_names::BitName;
use eq_net::{Net, bit_text};
use eq_part::{Plan, PlanErr};
use std::alloc::Global;
use std::test::Fail;
use test_series::chain_of_stages;

/// A netlist by its number, a register with two names, or as many stages as there may be partitions, or one more.
#[derive(Clone, Copy)]
enum Nets {
    Design(u8),
    Named,
    Most,
    OneMore,
}

/// What is said: so many partitions, more than may be, or two of one name, with the net and the position of gold's bit and
/// its name for each of the two.
#[derive(Clone, Copy)]
enum Said {
    Parts(usize),
    TooMany(u32),
    SameName((u32, u32), &'static [u8], (u32, u32), &'static [u8]),
}

/// The netlists, the lines behind the frame, and what is said.
type Row = (Nets, &'static [u8], Said);

const ROWS: [Row; 14] = [
    (Nets::Most, b"", Said::Parts(4096)),
    (Nets::OneMore, b"", Said::TooMany(4097)),
    // one partition less
    (
        Nets::OneMore,
        b"[partition]\nmerge n000[01]\n",
        Said::Parts(4096),
    ),
    (
        Nets::OneMore,
        b"[match]\ngold-nomatch n0000\n",
        Said::Parts(4096),
    ),
    // too many, and all of one name
    (
        Nets::OneMore,
        b"[partition]\nname * x\n",
        Said::TooMany(4097),
    ),
    (
        Nets::Most,
        b"[partition]\nname n40?? x\n",
        Said::SameName((4001, 0), b"n4000[0]", (4002, 0), b"n4001[0]"),
    ),
    // two bits of one net, with their declared indices
    (
        Nets::Design(0),
        b"[collect]\nsolo s\n[partition]\nname s x\n",
        Said::SameName((4, 0), b"s[0]", (4, 1), b"s[1]"),
    ),
    (
        Nets::Design(1),
        b"[collect]\nsolo s\n[partition]\nname s x\n",
        Said::SameName((4, 0), b"s[1]", (4, 1), b"s[0]"),
    ),
    // the bits of a register that a line pairs
    (
        Nets::Named,
        b"[match]\ngold-match *_q %1_reg\n[collect]\nsolo cnt_*\n",
        Said::Parts(3),
    ),
    (
        Nets::Named,
        b"[match]\ngold-match *_q %1_reg\n[collect]\nsolo cnt_*\n[partition]\nname cnt_q state\n",
        Said::SameName((2, 0), b"cnt_q[0]", (2, 1), b"cnt_q[1]"),
    ),
    // three of one name, one with another's default name, and two names of two each
    (
        Nets::Design(3),
        b"[partition]\nname [mny] x\n",
        Said::SameName((1, 0), b"y", (2, 0), b"m"),
    ),
    (
        Nets::Design(3),
        b"[partition]\nname m y\n",
        Said::SameName((1, 0), b"y", (2, 0), b"m"),
    ),
    (
        Nets::Design(4),
        b"[partition]\nname [yr] u\nname [mn] v\n",
        Said::SameName((2, 0), b"m", (3, 0), b"n"),
    ),
    // a union has no name
    (
        Nets::Design(3),
        b"[partition]\nname [my] x\nmerge [my]\n",
        Said::Parts(2),
    ),
];

fn named(alloc: Global, gate: bool) -> Result<Net, Fail> {
    if gate {
        celled(alloc, &NAMED_GATE)
    } else {
        celled(alloc, &NAMED_GOLD)
    }
}

fn net_of(alloc: Global, nets: Nets, gate: bool) -> Result<Net, Fail> {
    match nets {
        Nets::Design(number) => netlist(alloc, number),
        Nets::Named => named(alloc, gate),
        Nets::Most => Ok(chain_of_stages(alloc, 1, 4096)?),
        Nets::OneMore => Ok(chain_of_stages(alloc, 1, 4097)?),
    }
}

/// Whether a bit is this one, and has this name.
fn is_bit(
    alloc: Global,
    net: &Net,
    bit: BitName,
    place: (u32, u32),
    name: &[u8],
) -> Result<bool, Fail> {
    let nets = net.nets.as_slice();
    let number = bit.net as usize;
    if number >= nets.len() || u64::from(bit.bit) >= nets[number].width() {
        return Ok(false);
    }
    let text = bit_text(alloc, net, bit)?;
    Ok(bit.net == place.0 && bit.bit == place.1 && text.bytes() == name)
}

/// Whether this is said.
fn is_said(
    alloc: Global,
    net: &Net,
    found: Result<Plan, PlanErr>,
    wanted: Said,
) -> Result<bool, Fail> {
    match (found, wanted) {
        (Ok(plan), Said::Parts(count)) => Ok(plan.parts.len() == count),
        (Err(PlanErr::TooMany { number }), Said::TooMany(count)) => Ok(number == count),
        (Err(PlanErr::SameName { first, second }), Said::SameName(p, a, q, b)) => {
            Ok(is_bit(alloc, net, first, p, a)? && is_bit(alloc, net, second, q, b)?)
        }
        _ => Ok(false),
    }
}

fn is_right(alloc: Global, row: &Row) -> Result<bool, Fail> {
    let (nets, lines, wanted) = *row;
    let gold = net_of(alloc, nets, false)?;
    let gate = net_of(alloc, nets, true)?;
    let Some(config) = config(alloc, lines)? else {
        return Ok(false);
    };
    if !have_same_ports(&gold, &gate) {
        return Ok(false);
    }
    is_said(alloc, &gold, planned(alloc, &gold, &gate, &config), wanted)
}

/// The first row of which something else is said.
fn first_wrong(alloc: Global) -> Result<Option<usize>, Fail> {
    for (number, row) in ROWS.iter().enumerate() {
        if !is_right(alloc, row)? {
            return Ok(Some(number));
        }
    }
    Ok(None)
}

#[test]
fn too_many_partitions_and_two_of_one_name_are_refused(rt: HostRuntime) -> Result<(), Fail> {
    assert_eq!(rt; first_wrong(rt.alloc())?, None);
    Ok(())
}
