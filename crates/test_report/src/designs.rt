//! Designs, ports, plans and sizes that are refused.

use crate::making::{is_told, name};
use eq_base::{Items, Memory};
use eq_names::BitName;
use eq_report::{DesignFault, PlanFault, PortFault, Refusal, Which};
use eq_verilog::{ElabErr, ElabKind};
use std::alloc::Global;
use std::test::Fail;

/// A design, what is wrong with it, a name, and what is told.
type Row = (Which, ElabKind, &'static str, &'static str);

static ROWS: [Row; 16] = [
    (
        Which::Gold,
        ElabKind::DuplicateModule,
        "t",
        "eqy: gold: DuplicateModule t\n",
    ),
    (Which::Gate, ElabKind::NoTop, "t", "eqy: gate: NoTop t\n"),
    (
        Which::Gold,
        ElabKind::UnknownModule,
        "m",
        "eqy: gold: UnknownModule m\n",
    ),
    (
        Which::Gold,
        ElabKind::Recursive,
        "m",
        "eqy: gold: Recursive m\n",
    ),
    (
        Which::Gate,
        ElabKind::DuplicateName,
        "a",
        "eqy: gate: DuplicateName a\n",
    ),
    (
        Which::Gold,
        ElabKind::UnknownName,
        "a.b",
        "eqy: gold: UnknownName a.b\n",
    ),
    (
        Which::Gold,
        ElabKind::BadRange,
        "a",
        "eqy: gold: BadRange a\n",
    ),
    (
        Which::Gate,
        ElabKind::BadTarget,
        "a",
        "eqy: gate: BadTarget a\n",
    ),
    (
        Which::Gold,
        ElabKind::BadConnection,
        "u",
        "eqy: gold: BadConnection u\n",
    ),
    (
        Which::Gold,
        ElabKind::PathClash,
        "u.y",
        "eqy: gold: PathClash u.y\n",
    ),
    (
        Which::Gate,
        ElabKind::TwoDrivers,
        "y[2]",
        "eqy: gate: TwoDrivers y[2]\n",
    ),
    (
        Which::Gold,
        ElabKind::Undriven,
        "z",
        "eqy: gold: Undriven z\n",
    ),
    (Which::Gold, ElabKind::NoInit, "q", "eqy: gold: NoInit q\n"),
    (Which::Gate, ElabKind::NoInit, "q", "eqy: gate: NoInit q\n"),
    (
        Which::Gold,
        ElabKind::TwoClocks,
        "clk[0]",
        "eqy: gold: TwoClocks clk[0]\n",
    ),
    (
        Which::Gold,
        ElabKind::ClockAsData,
        "y",
        "eqy: gold: ClockAsData y\n",
    ),
];

/// Whether what elaboration answers is told so.
fn is_design_told(
    alloc: Global,
    side: Which,
    err: ElabErr,
    expected: &str,
) -> Result<bool, Memory> {
    match DesignFault::of(err) {
        Some(fault) => is_told(alloc, &Refusal::Elaboration { side, fault }, expected),
        None => Ok(false),
    }
}

fn is_right(alloc: Global, row: &Row) -> Result<bool, Fail> {
    let err = ElabErr::At {
        kind: row.1,
        name: name(alloc, row.2)?,
    };
    Ok(is_design_told(alloc, row.0, err, row.3)?)
}

/// The first row that is told otherwise.
fn first_wrong(alloc: Global) -> Result<Option<usize>, Fail> {
    for (place, row) in ROWS.iter().enumerate() {
        if !is_right(alloc, row)? {
            return Ok(Some(place));
        }
    }
    Ok(None)
}

#[test]
fn what_is_wrong_in_a_design_is_told_with_a_name(rt: HostRuntime) -> Result<(), Fail> {
    assert_eq!(rt; first_wrong(rt.alloc())?, None);
    Ok(())
}

fn is_loop_told(alloc: Global) -> Result<bool, Fail> {
    let mut cycle = Items::new(alloc);
    cycle.push(BitName { net: 0, bit: 0 })?;
    let err = ElabErr::Loop {
        cycle,
        name: name(alloc, "c[0]")?,
    };
    Ok(is_design_told(alloc, Which::Gold, err, "eqy: gold: Loop c[0]\n")?)
}

#[test]
fn a_loop_is_told_by_its_first_bit(rt: HostRuntime) -> Result<(), Fail> {
    assert_eq!(rt; is_loop_told(rt.alloc())?, true);
    Ok(())
}

#[test]
fn want_of_memory_is_no_refusal(rt: HostRuntime) -> Result<(), Fail> {
    assert_eq!(rt; DesignFault::of(ElabErr::Memory).is_none(), true);
    Ok(())
}

static PORTS: [(PortFault, &str, &str); 4] = [
    (PortFault::Missing, "b", "eqy: ports: Missing b\n"),
    (PortFault::Direction, "y", "eqy: ports: Direction y\n"),
    (PortFault::Width, "y", "eqy: ports: Width y\n"),
    (PortFault::Clock, "clk", "eqy: ports: Clock clk\n"),
];

fn is_port_told(alloc: Global, row: &(PortFault, &str, &str)) -> Result<bool, Fail> {
    let refusal = Refusal::Ports {
        fault: row.0,
        name: name(alloc, row.1)?,
    };
    Ok(is_told(alloc, &refusal, row.2)?)
}

/// The first port that is told otherwise.
fn first_wrong_port(alloc: Global) -> Result<Option<usize>, Fail> {
    for (place, row) in PORTS.iter().enumerate() {
        if !is_port_told(alloc, row)? {
            return Ok(Some(place));
        }
    }
    Ok(None)
}

#[test]
fn what_is_wrong_with_a_port_is_told_with_its_name(rt: HostRuntime) -> Result<(), Fail> {
    assert_eq!(rt; first_wrong_port(rt.alloc())?, None);
    Ok(())
}

fn are_names_told(alloc: Global) -> Result<bool, Fail> {
    let first = name(alloc, "cnt_q[0]")?;
    let second = name(alloc, "cnt_q[1]")?;
    let refusal = Refusal::Plan(PlanFault::SameName { first, second });
    Ok(is_told(alloc, &refusal, "eqy: plan: SameName cnt_q[0] cnt_q[1]\n")?)
}

#[test]
fn two_partitions_of_one_name_are_told_by_their_bits(rt: HostRuntime) -> Result<(), Fail> {
    assert_eq!(rt; are_names_told(rt.alloc())?, true);
    Ok(())
}

fn are_numbers_told(alloc: Global) -> Result<bool, Memory> {
    let cost = ElabErr::TooLarge { number: 2_000_001 };
    let plan = Refusal::Plan(PlanFault::TooMany { number: 4_097 });
    let size = Refusal::Size { number: 2_000_001 };
    Ok(
        is_design_told(alloc, Which::Gate, cost, "eqy: gate: TooLarge 2000001\n")?
            && is_told(alloc, &plan, "eqy: plan: TooMany 4097\n")?
            && is_told(alloc, &size, "eqy: size: TooLarge 2000001\n")?,
    )
}

#[test]
fn a_cost_a_plan_and_a_size_are_told_by_their_numbers(rt: HostRuntime) -> Result<(), Fail> {
    assert_eq!(rt; are_numbers_told(rt.alloc())?, true);
    Ok(())
}
