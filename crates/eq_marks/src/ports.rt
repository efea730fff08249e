//! Why two designs can't be compared, and whether they can.

ghost use Rattle.std.specs.Prelude.{◌≡◌, ℕ, Bool, Ok, Err, IfOk, IfSome, IsErrOf, None, OnOk, Some, option_copied, true};
ghost use Rattle.eq_verilog.specs.Declarations.{has};
ghost use Rattle.eq_marks.specs.Answers.{ComparesPorts, meaning};
ghost use Rattle.eq_marks.specs.Ports as spec;
ghost use Rattle.eq_marks.specs.Ports.{IsPortAnswer, clock_clash, first_port, port_fault};
ghost use Rattle.eq_marks.specs.inner.Comparing as parts;
ghost use Rattle.eq_marks.specs.inner.Headers as headers;

use crate::headers::{
    first_direction, first_missing, first_width, net_at, port_names, port_number,
};
use crate::taking::takes_port;
use eq_base::Memory;
use eq_names::{Name, NameTable};
use eq_net::Net;
use std::alloc::Global;

/// What is wrong with the ports, in the order in which it is looked for. A port is told by its number in gold's header;
/// where gold hasn't it, by that in gate's.
#[derive(Clone, Copy, Debug, PartialEq, Eq)]
pub enum PortErr {
    /// The other design hasn't the port: gate, or gold.
    Missing { in_gate: bool, port: u32 },
    /// An input on one side and an output on the other.
    Direction { port: u32 },
    /// Two numbers of bits.
    Width { port: u32 },
    /// Two clocks, or the clock of one design is data in the other.
    Clock { port: u32 },
    /// Want of memory.
    Memory,
}

/// Compares the ports of two designs by their names. Takes the time of both designs' words at most.
pub fn same_ports(alloc: Global, gold: &Net, gate: &Net) -> Result<(), PortErr>
    // What is answered is so: nothing is wrong, or this is the first thing that is,
    ensures ok { OnOk result (port_fault (meaning gold.now) (meaning gate.now) ≡ None) }
    ensures missing { (in_gate : Bool) (p : ℕ) → IsErrOf result (PortErr.Missing in_gate p) →
        port_fault (meaning gold.now) (meaning gate.now) ≡ Some (PortErr.Missing in_gate p) }
    ensures direction { (p : ℕ) → IsErrOf result (PortErr.Direction p) →
        port_fault (meaning gold.now) (meaning gate.now) ≡ Some (PortErr.Direction p) }
    ensures width { (p : ℕ) → IsErrOf result (PortErr.Width p) →
        port_fault (meaning gold.now) (meaning gate.now) ≡ Some (PortErr.Width p) }
    ensures clock { (p : ℕ) → IsErrOf result (PortErr.Clock p) →
        port_fault (meaning gold.now) (meaning gate.now) ≡ Some (PortErr.Clock p) }

    // and what is so is answered.
    ensures only_ok { port_fault (meaning gold.now) (meaning gate.now) ≡ None →
        IsPortAnswer result (Ok tt) }
    ensures only_fault { (e : PortErr) → port_fault (meaning gold.now) (meaning gate.now) ≡ Some e →
        IsPortAnswer result (Err e) }
{
    compare(alloc, gold, gate)
}

fn compare(alloc: Global, gold: &Net, gate: &Net) -> Result<(), PortErr>
    ensures { ComparesPorts (meaning gold.now) (meaning gate.now) result }
{
    match first_fault(alloc, gold, gate) {
        Ok(None) => Ok(()),
        Ok(Some(fault)) => Err(fault),
        Err(_) => Err(PortErr::Memory),
    }
}

/// The first thing that is wrong.
fn first_fault(alloc: Global, gold: &Net, gate: &Net) -> Result<Option<PortErr>, Memory>
    ensures { IfOk result (λ fault. fault ≡ port_fault (meaning gold.now) (meaning gate.now)) }
{
    let gold_names = port_names(alloc, gold)?;
    let gate_names = port_names(alloc, gate)?;
    match name_fault(gold, gate, &gold_names, &gate_names) {
        Some(fault) => Ok(Some(fault)),
        None => clock_fault(alloc, gold, gate, &gold_names, &gate_names),
    }
}

/// The first thing that is wrong with names, directions and widths.
fn name_fault(
    gold: &Net,
    gate: &Net,
    gold_names: &NameTable,
    gate_names: &NameTable,
) -> Option<PortErr>
    requires gold_names { gold_names.now ≡ (meaning gold.now).ports }
    requires gate_names { gate_names.now ≡ (meaning gate.now).ports }
    ensures fault { result ≡ parts.name_fault (meaning gold.now) (meaning gate.now) }
    ensures in_gate { result ≡ None → first_port (headers.is_missing (meaning gate.now).ports)
        (meaning gold.now).ports ≡ None }
    ensures in_gold { result ≡ None → first_port (headers.is_missing (meaning gold.now).ports)
        (meaning gate.now).ports ≡ None }
{
    if let Some(port) = first_missing(gold, gate_names) {
        return Some(PortErr::Missing {
            in_gate: true,
            port,
        });
    }
    if let Some(port) = first_missing(gate, gold_names) {
        return Some(PortErr::Missing {
            in_gate: false,
            port,
        });
    }
    if let Some(port) = first_direction(gold, gate, gate_names) {
        return Some(PortErr::Direction { port });
    }
    match first_width(gold, gate, gate_names) {
        Some(port) => Some(PortErr::Width { port }),
        None => None,
    }
}

/// What is wrong with the clocks, where each design has the other's ports.
fn clock_fault(
    alloc: Global,
    gold: &Net,
    gate: &Net,
    gold_names: &NameTable,
    gate_names: &NameTable,
) -> Result<Option<PortErr>, Memory>
    requires gold_names { gold_names.now ≡ (meaning gold.now).ports }
    requires gate_names { gate_names.now ≡ (meaning gate.now).ports }
    requires in_gate { first_port (headers.is_missing (meaning gate.now).ports)
        (meaning gold.now).ports ≡ None }
    requires in_gold { first_port (headers.is_missing (meaning gold.now).ports)
        (meaning gate.now).ports ≡ None }
    ensures { IfOk result (λ fault. fault ≡ parts.clock_fault (meaning gold.now)
        (meaning gate.now)) }
{
    match clash(alloc, gold, gate, gold_names, gate_names)? {
        Some(name) => Ok(clock_port(gold_names.find(name.bytes()))),
        None => Ok(None),
    }
}

fn clock_port(port: Option<u32>) -> Option<PortErr>
    ensures { result ≡ parts.clock_port port }
{
    match port {
        Some(port) => Some(PortErr::Clock { port }),
        None => None,
    }
}

/// The name of the clock.
fn clock_name(net: &Net) -> Option<&Name>
    ensures name { option_copied result ≡ (meaning net.now).clock }
    ensures there { IfSome result (λ name. has (meaning net.now).ports name.now ≡ true) }
{
    match net.clock {
        Some(k) => Some(&net_at(net, k).name),
        None => None,
    }
}

/// Whether a design takes the port of this name as data.
fn takes_named(alloc: Global, net: &Net, names: &NameTable, name: &Name) -> Result<bool, Memory>
    requires names { names.now ≡ (meaning net.now).ports }
    requires there { has (meaning net.now).ports name.now ≡ true }
    ensures { IfOk result (λ taken. taken ≡ spec.takes_port (meaning net.now) name.now) }
{
    match port_number(net, names, name) {
        Some(k) => takes_port(alloc, net, k),
        None => Ok(false),
    }
}

/// The clock of one design that isn't the other's, or that the other takes as data.
fn clash<'a>(
    alloc: Global,
    gold: &'a Net,
    gate: &'a Net,
    gold_names: &NameTable,
    gate_names: &NameTable,
) -> Result<Option<&'a Name>, Memory>
    requires gold_names { gold_names.now ≡ (meaning gold.now).ports }
    requires gate_names { gate_names.now ≡ (meaning gate.now).ports }
    requires in_gate { first_port (headers.is_missing (meaning gate.now).ports)
        (meaning gold.now).ports ≡ None }
    requires in_gold { first_port (headers.is_missing (meaning gold.now).ports)
        (meaning gate.now).ports ≡ None }
    ensures { IfOk result (λ found. option_copied found ≡ clock_clash (meaning gold.now)
        (meaning gate.now) (meaning gold.now).clock (meaning gate.now).clock) }
{
    match (clock_name(gold), clock_name(gate)) {
        (None, None) => Ok(None),
        (Some(m), Some(n)) => Ok(other_name(m, n)),
        (Some(m), None) => Ok(only_if(takes_named(alloc, gate, gate_names, m)?, m)),
        (None, Some(n)) => Ok(only_if(takes_named(alloc, gold, gold_names, n)?, n)),
    }
}

/// The first name, where the second is another.
fn other_name<'a>(name: &'a Name, other: &Name) -> Option<&'a Name>
    ensures { option_copied result ≡ parts.other_name name.now other.now }
{
    if name.bytes() == other.bytes() {
        None
    } else {
        Some(name)
    }
}

fn only_if(holds: bool, name: &Name) -> Option<&Name>
    ensures { option_copied result ≡ parts.only_if holds name.now }
{
    if holds { Some(name) } else { None }
}
