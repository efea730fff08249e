//! The verdict on two designs without registers, by all values of the inputs.

ghost use Rattle.std.specs.Prelude.{◌≡◌, ◌≢◌, ℕ, ◌<◌, ◌≤◌, ◌+◌, ◌^◌, Bool, false, true, IfOk, length};
ghost use Rattle.eq_first.specs.Value.{value};
ghost use Rattle.eq_first.specs.Well.{IsWellFormed};
ghost use Rattle.eqy.specs.Inputs.{inputs_of};
ghost use Rattle.eqy.specs.Listing.{digits as digits_of, given};
ghost use Rattle.eqy.specs.NetlistOf.{IsNetlist};

use crate::netlist::netlist;
use eq_base::Memory;
use eq_first::{Direction, Module, Port};
use eq_net::{Net, initial, step};
use std::alloc::Global;

/// How many of the ports are inputs.
pub fn count_inputs(ports: &[Port]) -> u64
    ensures { result ≡ inputs_of ports.now }
{
    let mut count = 0;
    for port in ports {
        if port.direction == Direction::Input {
            count += 1;
        }
    }
    count
}

/// The lowest binary digits of a number, the lowest first.
fn digits(alloc: Global, count: u64, number: u64) -> Result<Vec<bool>, Memory>
    ensures { IfOk result (λ bits. bits.items ≡ digits_of count number) }
{
    let mut bits = Vec::new(alloc);
    let mut rest = number;
    for _ in 0..count {
        bits.push(rest % 2 == 1)?;
        rest /= 2;
    }
    Ok(bits)
}

/// The value of a design's output for these values of its inputs.
fn output(alloc: Global, design: &Module, net: &Net, inputs: &[bool]) -> Result<bool, Memory>
    requires well { IsWellFormed design.now }
    requires netlist { IsNetlist design.now net.now }
    requires inputs { length inputs.now ≡ inputs_of design.now.ports }
    ensures { IfOk result (λ bit. bit ≡ value design.now.expr (given design.now.ports inputs.now)) }
{
    let state = initial(alloc, net)?;
    let stepped = step(alloc, net, &state, inputs)?;
    Ok(stepped.values.as_slice()[design.output as usize])
}

/// Whether the outputs of two designs differ for some values of the inputs.
pub fn differ(alloc: Global, gold: &Module, gate: &Module) -> Result<bool, Memory>
    requires gold { IsWellFormed gold.now }
    requires gate { IsWellFormed gate.now }
    requires ports { gold.now.ports ≡ gate.now.ports }
    requires narrow { inputs_of gold.now.ports ≤ 12 }
    ensures equal { IfOk result (λ differ. differ ≡ false → (v : ℕ → Bool) → value gold.now.expr v ≡ value gate.now.expr v) }
    ensures differ { IfOk result (λ differ. differ ≡ true → (v : ℕ → Bool) × (value gold.now.expr v ≢ value gate.now.expr v)) }
{
    let inputs = count_inputs(gold.ports.as_slice());
    let gold_net = netlist(alloc, gold)?;
    let gate_net = netlist(alloc, gate)?;
    for number in 0..2_u64.pow(inputs as u32) {
        let values = digits(alloc, inputs, number)?;
        let gold_bit = output(alloc, gold, &gold_net, &values)?;
        let gate_bit = output(alloc, gate, &gate_net, &values)?;
        if gold_bit != gate_bit {
            return Ok(true);
        }
    }
    Ok(false)
}
