//! Steps of the chain, in which the input is the number of the step, and of the carries, in which one comes in or none.

use eq_net::{Bits, Memory, Net, initial, step};
use std::alloc::Global;

/// Writes the lowest eight digits of a number.
fn push_digits(number: u32, out: &mut Bits) -> Result<(), Memory> {
    let mut rest = number;
    for _ in 0..8 {
        out.push(rest % 2 == 1)?;
        rest /= 2;
    }
    Ok(())
}

/// The number that the last eight of the bits spell.
fn last_number(bits: &[bool]) -> u64 {
    let mut number = 0_u64;
    for bit in bits.iter().rev().take(8) {
        number = number.wrapping_mul(2).wrapping_add(u64::from(*bit));
    }
    number
}

/// The values of all bits in a step on these inputs.
fn stepped(alloc: Global, net: &Net, inputs: &[bool]) -> Result<Bits, Memory> {
    let state = initial(alloc, net)?;
    if inputs.len() != net.inputs() {
        return Ok(Bits::new(alloc));
    }
    Ok(step(alloc, net, &state, inputs)?.values)
}

/// The last sum in a step.
fn sum(alloc: Global, net: &Net, input: u32) -> Result<u64, Memory> {
    let mut inputs = Bits::new(alloc);
    push_digits(input, &mut inputs)?;
    let values = stepped(alloc, net, inputs.as_slice())?;
    Ok(last_number(values.as_slice()))
}

/// The last sum in the last of some steps, of which the first has the number 1.
pub fn last_sum(alloc: Global, net: &Net, steps: u32) -> Result<u64, Memory> {
    let mut last = 0;
    for number in 0..steps {
        last = sum(alloc, net, number.wrapping_add(1))?;
    }
    Ok(last)
}

/// The last eight carries of all ones and zero, where one comes in or none.
fn carried(alloc: Global, net: &Net, carry: bool) -> Result<u64, Memory> {
    let count = net.inputs();
    let mut inputs = Bits::new(alloc);
    for place in 0..count {
        inputs.push(place < count / 2 || (carry && place == count - 1))?;
    }
    let values = stepped(alloc, net, inputs.as_slice())?;
    Ok(last_number(values.as_slice()))
}

/// The last eight carries in the last of some steps. In the first, and in each other one after it, a carry comes in.
pub fn last_carries(alloc: Global, net: &Net, steps: u32) -> Result<u64, Memory> {
    let mut last = 0;
    for number in 0..steps {
        last = carried(alloc, net, number % 2 == 0)?;
    }
    Ok(last)
}
