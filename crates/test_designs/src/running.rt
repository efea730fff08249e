//! Designs run, cycle by cycle. The top is the module `t`.

use crate::reading::netlist_of;
use eq_net::{Dir, Memory, Net, State, Stepped, initial, step};
use std::alloc::Global;
use std::test::Fail;

/// The inputs in one cycle, and what is seen at the outputs: a number for each port, in the order of the header. The clock
/// has none.
pub(crate) type Cycle = (&'static [u64], &'static [u64]);

/// A text, and what is seen of its design from the first cycle on.
pub(crate) type Row = (&'static str, &'static [Cycle]);

/// Puts the digits of a number, the lowest first.
fn push_digits(number: u64, width: u64, bits: &mut Vec<bool>) -> Result<(), Memory> {
    let mut rest = number;
    for _ in 0..width {
        bits.push(rest % 2 == 1)?;
        rest /= 2;
    }
    Ok(())
}

fn is_clock(net: &Net, place: usize) -> bool {
    match net.clock {
        Some(clock) => clock as usize == place,
        None => false,
    }
}

/// The bits of all inputs. The clock is 0; an input without a number as well.
fn input_bits(alloc: Global, net: &Net, inputs: &[u64]) -> Result<Vec<bool>, Memory> {
    let mut bits = Vec::new(alloc);
    let mut numbers = inputs.iter();
    for (place, info) in net.nets.as_slice().iter().enumerate() {
        if info.dir == Dir::Input {
            let number = if is_clock(net, place) {
                None
            } else {
                numbers.next()
            };
            push_digits(number.copied().unwrap_or(0), info.width(), &mut bits)?;
        }
    }
    Ok(bits)
}

/// The number that so many bits spell, from a place on.
fn number_at(values: &[bool], start: u64, width: u64) -> u64 {
    let mut number = 0_u64;
    for place in 0..width {
        let at = start.saturating_add(width - 1 - place);
        let digit = values.get(at as usize).copied().unwrap_or(false);
        number = number.wrapping_mul(2).wrapping_add(u64::from(digit));
    }
    number
}

/// Whether the outputs have these numbers, in the order of the nets.
fn are_seen(net: &Net, values: &[bool], outputs: &[u64]) -> bool {
    let mut wanted = outputs.iter();
    let mut start = 0_u64;
    for info in net.nets.as_slice() {
        let width = info.width();
        if info.dir == Dir::Output && wanted.next() != Some(&number_at(values, start, width)) {
            return false;
        }
        start = start.saturating_add(width);
    }
    wanted.next().is_none()
}

/// A step, where there are as many inputs and registers as it takes.
fn stepped(
    alloc: Global,
    net: &Net,
    state: &State,
    inputs: &[u64],
) -> Result<Option<Stepped>, Memory> {
    let bits = input_bits(alloc, net, inputs)?;
    if net.inputs() != bits.len() || net.registers() != state.len() {
        return Ok(None);
    }
    Ok(Some(step(alloc, net, state, &bits)?))
}

/// The next state, where a cycle shows what is wanted.
fn passed(alloc: Global, net: &Net, state: &State, cycle: &Cycle) -> Result<Option<State>, Memory> {
    match stepped(alloc, net, state, cycle.0)? {
        Some(stepped) => {
            if are_seen(net, stepped.values.as_slice(), cycle.1) {
                Ok(Some(stepped.next))
            } else {
                Ok(None)
            }
        }
        None => Ok(None),
    }
}

/// The first cycle that doesn't show what is wanted.
fn first_other(alloc: Global, net: &Net, cycles: &[Cycle]) -> Result<Option<usize>, Memory> {
    let mut state = initial(alloc, net)?;
    for (place, cycle) in cycles.iter().enumerate() {
        match passed(alloc, net, &state, cycle)? {
            Some(next) => state = next,
            None => return Ok(Some(place)),
        }
    }
    Ok(None)
}

/// The first cycle of a row that isn't right; the first one where the design is refused.
fn wrong_cycle(alloc: Global, row: &Row) -> Result<Option<usize>, Memory> {
    let texts = [row.0.as_bytes()];
    match netlist_of(alloc, &texts, b"t") {
        Ok(net) => first_other(alloc, &net, row.1),
        Err(_) => Ok(Some(0)),
    }
}

/// The first row that isn't right, and its first cycle that isn't.
pub(crate) fn first_wrong(alloc: Global, rows: &[Row]) -> Result<Option<(usize, usize)>, Fail> {
    for (place, row) in rows.iter().enumerate() {
        if let Some(cycle) = wrong_cycle(alloc, row)? {
            return Ok(Some((place, cycle)));
        }
    }
    Ok(None)
}
