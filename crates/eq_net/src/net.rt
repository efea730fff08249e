//! The netlist and what it keeps.

ghost use Rattle.std.specs.Prelude.{◌≡◌, ◌≤◌, slice_get};
ghost use Rattle.std.specs.Option.{option_copied};
ghost use Rattle.eq_net.specs.Held.{input_count, register_count};
ghost use Rattle.eq_net.specs.Net.{IsNet, bits_of, most_cost, parts};
ghost use Rattle.eq_net.specs.NetProp.{IsNet-prop};

use crate::types::{Driver, Drivers, NetInfo, NetInfos, NetNumbers, Words};

/// A flat netlist. Nets stand by instance, then by first mention; bits by net, then by position.
#[derive(Debug, Drop)]
pub struct Net {
    pub nets: NetInfos,
    pub words: Words,
    /// For each bit, in order.
    pub drivers: Drivers,
    /// The numbers of the ports' nets, in the order of the header.
    pub ports: NetNumbers,
    /// The number of the clock's net.
    pub clock: Option<u32>,
    /// A bound on the nodes that the design takes as a graph of bits, at most 2,000,000.
    pub cost: u64,
    ghost is_net: { IsNet (parts nets words drivers ports clock cost) } by { IsNet-prop (parts nets words drivers ports clock cost) },
}

impl Net {
    /// The net of a number. There is none from the number of nets on.
    pub fn info(&self, net: u32) -> Option<&NetInfo>
        ensures { option_copied result ≡ slice_get self.now.nets net }
    {
        self.nets.get(net as usize)
    }

    /// How many bits the nets have together.
    pub fn bits(&self) -> u32
        ensures { result ≡ bits_of self.now.nets }
    {
        self.drivers.len() as u32
    }

    /// How many bits come from outside: as many inputs as a step takes.
    pub fn inputs(&self) -> usize
        ensures { result ≡ input_count self.now.drivers }
    {
        count_inputs(self.drivers.as_slice())
    }

    /// How many bits are registers: as many as a state has.
    pub fn registers(&self) -> usize
        ensures { result ≡ register_count self.now.drivers }
    {
        count_registers(self.drivers.as_slice())
    }

    pub fn cost(&self) -> u64
        ensures cost { result ≡ self.now.cost }
        ensures limit { result ≤ most_cost }
    {
        self.cost
    }
}

fn count_inputs(drivers: &[Driver]) -> usize
    ensures { result ≡ input_count drivers.now }
{
    let mut count = 0;
    for driver in drivers {
        match driver {
            Driver::Input => count += 1,
            Driver::Undriven => {}
            Driver::Expr { .. } => {}
            Driver::Reg { .. } => {}
        }
    }
    count
}

fn count_registers(drivers: &[Driver]) -> usize
    ensures { result ≡ register_count drivers.now }
{
    let mut count = 0;
    for driver in drivers {
        match driver {
            Driver::Input => {}
            Driver::Undriven => {}
            Driver::Expr { .. } => {}
            Driver::Reg { .. } => count += 1,
        }
    }
    count
}
