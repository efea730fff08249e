//! A netlist from its parts.

ghost use Rattle.std.specs.Prelude.{◌≡◌, ◌≤◌, ◌+◌, true, IfOk, IfSome, sum_by};
ghost use Rattle.eq_model.specs.System.{IsLoopFree};
ghost use Rattle.eq_net.specs.Meaning.{cost_of};
ghost use Rattle.eq_net.specs.Net.{bits_of, most_cost, parts, system_of, AreWords, IsNet};
ghost use Rattle.eq_net.specs.Tree.{trees_of as words_of};
ghost use Rattle.eq_verilog.specs.Designs.{may_be_clock};
ghost use Rattle.eq_reads.specs.Graph.{bare};
ghost use Rattle.eq_layout.specs.Layout.{design_in, AreSound, IsLaidOut};
ghost use Rattle.eq_drivers.specs.Wiring.{AreTold};
ghost use Rattle.eq_assembly.specs.Assembled.{AreParts};

use crate::clocking::clock_net;
use crate::porting::port_numbers;
use eq_base::Memory;
use eq_layout::Layout;
use eq_names::Name;
use eq_net::{Driver, Drivers, Net, NetInfo, NetInfos, NetNumbers, Words};
use std::alloc::Global;

/// A netlist of parts that fit together.
fn net_of_parts(
    nets: Vec<NetInfo>,
    words: Words,
    drivers: Vec<Driver>,
    ports: NetNumbers,
    clock: Option<u32>,
    cost: u64,
) -> Net
    requires fit { IsNet (parts nets.items words drivers.items ports clock cost) }
    ensures nets { result.nets ≡ nets.items }
    ensures words { result.words ≡ words }
    ensures drivers { result.drivers ≡ drivers.items }
    ensures ports { result.ports ≡ ports }
    ensures clock { result.clock ≡ clock }
    ensures cost { result.cost ≡ cost }
{
    Net {
        nets: NetInfos::from_vec(nets),
        words,
        drivers: Drivers::from_vec(drivers),
        ports,
        clock,
        cost,
    }
}

/// The netlist of a design that is laid out, from its words, its drivers, the bit of its clock and its cost.
pub fn assemble(
    alloc: Global,
    layout: Layout,
    top: &Name,
    words: Words,
    drivers: Vec<Driver>,
    clock: Option<u32>,
    cost: u64,
) -> Result<Net, Memory>
    requires laid { IsLaidOut top.now layout }
    requires sound { AreSound top.now layout }
    requires words { AreWords layout.flat.nets.items (words_of words) }
    requires told { AreTold layout.flat.nets.items (words_of words) (design_in layout top.now)
        drivers.items }
    requires free { IsLoopFree (system_of (bare layout.flat.nets.items (words_of words)
        drivers.items)) }
    requires clock { IfSome clock (λ c. may_be_clock (design_in layout top.now) c ≡ true) }
    requires covered { (2 + bits_of layout.flat.nets.items) + sum_by cost_of (words_of words) ≤ cost }
    requires limited { cost ≤ most_cost }
    ensures ok { IfOk result (λ net. AreParts layout.entry top.now (words_of words) drivers.items clock
        cost net) }
{
    let ports = port_numbers(alloc, &layout, top)?;
    let flat = layout.flat;
    let clock = clock_net(flat.nets.as_slice(), clock);
    Ok(net_of_parts(flat.nets, words, drivers, ports, clock, cost))
}
