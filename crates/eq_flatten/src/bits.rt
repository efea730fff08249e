//! The bits that a name or a select means, the lowest first.

ghost use Rattle.std.specs.Prelude.{◌≡◌, ◌+◌, ◌<◌, ◌≤◌, ◌^◌, IfOk, length, true};
ghost use Rattle.eq_verilog.specs.Trees as tree;
ghost use Rattle.eq_verilog.specs.Scopes as spec;
ghost use Rattle.eq_verilog.specs.ModuleRefusals.{most_size};
ghost use Rattle.eq_analysis.specs.Finding.{net_in, scope_of};
ghost use Rattle.eq_flatten.specs.Meant.{AreMeant};

use crate::forms::net_bits;
use eq_analysis::{net_number, position, range, span, width};
use eq_base::Memory;
use eq_names::{Name, NameTable};
use eq_net::{BitNames, NetInfo};
use std::alloc::Global;

/// The bits of a name.
pub fn name_bits(
    alloc: Global,
    name: &Name,
    nets: &[NetInfo],
    names: &NameTable,
    from: u32,
) -> Result<BitNames, Memory>
    requires room { from + length names.now < 2 ^ 32 }
    requires there { net_in names.now from name.now < length nets.now }
    requires small { spec.width (scope_of nets.now names.now from) name.now ≤ most_size }
    ensures { IfOk result
        (AreMeant nets.now (scope_of nets.now names.now from) (tree.net name.now)) }
{
    let net = net_number(names, from, name);
    let count = width(nets, names, from, name);
    net_bits(alloc, net, 0, count)
}

/// The bit of an index.
pub fn index_bits(
    alloc: Global,
    name: &Name,
    index: u32,
    nets: &[NetInfo],
    names: &NameTable,
    from: u32,
) -> Result<BitNames, Memory>
    requires room { from + length names.now < 2 ^ 32 }
    requires there { net_in names.now from name.now < length nets.now }
    requires inside { spec.is_select ((scope_of nets.now names.now from).range name.now)
        index index ≡ true }
    ensures { IfOk result
        (AreMeant nets.now (scope_of nets.now names.now from) (tree.bit name.now index)) }
{
    let net = net_number(names, from, name);
    let first = position(range(nets, names, from, name), index);
    net_bits(alloc, net, first, 1)
}

/// The bits of a part of a net.
pub fn part_bits(
    alloc: Global,
    name: &Name,
    left: u32,
    right: u32,
    nets: &[NetInfo],
    names: &NameTable,
    from: u32,
) -> Result<BitNames, Memory>
    requires room { from + length names.now < 2 ^ 32 }
    requires there { net_in names.now from name.now < length nets.now }
    requires inside { spec.is_select ((scope_of nets.now names.now from).range name.now)
        left right ≡ true }
    requires small { spec.width (scope_of nets.now names.now from) name.now ≤ most_size }
    requires few { spec.span left right ≤ most_size }
    ensures { IfOk result
        (AreMeant nets.now (scope_of nets.now names.now from) (tree.part name.now left right)) }
{
    let net = net_number(names, from, name);
    let first = position(range(nets, names, from, name), right);
    let count = span(left, right);
    net_bits(alloc, net, first, count)
}
