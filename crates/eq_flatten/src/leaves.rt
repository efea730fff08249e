//! Names, selects and constants as words.

ghost use Rattle.std.specs.Prelude.{◌≡◌, ◌+◌, ◌<◌, ◌≤◌, ◌^◌, List, IfOk, length, true};
ghost use Rattle.eq_net.specs.Tree.{Tree, tree_of};
ghost use Rattle.eq_verilog.specs.Trees as tree;
ghost use Rattle.eq_verilog.specs.Scopes as spec;
ghost use Rattle.eq_verilog.specs.ModuleRefusals.{most_size};
ghost use Rattle.eq_analysis.specs.Finding.{net_in, scope_of};
ghost use Rattle.eq_flatten.specs.Rendering.{Makes};

use crate::forms::read;
use eq_analysis::{net_number, position, range, span, width};
use eq_base::Memory;
use eq_names::{Name, NameTable};
use eq_net::{NetInfo, Word};
use std::alloc::Global;

/// The word of a name in a context of `size` bits.
pub fn name_word(
    alloc: Global,
    name: &Name,
    size: u32,
    nets: &[NetInfo],
    names: &NameTable,
    from: u32,
) -> Result<Word, Memory>
    requires room { from + length names.now < 2 ^ 32 }
    requires there { net_in names.now from name.now < length nets.now }
    requires small { spec.width (scope_of nets.now names.now from) name.now ≤ most_size }
    requires context { spec.width (scope_of nets.now names.now from) name.now ≤ size }
    ensures { IfOk result (λ made. (words : List Tree) →
        Makes nets.now (scope_of nets.now names.now from) (tree.net name.now) size
        words words (tree_of made)) }
{
    let net = net_number(names, from, name);
    let count = width(nets, names, from, name);
    read(alloc, net, 0, count, size)
}

/// The word of a bit of a net in a context of `size` bits.
pub fn bit_word(
    alloc: Global,
    name: &Name,
    index: u32,
    size: u32,
    nets: &[NetInfo],
    names: &NameTable,
    from: u32,
) -> Result<Word, Memory>
    requires room { from + length names.now < 2 ^ 32 }
    requires there { net_in names.now from name.now < length nets.now }
    requires inside { spec.is_select ((scope_of nets.now names.now from).range name.now)
        index index ≡ true }
    requires context { 1 ≤ size }
    ensures { IfOk result (λ made. (words : List Tree) →
        Makes nets.now (scope_of nets.now names.now from) (tree.bit name.now index) size
        words words (tree_of made)) }
{
    let net = net_number(names, from, name);
    let first = position(range(nets, names, from, name), index);
    read(alloc, net, first, 1, size)
}

/// The word of a part of a net in a context of `size` bits.
pub fn part_word(
    alloc: Global,
    name: &Name,
    left: u32,
    right: u32,
    size: u32,
    nets: &[NetInfo],
    names: &NameTable,
    from: u32,
) -> Result<Word, Memory>
    requires room { from + length names.now < 2 ^ 32 }
    requires there { net_in names.now from name.now < length nets.now }
    requires inside { spec.is_select ((scope_of nets.now names.now from).range name.now)
        left right ≡ true }
    requires small { spec.width (scope_of nets.now names.now from) name.now ≤ most_size }
    requires few { spec.span left right ≤ most_size }
    requires context { spec.span left right ≤ size }
    ensures { IfOk result (λ made. (words : List Tree) →
        Makes nets.now (scope_of nets.now names.now from) (tree.part name.now left right) size
        words words (tree_of made)) }
{
    let net = net_number(names, from, name);
    let first = position(range(nets, names, from, name), right);
    let count = span(left, right);
    read(alloc, net, first, count, size)
}
