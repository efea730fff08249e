//! What the items of a module drive by themselves: assignments and gates. What is connected to an instance stands with the
//! instance.

ghost use Rattle.std.specs.Prelude.{◌≡◌, ◌+◌, ◌<◌, ◌^◌, OnOk, flat_map, length, map, sum_by};
ghost use Rattle.eq_net.specs.Net.{bits_of};
ghost use Rattle.eq_net.specs.Tree.{trees_of};
ghost use Rattle.eq_verilog.specs.Trees.{expr_tree, item_tree};
ghost use Rattle.eq_analysis.specs.Finding.{scope_of};
ghost use Rattle.eq_flatten.specs.Equating.{AddsEquations, AreStarts};
ghost use Rattle.eq_flatten.specs.Items.{gate_cost, gate_equations, own_cost, own_equations, AreReady, AreTerminals, IsReady};

use crate::driving::Slot;
use crate::equations::add_assign;
use crate::gates::{add_gate, outputs};
use eq_base::Memory;
use eq_names::NameTable;
use eq_net::{NetInfo, Words};
use eq_vparse::{Expr, GateKind, Item};
use std::alloc::Global;

/// The equations of a gate with these terminals, its outputs first.
fn add_terminals(
    alloc: Global,
    kind: GateKind,
    terms: &[Expr],
    nets: &[NetInfo],
    names: &NameTable,
    from: u32,
    starts: &[u32],
    words: &mut Words,
    slots: &mut [Slot],
) -> Result<(), Memory>
    requires room { from + length names.now < 2 ^ 32 }
    requires terminals { AreTerminals nets.now names.now from kind (map expr_tree terms.now) }
    requires starts { AreStarts nets.now starts.now }
    requires slots { length slots.old ≡ bits_of nets.now }
    requires few { bits_of nets.now < 2 ^ 32 }
    ensures { OnOk result (AddsEquations nets.now (trees_of words.old) (trees_of words.new)
        slots.old slots.new
        (gate_equations (scope_of nets.now names.now from) kind (map expr_tree terms.now))
        (gate_cost (scope_of nets.now names.now from) kind (map expr_tree terms.now))) }
{
    let count = outputs(kind, terms.len());
    let (targets, inputs) = terms.split_at(count);
    add_gate(
        alloc, kind, targets, inputs, nets, names, from, starts, words, slots,
    )
}

/// The equations of an item.
pub fn add_equations(
    alloc: Global,
    item: &Item,
    nets: &[NetInfo],
    names: &NameTable,
    from: u32,
    starts: &[u32],
    words: &mut Words,
    slots: &mut [Slot],
) -> Result<(), Memory>
    requires room { from + length names.now < 2 ^ 32 }
    requires ready { IsReady nets.now names.now from (item_tree item.now) }
    requires starts { AreStarts nets.now starts.now }
    requires slots { length slots.old ≡ bits_of nets.now }
    requires few { bits_of nets.now < 2 ^ 32 }
    ensures { OnOk result (AddsEquations nets.now (trees_of words.old) (trees_of words.new)
        slots.old slots.new
        (own_equations (scope_of nets.now names.now from) (item_tree item.now))
        (own_cost (scope_of nets.now names.now from) (item_tree item.now))) }
{
    match item {
        Item::Assign { target, expr } => add_assign(
            alloc, target, expr, nets, names, from, starts, words, slots,
        ),
        Item::Gate { kind, terms, .. } => add_terminals(
            alloc,
            *kind,
            terms.as_slice(),
            nets,
            names,
            from,
            starts,
            words,
            slots,
        ),
        Item::Decl { .. } => Ok(()),
        Item::Instance { .. } => Ok(()),
        Item::Always { .. } => Ok(()),
        Item::Init { .. } => Ok(()),
    }
}

/// The equations of all items of an instance, without those of its own instances.
pub fn add_module(
    alloc: Global,
    items: &[Item],
    nets: &[NetInfo],
    names: &NameTable,
    from: u32,
    starts: &[u32],
    words: &mut Words,
    slots: &mut [Slot],
) -> Result<(), Memory>
    requires room { from + length names.now < 2 ^ 32 }
    requires ready { AreReady nets.now names.now from (map item_tree items.now) }
    requires starts { AreStarts nets.now starts.now }
    requires slots { length slots.old ≡ bits_of nets.now }
    requires few { bits_of nets.now < 2 ^ 32 }
    ensures { OnOk result (AddsEquations nets.now (trees_of words.old) (trees_of words.new)
        slots.old slots.new
        (flat_map (own_equations (scope_of nets.now names.now from)) (map item_tree items.now))
        (sum_by (own_cost (scope_of nets.now names.now from)) (map item_tree items.now))) }
{
    for item in items {
        add_equations(alloc, item, nets, names, from, starts, words, slots)?;
    }
    Ok(())
}
