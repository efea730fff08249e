//! What outputs are connected to: a target, or what is no target. Outputs of gates.

ghost use Rattle.std.specs.Prelude.{◌≡◌, [], map, option_copied, IfOk};
ghost use Rattle.eq_verilog.specs.Trees.{expr_tree, join_all};
ghost use Rattle.eq_verilog.specs.Firsts.{first_found};
ghost use Rattle.eq_verilog.specs.Equations.{gate_outputs};
ghost use Rattle.eq_verilog.specs.TargetRefusals as targets;
ghost use Rattle.eq_analysis.specs.declared.targets.Right.TheVariants.{Driven};
ghost use Rattle.eq_analysis.specs.Placing.{ArePlaces};
ghost use Rattle.eq_analysis.specs.Tabling.{tree_at};
ghost use Rattle.eq_analysis.specs.inner.Targeting.{is_right, AreThrough};
ghost use Rattle.eq_analysis.specs.inner.Outgoing as spec;

use crate::placing::Places;
use crate::tables::Table;
use crate::targets::{Right, bit_leaf, net_leaf, part_leaf};
use eq_base::Memory;
use eq_names::Name;
use eq_vparse::{Expr, GateKind};
use std::alloc::Global;
use std::collections::HashMap;

/// Whether an expression is a target.
#[cycle(forms)]
fn is_target(expr: &Expr) -> bool
    ensures { result ≡ targets.is_target (expr_tree expr.now) }
{
    match expr {
        Expr::Const(_) => false,
        Expr::Net(_) => true,
        Expr::Bit(_, _) => true,
        Expr::Part(_, _, _) => true,
        Expr::Concat(parts) => are_targets(parts.as_slice()),
        Expr::Repeat(_, _) => false,
        Expr::Unary(_, _) => false,
        Expr::Binary(_, _, _) => false,
        Expr::Cond(_, _, _) => false,
    }
}

/// Whether the parts of a concatenation are targets.
#[cycle(forms)]
fn are_targets(parts: &[Expr]) -> bool
    ensures { result ≡ targets.is_target (join_all (map expr_tree parts.now)) }
{
    for part in parts {
        if !is_target(part) {
            return false;
        }
    }
    true
}

/// The first net of an output that is wrong.
#[cycle(outputs)]
fn in_output<'a>(
    marks: &mut HashMap<u64, bool>,
    table: &Table,
    places: &Places,
    expr: &'a Expr,
) -> Result<Option<&'a Name>, Memory>
    requires places { ArePlaces (tree_at table.now) places.now }
    ensures { IfOk result (λ found. AreThrough (tree_at table.now) Driven
        (targets.leaves (expr_tree expr.now)) marks.old marks.new (option_copied found)) }
{
    match expr {
        Expr::Const(_) => Ok(None),
        Expr::Net(name) => net_leaf(marks, table, places, Right::Driven, name),
        Expr::Bit(name, index) => bit_leaf(marks, table, places, Right::Driven, name, *index),
        Expr::Part(name, from, to) => {
            part_leaf(marks, table, places, Right::Driven, name, *from, *to)
        }
        Expr::Concat(parts) => in_outputs(marks, table, places, parts.as_slice()),
        Expr::Repeat(_, _) => Ok(None),
        Expr::Unary(_, _) => Ok(None),
        Expr::Binary(_, _, _) => Ok(None),
        Expr::Cond(_, _, _) => Ok(None),
    }
}

/// The first net of the parts of a concatenation that is wrong.
#[cycle(outputs)]
fn in_outputs<'a>(
    marks: &mut HashMap<u64, bool>,
    table: &Table,
    places: &Places,
    parts: &'a [Expr],
) -> Result<Option<&'a Name>, Memory>
    requires places { ArePlaces (tree_at table.now) places.now }
    ensures { IfOk result (λ found. AreThrough (tree_at table.now) Driven
        (targets.leaves (join_all (map expr_tree parts.now)))
        marks.old marks.new (option_copied found)) }
{
    for part in parts {
        if let Some(name) = in_output(marks, table, places, part)? {
            return Ok(Some(name));
        }
    }
    Ok(None)
}

/// The net of an output that is wrong, or has a bit twice in it.
fn bad_net<'a>(
    alloc: Global,
    table: &Table,
    places: &Places,
    expr: &'a Expr,
) -> Result<Option<&'a Name>, Memory>
    requires places { ArePlaces (tree_at table.now) places.now }
    ensures { IfOk result (λ found. option_copied found ≡ targets.bad_leaf (tree_at table.now)
        (is_right Driven (tree_at table.now)) [] (targets.leaves (expr_tree expr.now))) }
{
    let mut marks = HashMap::new(alloc);
    let found = in_output(&mut marks, table, places, expr)?;
    Ok(found)
}

/// What is wrong with what an output is connected to: the module, where it is no target.
pub fn bad_output<'a>(
    alloc: Global,
    table: &Table<'a>,
    places: &Places,
    expr: &'a Expr,
) -> Result<Option<&'a Name>, Memory>
    requires places { ArePlaces (tree_at table.now) places.now }
    ensures { IfOk result (λ found. option_copied found ≡
        targets.bad_output (tree_at table.now) (expr_tree expr.now)) }
{
    if !is_target(expr) {
        return Ok(Some(&table.within.name));
    }
    let found = bad_net(alloc, table, places, expr)?;
    Ok(found)
}

/// The first of outputs that is wrong.
fn bad_outputs<'a>(
    alloc: Global,
    table: &Table<'a>,
    places: &Places,
    outputs: &'a [Expr],
) -> Result<Option<&'a Name>, Memory>
    requires places { ArePlaces (tree_at table.now) places.now }
    ensures { IfOk result (λ found. option_copied found ≡ first_found
        (targets.bad_output (tree_at table.now)) (map expr_tree outputs.now)) }
{
    for output in outputs {
        if let Some(name) = bad_output(alloc, table, places, output)? {
            return Ok(Some(name));
        }
    }
    Ok(None)
}

/// How many of so many terminals are outputs.
fn outputs_among(kind: GateKind, terms: usize) -> usize
    ensures { result ≡ spec.outputs kind terms }
{
    match kind {
        GateKind::Buf | GateKind::Not => terms.saturating_sub(1),
        GateKind::And
        | GateKind::Nand
        | GateKind::Or
        | GateKind::Nor
        | GateKind::Xor
        | GateKind::Xnor => terms.min(1),
    }
}

/// What is wrong with what the outputs of a gate are connected to.
pub fn bad_terminal<'a>(
    alloc: Global,
    table: &Table<'a>,
    places: &Places,
    kind: GateKind,
    terms: &'a [Expr],
) -> Result<Option<&'a Name>, Memory>
    requires places { ArePlaces (tree_at table.now) places.now }
    ensures { IfOk result (λ found. option_copied found ≡ first_found
        (targets.bad_output (tree_at table.now)) (gate_outputs kind (map expr_tree terms.now))) }
{
    let count = outputs_among(kind, terms.len());
    let found = bad_outputs(alloc, table, places, &terms[..count])?;
    Ok(found)
}
