//! Primitive gates: one word for all outputs, a reduction of the inputs.

ghost use Rattle.std.specs.Prelude.{◌≡◌, ◌+◌, ◌<◌, ◌≤◌, ◌^◌, IfOk, OnOk, length, map};
ghost use Rattle.eq_net.specs.Net.{bits_of};
ghost use Rattle.eq_net.specs.Tree.{tree_of, trees_of};
ghost use Rattle.eq_verilog.specs.Costs.{cost};
ghost use Rattle.eq_verilog.specs.Equations.{assignment, gated};
ghost use Rattle.eq_verilog.specs.Trees.{expr_tree, join_all};
ghost use Rattle.eq_analysis.specs.Finding.{scope_of};
ghost use Rattle.eq_analysis.specs.Measuring.{AllSmall, IsFit};
ghost use Rattle.eq_flatten.specs.Equating.{AddsEquations, AreStarts, AreTargets, DrivesAll, IsDrivenBy};
ghost use Rattle.eq_flatten.specs.Gating as spec;
ghost use Rattle.eq_flatten.specs.Meant.{AreSlim};
ghost use Rattle.eq_flatten.specs.Gating.{AreBits};
ghost use Rattle.eq_flatten.specs.Rendering.{Makes};

use crate::driving::{Slot, drive};
use crate::forms::{extended, unary};
use crate::target_bits::add_output;
use crate::words::{add_word, narrow, part_words};
use eq_base::Memory;
use eq_names::NameTable;
use eq_net::{BitNames, NetInfo, Word, Words};
use eq_vparse::{Expr, GateKind, UnOp};
use std::alloc::Global;

/// What a gate does to its inputs, joined. A buffer does nothing.
fn operator(kind: GateKind) -> Option<UnOp>
    ensures { result ≡ spec.operator kind }
{
    match kind {
        GateKind::And => Some(UnOp::RedAnd),
        GateKind::Nand => Some(UnOp::RedNand),
        GateKind::Or => Some(UnOp::RedOr),
        GateKind::Nor => Some(UnOp::RedNor),
        GateKind::Xor => Some(UnOp::RedXor),
        GateKind::Xnor => Some(UnOp::RedXnor),
        GateKind::Buf => None,
        GateKind::Not => Some(UnOp::Not),
    }
}

/// How many of the terminals are outputs. They come first.
pub fn outputs(kind: GateKind, terms: usize) -> usize
    ensures { result ≡ spec.outputs_of kind terms }
{
    match kind {
        GateKind::Buf | GateKind::Not => terms.saturating_sub(1),
        GateKind::And
        | GateKind::Nand
        | GateKind::Or
        | GateKind::Nor
        | GateKind::Xor
        | GateKind::Xnor => 1,
    }
}

/// The inputs, joined.
fn inputs_word(
    alloc: Global,
    inputs: &[Expr],
    nets: &[NetInfo],
    names: &NameTable,
    from: u32,
    words: &mut Words,
) -> Result<Word, Memory>
    requires room { from + length names.now < 2 ^ 32 }
    requires fit { IsFit nets.now names.now from (join_all (map expr_tree inputs.now)) }
    requires small { AllSmall (scope_of nets.now names.now from) (map expr_tree inputs.now) }
    requires bits { AreBits (scope_of nets.now names.now from) (map expr_tree inputs.now) }
    ensures { IfOk result (λ made.
        Makes nets.now (scope_of nets.now names.now from) (join_all (map expr_tree inputs.now))
        (length inputs.now) (trees_of words.old) (trees_of words.new) (tree_of made)) }
{
    let count = narrow(inputs.len())?;
    let made = part_words(alloc, inputs, nets, names, from, words)?;
    extended(alloc, Word::Concat(made), count)
}

/// The word of the outputs of a gate.
pub fn gate_word(
    alloc: Global,
    kind: GateKind,
    inputs: &[Expr],
    nets: &[NetInfo],
    names: &NameTable,
    from: u32,
    words: &mut Words,
) -> Result<Word, Memory>
    requires room { from + length names.now < 2 ^ 32 }
    requires fit { IsFit nets.now names.now from (join_all (map expr_tree inputs.now)) }
    requires small { AllSmall (scope_of nets.now names.now from) (map expr_tree inputs.now) }
    requires bits { AreBits (scope_of nets.now names.now from) (map expr_tree inputs.now) }
    requires inputs { spec.HasInputs kind (length inputs.now) }
    ensures { IfOk result (λ made.
        Makes nets.now (scope_of nets.now names.now from)
        (gated kind (join_all (map expr_tree inputs.now))) 1
        (trees_of words.old) (trees_of words.new) (tree_of made)) }
{
    let joined = inputs_word(alloc, inputs, nets, names, from, words)?;
    match operator(kind) {
        Some(op) => unary(alloc, op, joined, 1),
        None => Ok(joined),
    }
}

/// The bits of an output are driven by a word.
fn drive_output(
    alloc: Global,
    target: &Expr,
    word: u32,
    nets: &[NetInfo],
    names: &NameTable,
    from: u32,
    starts: &[u32],
    slots: &mut [Slot],
) -> Result<(), Memory>
    requires room { from + length names.now < 2 ^ 32 }
    requires fit { IsFit nets.now names.now from (expr_tree target.now) }
    requires slim { AreSlim (scope_of nets.now names.now from) (expr_tree target.now) }
    requires starts { AreStarts nets.now starts.now }
    requires slots { length slots.old ≡ bits_of nets.now }
    requires few { bits_of nets.now < 2 ^ 32 }
    ensures { OnOk result (IsDrivenBy (scope_of nets.now names.now from) (expr_tree target.now)
        word slots.old slots.new) }
{
    let mut bits = BitNames::new(alloc);
    add_output(alloc, &mut bits, target, nets, names, from)?;
    narrow(bits.len())?;
    drive(slots, starts, bits.as_slice(), word);
    Ok(())
}

/// The bits of outputs of one bit are driven by a word.
fn drive_outputs(
    alloc: Global,
    targets: &[Expr],
    word: u32,
    nets: &[NetInfo],
    names: &NameTable,
    from: u32,
    starts: &[u32],
    slots: &mut [Slot],
) -> Result<(), Memory>
    requires room { from + length names.now < 2 ^ 32 }
    requires fit { IsFit nets.now names.now from (join_all (map expr_tree targets.now)) }
    requires targets { AreTargets (scope_of nets.now names.now from) (map expr_tree targets.now) }
    requires bits { AreBits (scope_of nets.now names.now from) (map expr_tree targets.now) }
    requires starts { AreStarts nets.now starts.now }
    requires slots { length slots.old ≡ bits_of nets.now }
    requires few { bits_of nets.now < 2 ^ 32 }
    ensures { OnOk result (DrivesAll nets.now (scope_of nets.now names.now from) word
        (map expr_tree targets.now) slots.old slots.new) }
{
    for target in targets {
        drive_output(alloc, target, word, nets, names, from, starts, slots)?;
    }
    Ok(())
}

/// The equations of a gate with these outputs and these inputs.
pub fn add_gate(
    alloc: Global,
    kind: GateKind,
    targets: &[Expr],
    inputs: &[Expr],
    nets: &[NetInfo],
    names: &NameTable,
    from: u32,
    starts: &[u32],
    words: &mut Words,
    slots: &mut [Slot],
) -> Result<(), Memory>
    requires room { from + length names.now < 2 ^ 32 }
    requires outputs { IsFit nets.now names.now from (join_all (map expr_tree targets.now)) }
    requires targets { AreTargets (scope_of nets.now names.now from) (map expr_tree targets.now) }
    requires ones { AreBits (scope_of nets.now names.now from) (map expr_tree targets.now) }
    requires fit { IsFit nets.now names.now from (join_all (map expr_tree inputs.now)) }
    requires small { AllSmall (scope_of nets.now names.now from) (map expr_tree inputs.now) }
    requires bits { AreBits (scope_of nets.now names.now from) (map expr_tree inputs.now) }
    requires inputs { spec.HasInputs kind (length inputs.now) }
    requires starts { AreStarts nets.now starts.now }
    requires slots { length slots.old ≡ bits_of nets.now }
    requires few { bits_of nets.now < 2 ^ 32 }
    ensures { OnOk result (AddsEquations nets.now (trees_of words.old) (trees_of words.new)
        slots.old slots.new
        (map (λ t. assignment (scope_of nets.now names.now from) t (scope_of nets.now names.now from)
        (gated kind (join_all (map expr_tree inputs.now)))) (map expr_tree targets.now))
        (cost (scope_of nets.now names.now from) (gated kind (join_all (map expr_tree inputs.now))) 1)) }
{
    let made = gate_word(alloc, kind, inputs, nets, names, from, words)?;
    let number = add_word(made, words)?;
    drive_outputs(alloc, targets, number, nets, names, from, starts, slots)
}
