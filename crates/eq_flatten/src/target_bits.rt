//! The bits that a target means, the lowest first.

ghost use Rattle.std.specs.Prelude.{◌≡◌, ◌+◌, ◌++◌, ◌<◌, ◌≤◌, ◌^◌, OnOk, length, map};
ghost use Rattle.eq_verilog.specs.Trees.{expr_tree, join_all, target_tree};
ghost use Rattle.eq_analysis.specs.Finding.{scope_of};
ghost use Rattle.eq_analysis.specs.Measuring.{IsFit};
ghost use Rattle.eq_flatten.specs.Meant.{AddsMeant, AreSlim};

use crate::bits::{index_bits, name_bits, part_bits};
use eq_base::Memory;
use eq_names::NameTable;
use eq_net::{BitName, BitNames, NetInfo};
use eq_vparse::{Expr, Target};
use std::alloc::Global;

/// Puts the bits of a target behind others.
#[cycle(target_bits)]
pub fn add_target(
    alloc: Global,
    bits: &mut BitNames,
    target: &Target,
    nets: &[NetInfo],
    names: &NameTable,
    from: u32,
) -> Result<(), Memory>
    requires room { from + length names.now < 2 ^ 32 }
    requires fit { IsFit nets.now names.now from (target_tree target.now) }
    requires slim { AreSlim (scope_of nets.now names.now from) (target_tree target.now) }
    ensures { OnOk result (AddsMeant nets.now (scope_of nets.now names.now from)
        (target_tree target.entry.now) bits.old bits.new) }
{
    match target {
        Target::Net(name) => {
            let more = name_bits(alloc, name, nets, names, from)?;
            add_bits(bits, more.as_slice())
        }
        Target::Bit(name, index) => {
            let more = index_bits(alloc, name, *index, nets, names, from)?;
            add_bits(bits, more.as_slice())
        }
        Target::Part(name, left, right) => {
            let more = part_bits(alloc, name, *left, *right, nets, names, from)?;
            add_bits(bits, more.as_slice())
        }
        Target::Concat(parts) => add_parts(alloc, bits, parts.as_slice(), nets, names, from),
    }
}

/// Puts bits behind others.
fn add_bits(bits: &mut BitNames, more: &[BitName]) -> Result<(), Memory>
    ensures { OnOk result (bits.new ≡ bits.old ++ more.now) }
{
    for bit in more {
        bits.push(*bit)?;
    }
    Ok(())
}

/// Puts the bits of the parts of a concatenation behind others, those of the last part first.
#[cycle(target_bits)]
fn add_parts(
    alloc: Global,
    bits: &mut BitNames,
    parts: &[Target],
    nets: &[NetInfo],
    names: &NameTable,
    from: u32,
) -> Result<(), Memory>
    requires room { from + length names.now < 2 ^ 32 }
    requires fit { IsFit nets.now names.now from (join_all (map target_tree parts.now)) }
    requires slim { AreSlim (scope_of nets.now names.now from)
        (join_all (map target_tree parts.now)) }
    ensures { OnOk result (AddsMeant nets.now (scope_of nets.now names.now from)
        (join_all (map target_tree parts.entry.now)) bits.old bits.new) }
{
    let mut place = parts.len();
    while place > 0 {
        place -= 1;
        add_target(alloc, bits, &parts[place], nets, names, from)?;
    }
    Ok(())
}

/// Puts the bits of a target that was read as an expression behind others: what a gate's or an instance's output is
/// connected to.
#[cycle(output_bits)]
pub fn add_output(
    alloc: Global,
    bits: &mut BitNames,
    target: &Expr,
    nets: &[NetInfo],
    names: &NameTable,
    from: u32,
) -> Result<(), Memory>
    requires room { from + length names.now < 2 ^ 32 }
    requires fit { IsFit nets.now names.now from (expr_tree target.now) }
    requires slim { AreSlim (scope_of nets.now names.now from) (expr_tree target.now) }
    ensures { OnOk result (AddsMeant nets.now (scope_of nets.now names.now from)
        (expr_tree target.entry.now) bits.old bits.new) }
{
    match target {
        Expr::Net(name) => {
            let more = name_bits(alloc, name, nets, names, from)?;
            add_bits(bits, more.as_slice())
        }
        Expr::Bit(name, index) => {
            let more = index_bits(alloc, name, *index, nets, names, from)?;
            add_bits(bits, more.as_slice())
        }
        Expr::Part(name, left, right) => {
            let more = part_bits(alloc, name, *left, *right, nets, names, from)?;
            add_bits(bits, more.as_slice())
        }
        Expr::Concat(parts) => add_outputs(alloc, bits, parts.as_slice(), nets, names, from),
        Expr::Const(_) => unreachable!(),
        Expr::Repeat(_, _) => unreachable!(),
        Expr::Unary(_, _) => unreachable!(),
        Expr::Binary(_, _, _) => unreachable!(),
        Expr::Cond(_, _, _) => unreachable!(),
    }
}

/// Puts the bits of the parts of a concatenation behind others, those of the last part first.
#[cycle(output_bits)]
fn add_outputs(
    alloc: Global,
    bits: &mut BitNames,
    parts: &[Expr],
    nets: &[NetInfo],
    names: &NameTable,
    from: u32,
) -> Result<(), Memory>
    requires room { from + length names.now < 2 ^ 32 }
    requires fit { IsFit nets.now names.now from (join_all (map expr_tree parts.now)) }
    requires slim { AreSlim (scope_of nets.now names.now from)
        (join_all (map expr_tree parts.now)) }
    ensures { OnOk result (AddsMeant nets.now (scope_of nets.now names.now from)
        (join_all (map expr_tree parts.entry.now)) bits.old bits.new) }
{
    let mut place = parts.len();
    while place > 0 {
        place -= 1;
        add_output(alloc, bits, &parts[place], nets, names, from)?;
    }
    Ok(())
}
