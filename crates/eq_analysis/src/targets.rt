//! Targets that are wrong: of a wrong net, or with a bit twice.

ghost use Rattle.std.specs.Prelude.{◌≡◌, ◌≤◌, ◌+◌, ◌^◌, ◌++◌, ◌&&◌, ◌∷◌, [], ℕ, List, not, map, option_copied, OnOk, IfOk};
ghost use Rattle.std.specs.List.{list_any};
ghost use Rattle.eq_net.specs.Nets.{side_of};
ghost use Rattle.eq_verilog.specs.Trees as tree;
ghost use Rattle.eq_verilog.specs.Trees.{ExprTree, ModuleTree, target_tree, join_all};
ghost use Rattle.eq_verilog.specs.Declarations as declarations;
ghost use Rattle.eq_verilog.specs.Declarations.{names_in};
ghost use Rattle.eq_verilog.specs.Firsts.{unless};
ghost use Rattle.eq_verilog.specs.Nets.{alone, module_scope, nets_at, offset};
ghost use Rattle.eq_verilog.specs.Costs.{bits_in, has_bit};
ghost use Rattle.eq_verilog.specs.TargetRefusals as spec;
ghost use Rattle.eq_analysis.specs.Marking.{AreMarked, run};
ghost use Rattle.eq_analysis.specs.Placing.{ArePlaces};
ghost use Rattle.eq_analysis.specs.Tabling.{tree_at};
ghost use Rattle.eq_analysis.specs.inner.Targeting.{is_right, AreThrough};

use crate::marking::{is_run_marked, mark_run};
use crate::placing::{Places, bits_of, low_of};
use crate::scope::position;
use crate::tables::Table;
use eq_base::Memory;
use eq_names::Name;
use eq_net::Dir;
use eq_vparse::Target;
use std::alloc::Global;
use std::collections::HashMap;

/// Which nets a target may have.
#[derive(Clone, Copy, Debug, PartialEq, Eq)]
pub enum Right {
    /// Those that are neither regs nor inputs.
    Driven,
    /// Regs.
    Register,
}

pub fn comes_in(dir: Dir) -> bool
    ensures { result ≡ declarations.comes_in (side_of dir) }
{
    match dir {
        Dir::Input => true,
        Dir::Inner | Dir::Output => false,
    }
}

fn is_right(table: &Table, right: Right, name: &Name) -> bool
    ensures { result ≡ is_right right (tree_at table.now) name.now }
{
    match right {
        Right::Driven => !table.is_reg(name) && !comes_in(table.dir(name)),
        Right::Register => table.is_reg(name),
    }
}

/// The net of so many bits, where it is wrong or one of the bits is marked. They are marked then.
fn in_run<'a>(
    marks: &mut HashMap<u64, bool>,
    table: &Table,
    right: Right,
    name: &'a Name,
    low: u64,
    count: u64,
) -> Result<Option<&'a Name>, Memory>
    requires room { low + count ≤ 2 ^ 63 }
    ensures found { IfOk result (λ found. (seen : List ℕ) → AreMarked marks.old seen →
        option_copied found ≡ unless (is_right right (tree_at table.now) name.now
        && not (list_any (has_bit seen) (run low count))) name.now) }
    ensures marked { OnOk result ((seen : List ℕ) → AreMarked marks.old seen →
        AreMarked marks.new (run low count ++ seen)) }
{
    let taken = is_run_marked(marks, low, count);
    mark_run(marks, low, count)?;
    if is_right(table, right, name) && !taken {
        Ok(None)
    } else {
        Ok(Some(name))
    }
}

/// The net of a leaf of so many bits from a position on.
fn in_leaf<'a>(
    marks: &mut HashMap<u64, bool>,
    table: &Table,
    places: &Places,
    right: Right,
    name: &'a Name,
    position: u32,
    count: u64,
) -> Result<Option<&'a Name>, Memory>
    requires few { count ≤ 2 ^ 32 }
    requires places { ArePlaces (tree_at table.now) places.now }
    ensures { IfOk result (λ found. (e : ExprTree) → names_in e ≡ name.now ∷ [] →
        bits_in (module_scope (tree_at table.now)) e ≡
        run (offset (nets_at (alone (tree_at table.now))) name.now + position) count →
        AreThrough (tree_at table.now) right (e ∷ []) marks.old marks.new (option_copied found)) }
{
    let low = low_of(places, name, position)?;
    let found = in_run(marks, table, right, name, low, count)?;
    Ok(found)
}

/// A net as a leaf.
pub fn net_leaf<'a>(
    marks: &mut HashMap<u64, bool>,
    table: &Table,
    places: &Places,
    right: Right,
    name: &'a Name,
) -> Result<Option<&'a Name>, Memory>
    requires places { ArePlaces (tree_at table.now) places.now }
    ensures { IfOk result (λ found. AreThrough (tree_at table.now) right
        (tree.net name.now ∷ []) marks.old marks.new (option_copied found)) }
{
    let found = in_leaf(
        marks,
        table,
        places,
        right,
        name,
        0,
        bits_of(table.range(name)),
    )?;
    Ok(found)
}

/// A bit of a net as a leaf.
pub fn bit_leaf<'a>(
    marks: &mut HashMap<u64, bool>,
    table: &Table,
    places: &Places,
    right: Right,
    name: &'a Name,
    index: u32,
) -> Result<Option<&'a Name>, Memory>
    requires places { ArePlaces (tree_at table.now) places.now }
    ensures { IfOk result (λ found. AreThrough (tree_at table.now) right
        (tree.bit name.now index ∷ []) marks.old marks.new (option_copied found)) }
{
    let at = position(table.range(name), index);
    let found = in_leaf(marks, table, places, right, name, at, 1)?;
    Ok(found)
}

/// A part of a net as a leaf.
pub fn part_leaf<'a>(
    marks: &mut HashMap<u64, bool>,
    table: &Table,
    places: &Places,
    right: Right,
    name: &'a Name,
    from: u32,
    to: u32,
) -> Result<Option<&'a Name>, Memory>
    requires places { ArePlaces (tree_at table.now) places.now }
    ensures { IfOk result (λ found. AreThrough (tree_at table.now) right
        (tree.part name.now from to ∷ []) marks.old marks.new (option_copied found)) }
{
    let at = position(table.range(name), to);
    let count = bits_of(Some((from, to)));
    let found = in_leaf(marks, table, places, right, name, at, count)?;
    Ok(found)
}

/// The first net of a target that is wrong.
#[cycle(targets)]
fn in_target<'a>(
    marks: &mut HashMap<u64, bool>,
    table: &Table,
    places: &Places,
    right: Right,
    target: &'a Target,
) -> Result<Option<&'a Name>, Memory>
    requires places { ArePlaces (tree_at table.now) places.now }
    ensures { IfOk result (λ found. AreThrough (tree_at table.now) right
        (spec.leaves (target_tree target.now)) marks.old marks.new (option_copied found)) }
{
    match target {
        Target::Net(name) => net_leaf(marks, table, places, right, name),
        Target::Bit(name, index) => bit_leaf(marks, table, places, right, name, *index),
        Target::Part(name, from, to) => { part_leaf(marks, table, places, right, name, *from, *to) }
        Target::Concat(parts) => in_targets(marks, table, places, right, parts.as_slice()),
    }
}

/// The first net of targets that is wrong.
#[cycle(targets)]
fn in_targets<'a>(
    marks: &mut HashMap<u64, bool>,
    table: &Table,
    places: &Places,
    right: Right,
    parts: &'a [Target],
) -> Result<Option<&'a Name>, Memory>
    requires places { ArePlaces (tree_at table.now) places.now }
    ensures { IfOk result (λ found. AreThrough (tree_at table.now) right
        (spec.leaves (join_all (map target_tree parts.now)))
        marks.old marks.new (option_copied found)) }
{
    for part in parts {
        if let Some(name) = in_target(marks, table, places, right, part)? {
            return Ok(Some(name));
        }
    }
    Ok(None)
}

/// The net of a target that is wrong, or has a bit twice in it.
pub fn bad_target_of<'a>(
    alloc: Global,
    table: &Table,
    places: &Places,
    right: Right,
    target: &'a Target,
) -> Result<Option<&'a Name>, Memory>
    requires places { ArePlaces (tree_at table.now) places.now }
    ensures { IfOk result (λ found. option_copied found ≡ spec.bad_leaf (tree_at table.now)
        (is_right right (tree_at table.now)) [] (spec.leaves (target_tree target.now))) }
{
    let mut marks = HashMap::new(alloc);
    let found = in_target(&mut marks, table, places, right, target)?;
    Ok(found)
}
