//! Ranges, selects and the sizes of expressions. Sizes above the most that an expression may have count as one more.

ghost use Rattle.std.specs.Prelude.{◌≡◌, ◌+◌, ◌*◌, ◌≤◌, true, false, not, nat_lt, map, option_copied};
ghost use Rattle.std.specs.Option.{option_or};
ghost use Rattle.eq_model.specs.Nets.{range_width};
ghost use Rattle.eq_verilog.specs.Trees as tree;
ghost use Rattle.eq_verilog.specs.Trees.{ExprTree, ModuleTree, module_tree, expr_tree, target_tree, join_all};
ghost use Rattle.eq_verilog.specs.Scopes as scopes;
ghost use Rattle.eq_verilog.specs.Sizes as sizes;
ghost use Rattle.eq_verilog.specs.Declarations.{range_of};
ghost use Rattle.eq_verilog.specs.Firsts.{unless};
ghost use Rattle.eq_verilog.specs.Nets.{module_scope};
ghost use Rattle.eq_verilog.specs.ModuleRefusals as spec;
ghost use Rattle.eq_analysis.specs.inner.Ranging.{capped, IsMeasured};

use crate::selects::{MOST_SIZE, added, binary_size, is_select, range_size, times};
use crate::sizes::unary_own;
use crate::tables::Table;
use eq_names::Name;
use eq_verilog::laws::expression_trees;
use eq_vlex::Constant;
use eq_vparse::{BinOp, Expr, Target, UnOp};

/// The net, where `[left:right]` isn't a select of it.
fn bad_select<'a>(table: &Table, name: &'a Name, left: u32, right: u32) -> Option<&'a Name>
    ensures { option_copied result ≡ unless (scopes.is_select
        (range_of (module_tree table.now.within.now) name.now) left right) name.now }
{
    if is_select(table.range(name), left, right) {
        None
    } else {
        Some(name)
    }
}

/// The module, where a size is above the most.
fn bad_size<'a>(table: &Table<'a>, size: u32) -> Option<&'a Name>
    ensures { option_copied result ≡
        unless (not (nat_lt spec.most_size size)) table.now.within.now.name }
{
    if size > MOST_SIZE {
        Some(&table.within.name)
    } else {
        None
    }
}

fn first<'a>(one: Option<&'a Name>, other: Option<&'a Name>) -> Option<&'a Name>
    ensures { option_copied result ≡
        option_or (option_copied one.entry) (option_copied other.entry) }
{
    match one {
        Some(name) => Some(name),
        None => other,
    }
}

/// The first of three.
fn first_of_three<'a>(
    one: Option<&'a Name>,
    other: Option<&'a Name>,
    third: Option<&'a Name>,
) -> Option<&'a Name>
    ensures { option_copied result ≡
        option_or (option_copied one.entry)
        (option_or (option_copied other.entry) (option_copied third.entry)) }
{
    first(one, first(other, third))
}

/// An expression's size, and what isn't in range in it.
#[derive(Drop)]
pub struct Measure<'a> {
    pub size: u32,
    pub fault: Option<&'a Name>,
}

/// The measure of an expression of this size, where this isn't in range in its parts.
fn measured<'a>(table: &Table<'a>, size: u32, inside: Option<&'a Name>) -> Measure<'a>
    ensures size { result.size ≡ size }
    ensures fault { option_copied result.fault ≡ option_or
        (unless (not (nat_lt spec.most_size size)) table.now.within.now.name)
        (option_copied inside.entry) }
{
    Measure {
        size,
        fault: first(bad_size(table, size), inside),
    }
}

/// The module, where something is repeated not once.
fn bad_repeat<'a>(table: &Table<'a>, count: u32) -> Option<&'a Name>
    ensures { option_copied result ≡ unless (nat_lt 0 count) table.now.within.now.name }
{
    if count > 0 {
        None
    } else {
        Some(&table.within.name)
    }
}

fn measured_const<'a>(constant: Constant) -> Measure<'a>
    ensures { (m : ModuleTree) → IsMeasured m (tree.const constant) result }
{
    Measure {
        size: constant.size.min(MOST_SIZE + 1),
        fault: None,
    }
}

fn measured_net<'a>(table: &Table<'a>, name: &Name) -> Measure<'a>
    ensures { IsMeasured (module_tree table.now.within.now) (tree.net name.now) result }
{
    measured(table, range_size(table.range(name)), None)
}

fn measured_bit<'a>(table: &Table, name: &'a Name, index: u32) -> Measure<'a>
    ensures { IsMeasured (module_tree table.now.within.now) (tree.bit name.now index) result }
{
    Measure {
        size: 1,
        fault: bad_select(table, name, index, index),
    }
}

fn measured_part<'a>(table: &Table<'a>, name: &'a Name, left: u32, right: u32) -> Measure<'a>
    ensures { IsMeasured (module_tree table.now.within.now) (tree.part name.now left right) result }
{
    let size = range_size(Some((left, right)));
    let fault = first(bad_select(table, name, left, right), bad_size(table, size));
    Measure { size, fault }
}

fn measured_repeat<'a>(table: &Table<'a>, count: u32, part: Measure<'a>) -> Measure<'a>
    ensures { (a : ExprTree) → IsMeasured (module_tree table.now.within.now) a part.entry →
        IsMeasured (module_tree table.now.within.now) (tree.repeated count a) result }
{
    let inside = first(bad_repeat(table, count), part.fault);
    measured(table, times(count, part.size), inside)
}

fn measured_unary<'a>(table: &Table<'a>, op: UnOp, part: Measure<'a>) -> Measure<'a>
    ensures { (a : ExprTree) → IsMeasured (module_tree table.now.within.now) a part.entry →
        IsMeasured (module_tree table.now.within.now) (tree.unary op a) result }
{
    measured(table, unary_own(op, part.size), part.fault)
}

fn measured_binary<'a>(
    table: &Table<'a>,
    op: BinOp,
    left: Measure<'a>,
    right: Measure<'a>,
) -> Measure<'a>
    ensures { (a b : ExprTree) → IsMeasured (module_tree table.now.within.now) a left.entry →
        IsMeasured (module_tree table.now.within.now) b right.entry →
        IsMeasured (module_tree table.now.within.now) (tree.binary op a b) result }
{
    let size = binary_size(op, left.size, right.size);
    measured(table, size, first(left.fault, right.fault))
}

fn measured_choice<'a>(
    table: &Table<'a>,
    test: Measure<'a>,
    left: Measure<'a>,
    right: Measure<'a>,
) -> Measure<'a>
    ensures { (c a b : ExprTree) → IsMeasured (module_tree table.now.within.now) c test.entry →
        IsMeasured (module_tree table.now.within.now) a left.entry →
        IsMeasured (module_tree table.now.within.now) b right.entry →
        IsMeasured (module_tree table.now.within.now) (tree.choice c a b) result }
{
    let inside = first_of_three(test.fault, left.fault, right.fault);
    measured(table, left.size.max(right.size), inside)
}

#[cycle(exprs)]
fn measured_expr<'a>(table: &Table<'a>, expr: &'a Expr) -> Measure<'a>
    ensures { IsMeasured (module_tree table.now.within.now) (expr_tree expr.now) result }
{
    expression_trees();
    match expr {
        Expr::Const(constant) => measured_const(*constant),
        Expr::Net(name) => measured_net(table, name),
        Expr::Bit(name, index) => measured_bit(table, name, *index),
        Expr::Part(name, left, right) => measured_part(table, name, *left, *right),
        Expr::Concat(parts) => measured_all(table, parts.as_slice()),
        Expr::Repeat(count, parts) => {
            let part = measured_all(table, parts.as_slice());
            measured_repeat(table, *count, part)
        }
        Expr::Unary(op, a) => {
            let part = measured_expr(table, a.get());
            measured_unary(table, *op, part)
        }
        Expr::Binary(op, a, b) => {
            let left = measured_expr(table, a.get());
            let right = measured_expr(table, b.get());
            measured_binary(table, *op, left, right)
        }
        Expr::Cond(c, a, b) => {
            let test = measured_expr(table, c.get());
            let left = measured_expr(table, a.get());
            let right = measured_expr(table, b.get());
            measured_choice(table, test, left, right)
        }
    }
}

/// The measure of a concatenation.
#[cycle(exprs)]
fn measured_all<'a>(table: &Table<'a>, parts: &'a [Expr]) -> Measure<'a>
    ensures { IsMeasured (module_tree table.now.within.now)
        (join_all (map expr_tree parts.now)) result }
{
    let mut size = 0;
    let mut inside = None;
    for part in parts {
        let next = measured_expr(table, part);
        size = added(size, next.size);
        inside = first(inside, next.fault);
    }
    measured(table, size, inside)
}

/// The size of an expression.
pub fn size_up_to(table: &Table, expr: &Expr) -> u32
    ensures { result ≡
        capped (sizes.own (module_scope (module_tree table.now.within.now)) (expr_tree expr.now)) }
{
    measured_expr(table, expr).size
}

/// What isn't in range in an expression.
pub fn range_in_expr<'a>(table: &Table<'a>, expr: &'a Expr) -> Option<&'a Name>
    ensures { option_copied result ≡
        spec.bad_range_in (module_tree table.now.within.now) false (expr_tree expr.now) }
{
    measured_expr(table, expr).fault
}

/// What isn't in range in a target. Of its size nothing is said.
#[cycle(targets)]
#[tactic(auto, using(crate::proofs::FirstLemmas::or_none))]
pub fn range_in_target<'a>(table: &Table, target: &'a Target) -> Option<&'a Name>
    ensures { option_copied result ≡
        spec.bad_range_in (module_tree table.now.within.now) true (target_tree target.now) }
{
    match target {
        Target::Net(_) => None,
        Target::Bit(name, index) => bad_select(table, name, *index, *index),
        Target::Part(name, left, right) => bad_select(table, name, *left, *right),
        Target::Concat(parts) => range_in_targets(table, parts.as_slice()),
    }
}

#[cycle(targets)]
#[tactic(auto, using(crate::proofs::FirstLemmas::or_none))]
fn range_in_targets<'a>(table: &Table, parts: &'a [Target]) -> Option<&'a Name>
    ensures { option_copied result ≡ spec.bad_range_in
        (module_tree table.now.within.now) true (join_all (map target_tree parts.now)) }
{
    for part in parts {
        if let Some(name) = range_in_target(table, part) {
            return Some(name);
        }
    }
    None
}
