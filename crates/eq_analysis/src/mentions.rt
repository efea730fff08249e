//! The expressions and targets of a module, in the order of the text, and the first that fails a question: whether its
//! names are declared, and whether its selects, repeats and sizes are in range.

ghost use Rattle.std.specs.Prelude.{◌≡◌, ◌&&◌, ◌||◌, not, nat_lt, map, option_copied, option_map};
ghost use Rattle.eq_model.specs.Nets.{range_width};
ghost use Rattle.eq_verilog.specs.Trees.{item_tree, module_tree, expr_tree, target_tree, stmt_tree, in_sequence, connection_list, range_pair};
ghost use Rattle.eq_verilog.specs.Declarations.{has, is_direction as is_direction_of, range_of, wholes_of_item, connected_exprs, expression, target as target_whole};
ghost use Rattle.eq_verilog.specs.Firsts.{first_found, unless};
ghost use Rattle.eq_verilog.specs.ModuleRefusals as spec;
ghost use Rattle.eq_analysis.specs.inner.Mentioning.{answer, maybe_answer, stmt_answer, undirected};

use crate::declaring::{indices, is_direction};
use crate::ranges::{range_in_expr, range_in_target};
use crate::selects::{has_most_bits, is_same_range};
use crate::tables::Table;
use crate::undeclared::{undeclared_in_expr, undeclared_in_target};
use eq_names::Name;
use eq_vparse::{Conns, DeclKind, Expr, Item, Named, Range, Stmt, Target};

/// What is asked of an expression or a target.
#[derive(Clone, Copy, Debug, PartialEq, Eq)]
pub enum Question {
    IsDeclared,
    IsInRange,
}

fn in_expr<'a>(question: Question, table: &Table<'a>, expr: &'a Expr) -> Option<&'a Name>
    ensures { option_copied result ≡ answer question (module_tree table.now.within.now)
        (expression (expr_tree expr.now)) }
{
    match question {
        Question::IsDeclared => undeclared_in_expr(table, expr),
        Question::IsInRange => range_in_expr(table, expr),
    }
}

fn in_target<'a>(question: Question, table: &Table<'a>, target: &'a Target) -> Option<&'a Name>
    ensures { option_copied result ≡ answer question (module_tree table.now.within.now)
        (target_whole (target_tree target.now)) }
{
    match question {
        Question::IsDeclared => undeclared_in_target(table, target),
        Question::IsInRange => range_in_target(table, target),
    }
}

#[cycle(stmts)]
fn in_stmt<'a>(question: Question, table: &Table<'a>, stmt: &'a Stmt) -> Option<&'a Name>
    ensures { option_copied result ≡
        stmt_answer (answer question (module_tree table.now.within.now))
        (stmt_tree stmt.now) }
{
    match stmt {
        Stmt::Empty => None,
        Stmt::Set(target, expr) => match in_target(question, table, target) {
            Some(name) => Some(name),
            None => in_expr(question, table, expr),
        },
        Stmt::Block(all) => in_stmts(question, table, all.as_slice()),
        Stmt::If(test, a, None) => match in_expr(question, table, test) {
            Some(name) => Some(name),
            None => in_stmt(question, table, a.get()),
        },
        Stmt::If(test, a, Some(b)) => match in_expr(question, table, test) {
            Some(name) => Some(name),
            None => match in_stmt(question, table, a.get()) {
                Some(name) => Some(name),
                None => in_stmt(question, table, b.get()),
            },
        },
    }
}

#[cycle(stmts)]
fn in_stmts<'a>(question: Question, table: &Table<'a>, all: &'a [Stmt]) -> Option<&'a Name>
    ensures { option_copied result ≡
        stmt_answer (answer question (module_tree table.now.within.now))
        (in_sequence (map stmt_tree all.now)) }
{
    for stmt in all {
        if let Some(name) = in_stmt(question, table, stmt) {
            return Some(name);
        }
    }
    None
}

/// In the terminals of a gate.
fn in_terms<'a>(question: Question, table: &Table<'a>, terms: &'a [Expr]) -> Option<&'a Name>
    ensures { option_copied result ≡
        first_found (answer question (module_tree table.now.within.now))
        (map expression (map expr_tree terms.now)) }
{
    for term in terms {
        if let Some(name) = in_expr(question, table, term) {
            return Some(name);
        }
    }
    None
}

/// In what is connected.
fn in_maybe<'a>(question: Question, table: &Table<'a>, expr: &'a Option<Expr>) -> Option<&'a Name>
    ensures { option_copied result ≡
        maybe_answer question (module_tree table.now.within.now) expr.now }
{
    match expr {
        Some(expr) => in_expr(question, table, expr),
        None => None,
    }
}

/// In connections by order.
fn in_maybes<'a>(
    question: Question,
    table: &Table<'a>,
    exprs: &'a [Option<Expr>],
) -> Option<&'a Name>
    ensures { option_copied result ≡ first_found
        (maybe_answer question (module_tree table.now.within.now)) exprs.now }
{
    for expr in exprs {
        if let Some(name) = in_maybe(question, table, expr) {
            return Some(name);
        }
    }
    None
}

/// In connections by name.
fn in_named<'a>(question: Question, table: &Table<'a>, all: &'a [Named]) -> Option<&'a Name>
    ensures { option_copied result ≡ first_found
        (λ n. maybe_answer question (module_tree table.now.within.now) n.expr) all.now }
{
    for named in all {
        if let Some(name) = in_maybe(question, table, &named.expr) {
            return Some(name);
        }
    }
    None
}

/// In the connections of an instance.
fn in_conns<'a>(question: Question, table: &Table<'a>, conns: &'a Conns) -> Option<&'a Name>
    ensures { option_copied result ≡
        first_found (answer question (module_tree table.now.within.now))
        (map expression (connected_exprs (connection_list conns.now))) }
{
    match conns {
        Conns::ByOrder(all) => in_maybes(question, table, all.as_slice()),
        Conns::ByName(all) => in_named(question, table, all.as_slice()),
    }
}

/// In what an item uses.
#[tactic(auto, using(crate::proofs::MentionLemmas::stmt_found))]
fn in_item<'a>(question: Question, table: &Table<'a>, item: &'a Item) -> Option<&'a Name>
    ensures { option_copied result ≡
        first_found (answer question (module_tree table.now.within.now))
        (wholes_of_item (item_tree item.now)) }
{
    match item {
        Item::Decl { .. } => None,
        Item::Assign { target, expr } => match in_target(question, table, target) {
            Some(name) => Some(name),
            None => in_expr(question, table, expr),
        },
        Item::Gate { terms, .. } => in_terms(question, table, terms.as_slice()),
        Item::Instance { conns, .. } => in_conns(question, table, conns),
        Item::Always { clock, body } => match in_target(question, table, clock) {
            Some(name) => Some(name),
            None => in_stmt(question, table, body),
        },
        Item::Init { target, .. } => in_target(question, table, target),
    }
}

/// The name of a declaration, where it gives a direction to what is no port.
fn unknown_declaration<'a>(table: &Table, kind: DeclKind, name: &'a Name) -> Option<&'a Name>
    ensures { option_copied result ≡ unless
        (not (is_direction_of kind) || has (module_tree table.now.within.now).ports name.now)
        name.now }
{
    if is_direction(kind) && !table.is_port(name) {
        Some(name)
    } else {
        None
    }
}

/// The name of a declaration, where its range isn't that of its net or has too many bits.
fn bad_declaration<'a>(table: &Table, range: Option<Range>, name: &'a Name) -> Option<&'a Name>
    ensures { option_copied result ≡ unless (spec.is_same_range
        (range_of (module_tree table.now.within.now) name.now) (option_map range_pair range)
        && not (nat_lt spec.most_bits (range_width (option_map range_pair range)))) name.now }
{
    let range = indices(range);
    if is_same_range(table.range(name), range) && has_most_bits(range) {
        None
    } else {
        Some(name)
    }
}

/// The first name of an item that isn't known.
#[tactic(auto, using(crate::proofs::MentionLemmas::names_found))]
fn unknown_at<'a>(table: &Table<'a>, item: &'a Item) -> Option<&'a Name>
    ensures { option_copied result ≡
        spec.unknown_at (module_tree table.now.within.now) (item_tree item.now) }
{
    match item {
        Item::Decl { kind, name, .. } => unknown_declaration(table, *kind, name),
        Item::Assign { .. } => in_item(Question::IsDeclared, table, item),
        Item::Gate { .. } => in_item(Question::IsDeclared, table, item),
        Item::Instance { .. } => in_item(Question::IsDeclared, table, item),
        Item::Always { .. } => in_item(Question::IsDeclared, table, item),
        Item::Init { .. } => in_item(Question::IsDeclared, table, item),
    }
}

/// What an item has that isn't in range.
fn bad_range_at<'a>(table: &Table<'a>, item: &'a Item) -> Option<&'a Name>
    ensures { option_copied result ≡
        spec.bad_range_at (module_tree table.now.within.now) (item_tree item.now) }
{
    match item {
        Item::Decl { range, name, .. } => bad_declaration(table, *range, name),
        Item::Assign { .. } => in_item(Question::IsInRange, table, item),
        Item::Gate { .. } => in_item(Question::IsInRange, table, item),
        Item::Instance { .. } => in_item(Question::IsInRange, table, item),
        Item::Always { .. } => in_item(Question::IsInRange, table, item),
        Item::Init { .. } => in_item(Question::IsInRange, table, item),
    }
}

/// The first name of items that isn't known.
fn unknown_in_items<'a>(table: &Table<'a>, items: &'a [Item]) -> Option<&'a Name>
    ensures { option_copied result ≡ first_found
        (spec.unknown_at (module_tree table.now.within.now)) (map item_tree items.now) }
{
    for item in items {
        if let Some(name) = unknown_at(table, item) {
            return Some(name);
        }
    }
    None
}

/// The first of these ports that has no direction.
fn undirected_port<'a>(table: &Table, ports: &'a [Name]) -> Option<&'a Name>
    ensures { option_copied result ≡ first_found
        (undirected (module_tree table.now.within.now)) ports.now }
{
    for port in ports {
        if !table.has_direction(port) {
            return Some(port);
        }
    }
    None
}

/// A port without direction, or the first name of an item that isn't known.
pub fn unknown_name<'a>(table: &Table<'a>) -> Option<&'a Name>
    ensures { option_copied result ≡ spec.unknown_name (module_tree table.now.within.now) }
{
    match undirected_port(table, table.within.ports.as_slice()) {
        Some(name) => Some(name),
        None => unknown_in_items(table, table.within.items.as_slice()),
    }
}

/// The first item's that isn't in range.
fn bad_range_in_items<'a>(table: &Table<'a>, items: &'a [Item]) -> Option<&'a Name>
    ensures { option_copied result ≡ first_found
        (spec.bad_range_at (module_tree table.now.within.now)) (map item_tree items.now) }
{
    for item in items {
        if let Some(name) = bad_range_at(table, item) {
            return Some(name);
        }
    }
    None
}

/// The first thing of a module that isn't in range.
pub fn bad_range<'a>(table: &Table<'a>) -> Option<&'a Name>
    ensures { option_copied result ≡ spec.bad_range (module_tree table.now.within.now) }
{
    bad_range_in_items(table, table.within.items.as_slice())
}
