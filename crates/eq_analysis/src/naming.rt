//! The names that a module mentions, each once, where it comes first.

ghost use Rattle.std.specs.Prelude.{◌≡◌, [], map, flat_map, option_map, OnOk, IfOk};
ghost use Rattle.eq_names.specs.Tables.{with_name};
ghost use Rattle.eq_net.specs.Meaning.{if_there};
ghost use Rattle.eq_verilog.specs.Trees.{expr_tree, target_tree, stmt_tree, connection_list, item_tree, module_tree, join_all, in_sequence};
ghost use Rattle.eq_verilog.specs.Declarations.{names_in, expression, names_of_whole, wholes_of_stmt, connected_exprs, names_of_item};
ghost use Rattle.eq_verilog.specs.Declarations as spec;
ghost use Rattle.eq_analysis.specs.Naming.{with_names};

use crate::again::has_name;
use eq_base::Memory;
use eq_names::{Name, NameTable};
use eq_vparse::{Conns, Expr, Item, Module, Named, Stmt, Target};
use std::alloc::Global;

/// Names, each once, where it comes first. A name's number is its place.
#[derive(Drop)]
pub struct Mentioned<'a> {
    pub table: NameTable,
    pub names: Vec<&'a Name>,
    ghost same: { map (λ n. n.now) names.items ≡ table },
}

/// No names.
pub fn nothing<'a>(alloc: Global) -> Result<Mentioned<'a>, Memory>
    ensures { IfOk result (λ found. found.table ≡ []) }
{
    Ok(Mentioned {
        table: NameTable::new(alloc)?,
        names: Vec::new(alloc),
    })
}

/// Puts a name behind the others, unless it is there.
fn add_name<'a>(found: &mut Mentioned<'a>, name: &'a Name) -> Result<(), Memory>
    ensures { OnOk result (found.new.table ≡ with_name found.old.table name.now) }
{
    if has_name(&found.table, name) {
        return Ok(());
    }
    if found.table.len() == u32::MAX {
        return Err(Memory);
    }
    found.names.push(name)?;
    match found.table.intern(name) {
        Ok(_) => Ok(()),
        Err(fault) => {
            found.names.pop();
            Err(fault)
        }
    }
}

/// Puts names behind the others.
pub fn add_all<'a>(found: &mut Mentioned<'a>, names: &'a [Name]) -> Result<(), Memory>
    ensures { OnOk result (found.new.table ≡ with_names found.old.table names.now) }
{
    for name in names {
        add_name(found, name)?;
    }
    Ok(())
}

/// Puts the names of a target behind the others.
#[cycle(targets)]
pub fn add_target<'a>(found: &mut Mentioned<'a>, target: &'a Target) -> Result<(), Memory>
    ensures { OnOk result
        (found.new.table ≡ with_names found.old.table (names_in (target_tree target.entry.now))) }
{
    match target {
        Target::Net(name) => add_name(found, name),
        Target::Bit(name, _) => add_name(found, name),
        Target::Part(name, _, _) => add_name(found, name),
        Target::Concat(parts) => add_targets(found, parts.as_slice()),
    }
}

/// Puts the names of targets behind the others.
#[cycle(targets)]
fn add_targets<'a>(found: &mut Mentioned<'a>, parts: &'a [Target]) -> Result<(), Memory>
    ensures { OnOk result (found.new.table ≡
        with_names found.old.table (names_in (join_all (map target_tree parts.entry.now)))) }
{
    for part in parts {
        add_target(found, part)?;
    }
    Ok(())
}

/// Puts the names of an expression behind the others.
#[cycle(exprs)]
pub fn add_expr<'a>(found: &mut Mentioned<'a>, expr: &'a Expr) -> Result<(), Memory>
    ensures { OnOk result
        (found.new.table ≡ with_names found.old.table (names_in (expr_tree expr.entry.now))) }
{
    match expr {
        Expr::Const(_) => Ok(()),
        Expr::Net(name) => add_name(found, name),
        Expr::Bit(name, _) => add_name(found, name),
        Expr::Part(name, _, _) => add_name(found, name),
        Expr::Concat(parts) => add_exprs(found, parts.as_slice()),
        Expr::Repeat(_, parts) => add_exprs(found, parts.as_slice()),
        Expr::Unary(_, a) => add_expr(found, a.get()),
        Expr::Binary(_, a, b) => {
            add_expr(found, a.get())?;
            add_expr(found, b.get())
        }
        Expr::Cond(c, a, b) => {
            add_expr(found, c.get())?;
            add_expr(found, a.get())?;
            add_expr(found, b.get())
        }
    }
}

/// Puts the names of the parts of a concatenation behind the others.
#[cycle(exprs)]
fn add_exprs<'a>(found: &mut Mentioned<'a>, parts: &'a [Expr]) -> Result<(), Memory>
    ensures { OnOk result (found.new.table ≡
        with_names found.old.table (names_in (join_all (map expr_tree parts.entry.now)))) }
{
    for part in parts {
        add_expr(found, part)?;
    }
    Ok(())
}

/// Puts the names of a statement behind the others.
#[cycle(stmts)]
pub fn add_stmt<'a>(found: &mut Mentioned<'a>, stmt: &'a Stmt) -> Result<(), Memory>
    ensures { OnOk result (found.new.table ≡ with_names found.old.table
        (flat_map names_of_whole (wholes_of_stmt (stmt_tree stmt.entry.now)))) }
{
    match stmt {
        Stmt::Empty => Ok(()),
        Stmt::Set(target, expr) => {
            add_target(found, target)?;
            add_expr(found, expr)
        }
        Stmt::Block(all) => add_stmts(found, all.as_slice()),
        Stmt::If(test, a, None) => {
            add_expr(found, test)?;
            add_stmt(found, a.get())
        }
        Stmt::If(test, a, Some(b)) => {
            add_expr(found, test)?;
            add_stmt(found, a.get())?;
            add_stmt(found, b.get())
        }
    }
}

/// Puts the names of statements in a row behind the others.
#[cycle(stmts)]
fn add_stmts<'a>(found: &mut Mentioned<'a>, all: &'a [Stmt]) -> Result<(), Memory>
    ensures { OnOk result (found.new.table ≡ with_names found.old.table
        (flat_map names_of_whole (wholes_of_stmt (in_sequence (map stmt_tree all.entry.now))))) }
{
    for stmt in all {
        add_stmt(found, stmt)?;
    }
    Ok(())
}

/// Puts the names of a gate's terminals behind the others.
fn add_terms<'a>(found: &mut Mentioned<'a>, terms: &'a [Expr]) -> Result<(), Memory>
    ensures { OnOk result (found.new.table ≡ with_names found.old.table
        (flat_map names_of_whole (map expression (map expr_tree terms.now)))) }
{
    for term in terms {
        add_expr(found, term)?;
    }
    Ok(())
}

/// Puts the names of a connection behind the others.
fn add_maybe<'a>(found: &mut Mentioned<'a>, expr: &'a Option<Expr>) -> Result<(), Memory>
    ensures { OnOk result (found.new.table ≡ with_names found.old.table
        (if_there [] names_in (option_map expr_tree expr.now))) }
{
    match expr {
        Some(expr) => add_expr(found, expr),
        None => Ok(()),
    }
}

/// Puts the names of connections by order behind the others.
fn add_maybes<'a>(found: &mut Mentioned<'a>, exprs: &'a [Option<Expr>]) -> Result<(), Memory>
    ensures { OnOk result (found.new.table ≡ with_names found.old.table
        (flat_map (λ e. if_there [] names_in (option_map expr_tree e)) exprs.now)) }
{
    for expr in exprs {
        add_maybe(found, expr)?;
    }
    Ok(())
}

/// Puts the names of connections by name behind the others.
fn add_named<'a>(found: &mut Mentioned<'a>, all: &'a [Named]) -> Result<(), Memory>
    ensures { OnOk result (found.new.table ≡ with_names found.old.table
        (flat_map (λ n. if_there [] names_in (option_map expr_tree n.expr)) all.now)) }
{
    for named in all {
        add_maybe(found, &named.expr)?;
    }
    Ok(())
}

/// Puts the names of an instance's connections behind the others.
fn add_conns<'a>(found: &mut Mentioned<'a>, conns: &'a Conns) -> Result<(), Memory>
    ensures { OnOk result (found.new.table ≡ with_names found.old.table
        (flat_map names_of_whole (map expression (connected_exprs (connection_list conns.now))))) }
{
    match conns {
        Conns::ByOrder(all) => add_maybes(found, all.as_slice()),
        Conns::ByName(all) => add_named(found, all.as_slice()),
    }
}

/// Puts the names of an item behind the others.
pub fn add_item<'a>(found: &mut Mentioned<'a>, item: &'a Item) -> Result<(), Memory>
    ensures { OnOk result (found.new.table ≡
        with_names found.old.table (names_of_item (item_tree item.now))) }
{
    match item {
        Item::Decl { name, .. } => add_name(found, name),
        Item::Assign { target, expr } => {
            add_target(found, target)?;
            add_expr(found, expr)
        }
        Item::Gate { terms, .. } => add_terms(found, terms.as_slice()),
        Item::Instance { conns, .. } => add_conns(found, conns),
        Item::Always { clock, body } => {
            add_target(found, clock)?;
            add_stmt(found, body)
        }
        Item::Init { target, .. } => add_target(found, target),
    }
}

/// Puts the names of items behind the others.
fn add_items<'a>(found: &mut Mentioned<'a>, items: &'a [Item]) -> Result<(), Memory>
    ensures { OnOk result (found.new.table ≡ with_names found.old.table
        (flat_map names_of_item (map item_tree items.now))) }
{
    for item in items {
        add_item(found, item)?;
    }
    Ok(())
}

/// The nets of a module, in the order of first mention.
pub fn nets_in(alloc: Global, within: &Module) -> Result<Mentioned<'_>, Memory>
    ensures { IfOk result (λ found. found.table ≡ spec.nets_in (module_tree within.now)) }
{
    let mut found = nothing(alloc)?;
    add_all(&mut found, within.ports.as_slice())?;
    add_items(&mut found, within.items.as_slice())?;
    Ok(found)
}
