//! Writes the items of a module.

ghost use Rattle.std.specs.Prelude.{◌≡◌, OnOk};
ghost use Rattle.eq_vparse.specs.Printing as spec;
ghost use Rattle.eq_vparse.specs.Text.{put_all};

use crate::print_expression::{comma, expr, exprs, range};
use crate::print_statement::stmt;
use crate::print_target::target;
use crate::text::Text;
use crate::tree::{Conns, DeclKind, Expr, GateKind, Item, Named, Range, Stmt, Target};
use eq_base::Memory;
use eq_names::Name;
use eq_vlex::{Constant, Key, Mark};

fn decl_key(kind: DeclKind) -> Key
    ensures { result ≡ spec.decl_key kind }
{
    match kind {
        DeclKind::Input => Key::Input,
        DeclKind::Output => Key::Output,
        DeclKind::Wire => Key::Wire,
        DeclKind::Reg => Key::Reg,
    }
}

fn gate_key(kind: GateKind) -> Key
    ensures { result ≡ spec.gate_key kind }
{
    match kind {
        GateKind::And => Key::And,
        GateKind::Nand => Key::Nand,
        GateKind::Or => Key::Or,
        GateKind::Nor => Key::Nor,
        GateKind::Xor => Key::Xor,
        GateKind::Xnor => Key::Xnor,
        GateKind::Buf => Key::Buf,
        GateKind::Not => Key::Not,
    }
}

fn maybe_range(out: &mut Text, r: Option<Range>) -> Result<(), Memory>
    ensures { OnOk result (out.new ≡ put_all out.old (spec.maybe_range r)) }
{
    match r {
        None => Ok(()),
        Some(r) => range(out, r.left, r.right),
    }
}

fn maybe_name(out: &mut Text, name: &Option<Name>) -> Result<(), Memory>
    ensures { OnOk result (out.new ≡ put_all out.old (spec.maybe_name name.now)) }
{
    match name {
        None => Ok(()),
        Some(name) => out.name(name),
    }
}

fn maybe_expr(out: &mut Text, e: &Option<Expr>) -> Result<(), Memory>
    ensures { OnOk result (out.new ≡ put_all out.old (spec.maybe_expr e.now)) }
{
    match e {
        None => Ok(()),
        Some(e) => expr(out, e),
    }
}

/// Writes connections by order.
fn maybe_exprs(out: &mut Text, all: &[Option<Expr>]) -> Result<(), Memory>
    ensures { OnOk result (out.new ≡ put_all out.old (spec.maybe_exprs all.now)) }
{
    for at in 0..all.len() {
        comma(out, at)?;
        maybe_expr(out, &all[at])?;
    }
    Ok(())
}

/// Writes a connection by name.
#[tactic(auto, using(crate::proofs::Texts::put_append))]
fn named(out: &mut Text, n: &Named) -> Result<(), Memory>
    ensures { OnOk result (out.new ≡ put_all out.old (spec.named_tokens n.now)) }
{
    out.mark(Mark::Dot)?;
    out.name(&n.port)?;
    out.mark(Mark::LeftParen)?;
    maybe_expr(out, &n.expr)?;
    out.mark(Mark::RightParen)
}

/// Writes connections by name.
fn all_named(out: &mut Text, all: &[Named]) -> Result<(), Memory>
    ensures { OnOk result (out.new ≡ put_all out.old (spec.all_named all.now)) }
{
    for at in 0..all.len() {
        comma(out, at)?;
        named(out, &all[at])?;
    }
    Ok(())
}

fn conns(out: &mut Text, all: &Conns) -> Result<(), Memory>
    ensures { OnOk result (out.new ≡ put_all out.old (spec.conns_tokens all.now)) }
{
    match all {
        Conns::ByOrder(all) => maybe_exprs(out, all.as_slice()),
        Conns::ByName(all) => all_named(out, all.as_slice()),
    }
}

#[tactic(auto, using(crate::proofs::Texts::put_append))]
fn decl(out: &mut Text, kind: DeclKind, r: Option<Range>, name: &Name) -> Result<(), Memory>
    ensures { OnOk result (out.new ≡ put_all out.old (spec.decl_tokens kind r name.now)) }
{
    out.key(decl_key(kind))?;
    maybe_range(out, r)?;
    out.name(name)?;
    out.mark(Mark::Semicolon)
}

#[tactic(auto, using(crate::proofs::Texts::put_append))]
fn assign(out: &mut Text, t: &Target, e: &Expr) -> Result<(), Memory>
    ensures { OnOk result (out.new ≡ put_all out.old (spec.assign_tokens t.now e.now)) }
{
    out.key(Key::Assign)?;
    target(out, t)?;
    out.mark(Mark::Assign)?;
    expr(out, e)?;
    out.mark(Mark::Semicolon)
}

#[tactic(auto, using(crate::proofs::Texts::put_append))]
fn gate(out: &mut Text, kind: GateKind, name: &Option<Name>, terms: &[Expr]) -> Result<(), Memory>
    ensures { OnOk result (out.new ≡ put_all out.old (spec.gate_tokens kind name.now terms.now)) }
{
    out.key(gate_key(kind))?;
    maybe_name(out, name)?;
    out.mark(Mark::LeftParen)?;
    exprs(out, terms)?;
    out.mark(Mark::RightParen)?;
    out.mark(Mark::Semicolon)
}

#[tactic(auto, using(crate::proofs::Texts::put_append))]
fn instance(out: &mut Text, of: &Name, name: &Name, all: &Conns) -> Result<(), Memory>
    ensures { OnOk result (out.new ≡ put_all out.old (spec.instance_tokens of.now name.now all.now)) }
{
    out.name(of)?;
    out.name(name)?;
    out.mark(Mark::LeftParen)?;
    conns(out, all)?;
    out.mark(Mark::RightParen)?;
    out.mark(Mark::Semicolon)
}

#[tactic(auto, using(crate::proofs::Texts::put_append))]
fn always(out: &mut Text, clock: &Target, body: &Stmt) -> Result<(), Memory>
    ensures { OnOk result (out.new ≡ put_all out.old (spec.always_tokens clock.now body.now)) }
{
    out.key(Key::Always)?;
    out.mark(Mark::At)?;
    out.mark(Mark::LeftParen)?;
    out.key(Key::Posedge)?;
    target(out, clock)?;
    out.mark(Mark::RightParen)?;
    stmt(out, body)
}

#[tactic(auto, using(crate::proofs::Texts::put_append))]
fn init(out: &mut Text, t: &Target, value: Constant) -> Result<(), Memory>
    ensures { OnOk result (out.new ≡ put_all out.old (spec.init_tokens t.now value)) }
{
    out.key(Key::Initial)?;
    target(out, t)?;
    out.mark(Mark::Assign)?;
    out.constant(value)?;
    out.mark(Mark::Semicolon)
}

/// Writes an item.
pub fn item(out: &mut Text, i: &Item) -> Result<(), Memory>
    ensures { OnOk result (out.new ≡ put_all out.old (spec.item_tokens i.now)) }
{
    match i {
        Item::Decl { kind, range, name } => decl(out, *kind, *range, name),
        Item::Assign { target, expr } => assign(out, target, expr),
        Item::Gate { kind, name, terms } => gate(out, *kind, name, terms.as_slice()),
        Item::Instance {
            module,
            name,
            conns,
        } => instance(out, module, name, conns),
        Item::Always { clock, body } => always(out, clock, body),
        Item::Init { target, value } => init(out, target, *value),
    }
}
