//! Trees made by hand, and how they are printed.

use eq_base::Boxed;
use eq_names::Name;
use eq_vlex::Constant;
use eq_vparse::{
    BinOp, Conns, DeclKind, Expr, Exprs, GateKind, Item, MaybeExprs, Module, ModuleItems, Modules,
    Named, Nameds, Names, Range, Source, Stmt, Stmts, Target, Targets, UnOp, print_source,
};
use std::alloc::Global;
use std::test::Fail;

fn name(alloc: Global, text: &[u8]) -> Result<Name, Fail> {
    Ok(Name::read(alloc, text)?)
}

fn net(alloc: Global, text: &[u8]) -> Result<Expr, Fail> {
    Ok(Expr::Net(name(alloc, text)?))
}

fn target(alloc: Global, text: &[u8]) -> Result<Target, Fail> {
    Ok(Target::Net(name(alloc, text)?))
}

fn unary(alloc: Global, op: UnOp, a: Expr) -> Result<Expr, Fail> {
    Ok(Expr::Unary(op, Boxed::new(alloc, a)?))
}

fn binary(alloc: Global, op: BinOp, a: Expr, b: Expr) -> Result<Expr, Fail> {
    Ok(Expr::Binary(op, Boxed::new(alloc, a)?, Boxed::new(alloc, b)?))
}

fn decl(alloc: Global, kind: DeclKind, range: Option<Range>, text: &[u8]) -> Result<Item, Fail> {
    Ok(Item::Decl {
        kind,
        range,
        name: name(alloc, text)?,
    })
}

fn source(alloc: Global, of: &[u8], ports: Names, items: ModuleItems) -> Result<Source, Fail> {
    let name = name(alloc, of)?;
    let module = Module { name, ports, items };
    let mut modules = Modules::new(alloc);
    modules.push(module)?;
    Ok(Source { modules })
}

fn ports(alloc: Global) -> Result<Names, Fail> {
    let mut ports = Names::new(alloc);
    ports.push(name(alloc, b"a")?)?;
    ports.push(name(alloc, b"b")?)?;
    ports.push(name(alloc, b"y")?)?;
    Ok(ports)
}

/// `assign y=a&b;`
fn both(alloc: Global) -> Result<Item, Fail> {
    let target = target(alloc, b"y")?;
    let a = net(alloc, b"a")?;
    let b = net(alloc, b"b")?;
    let expr = binary(alloc, BinOp::And, a, b)?;
    Ok(Item::Assign { target, expr })
}

fn a_gate(alloc: Global) -> Result<Source, Fail> {
    let ports = ports(alloc)?;
    let mut items = ModuleItems::new(alloc);
    items.push(decl(alloc, DeclKind::Input, None, b"a")?)?;
    items.push(decl(alloc, DeclKind::Input, None, b"b")?)?;
    items.push(decl(alloc, DeclKind::Output, None, b"y")?)?;
    items.push(both(alloc)?)?;
    source(alloc, b"t", ports, items)
}

fn cond(alloc: Global, c: Expr, a: Expr, b: Expr) -> Result<Expr, Fail> {
    let c = Boxed::new(alloc, c)?;
    let a = Boxed::new(alloc, a)?;
    let b = Boxed::new(alloc, b)?;
    Ok(Expr::Cond(c, a, b))
}

/// `{y,z[1]}`
fn two_targets(alloc: Global) -> Result<Target, Fail> {
    let mut parts = Targets::new(alloc);
    parts.push(target(alloc, b"y")?)?;
    parts.push(Target::Bit(name(alloc, b"z")?, 1))?;
    Ok(Target::Concat(parts))
}

/// `a-(b==c)`
fn a_difference(alloc: Global) -> Result<Expr, Fail> {
    let b = net(alloc, b"b")?;
    let c = net(alloc, b"c")?;
    let same = binary(alloc, BinOp::Eq, b, c)?;
    let a = net(alloc, b"a")?;
    binary(alloc, BinOp::Sub, a, same)
}

/// `(4'h1)?(-a):(a-(b==c))`
fn a_choice(alloc: Global) -> Result<Expr, Fail> {
    let a = net(alloc, b"a")?;
    let negative = unary(alloc, UnOp::Neg, a)?;
    let difference = a_difference(alloc)?;
    let one = Expr::Const(Constant { size: 4, value: 1 });
    cond(alloc, one, negative, difference)
}

fn assign(alloc: Global, items: &mut ModuleItems) -> Result<(), Fail> {
    let target = two_targets(alloc)?;
    let expr = a_choice(alloc)?;
    items.push(Item::Assign { target, expr })?;
    Ok(())
}

/// `n={2{~a}}`
fn a_repeat(alloc: Global) -> Result<Item, Fail> {
    let a = net(alloc, b"a")?;
    let mut parts = Exprs::new(alloc);
    parts.push(unary(alloc, UnOp::Not, a)?)?;
    let target = target(alloc, b"n")?;
    let expr = Expr::Repeat(2, parts);
    Ok(Item::Assign { target, expr })
}

/// `nand g(y,a[3:0]);`
fn a_named_gate(alloc: Global) -> Result<Item, Fail> {
    let mut terms = Exprs::new(alloc);
    terms.push(net(alloc, b"y")?)?;
    terms.push(Expr::Part(name(alloc, b"a")?, 3, 0))?;
    let name = Some(name(alloc, b"g")?);
    let kind = GateKind::Nand;
    Ok(Item::Gate { kind, name, terms })
}

/// `not(y,\\a+ );`
fn a_nameless_gate(alloc: Global) -> Result<Item, Fail> {
    let mut terms = Exprs::new(alloc);
    terms.push(net(alloc, b"y")?)?;
    terms.push(net(alloc, b"a+")?)?;
    let kind = GateKind::Not;
    let name = None;
    Ok(Item::Gate { kind, name, terms })
}

/// `(a,,b)`
fn by_order(alloc: Global) -> Result<Conns, Fail> {
    let mut all = MaybeExprs::new(alloc);
    all.push(Some(net(alloc, b"a")?))?;
    all.push(None)?;
    all.push(Some(net(alloc, b"b")?))?;
    Ok(Conns::ByOrder(all))
}

fn named(alloc: Global, port: &[u8], expr: Option<Expr>) -> Result<Named, Fail> {
    let port = name(alloc, port)?;
    Ok(Named { port, expr })
}

/// `(.p(a),.q())`
fn by_name(alloc: Global) -> Result<Conns, Fail> {
    let mut all = Nameds::new(alloc);
    let a = net(alloc, b"a")?;
    all.push(named(alloc, b"p", Some(a))?)?;
    all.push(named(alloc, b"q", None)?)?;
    Ok(Conns::ByName(all))
}

fn instance(alloc: Global, of: &[u8], called: &[u8], conns: Conns) -> Result<Item, Fail> {
    let module = name(alloc, of)?;
    let name = name(alloc, called)?;
    Ok(Item::Instance {
        module,
        name,
        conns,
    })
}

/// `if(c)q<=a;else begin end`
fn a_branch(alloc: Global) -> Result<Stmt, Fail> {
    let q = target(alloc, b"q")?;
    let a = net(alloc, b"a")?;
    let set = Boxed::new(alloc, Stmt::Set(q, a))?;
    let nothing = Boxed::new(alloc, Stmt::Block(Stmts::new(alloc)))?;
    let c = net(alloc, b"c")?;
    Ok(Stmt::If(c, set, Some(nothing)))
}

/// `always@(posedge clk[0])begin if(c)q<=a;else begin end;end`
fn a_register(alloc: Global) -> Result<Item, Fail> {
    let mut body = Stmts::new(alloc);
    body.push(a_branch(alloc)?)?;
    body.push(Stmt::Empty)?;
    let clock = Target::Bit(name(alloc, b"clk")?, 0);
    let body = Stmt::Block(body);
    Ok(Item::Always { clock, body })
}

/// `initial q[3:0]=128'hfa0;`
fn a_first_value(alloc: Global) -> Result<Item, Fail> {
    let target = Target::Part(name(alloc, b"q")?, 3, 0);
    let value = Constant {
        size: 128,
        value: 0xFA0,
    };
    Ok(Item::Init { target, value })
}

fn first_items(alloc: Global, items: &mut ModuleItems) -> Result<(), Fail> {
    let four = Range { left: 3, right: 0 };
    items.push(decl(alloc, DeclKind::Wire, Some(four), b"a")?)?;
    items.push(decl(alloc, DeclKind::Reg, None, b"q+")?)?;
    assign(alloc, items)?;
    items.push(a_repeat(alloc)?)?;
    Ok(())
}

fn last_items(alloc: Global, items: &mut ModuleItems) -> Result<(), Fail> {
    items.push(a_named_gate(alloc)?)?;
    items.push(a_nameless_gate(alloc)?)?;
    let conns = by_order(alloc)?;
    items.push(instance(alloc, b"sub", b"u", conns)?)?;
    let conns = by_name(alloc)?;
    items.push(instance(alloc, b"s-", b"v", conns)?)?;
    items.push(a_register(alloc)?)?;
    items.push(a_first_value(alloc)?)?;
    Ok(())
}

fn each_kind(alloc: Global) -> Result<Source, Fail> {
    let mut items = ModuleItems::new(alloc);
    first_items(alloc, &mut items)?;
    last_items(alloc, &mut items)?;
    source(alloc, b"module", Names::new(alloc), items)
}

const SMALL: &[u8] = b"module t(a,b,y);\ninput a;\ninput b;\noutput y;\nassign y=a&b;\nendmodule\n";

const EACH_KIND: &[u8] =
    b"module \\module ();\nwire[3:0]a;\nreg \\q+ ;\nassign{y,z[1]}=(4'h1)?(-a):(a-(b==c));\nassign n={2{~a}};\nnand g(y,a[3:0]);\nnot(y,\\a+ );\nsub u(a,,b);\n\\s- v(.p(a),.q());\nalways@(posedge clk[0])begin if(c)q<=a;else begin end;end\ninitial q[3:0]=128'hfa0;\nendmodule\n";

#[test]
fn a_small_module_is_printed(rt: HostRuntime) -> Result<(), Fail> {
    let text = print_source(rt.alloc(), &a_gate(rt.alloc())?)?;
    assert_eq!(rt; text.as_slice(), SMALL);
    Ok(())
}

#[test]
fn each_kind_of_item_is_printed(rt: HostRuntime) -> Result<(), Fail> {
    let text = print_source(rt.alloc(), &each_kind(rt.alloc())?)?;
    assert_eq!(rt; text.as_slice(), EACH_KIND);
    Ok(())
}
