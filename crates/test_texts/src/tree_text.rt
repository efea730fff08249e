//! Trees as the tests write them.

use eq_names::Name;
use eq_vlex::Constant;
use eq_vparse::{
    BinOp, Conns, DeclKind, Expr, GateKind, Item, Module, Named, Range, Source, Stmt, Target, UnOp,
};
use std::alloc::{AllocError, Global};

fn put_name(text: &mut String, name: &Name) -> Result<(), AllocError> {
    for byte in name.bytes() {
        text.push(char::from(*byte))?;
    }
    Ok(())
}

fn put_number(alloc: Global, text: &mut String, number: u128) -> Result<(), AllocError> {
    let digits = format!(in alloc; "{number}")?;
    text.push_str(&digits)
}

/// Its size and its value, as `4'9`.
fn put_constant(alloc: Global, text: &mut String, constant: Constant) -> Result<(), AllocError> {
    let Constant { size, value } = constant;
    put_number(alloc, text, u128::from(size))?;
    text.push('\'')?;
    put_number(alloc, text, value)
}

/// A number behind a dot.
fn put_place(alloc: Global, text: &mut String, place: u32) -> Result<(), AllocError> {
    text.push('.')?;
    put_number(alloc, text, u128::from(place))
}

/// `.left.right`
fn put_places(alloc: Global, text: &mut String, left: u32, right: u32) -> Result<(), AllocError> {
    put_place(alloc, text, left)?;
    put_place(alloc, text, right)
}

fn unary_word(operator: UnOp) -> &'static str {
    match operator {
        UnOp::Not => "(Not",
        UnOp::LogNot => "(LogNot",
        UnOp::Neg => "(Neg",
        UnOp::RedAnd => "(RedAnd",
        UnOp::RedNand => "(RedNand",
        UnOp::RedOr => "(RedOr",
        UnOp::RedNor => "(RedNor",
        UnOp::RedXor => "(RedXor",
        UnOp::RedXnor => "(RedXnor",
    }
}

fn binary_word(operator: BinOp) -> &'static str {
    match operator {
        BinOp::Add => "(Add",
        BinOp::Sub => "(Sub",
        BinOp::Shl => "(Shl",
        BinOp::Shr => "(Shr",
        BinOp::Lt => "(Lt",
        BinOp::Le => "(Le",
        BinOp::Gt => "(Gt",
        BinOp::Ge => "(Ge",
        BinOp::Eq => "(Eq",
        BinOp::Ne => "(Ne",
        BinOp::And => "(And",
        BinOp::Xor => "(Xor",
        BinOp::Xnor => "(Xnor",
        BinOp::Or => "(Or",
        BinOp::LogAnd => "(LogAnd",
        BinOp::LogOr => "(LogOr",
    }
}

/// The expression with each operator before its operands.
#[cycle(expressions)]
fn put_expr(alloc: Global, text: &mut String, expr: &Expr) -> Result<(), AllocError> {
    match expr {
        Expr::Const(constant) => put_constant(alloc, text, *constant),
        Expr::Net(name) => put_name(text, name),
        Expr::Bit(name, at) => {
            put_name(text, name)?;
            put_place(alloc, text, *at)
        }
        Expr::Part(name, left, right) => {
            put_name(text, name)?;
            put_places(alloc, text, *left, *right)
        }
        Expr::Concat(parts) => {
            text.push('{')?;
            put_parts(alloc, text, parts.as_slice())
        }
        Expr::Repeat(times, parts) => {
            text.push('{')?;
            put_number(alloc, text, u128::from(*times))?;
            put_parts(alloc, text, parts.as_slice())
        }
        Expr::Unary(operator, a) => {
            text.push_str(unary_word(*operator))?;
            put_operand(alloc, text, a.get())?;
            text.push(')')
        }
        Expr::Binary(operator, a, b) => {
            text.push_str(binary_word(*operator))?;
            put_operand(alloc, text, a.get())?;
            put_operand(alloc, text, b.get())?;
            text.push(')')
        }
        Expr::Cond(c, a, b) => {
            text.push_str("(?")?;
            put_operand(alloc, text, c.get())?;
            put_operand(alloc, text, a.get())?;
            put_operand(alloc, text, b.get())?;
            text.push(')')
        }
    }
}

/// An expression behind a blank.
#[cycle(expressions)]
fn put_operand(alloc: Global, text: &mut String, expr: &Expr) -> Result<(), AllocError> {
    text.push(' ')?;
    put_expr(alloc, text, expr)
}

/// Parts, each behind a blank, and `}`.
#[cycle(expressions)]
fn put_parts(alloc: Global, text: &mut String, parts: &[Expr]) -> Result<(), AllocError> {
    for part in parts {
        put_operand(alloc, text, part)?;
    }
    text.push('}')
}

fn put_target(alloc: Global, text: &mut String, target: &Target) -> Result<(), AllocError> {
    match target {
        Target::Net(name) => put_name(text, name),
        Target::Bit(name, at) => {
            put_name(text, name)?;
            put_place(alloc, text, *at)
        }
        Target::Part(name, left, right) => {
            put_name(text, name)?;
            put_places(alloc, text, *left, *right)
        }
        Target::Concat(parts) => {
            text.push('{')?;
            for part in parts.as_slice() {
                text.push(' ')?;
                put_target(alloc, text, part)?;
            }
            text.push('}')
        }
    }
}

/// The statement: `;`, `(target <= expr)`, `(begin ..)`, `(if condition ..)` or `(if condition .. else ..)`.
#[cycle(statements)]
fn put_stmt(alloc: Global, text: &mut String, stmt: &Stmt) -> Result<(), AllocError> {
    match stmt {
        Stmt::Empty => text.push(';'),
        Stmt::Set(target, expr) => {
            put_to(alloc, text, "(", target)?;
            text.push_str("<=")?;
            put_operand(alloc, text, expr)?;
            text.push(')')
        }
        Stmt::Block(body) => {
            text.push_str("(begin")?;
            for inner in body.as_slice() {
                put_inner(alloc, text, inner)?;
            }
            text.push(')')
        }
        Stmt::If(condition, then, other) => {
            text.push_str("(if")?;
            put_operand(alloc, text, condition)?;
            put_inner(alloc, text, then.get())?;
            if let Some(other) = other {
                text.push_str(" else")?;
                put_inner(alloc, text, other.get())?;
            }
            text.push(')')
        }
    }
}

/// A statement behind a blank.
#[cycle(statements)]
fn put_inner(alloc: Global, text: &mut String, stmt: &Stmt) -> Result<(), AllocError> {
    text.push(' ')?;
    put_stmt(alloc, text, stmt)
}

/// `.left.right` where there is a range, and a blank.
fn put_range(alloc: Global, text: &mut String, range: Option<Range>) -> Result<(), AllocError> {
    if let Some(Range { left, right }) = range {
        put_places(alloc, text, left, right)?;
    }
    text.push(' ')
}

/// ` .port(expr)` or ` .port()`
fn put_named(alloc: Global, text: &mut String, conn: &Named) -> Result<(), AllocError> {
    text.push_str(" .")?;
    put_name(text, &conn.port)?;
    text.push('(')?;
    if let Some(expr) = &conn.expr {
        put_expr(alloc, text, expr)?;
    }
    text.push(')')
}

/// An expression behind a blank, or ` -`.
fn put_maybe(alloc: Global, text: &mut String, expr: &Option<Expr>) -> Result<(), AllocError> {
    match expr {
        Some(expr) => put_operand(alloc, text, expr),
        None => text.push_str(" -"),
    }
}

/// The connections, each behind a blank, those by order without an expression as `-`.
fn put_conns(alloc: Global, text: &mut String, conns: &Conns) -> Result<(), AllocError> {
    match conns {
        Conns::ByOrder(exprs) => {
            for expr in exprs.as_slice() {
                put_maybe(alloc, text, expr)?;
            }
        }
        Conns::ByName(conns) => {
            for conn in conns.as_slice() {
                put_named(alloc, text, conn)?;
            }
        }
    }
    Ok(())
}

fn decl_word(kind: DeclKind) -> &'static str {
    match kind {
        DeclKind::Input => "Input",
        DeclKind::Output => "Output",
        DeclKind::Wire => "Wire",
        DeclKind::Reg => "Reg",
    }
}

fn gate_word(kind: GateKind) -> &'static str {
    match kind {
        GateKind::And => "And:",
        GateKind::Nand => "Nand:",
        GateKind::Or => "Or:",
        GateKind::Nor => "Nor:",
        GateKind::Xor => "Xor:",
        GateKind::Xnor => "Xnor:",
        GateKind::Buf => "Buf:",
        GateKind::Not => "Not:",
    }
}

/// A target behind a word, and a blank.
fn put_to(alloc: Global, text: &mut String, word: &str, target: &Target) -> Result<(), AllocError> {
    text.push_str(word)?;
    put_target(alloc, text, target)?;
    text.push(' ')
}

/// The name, if there is one, and the terminals.
fn put_terms(
    alloc: Global,
    text: &mut String,
    name: &Option<Name>,
    terms: &[Expr],
) -> Result<(), AllocError> {
    if let Some(name) = name {
        put_name(text, name)?;
    }
    for term in terms {
        put_operand(alloc, text, term)?;
    }
    Ok(())
}

/// The item without its parentheses. A gate is its kind, `:`, its name if it has one, and its terminals; an instance is
/// its module, `:`, its name and its connections.
fn put_item(alloc: Global, text: &mut String, item: &Item) -> Result<(), AllocError> {
    match item {
        Item::Decl { kind, range, name } => {
            text.push_str(decl_word(*kind))?;
            put_range(alloc, text, *range)?;
            put_name(text, name)
        }
        Item::Assign { target, expr } => {
            put_to(alloc, text, "Assign ", target)?;
            put_expr(alloc, text, expr)
        }
        Item::Gate { kind, name, terms } => {
            text.push_str(gate_word(*kind))?;
            put_terms(alloc, text, name, terms.as_slice())
        }
        Item::Instance {
            module,
            name,
            conns,
        } => {
            put_name(text, module)?;
            text.push(':')?;
            put_name(text, name)?;
            put_conns(alloc, text, conns)
        }
        Item::Always { clock, body } => {
            put_to(alloc, text, "Always ", clock)?;
            put_stmt(alloc, text, body)
        }
        Item::Init { target, value } => {
            put_to(alloc, text, "Init ", target)?;
            put_constant(alloc, text, *value)
        }
    }
}

/// `name(ports)`
fn put_head(text: &mut String, design: &Module) -> Result<(), AllocError> {
    put_name(text, &design.name)?;
    let mut between = '(';
    for port in design.ports.as_slice() {
        text.push(between)?;
        put_name(text, port)?;
        between = ' ';
    }
    text.push_str(if between == '(' { "()" } else { ")" })
}

/// ` (item)`
fn put_within(alloc: Global, text: &mut String, item: &Item) -> Result<(), AllocError> {
    text.push_str(" (")?;
    put_item(alloc, text, item)?;
    text.push(')')
}

/// `[name(ports) (item) ..]`
fn put_module(alloc: Global, text: &mut String, design: &Module) -> Result<(), AllocError> {
    text.push('[')?;
    put_head(text, design)?;
    for item in design.items.as_slice() {
        put_within(alloc, text, item)?;
    }
    text.push(']')
}

pub(crate) fn source_text(alloc: Global, source: &Source) -> Result<String, AllocError> {
    let mut text = String::new(alloc);
    for design in source.modules.as_slice() {
        put_module(alloc, &mut text, design)?;
    }
    Ok(text)
}
