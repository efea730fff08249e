//! The tree of a Verilog text (IEEE 1364-2005, annex A, in the profile of a structural netlist).

use eq_base::{Boxed, Items};
use eq_names::Name;
use eq_vlex::Constant;

/// The modules of a text, in its order.
#[derive(Drop)]
pub struct Source {
    pub modules: Modules,
}

/// A module. Its header's ports stand in `ports` by name; what the header declares stands first in `items`.
#[derive(Drop)]
pub struct Module {
    pub name: Name,
    pub ports: Names,
    pub items: ModuleItems,
}

/// `[left:right]`.
#[derive(Clone, Copy, Debug, PartialEq, Eq)]
pub struct Range {
    pub left: u32,
    pub right: u32,
}

#[derive(Clone, Copy, Debug, PartialEq, Eq)]
pub enum DeclKind {
    Input,
    Output,
    Wire,
    Reg,
}

/// A primitive gate.
#[derive(Clone, Copy, Debug, PartialEq, Eq)]
pub enum GateKind {
    And,
    Nand,
    Or,
    Nor,
    Xor,
    Xnor,
    Buf,
    Not,
}

/// One thing that a module declares, drives, instantiates or runs. What names several things in the text, as
/// `wire a, b = c;`, is one item for each.
#[derive(Drop)]
pub enum Item {
    Decl {
        kind: DeclKind,
        range: Option<Range>,
        name: Name,
    },
    Assign {
        target: Target,
        expr: Expr,
    },
    Gate {
        kind: GateKind,
        name: Option<Name>,
        terms: Exprs,
    },
    Instance {
        module: Name,
        name: Name,
        conns: Conns,
    },
    /// What runs at each positive edge of the clock.
    Always {
        clock: Target,
        body: Stmt,
    },
    /// The value that a target has at first.
    Init {
        target: Target,
        value: Constant,
    },
}

/// The connections of an instance. An instance without any has a named list of none.
#[derive(Drop)]
pub enum Conns {
    ByOrder(MaybeExprs),
    ByName(Nameds),
}

/// `.port(expr)` or `.port()`.
#[derive(Drop)]
pub struct Named {
    pub port: Name,
    pub expr: Option<Expr>,
}

#[derive(Drop)]
pub enum Stmt {
    /// `;`
    Empty,
    /// `target <= expr;`
    Set(Target, Expr),
    /// `begin .. end`
    Block(Stmts),
    /// `if (expr) stmt` or `if (expr) stmt else stmt`
    If(Expr, Boxed<Stmt>, Option<Boxed<Stmt>>),
}

/// What is driven: a net, a bit or a part of it, or a concatenation, its first part with the highest bits.
#[derive(Drop)]
pub enum Target {
    Net(Name),
    Bit(Name, u32),
    Part(Name, u32, u32),
    Concat(Targets),
}

#[derive(Clone, Copy, Debug, PartialEq, Eq)]
pub enum UnOp {
    /// `~`
    Not,
    /// `!`
    LogNot,
    /// `-`
    Neg,
    /// `&`
    RedAnd,
    /// `~&`
    RedNand,
    /// `|`
    RedOr,
    /// `~|`
    RedNor,
    /// `^`
    RedXor,
    /// `~^` or `^~`
    RedXnor,
}

#[derive(Clone, Copy, Debug, PartialEq, Eq)]
pub enum BinOp {
    Add,
    Sub,
    Shl,
    Shr,
    Lt,
    Le,
    Gt,
    Ge,
    /// `==` or `===`
    Eq,
    /// `!=` or `!==`
    Ne,
    And,
    Xor,
    /// `~^` or `^~`
    Xnor,
    Or,
    LogAnd,
    LogOr,
}

#[derive(Drop)]
pub enum Expr {
    Const(Constant),
    Net(Name),
    Bit(Name, u32),
    Part(Name, u32, u32),
    Concat(Exprs),
    /// `{n{a, b}}`
    Repeat(u32, Exprs),
    Unary(UnOp, Boxed<Expr>),
    Binary(BinOp, Boxed<Expr>, Boxed<Expr>),
    /// `a ? b : c`
    Cond(Boxed<Expr>, Boxed<Expr>, Boxed<Expr>),
}

pub type Modules = Items<Module>;

pub type Names = Items<Name>;

pub type ModuleItems = Items<Item>;

pub type Exprs = Items<Expr>;

pub type MaybeExprs = Items<Option<Expr>>;

pub type Nameds = Items<Named>;

pub type Stmts = Items<Stmt>;

pub type Targets = Items<Target>;
