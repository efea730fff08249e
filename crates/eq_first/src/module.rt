//! The design of the first form.

use eq_base::{Boxed, Items};
use eq_names::Name;

/// Which way a port goes.
#[derive(Clone, Copy, Debug, PartialEq, Eq)]
pub enum Direction {
    Input,
    Output,
}

/// A port of one bit.
#[derive(Debug, Drop)]
pub struct Port {
    pub direction: Direction,
    pub name: Name,
}

/// The ports of a header, in its order.
pub type Ports = Items<Port>;

/// An expression of one bit. `Port(n)` is the n-th port of the header, counted from 0.
#[derive(Debug, Drop)]
pub enum Expr {
    Port(u32),
    Not(Boxed<Expr>),
    And(Boxed<Expr>, Boxed<Expr>),
    Xor(Boxed<Expr>, Boxed<Expr>),
    Or(Boxed<Expr>, Boxed<Expr>),
}

/// A module with one assignment. `output` is the number of the assigned port.
#[derive(Debug, Drop)]
pub struct Module {
    pub ports: Ports,
    pub output: u32,
    pub expr: Expr,
}
