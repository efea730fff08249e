//! The lines of a netlist, and a netlist that is being made.

use eq_net::{Dir, Drivers, NetInfos, NetNumbers};

/// How a net has its value from another net's lowest bit.
#[derive(Clone, Copy)]
pub enum Form {
    /// By wiring alone.
    Copy,
    Inverted,
    /// As a register's next value.
    Next,
    /// Not at all: it has no driver.
    Undriven,
}

/// A net. An input has one bit, or the range `[wide:0]`, and comes from outside; any other net has one bit, and stands at a
/// higher rank than the one that it reads, but for a register.
#[derive(Clone, Copy)]
pub struct Line {
    pub name: &'static [u8],
    pub wide: u32,
    pub dir: Dir,
    pub form: Form,
    pub reads: u32,
    pub rank: u32,
}

/// What is made of a netlist so far.
#[derive(Drop)]
pub struct Draft {
    pub nets: NetInfos,
    pub drivers: Drivers,
    pub ports: NetNumbers,
}
