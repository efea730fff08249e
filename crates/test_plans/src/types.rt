//! Signals, wires and cells, and a netlist that is being made.

use eq_net::{Dir, Drivers, NetInfos, NetNumbers, WordOp};

/// A net. An input comes from outside; another net has the value 0 where it is driven.
#[derive(Clone, Copy)]
pub struct Signal {
    pub name: &'static [u8],
    pub left: u32,
    pub right: u32,
    pub ranged: bool,
    pub dir: Dir,
    pub auto: bool,
    pub driven: bool,
}

/// What is made of a netlist so far.
#[derive(Drop)]
pub struct Draft {
    pub nets: NetInfos,
    pub drivers: Drivers,
    pub ports: NetNumbers,
}

/// A net of one bit that has the value of another net's lowest bit, within the cycle or as a register's next value. An input
/// comes from outside. A net stands at a higher rank than the one that it reads, and a register at any.
#[derive(Clone, Copy)]
pub struct Wire {
    pub name: &'static [u8],
    pub dir: Dir,
    pub auto: bool,
    pub reads: u32,
    pub register: bool,
    pub rank: u32,
}

/// A word without a choice: constant bits, all bits of a net of so many, their negations, or the sum of their number and of
/// constant bits.
#[derive(Clone, Copy)]
pub enum Arg {
    Bits(&'static [bool]),
    Net(u32, u32),
    Not(u32, u32),
    Sum(u32, u32, &'static [bool]),
}

/// A word of up to three others.
#[derive(Clone, Copy)]
pub enum Form {
    One(Arg),
    Two(WordOp, Arg, Arg),
    NotTwo(WordOp, Arg, Arg),
    Choice(Arg, Arg, Arg),
}

/// A net that a word drives, within the cycle or as a register's next value, unless it is an input. What a word reads stands
/// at lower ranks, where registers and inputs stand at rank 0.
#[derive(Clone, Copy)]
pub struct Cell {
    pub name: &'static [u8],
    pub width: u32,
    pub dir: Dir,
    pub auto: bool,
    pub register: bool,
    pub word: Form,
    pub rank: u32,
}
