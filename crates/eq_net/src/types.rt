//! The parts of a netlist.

ghost use Rattle.std.specs.Prelude.{◌≡◌};
ghost use Rattle.eq_net.specs.Nets.{width_of};

use eq_base::{Bits, Boxed, Items};
use eq_names::{BitName, Name};

/// Where a net stands: inside the design, or as a port of its top.
#[derive(Clone, Copy, Debug, PartialEq, Eq)]
pub enum Dir {
    Inner,
    Input,
    Output,
}

/// A net. Its declared range is `[left:right]` where it has one; else it has one bit.
#[derive(Debug, Drop)]
pub struct NetInfo {
    /// The full name: the names of the instances that it stands in and its own, joined by dots.
    pub name: Name,
    pub left: u32,
    pub right: u32,
    pub ranged: bool,
    pub dir: Dir,
    /// Whether a tool made the name: its own name is `_`, digits, `_`.
    pub auto: bool,
}

impl NetInfo {
    /// How many bits the net has.
    pub fn width(&self) -> u64
        ensures { result ≡ width_of self.now }
    {
        if self.ranged {
            u64::from(self.left.abs_diff(self.right)) + 1
        } else {
            1
        }
    }
}

/// What gives a bit its value.
#[derive(Clone, Copy, Debug, PartialEq, Eq)]
pub enum Driver {
    /// The outside: the bit is one of an input of the top.
    Input,
    /// Nothing.
    Undriven,
    /// Bit `bit` of the word `word`. Position 0 is the lowest.
    Expr { word: u32, bit: u32 },
    /// The cycle before: a register with its initial value and its next value.
    Reg { init: bool, word: u32, bit: u32 },
}

/// What a word computes from two words.
#[derive(Clone, Copy, Debug, PartialEq, Eq)]
pub enum WordOp {
    And,
    Or,
    Xor,
    Xnor,
    Add,
    Sub,
    Shl,
    Shr,
    Eq,
    Ne,
    Lt,
    Le,
    Gt,
    Ge,
    LogAnd,
    LogOr,
}

/// What one bit is computed from all bits of a word.
#[derive(Clone, Copy, Debug, PartialEq, Eq)]
pub enum RedOp {
    And,
    Or,
    Xor,
    Nand,
    Nor,
    Xnor,
    /// `!`
    Zero,
}

/// A bit of an earlier word.
#[derive(Clone, Copy, Debug, PartialEq, Eq)]
pub struct WordBit {
    pub word: u32,
    pub bit: u32,
}

/// A sized expression: a list of bits, the lowest first, as a function of the bits of the nets.
#[derive(Debug, Drop)]
pub enum Word {
    Const(Bits),
    /// The values of these bits.
    Read(BitNames),
    /// The values of these bits of earlier words.
    Pick(WordBits),
    /// Each bit negated.
    Not(Boxed<Word>),
    /// The negative, in two's complement.
    Neg(Boxed<Word>),
    Binary(WordOp, Boxed<Word>, Boxed<Word>),
    Reduce(RedOp, Boxed<Word>),
    /// The second where the first isn't zero, else the third.
    Mux(Boxed<Word>, Boxed<Word>, Boxed<Word>),
    /// One behind the other, the first with the highest bits.
    Concat(Words),
    /// As many bits as the number says, with zeros above.
    Extend(Boxed<Word>, u32),
}

pub type BitNames = Items<BitName>;

pub type WordBits = Items<WordBit>;

pub type NetInfos = Items<NetInfo>;

pub type NetNumbers = Items<u32>;

pub type Drivers = Items<Driver>;

pub type Words = Items<Word>;
