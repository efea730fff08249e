//! Pairs of bits, and groups of pairs.

use eq_base::Items;
use eq_names::BitName;

/// A bit of gold and a bit of gate that are to have the same value in each cycle, opposite ones where the pair is inverted.
#[derive(Clone, Copy, Debug, PartialEq, Eq)]
pub struct Pair {
    pub gold: BitName,
    pub gate: BitName,
    /// Whether the bits are inputs of the tops.
    pub input: bool,
    pub inverted: bool,
}

/// A net of gate, and whether the pair with it is inverted.
#[derive(Clone, Copy, Debug, PartialEq, Eq)]
pub struct Partner {
    pub net: u32,
    pub inverted: bool,
}

/// In the order of gold's bits.
pub type Pairs = Items<Pair>;

/// Places in a list of pairs.
pub type Positions = Items<u32>;

pub type Groups = Items<Positions>;
