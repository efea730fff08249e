//! The pieces of a pattern, and the bytes that they take.

ghost use Rattle.std.specs.Prelude.{◌≡◌};
ghost use Rattle.std.specs.List.{list_any};
ghost use Rattle.eq_names.specs.Pieces as spec;

use eq_base::Items;

/// The bytes from one to another, both of them among them.
#[derive(Clone, Copy, Debug, PartialEq, Eq)]
pub struct ByteRange {
    pub low: u8,
    pub high: u8,
}

pub type ByteRanges = Items<ByteRange>;

/// A set of bytes: those of the ranges, or all others.
#[derive(Debug, Drop)]
pub struct ByteSet {
    pub negated: bool,
    pub ranges: ByteRanges,
}

/// A piece of a pattern.
#[derive(Debug, Drop)]
pub enum Piece {
    /// A byte that stands for itself.
    Byte(u8),
    /// `?`, any byte.
    AnyByte,
    /// `*`, any run of bytes, the empty run included.
    AnyRun,
    /// `[..]`, a byte of the set.
    OneOf(ByteSet),
}

pub type Pieces = Items<Piece>;

/// Whether the byte is one of the range.
fn is_within(range: ByteRange, byte: u8) -> bool
    ensures { result ≡ spec.is_within range byte }
{
    range.low <= byte && byte <= range.high
}

/// Whether the byte is in one of the ranges.
fn is_listed(ranges: &[ByteRange], byte: u8) -> bool
    ensures { result ≡ list_any (λ range. spec.is_within range byte) ranges.now }
{
    ranges.iter().any(|range| is_within(*range, byte))
}

impl ByteSet {
    /// Whether the byte is in the set.
    fn has(&self, byte: u8) -> bool
        ensures { result ≡ spec.has self.now byte }
    {
        if self.negated {
            !is_listed(self.ranges.as_slice(), byte)
        } else {
            is_listed(self.ranges.as_slice(), byte)
        }
    }
}

impl Piece {
    /// Whether the piece takes this byte, and no other bytes with it.
    pub fn takes(&self, byte: u8) -> bool
        ensures { result ≡ spec.takes_byte self.now byte }
    {
        match self {
            Piece::Byte(own) => byte == *own,
            Piece::AnyByte => true,
            Piece::AnyRun => false,
            Piece::OneOf(set) => set.has(byte),
        }
    }

    /// Whether it is `*`.
    pub fn is_run(&self) -> bool
        ensures { result ≡ spec.is_run self.now }
    {
        match self {
            Piece::Byte(_) => false,
            Piece::AnyByte => false,
            Piece::AnyRun => true,
            Piece::OneOf(_) => false,
        }
    }

    /// Whether it is `*`, `?` or a set.
    pub fn is_wild(&self) -> bool
        ensures { result ≡ spec.is_wild self.now }
    {
        match self {
            Piece::Byte(_) => false,
            Piece::AnyByte => true,
            Piece::AnyRun => true,
            Piece::OneOf(_) => true,
        }
    }
}
