//! What a token is.

use crate::key::Key;
use crate::mark::Mark;
use eq_base::Items;
use eq_names::Name;

/// A constant with a written size, as `4'b10_1`.
#[derive(Clone, Copy, Debug, PartialEq, Eq)]
pub struct Constant {
    /// How many bits it has, from 1 to 128.
    pub size: u32,
    /// Below 2 to the power of the size.
    pub value: u128,
}

/// A token without its place.
#[derive(Debug, Drop)]
pub enum TokenKind {
    /// A simple name that is no keyword, or an escaped name without its `\`.
    Word(Name),
    Key(Key),
    /// At most 2^31 - 1.
    Decimal(u32),
    Sized(Constant),
    Mark(Mark),
}

/// A token, and its bytes: those from `start` up to `end`, which isn't one of them.
#[derive(Debug, Drop)]
pub struct Token {
    pub kind: TokenKind,
    pub start: u32,
    pub end: u32,
}

pub type Tokens = Items<Token>;
