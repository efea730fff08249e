//! The tokens of a Verilog text, each with the place of its bytes, and the first fault of a text that has none.
//!
//! A text is read in one pass, piece by piece: a piece is a separator or a token. In the order of the data:
//!
//! - `bytes`: by the first two bytes, what begins at a place (`begins`), and how long a run of a class of bytes is.
//! - `separator`: where a comment ends (`ClosesComment`) and where an attribute does (`ClosesAttribute`).
//! - `key`: the table of keywords, and `key_of`, which looks a word up in it.
//! - `word`: simple names, keywords and escaped names (`IsKind`).
//! - `number`: decimals (`IsDecimal`) and constants (`IsSized`), or which fault a number has (`IsBadSized`).
//! - `mark`: the table of marks, and the first of them that begins a text (`mark_at`).
//! - `piece`: the piece at the front of a text, or its fault (`IsPiece`, `IsFault`).
//! - `token`, `fault`: the types of what is answered.
//! - `lex`: `tokens` goes from piece to piece, and answers the text's tokens or its first fault, exactly (`HasTokens`,
//!   `HasFault`); `line_of` counts the lines before a place.
//! - `laws`: each text has one list of tokens or one first fault, and never both.
#![tactic(auto)]

mod bytes;
mod fault;
mod key;
pub mod laws;
mod lex;
mod mark;
mod number;
mod piece;
mod separator;
mod token;
mod word;

pub use fault::{LexErr, LexKind};
pub use key::{Key, key_of};
pub use lex::{line_of, tokens};
pub use mark::Mark;
pub use token::{Constant, Token, TokenKind, Tokens};
