//! Names, their numbers, patterns and templates.
//!
//! - `name`: one or more visible bytes (`Name::read`: the first fault).
//! - `table`: distinct names and their numbers (`NameTable::intern`: the number stays).
//! - `piece`, `bracket`: the pieces of a pattern, and the sets in brackets.
//! - `fault`: why a text is no pattern or template.
//! - `walk`: a name divided among pieces, each `*` with its shortest run.
//! - `pattern`: patterns read, printed and matched (`Pattern::matches`, `captures`: exactly the definition's).
//! - `part`, `template`: templates read, printed and filled (`Template::fill`: exactly the definition's).
//! - `laws`: what is proved of the definitions alone.
#![tactic(auto)]

mod bracket;
mod fault;
pub mod laws;
mod name;
mod part;
mod pattern;
mod piece;
mod span;
mod table;
mod template;
mod walk;

use eq_base::Items;
pub use fault::{PatErr, TplErr};
pub use name::{Name, NameErr, are_name_bytes};
pub use pattern::Pattern;
pub use span::{Captures, Span};
pub use table::NameTable;
pub use template::Template;

/// Names in order, as of files or of ports. Contracts see the list of their bytes.
pub type Names = Items<Name>;

/// One bit of a net, by the net's number and the bit's position. Position 0 is the bit of the right index.
#[derive(Clone, Copy, Debug, PartialEq, Eq)]
pub struct BitName {
    pub net: u32,
    pub bit: u32,
}
