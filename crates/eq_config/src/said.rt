//! What a line says.

use crate::config::{CollectRule, MatchRule, Names, PartRule};
use eq_names::{Name, Pattern};

/// Which of the two designs.
#[derive(Clone, Copy)]
pub enum Role {
    Gold,
    Gate,
}

/// The kinds of sections.
#[derive(Clone, Copy)]
pub enum SectionKind {
    Options,
    Design(Role),
    Match,
    Collect,
    Partition,
    Strategy,
}

/// What the words of a heading say.
#[derive(Drop)]
pub enum Heading {
    Options,
    Design(Role),
    Match(Pattern),
    Collect(Pattern),
    Partition(Pattern),
    Strategy(Name),
}

/// What the words of a line in a section say.
#[derive(Drop)]
pub enum Entry {
    /// `read_verilog FILE ..`
    Files(Role, Names),
    /// `prep -top MODULE`
    Top(Role, Name),
    Match(MatchRule),
    Collect(CollectRule),
    Partition(PartRule),
    /// `use sat`
    Use,
    Depth(u32),
    Conflicts(u64),
    Apply(Pattern),
}

/// What a line says.
#[derive(Drop)]
pub enum Said {
    /// It has no words, or is a comment.
    Nothing,
    /// A heading, with the number of its line.
    Heading { line: u32, heading: Heading },
    Entry(Entry),
}
