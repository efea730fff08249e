//! Why a text has no configuration.

ghost use Rattle.std.specs.Prelude.{◌≡◌};
ghost use Rattle.eq_config.specs.declared.fault.ConfigErr.TheVariants.{Memory as NoMemory};
ghost use Rattle.eq_config.specs.declared.fault.Stop.TheVariants.{Memory as Stopped};

use std::alloc::AllocError;

/// What is wrong in a line, the first of this order that holds, or what is missing in the whole.
#[derive(Clone, Copy, Debug, PartialEq, Eq)]
pub enum ConfigKind {
    /// A byte that isn't 0x20 to 0x7E, a tab, or one carriage return before the line feed.
    NotAscii,
    /// A line that isn't a heading before the first heading.
    NoSection,
    /// A heading whose first word is none of the table.
    UnknownSection,
    /// A first word that the section doesn't have.
    UnknownLine,
    /// A wrong number of words, a word of more than 1,024 bytes, or one that isn't what has to stand there.
    BadWord,
    /// A number that isn't spelled in decimal without a leading zero, or is outside its limit.
    BadNumber,
    /// A second `[options]`, `[gold]` or `[gate]`, a second strategy of one name, or a second `prep`, `use`, `depth` or
    /// `conflicts` of one section.
    Twice,
    /// The 65th file of a side, the 17th strategy, or the 4,097th rule.
    TooMany,
    /// No line is faulty, and a section or a line that has to be there is not.
    Missing,
}

/// Why a text has no configuration: a fault, with the number of its line, or want of memory.
#[derive(Clone, Copy, Debug, PartialEq, Eq)]
pub enum ConfigErr {
    At { line: u32, kind: ConfigKind },
    Memory,
}

impl From<AllocError> for ConfigErr {
    ghost from_gives = { λ _ e. e ≡ NoMemory };

    fn from(_: AllocError) -> ConfigErr {
        ConfigErr::Memory
    }
}

/// Why a line was not read.
#[derive(Clone, Copy)]
pub enum Stop {
    Fault(ConfigKind),
    Memory,
}

impl From<AllocError> for Stop {
    ghost from_gives = { λ _ e. e ≡ Stopped };

    fn from(_: AllocError) -> Stop {
        Stop::Memory
    }
}
