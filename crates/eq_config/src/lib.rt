//! The configuration of a run, read from its text.
//!
//! - `limits`: how many files, strategies, rules and bytes there may be, and what a strategy has by default.
//! - `lines`: the lines of a text, the words of a line, and what stands between the brackets of a heading.
//! - `number`, `words`: single words: numbers, files, names, patterns, templates.
//! - `keyword`: the first words of headings and of the lines of each section.
//! - `config`, `said`: the value that is read, and what one line says of it.
//! - `heading`, `entry`, `line`: what a line says in its section, or its first fault (`form_says`, `FormFault`).
//! - `section`, `draft`: what lines say together so far, what comes twice and what is one too many.
//! - `finish`: what is missing, and the value with its defaults.
//! - `fault`: the kinds of faults. `read`: `read_config`, which answers exactly the configuration or the first fault.
//! - `put`, `print`: lines as they are written, and `print_config`, whose text has its configuration again.
//! - `laws`: a text has one configuration or one first fault, and never both.
#![tactic(auto)]

mod config;
mod draft;
mod entry;
mod fault;
mod finish;
mod heading;
mod keyword;
pub mod laws;
mod limits;
mod line;
mod lines;
mod number;
mod print;
mod put;
mod read;
mod said;
mod section;
mod words;

pub use config::{
    CollectRule, CollectRules, CollectSection, CollectSections, Config, MatchRule, MatchRules,
    MatchSection, MatchSections, Names, PartRule, PartRules, PartSection, PartSections, Patterns,
    Side, Strategies, Strategy,
};
pub use fault::{ConfigErr, ConfigKind};
pub use print::print_config;
pub use read::read_config;
