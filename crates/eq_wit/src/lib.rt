//! Evidence as text: a part, the tries on it and what they came to.
//!
//! - `types`: an evidence, with what each meets (`MakeEvidence`).
//! - `tried`: `may_be_tried`, the test for strategies whose outcome can be printed (`MayBeTried`).
//! - `put`: single lines as they are written. `log`: the steps of a log, in LRAT.
//! - `print`: `print_evidence`, which gives the one text (`evidence_text`).
//! - `read`: `read_evidence`, which gives the evidence of a text, or the first line that no evidence goes on with
//!   (`IsFirstFault`). `state`: where the reading stands (`MayComeNext`).
//! - `dividing`, `numeral`: the lines of a text, the words of a line, and words that are numbers.
//! - `items`, `nodes`, `inputs`, `truths`, `heads`, `questions`, `ends`: what the words of one line say, or what is wrong
//!   with them (`ReadsLine`). `steps`: the same of a step of a log (`IsItem`, `IsNoItem`).
//! - `taking`, `trying`, `answering`, `logging`: where the reading stands behind a line of a part, of a try, of a run and
//!   of a log (`Judges`). `following`: the same of any line. `counted`: what is counted once of a part.
//! - `laws`: what strategies come to can be printed. `examples`: texts that are written out.
#![tactic(auto)]

mod answering;
mod counted;
mod dividing;
mod ends;
pub mod examples;
mod following;
mod heads;
mod inputs;
mod items;
pub mod laws;
mod log;
mod logging;
mod nodes;
mod numeral;
mod print;
mod put;
mod questions;
mod read;
mod state;
mod steps;
mod taking;
mod tried;
mod truths;
mod trying;
mod types;

pub use print::print_evidence;
pub use read::read_evidence;
pub use tried::may_be_tried;
pub use types::{Evidence, Head, Heads, WitErr, WitKind};
