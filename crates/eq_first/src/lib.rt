//! The first forms of a configuration and of a design, and their readers.
//!
//! Each private reader has one contract: it gives what a function on lists in `specs/` gives. That these functions read
//! exactly what the relations for review say is proved apart from the code, over lists. In the order of the data:
//!
//! - `lines`: the nine lines of a configuration, without taking memory (`words` gives `job_at`).
//! - `job`: `read_job` makes names of them, and answers a job exactly where the text asks for one (`IsJob`).
//! - `token`: a text is cut into words and marks, or into none (`tokens` gives `HasTokens`).
//! - `words`: which words are reserved.
//! - `header`: the ports so far, with a map from names to places (`add` gives `add_at`).
//! - `expression`: an expression, by a stack of what waits for an operand (`expression` gives `run`).
//! - `sentence`: ports, target, body and end of a module (`module` gives `module_at`).
//! - `module`: the types of a design that was read.
//! - `design`: `read_module` joins these, and answers a module exactly where the text is one's design (`IsModule`).
//! - `laws`: a text has one job, one list of tokens and one module of a name at most; values come from operands.
#![tactic(auto)]

mod design;
mod expression;
mod header;
mod job;
pub mod laws;
mod lines;
mod module;
mod sentence;
mod token;
mod words;

pub use design::read_module;
pub use job::{Job, Side, read_job};
pub use module::{Direction, Expr, Module, Port, Ports};
