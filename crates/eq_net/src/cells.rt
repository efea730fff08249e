//! Cells, each of which computes one bit from at most three others, and the operators of words on rows of them.
//!
//! - `gates`: one cell (`Gives`), and what is made of them for one bit. `numbers`: a stack of their numbers (`Written`).
//!   `rows`: cells for each bit of operands.
//! - `sums`, `truths`, `shifts`: operators along the bits. `operators`: each in the place of its operands (`Performs`).
//! - `words`: one word as cells on top of the stack (`Puts`). `circuit`: those of all words (`HasRows`).
//! - `walk`: the values of cells (`Computes`). `completion`: the bits of the nets and of all words from them.

mod circuit;
mod completion;
mod gates;
mod numbers;
mod operators;
mod rows;
mod shifts;
mod sums;
mod truths;
mod walk;
mod words;

pub use completion::complete;
