//! Tests of netlists and of graphs of bits, over the built libraries.
//!
//! - `bits`: the builder of shared nodes, cycles of a graph, first differences of a run.
//! - `builder`: what the builder answers, question by question.
//! - `clocked`: the graph of a counter's netlist, and names of bits.
//! - `counting`: a counter's graph over three cycles.
//! - `drawn`: graphs against steps on drawn operands of 64 bits and more.
//! - `form_rows`, `forms`: all other words in a step and in a graph, against numbers.
//! - `graphs`: the graph of a netlist of every operator, and how large graphs are.
//! - `net`: names that tools make, and netlists across threads.
//! - `operator_rows`, `operators`: each operator of two operands in a step, at each width.
//! - `ripple`: a sum whose carries are a net of their own.
//! - `steps`: a counter, step by step.
//! - `vectors`: words that read their own bits and one another's.
#![tactic(auto)]

#[cfg(test)]
mod bits;
#[cfg(test)]
mod builder;
#[cfg(test)]
mod clocked;
#[cfg(test)]
mod counting;
#[cfg(test)]
mod drawn;
#[cfg(test)]
mod form_rows;
#[cfg(test)]
mod forms;
#[cfg(test)]
mod graphs;
#[cfg(test)]
mod net;
#[cfg(test)]
mod operator_rows;
#[cfg(test)]
mod operators;
#[cfg(test)]
mod ripple;
#[cfg(test)]
mod steps;
#[cfg(test)]
mod vectors;
