//! Makes graphs of large netlists, steps one, and plans and cuts one, so that a script can time the proved `blast`, `step`,
//! `partitions` and `cut`. It is no part of EQY.
//!
//! With the word `word` it makes the graph of one word of 61 shifts, which costs 999,810; with `chain` that of a chain of
//! 1,000 additions of 8 bits, each of which reads the one behind it through a net; with `steps` it steps the chain 1,000
//! times, and with `ripple` a word of 1,024 carries, each of which reads the one below it through a net. With `plan` it makes
//! the plan of 4,096 stages of 244 bits by 100 lines, with `graphs` the graphs besides, and with `parts` the parts of all
//! partitions besides. Without a word it does all, with one step, and with 64 stages of 4 bits. Each puts a line: the number of
//! nodes or of partitions, or of the last step the last sum or the last eight carries. The status is 0 where all could be done.
//!
//! - `netlist`: the word of shifts, made by hand. `stepping`: the steps. `plans`: plans, graphs and parts of stages.
#![tactic(auto)]

mod netlist;
mod plans;
mod stepping;

use crate::netlist::large;
use crate::plans::{Goal, of_few, of_many};
use crate::stepping::{last_carries, last_sum};
use eq_base::Memory;
use eq_blast::blast;
use eq_net::Net;
use std::alloc::Global;
use std::env::Env;
use std::process::ExitCode;
use test_series::{chain_of_additions, chain_of_carries};

/// Which of them is to be done.
#[derive(Clone, Copy)]
enum Work {
    Word,
    Chain,
    Steps,
    Ripple,
    Stages(Goal),
    All,
}

/// The work that the first word names.
fn asked<R: Env>(rt: &R) -> Work {
    let mut word = [0_u8; 8];
    match rt.arg(1, &mut word) {
        Ok(_) => named(&word),
        Err(_) => Work::All,
    }
}

/// The work of a word that zeros fill up.
fn named(word: &[u8; 8]) -> Work {
    match word {
        b"word\0\0\0\0" => Work::Word,
        b"chain\0\0\0" => Work::Chain,
        b"steps\0\0\0" => Work::Steps,
        b"ripple\0\0" => Work::Ripple,
        b"plan\0\0\0\0" => Work::Stages(Goal::Plan),
        b"graphs\0\0" => Work::Stages(Goal::Graphs),
        b"parts\0\0\0" => Work::Stages(Goal::Parts),
        _ => Work::All,
    }
}

/// How many nodes a netlist's graph has.
fn nodes(alloc: Global, net: &Net) -> Result<u64, Memory> {
    let graph = blast(alloc, net)?;
    Ok(graph.nodes.len() as u64)
}

fn word_nodes(alloc: Global) -> Result<u64, Memory> {
    let net = large(alloc)?;
    nodes(alloc, &net)
}

fn chain_nodes(alloc: Global) -> Result<u64, Memory> {
    let net = chain_of_additions(alloc, 999)?;
    nodes(alloc, &net)
}

fn chain_sum(alloc: Global, steps: u32) -> Result<u64, Memory> {
    let net = chain_of_additions(alloc, 999)?;
    last_sum(alloc, &net, steps)
}

fn ripple_carries(alloc: Global, steps: u32) -> Result<u64, Memory> {
    let net = chain_of_carries(alloc, 1024)?;
    last_carries(alloc, &net, steps)
}

/// The lines of the first four.
fn four(alloc: Global) -> Result<String, Memory> {
    let word = word_nodes(alloc)?;
    let chain = chain_nodes(alloc)?;
    let sum = chain_sum(alloc, 1)?;
    let carries = ripple_carries(alloc, 1)?;
    format!(in alloc; "nodes {word}\nnodes {chain}\nsum {sum}\ncarries {carries}")
}

/// The lines of few stages.
fn few(alloc: Global) -> Result<String, Memory> {
    let parts = of_few(alloc, Goal::Plan)?;
    let graphs = of_few(alloc, Goal::Graphs)?;
    let nodes = of_few(alloc, Goal::Parts)?;
    format!(in alloc; "partitions {parts}\nnodes {graphs}\nnodes {nodes}")
}

/// All lines.
fn all(alloc: Global) -> Result<String, Memory> {
    let four = four(alloc)?;
    let few = few(alloc)?;
    format!(in alloc; "{four}\n{few}")
}

/// The line of many stages.
fn many(alloc: Global, goal: Goal) -> Result<String, Memory> {
    let count = of_many(alloc, goal)?;
    match goal {
        Goal::Plan => format!(in alloc; "partitions {count}"),
        Goal::Graphs => format!(in alloc; "nodes {count}"),
        Goal::Parts => format!(in alloc; "nodes {count}"),
    }
}

/// What is put.
fn text(alloc: Global, work: Work) -> Result<String, Memory> {
    match work {
        Work::Word => {
            let word = word_nodes(alloc)?;
            format!(in alloc; "nodes {word}")
        }
        Work::Chain => {
            let chain = chain_nodes(alloc)?;
            format!(in alloc; "nodes {chain}")
        }
        Work::Steps => {
            let sum = chain_sum(alloc, 1_000)?;
            format!(in alloc; "sum {sum}")
        }
        Work::Ripple => {
            let carries = ripple_carries(alloc, 1_000)?;
            format!(in alloc; "carries {carries}")
        }
        Work::Stages(goal) => many(alloc, goal),
        Work::All => all(alloc),
    }
}

fn main(rt: HostRuntime) -> ExitCode {
    match text(rt.alloc(), asked(&rt)) {
        Ok(text) => match println!(rt; "{text}") {
            Ok(_) => ExitCode::SUCCESS,
            Err(_) => ExitCode::FAILURE,
        },
        Err(_) => ExitCode::FAILURE,
    }
}
