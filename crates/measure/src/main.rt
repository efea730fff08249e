//! Runs the proved libraries on the files of its folder, so that a script can time them. It is no part of EQY.
//!
//! With the word `tokens`, `tree` or `print` it reads `netlist.v` and cuts it into tokens, or reads its tree as well, or
//! prints that too; with `check` it checks `log.lrat` against `formula.cnf`; with `config` it reads `job.eqy`, and with
//! `evidence` it reads `evidence.txt`; with `graph` it makes a graph of a million nodes, and with `formula` a formula of a
//! million clauses. Without a word it does all eight, with a small graph and a small formula.
//! Each puts a line with a count. The status is 0 where all could be done, and the log ends with the empty clause.
//!
//! - `graph`: what is made without a file.
#![tactic(auto)]

mod graph;

use eq_base::{Bytes, Memory};
use eq_config::read_config;
use eq_io::{DirStore, Got, OutSink, Sink, Store};
use eq_proof::{check, read_dimacs, read_lrat};
use eq_vlex::{Tokens, tokens};
use eq_vparse::{Source, parse, print_source};
use eq_wit::read_evidence;
use std::alloc::Global;
use std::env::Env;
use std::process::ExitCode;

/// The most bytes of a file, and so the most tokens and clauses.
const MOST: u64 = 67_108_864;

/// Which of the eight is to be done.
#[derive(Clone, Copy, PartialEq, Eq)]
enum Work {
    Tokens,
    Tree,
    Print,
    Check,
    Config,
    Evidence,
    Graph,
    Formula,
    All,
}

/// How much is made where no file says it: a hundred nodes and 37 clauses, or a million of each.
#[derive(Clone, Copy)]
enum Extent {
    Few,
    Million,
}

/// The work that the first word names.
fn asked<R: Env>(rt: &R) -> Work {
    let mut word = [0_u8; 8];
    match rt.arg(1, &mut word) {
        Ok(_) => named(&word),
        Err(_) => Work::All,
    }
}

/// The work of a word that zeros fill up.
fn named(word: &[u8; 8]) -> Work {
    match word {
        b"tokens\0\0" => Work::Tokens,
        b"tree\0\0\0\0" => Work::Tree,
        b"print\0\0\0" => Work::Print,
        b"check\0\0\0" => Work::Check,
        b"config\0\0" => Work::Config,
        b"evidence" => Work::Evidence,
        b"graph\0\0\0" => Work::Graph,
        b"formula\0" => Work::Formula,
        _ => Work::All,
    }
}

/// The bytes of a file.
fn held<S: Store>(alloc: Global, store: &mut S, name: &str) -> Option<Bytes> {
    match store.read(alloc, name, MOST) {
        Ok(Got::Held(bytes)) => Some(bytes),
        _ => None,
    }
}

/// The tokens of a text of Verilog.
fn cut(alloc: Global, text: &[u8]) -> Option<Tokens> {
    if text.len() as u64 > MOST {
        return None;
    }
    tokens(alloc, text).ok()
}

/// The tree of a text of Verilog.
fn tree(alloc: Global, text: &[u8]) -> Option<Source> {
    let tokens = cut(alloc, text)?;
    if tokens.len() as u64 > MOST {
        return None;
    }
    parse(alloc, &tokens).ok()
}

/// How many bytes the text of a tree has.
fn printed(alloc: Global, source: &Source) -> Option<u64> {
    match print_source(alloc, source) {
        Ok(text) => Some(text.len() as u64),
        Err(_) => None,
    }
}

/// How many steps a log has that refutes its formula.
fn refuted(alloc: Global, formula: &[u8], log: &[u8]) -> Option<u64> {
    if formula.len() as u64 > MOST || log.len() as u64 > MOST {
        return None;
    }
    let formula = read_dimacs(alloc, formula).ok()?;
    let clauses = formula.clauses.len() as u64;
    if clauses > MOST {
        return None;
    }
    let log = read_lrat(alloc, clauses + 1, log).ok()?;
    match check(alloc, &formula, &log) {
        Ok(checked) if checked.ends => Some(u64::from(log.len())),
        _ => None,
    }
}

/// How many strategies a configuration has.
fn strategies(alloc: Global, text: &[u8]) -> Option<u64> {
    if text.len() as u64 > MOST {
        return None;
    }
    match read_config(alloc, text) {
        Ok(config) => Some(config.strategies.len() as u64),
        Err(_) => None,
    }
}

/// How many steps of an evidence's logs have a literal.
fn conflicts(alloc: Global, text: &[u8]) -> Option<u64> {
    if text.len() as u64 > MOST {
        return None;
    }
    match read_evidence(alloc, text) {
        Ok(evidence) => Some(evidence.decided.conflicts),
        Err(_) => None,
    }
}

/// What is counted of an evidence.
fn of_evidence<S: Store>(alloc: Global, store: &mut S) -> Option<u64> {
    let text = held(alloc, store, "evidence.txt")?;
    conflicts(alloc, text.as_slice())
}

/// What is counted of a log and its formula.
fn of_log<S: Store>(alloc: Global, store: &mut S) -> Option<u64> {
    let formula = held(alloc, store, "formula.cnf")?;
    let log = held(alloc, store, "log.lrat")?;
    refuted(alloc, formula.as_slice(), log.as_slice())
}

/// What is counted of a netlist's text.
fn of_netlist(alloc: Global, work: Work, text: &[u8]) -> Option<u64> {
    match work {
        Work::Tree => Some(tree(alloc, text)?.modules.len() as u64),
        Work::Print => printed(alloc, &tree(alloc, text)?),
        _ => Some(cut(alloc, text)?.len() as u64),
    }
}

/// What is counted of the configuration, or of the netlist.
fn of_text<S: Store>(alloc: Global, store: &mut S, work: Work) -> Option<u64> {
    if work == Work::Config {
        let text = held(alloc, store, "job.eqy")?;
        return strategies(alloc, text.as_slice());
    }
    let text = held(alloc, store, "netlist.v")?;
    of_netlist(alloc, work, text.as_slice())
}

/// What is counted in what is made without a file.
fn of_graph(alloc: Global, work: Work, extent: Extent) -> Option<u64> {
    match (work, extent) {
        (Work::Graph, Extent::Few) => graph::nodes(alloc, 98),
        (Work::Graph, Extent::Million) => graph::nodes(alloc, 999_998),
        (_, Extent::Few) => graph::clauses(alloc, 4, 1),
        (_, Extent::Million) => graph::clauses(alloc, 4_534, 62),
    }
}

/// What a work counts.
fn count<S: Store>(alloc: Global, store: &mut S, work: Work, extent: Extent) -> Option<u64> {
    match work {
        Work::Graph | Work::Formula => of_graph(alloc, work, extent),
        Work::Check => of_log(alloc, store),
        Work::Evidence => of_evidence(alloc, store),
        _ => of_text(alloc, store, work),
    }
}

/// The line of a count.
fn line(alloc: Global, name: &str, count: u64) -> Result<String, Memory> {
    format!(in alloc; "{name} {count}\n")
}

/// Does one work and puts its line. Answers whether both could be done.
fn done<S: Store, O: Sink>(
    alloc: Global,
    store: &mut S,
    out: &mut O,
    work: Work,
    extent: Extent,
    name: &str,
) -> bool {
    let Some(count) = count(alloc, store, work, extent) else {
        return false;
    };
    match line(alloc, name, count) {
        Ok(line) => out.put(alloc, line.as_bytes()).is_ok(),
        Err(_) => false,
    }
}

/// Does the work, or all of it in turn.
fn measure<S: Store, O: Sink>(alloc: Global, store: &mut S, out: &mut O, work: Work) -> bool {
    let works = [
        (Work::Tokens, "tokens"),
        (Work::Tree, "modules"),
        (Work::Print, "bytes"),
        (Work::Check, "steps"),
        (Work::Config, "strategies"),
        (Work::Evidence, "conflicts"),
        (Work::Graph, "nodes"),
        (Work::Formula, "clauses"),
    ];
    let extent = if work == Work::All {
        Extent::Few
    } else {
        Extent::Million
    };
    for (one, name) in &works {
        if (work == Work::All || work == *one) && !done(alloc, store, out, *one, extent, name) {
            return false;
        }
    }
    true
}

fn main(rt: HostRuntime) -> ExitCode {
    let work = asked(&rt);
    let mut store = DirStore::new(&rt);
    let mut out = OutSink::new(rt.stdout());
    if measure(rt.alloc(), &mut store, &mut out, work) {
        ExitCode::SUCCESS
    } else {
        ExitCode::FAILURE
    }
}
