//! Solves `formula.cnf` of its folder, so that a script can time the proved solver. It is no part of EQY.
//!
//! With the word `count` it learns at most 200,000 clauses, and puts a line with the numbers of the log's steps, of their
//! literals and of their antecedents, which are 0 where there are values that satisfy. Without a word it learns at most
//! 2,000, and puts the line `s SATISFIABLE`, `s UNSATISFIABLE` or `s UNKNOWN`, as solvers do. The status is 0 where that
//! could be done.
#![tactic(auto)]

ghost use Rattle.std.specs.Prelude.{◌≤◌};

use eq_base::Bytes;
use eq_cdcl::{Solved, solve};
use eq_io::{DirStore, Got, OutSink, Sink, Store};
use eq_proof::{Formula, Log, read_dimacs};
use std::alloc::Global;
use std::env::Env;
use std::process::ExitCode;

/// The most bytes of a file.
const MOST: u64 = 67_108_864;

/// What is to be told of a formula.
#[derive(Clone, Copy)]
enum Told {
    Verdict,
    Count,
}

/// What the first word asks for.
fn asked<R: Env>(rt: &R) -> Told {
    let mut word = [0_u8; 5];
    match rt.arg(1, &mut word) {
        Ok(_) => named(&word),
        Err(_) => Told::Verdict,
    }
}

fn named(word: &[u8; 5]) -> Told {
    match word {
        b"count" => Told::Count,
        _ => Told::Verdict,
    }
}

/// How many clauses may be learned.
fn budget(told: Told) -> u64
    ensures { result ≤ 1_000_000 }
{
    match told {
        Told::Verdict => 2_000,
        Told::Count => 200_000,
    }
}

/// The bytes of a file.
fn held<S: Store>(alloc: Global, store: &mut S, name: &str) -> Option<Bytes> {
    match store.read(alloc, name, MOST) {
        Ok(Got::Held(bytes)) => Some(bytes),
        _ => None,
    }
}

/// The formula of a text.
fn read(alloc: Global, text: &[u8]) -> Option<Formula> {
    if text.len() as u64 > MOST {
        return None;
    }
    read_dimacs(alloc, text).ok()
}

/// How many steps a log has, and how many literals and antecedents they have together.
#[derive(Clone, Copy)]
struct Sizes {
    steps: u32,
    literals: usize,
    antecedents: usize,
}

fn sizes_of(log: &Log) -> Sizes {
    let mut sizes = Sizes {
        steps: log.len(),
        literals: 0,
        antecedents: 0,
    };
    for place in 0..log.len() {
        let step = log.at(place);
        sizes.literals = sizes.literals.saturating_add(step.clause.len());
        sizes.antecedents = sizes.antecedents.saturating_add(step.ants.len());
    }
    sizes
}

/// The sizes of an answer's log.
fn learned(solved: &Solved) -> Sizes {
    match solved {
        Solved::Sat(_) => Sizes {
            steps: 0,
            literals: 0,
            antecedents: 0,
        },
        Solved::Unsat(log) => sizes_of(log),
        Solved::Spent(log) => sizes_of(log),
    }
}

fn verdict(solved: &Solved) -> &'static str {
    match solved {
        Solved::Sat(_) => "s SATISFIABLE\n",
        Solved::Unsat(_) => "s UNSATISFIABLE\n",
        Solved::Spent(_) => "s UNKNOWN\n",
    }
}

/// Puts the line of a count. Answers whether that could be done.
fn put_count<O: Sink>(alloc: Global, sizes: Sizes, out: &mut O) -> bool {
    let Sizes {
        steps,
        literals,
        antecedents,
    } = sizes;
    match format!(in alloc; "learned {steps} literals {literals} antecedents {antecedents}\n") {
        Ok(line) => out.put(alloc, line.as_bytes()).is_ok(),
        Err(_) => false,
    }
}

/// Puts what is told of an answer. Answers whether that could be done.
fn tell<O: Sink>(alloc: Global, told: Told, solved: &Solved, out: &mut O) -> bool {
    match told {
        Told::Verdict => out.put(alloc, verdict(solved).as_bytes()).is_ok(),
        Told::Count => put_count(alloc, learned(solved), out),
    }
}

/// The formula in the folder. Its text is let go.
fn formula_of<S: Store>(alloc: Global, store: &mut S) -> Option<Formula> {
    let text = held(alloc, store, "formula.cnf")?;
    read(alloc, text.as_slice())
}

/// What the solver says of the formula in the folder.
fn answer<S: Store>(alloc: Global, told: Told, store: &mut S) -> Option<Solved> {
    let formula = formula_of(alloc, store)?;
    solve(alloc, &formula, budget(told)).ok()
}

/// Solves the formula in the folder and puts the line. Answers whether that could be done.
fn done<S: Store, O: Sink>(alloc: Global, told: Told, store: &mut S, out: &mut O) -> bool {
    match answer(alloc, told, store) {
        Some(solved) => tell(alloc, told, &solved, out),
        None => false,
    }
}

fn main(rt: HostRuntime) -> ExitCode {
    let told = asked(&rt);
    let mut store = DirStore::new(&rt);
    let mut out = OutSink::new(rt.stdout());
    if done(rt.alloc(), told, &mut store, &mut out) {
        ExitCode::SUCCESS
    } else {
        ExitCode::FAILURE
    }
}
