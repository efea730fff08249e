//! EQY: whether two designs give equal outputs in every cycle of every input sequence.
//!
//! One call, `eqy` in `run`, does all that the program does, over any store, sink and gate; its contract has the
//! promise. `main` gives it the words, the files, the standard output and an open gate. In the order of the data:
//!
//! - `arguments`: the words of the command line, as bytes.
//! - `words`: the one word that names a configuration (`IsCommand`).
//! - `load`: each file is read from the store and looked at before the next one (`HasJob`, `HasModule`, `FileRefused`).
//! - `pair`: equal ports, and at most 12 inputs (`PairRefused`).
//! - `prepare`: from the words to a task, or to the first refusal (`IsTask`, `IsRefused`).
//! - `netlist`: the net of a design (`IsNetlist`).
//! - `listing`: both nets are stepped through all values of the inputs (`differ`).
//! - `report`, `refusal`, `stop`: the lines of a verdict and of a refusal, and why a run ends without a verdict.
//! - `run`: `eqy`, from the words to the status. 0 says that the designs are equivalent, and 2 that they are not.
#![tactic(auto)]

mod arguments;
mod listing;
mod load;
mod netlist;
mod pair;
mod prepare;
mod refusal;
mod report;
mod run;
mod stop;
#[cfg(test)]
mod tests;
mod words;

use arguments::{NoWords, words};
use eq_io::{DirStore, NoGate, OutSink};
use run::eqy;
use std::process::ExitCode;

/// Runs on the files and the standard output of the system.
fn main(rt: HostRuntime) -> ExitCode {
    let alloc = rt.alloc();
    let status = match words(&rt) {
        Ok(words) => {
            let mut store = DirStore::new(&rt);
            let mut out = OutSink::new(rt.stdout());
            eqy(&rt, alloc, words.as_slice(), &mut store, &mut out, &NoGate)
        }
        Err(NoWords::Fault) => 17,
        Err(NoWords::Memory) => 18,
    };
    ExitCode::from(status)
}
