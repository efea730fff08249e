//! The run over a store and a sink in memory, with the lines as a user sees them.

mod configurations;
mod designs;
mod folder;
mod runs;

use crate::run::eqy;
use eq_base::{Bytes, Items, Memory};
use eq_io::{MemSink, MemStore, NoGate, Store};
use std::alloc::{AllocError, Global};
use std::thread::Threads;

type Files = &'static [(&'static str, &'static [u8])];

const JOB: &[u8] =
    b"[gold]\nread_verilog gold.v\nprep -top t\n[gate]\nread_verilog gate.v\nprep -top t\n[strategy s]\nuse sat\ndepth 3\n";

const AND: &[u8] = b"module t(input a, input b, output y); assign y = a & b; endmodule";

const NOR: &[u8] = b"module t(input a, input b, output y); assign y = ~(~a | ~b); endmodule";

const OR: &[u8] = b"module t(input a, input b, output y); assign y = a | b; endmodule\n";

const OTHER_NAME: &[u8] = b"module t(input a, input c, output y); assign y = a & c; endmodule";

const OTHER_ORDER: &[u8] = b"module t(input b, input a, output y); assign y = a & b; endmodule";

const ONE_LESS: &[u8] = b"module t(input a, output y); assign y = a; endmodule";

const BROKEN: &[u8] = b"module t(a";

const TWELVE: &[u8] =
    b"module t(input a, input b, input c, input d, input e, input f, input g, input h, input i, input j, input k, input l, output y); assign y = a & b ^ c | l; endmodule";

const THIRTEEN: &[u8] =
    b"module t(input a, input b, input c, input d, input e, input f, input g, input h, input i, input j, input k, input l, input m, output y); assign y = m; endmodule";

const PASS: &[u8] =
    b"y: PROVED 1 by s\nproved 1, failed 0, unknown 0, skipped 0, conflicts 0\nPASS\n";

const FAIL: &[u8] =
    b"y: FAIL 1 by s\nproved 0, failed 1, unknown 0, skipped 0, conflicts 0\nFAIL\n";

const USAGE: &[u8] =
    b"eqy: usage: eqy [-j N] [-d DIR] [-r] [-x] [--json NAME] FILE | eqy gen SEED SIZE\n";

const PROVED: Files = &[("job.eqy", JOB), ("gold.v", AND), ("gate.v", NOR)];

const DIFFERENT: Files = &[("job.eqy", JOB), ("gold.v", AND), ("gate.v", OR)];

/// The words of a command line, the files, the reads and the puts that fail, and the status and the output of the run.
struct Run {
    words: &'static [&'static [u8]],
    files: Files,
    reads: &'static [u64],
    puts: &'static [u64],
    status: u8,
    output: &'static [u8],
}

const JOB_WORDS: &[&[u8]] = &[b"job.eqy"];

const PASSES: Run = Run {
    words: JOB_WORDS,
    files: &[],
    reads: &[],
    puts: &[],
    status: 0,
    output: PASS,
};

const NO_JOB: Run = Run {
    words: JOB_WORDS,
    files: &[],
    reads: &[],
    puts: &[],
    status: 16,
    output: b"eqy: job.eqy: NotYet\n",
};

const NO_GOLD: Run = Run {
    words: JOB_WORDS,
    files: &[],
    reads: &[],
    puts: &[],
    status: 16,
    output: b"eqy: gold.v: NotYet\n",
};

const NO_GATE: Run = Run {
    words: JOB_WORDS,
    files: &[],
    reads: &[],
    puts: &[],
    status: 16,
    output: b"eqy: gate.v: NotYet\n",
};

/// The words of a command line.
fn words_of(alloc: Global, words: &[&[u8]]) -> Result<Items<Bytes>, AllocError> {
    let mut all = Items::new(alloc);
    for word in words {
        all.push(Bytes::from_slice(alloc, word)?)?;
    }
    Ok(all)
}

/// A store of these files, some of whose reads fail.
fn store_of(alloc: Global, files: &[(&str, &[u8])], reads: &[u64]) -> Result<MemStore, Memory> {
    let mut store = MemStore::new(alloc, reads, &[])?;
    for (name, text) in files {
        store.insert(name, text)?;
    }
    Ok(store)
}

/// Whether a run over a store ends with this status and this output.
fn runs_over<R: Threads + Sync, S: Store>(
    rt: &R,
    alloc: Global,
    store: &mut S,
    run: &Run,
) -> Result<bool, Memory> {
    let words = words_of(alloc, run.words)?;
    let mut out = MemSink::new(alloc, run.puts)?;
    let status = eqy(rt, alloc, words.as_slice(), store, &mut out, &NoGate);
    Ok(status == run.status && out.written() == run.output)
}

/// Whether a run over these files, in place of its own, ends so.
fn runs_so<R: Threads + Sync>(
    rt: &R,
    alloc: Global,
    files: &[(&str, &[u8])],
    run: &Run,
) -> Result<bool, Memory> {
    let mut store = store_of(alloc, files, run.reads)?;
    runs_over(rt, alloc, &mut store, run)
}
