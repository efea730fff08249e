//! Elaborates `netlist.v` of its folder, with the top `t`, so that a script can time the proved elaboration. It is no part of
//! EQY.
//!
//! It puts one line: `bits B words W cost C` of the netlist, or `refused: KIND`, behind which stands the name or the number
//! that is told. `Text` is the kind where the text isn't in the grammar. The status is 0 where a line could be put.
#![tactic(auto)]

use eq_base::{Bytes, Memory};
use eq_elab::{ElabErr, ElabKind};
use eq_io::{DirStore, Got, OutSink, Sink, Store};
use eq_net::{Name, Net};
use std::alloc::Global;
use std::process::ExitCode;
use test_designs::{Fault, netlist_of};

/// The most bytes of a file.
const MOST: u64 = 67_108_864;

/// The bytes of the netlist's file.
fn held<S: Store>(alloc: Global, store: &mut S) -> Option<Bytes> {
    match store.read(alloc, "netlist.v", MOST) {
        Ok(Got::Held(bytes)) => Some(bytes),
        _ => None,
    }
}

fn word_of(kind: ElabKind) -> &'static str {
    match kind {
        ElabKind::DuplicateModule => "DuplicateModule",
        ElabKind::NoTop => "NoTop",
        ElabKind::UnknownModule => "UnknownModule",
        ElabKind::Recursive => "Recursive",
        ElabKind::DuplicateName => "DuplicateName",
        ElabKind::UnknownName => "UnknownName",
        ElabKind::BadRange => "BadRange",
        ElabKind::BadTarget => "BadTarget",
        ElabKind::BadConnection => "BadConnection",
        ElabKind::PathClash => "PathClash",
        ElabKind::TwoDrivers => "TwoDrivers",
        ElabKind::Undriven => "Undriven",
        ElabKind::NoInit => "NoInit",
        ElabKind::TwoClocks => "TwoClocks",
        ElabKind::ClockAsData => "ClockAsData",
    }
}

/// The line of a netlist.
fn sizes(alloc: Global, net: &Net) -> Result<Vec<u8>, Memory> {
    let bits = net.bits();
    let words = net.words.len();
    let cost = net.cost();
    let line = format!(in alloc; "bits {bits} words {words} cost {cost}\n")?;
    Vec::from_slice(alloc, line.as_bytes())
}

/// The line of a refusal that tells a name.
fn named(alloc: Global, kind: &str, name: &Name) -> Result<Vec<u8>, Memory> {
    let mut line = Vec::from_slice(alloc, b"refused: ")?;
    line.extend_from_slice(kind.as_bytes())?;
    line.extend_from_slice(b" ")?;
    line.extend_from_slice(name.bytes())?;
    line.extend_from_slice(b"\n")?;
    Ok(line)
}

/// The line of a refusal that tells a number.
fn numbered(alloc: Global, number: u64) -> Result<Vec<u8>, Memory> {
    let line = format!(in alloc; "refused: TooLarge {number}\n")?;
    Vec::from_slice(alloc, line.as_bytes())
}

/// The line of a refusal; none for want of memory.
fn refusal(alloc: Global, error: &ElabErr) -> Result<Option<Vec<u8>>, Memory> {
    match error {
        ElabErr::At { kind, name } => Ok(Some(named(alloc, word_of(*kind), name)?)),
        ElabErr::Loop { name, .. } => Ok(Some(named(alloc, "Loop", name)?)),
        ElabErr::TooLarge { number } => Ok(Some(numbered(alloc, *number)?)),
        ElabErr::Memory => Ok(None),
    }
}

/// The line of an answer; none for want of memory.
fn line(alloc: Global, answer: &Result<Net, Fault>) -> Result<Option<Vec<u8>>, Memory> {
    match answer {
        Ok(net) => Ok(Some(sizes(alloc, net)?)),
        Err(Fault::Text) => Ok(Some(Vec::from_slice(alloc, b"refused: Text\n")?)),
        Err(Fault::Refused(error)) => refusal(alloc, error),
        Err(Fault::Memory) => Ok(None),
    }
}

/// The line of a text.
fn told(alloc: Global, text: &[u8]) -> Option<Vec<u8>> {
    let texts = [text];
    let answer = netlist_of(alloc, &texts, b"t");
    line(alloc, &answer).ok()?
}

/// Elaborates the file in the folder and puts the line. Answers whether that could be done.
fn done<S: Store, O: Sink>(alloc: Global, store: &mut S, out: &mut O) -> bool {
    match held(alloc, store) {
        Some(text) => match told(alloc, text.as_slice()) {
            Some(line) => out.put(alloc, &line).is_ok(),
            None => false,
        },
        None => false,
    }
}

fn main(rt: HostRuntime) -> ExitCode {
    let mut store = DirStore::new(&rt);
    let mut out = OutSink::new(rt.stdout());
    if done(rt.alloc(), &mut store, &mut out) {
        ExitCode::SUCCESS
    } else {
        ExitCode::FAILURE
    }
}
