//! What is read from the store, and looked at before anything more is read.

ghost use Rattle.std.specs.Prelude.{◌≡◌, ◌≤◌, Some, IfOk, IfErr, IsErrOf};
ghost use Rattle.eq_io.specs.Faults.{Rose};
ghost use Rattle.eq_io.specs.Files.{Files};
ghost use Rattle.eq_first.specs.Well.{IsWellFormed};
ghost use Rattle.eqy.specs.Command.{FileRefused, HasJob, HasModule, HasText, IsSomeJob, IsSomeModule, TextRefused};
ghost use Rattle.eqy.specs.Stops.{IfRefused};

use crate::refusal::Refusal;
use crate::stop::Stop;
use eq_base::{Bytes, Memory};
use eq_first::{Job, Module, Side, read_job, read_module};
use eq_io::{Got, Store, StoreErr};
use eq_names::Name;
use std::alloc::Global;

/// The most bytes of a file that is read.
const MOST_BYTES: u64 = 67_108_864;

fn bytes_of(alloc: Global, text: &[u8]) -> Result<Bytes, Memory>
    ensures { IfOk result (λ bytes. bytes ≡ text.now) }
{
    Bytes::from_slice(alloc, text)
}

/// A file that nothing has the name of.
fn absent(alloc: Global, name: &str) -> Stop
    ensures no_fault { result ≡ Stop.Fault → ⊥ }
    ensures refusal { IfRefused result (λ r. r ≡ Refusal.Absent name.now) }
{
    match bytes_of(alloc, name.as_bytes()) {
        Ok(name) => Stop::Refused(Refusal::Absent(name)),
        Err(_) => Stop::Memory,
    }
}

/// A file that is too long, or in no form that is read yet.
fn not_yet(alloc: Global, name: &str) -> Stop
    ensures no_fault { result ≡ Stop.Fault → ⊥ }
    ensures refusal { IfRefused result (λ r. r ≡ Refusal.NotYet name.now) }
{
    match bytes_of(alloc, name.as_bytes()) {
        Ok(name) => Stop::Refused(Refusal::NotYet(name)),
        Err(_) => Stop::Memory,
    }
}

/// The text of a file.
fn load_text<S: Store>(alloc: Global, store: &mut S, name: &str) -> Result<Bytes, Stop>
    ensures ok { IfOk result (λ text. (files : Files) → S.map store.old ≡ Some files → HasText files name.now text) }
    ensures refused { IfErr result (λ stop. IfRefused stop (λ r. (files : Files) → S.map store.old ≡ Some files → TextRefused files name.now r)) }
    ensures kept { S.map store.new ≡ S.map store.old }
    ensures later { S.faults store.old ≤ S.faults store.new }
    ensures cause { IsErrOf result Stop.Fault → Rose (S.faults store.old) (S.faults store.new) }
{
    match store.read(alloc, name, MOST_BYTES) {
        Ok(Got::Held(text)) => Ok(text),
        Ok(Got::Absent) => Err(absent(alloc, name)),
        Ok(Got::TooLong) => Err(not_yet(alloc, name)),
        Err(StoreErr::Failed) => Err(Stop::Fault),
        Err(StoreErr::Memory) => Err(Stop::Memory),
    }
}

/// The configuration of this name.
pub fn load_job<S: Store>(alloc: Global, store: &mut S, name: &str) -> Result<Job, Stop>
    ensures ok { IfOk result (λ job. (files : Files) → S.map store.old ≡ Some files → HasJob files name.now job) }
    ensures refused { IfErr result (λ stop. IfRefused stop (λ r. (files : Files) → S.map store.old ≡ Some files → FileRefused files name.now IsSomeJob r)) }
    ensures kept { S.map store.new ≡ S.map store.old }
    ensures later { S.faults store.old ≤ S.faults store.new }
    ensures cause { IsErrOf result Stop.Fault → Rose (S.faults store.old) (S.faults store.new) }
{
    let text = match load_text(alloc, store, name) {
        Ok(text) => text,
        Err(stop) => return Err(stop),
    };
    match read_job(alloc, text.as_slice()) {
        Ok(Some(job)) => Ok(job),
        Ok(None) => Err(not_yet(alloc, name)),
        Err(_) => Err(Stop::Memory),
    }
}

/// A name as text.
fn text_of(name: &Name) -> &str
    ensures { result.now ≡ name.now }
{
    match str::from_utf8(name.bytes()) {
        Ok(text) => text,
        Err(_) => unreachable!(),
    }
}

/// The design of a side.
pub fn load_module<S: Store>(alloc: Global, store: &mut S, side: &Side) -> Result<Module, Stop>
    ensures ok { IfOk result (λ design. (files : Files) → S.map store.old ≡ Some files → HasModule files side.now design) }
    ensures well { IfOk result IsWellFormed }
    ensures refused { IfErr result (λ stop. IfRefused stop (λ r. (files : Files) → S.map store.old ≡ Some files →
        FileRefused files side.now.file (IsSomeModule side.now.top) r)) }
    ensures kept { S.map store.new ≡ S.map store.old }
    ensures later { S.faults store.old ≤ S.faults store.new }
    ensures cause { IsErrOf result Stop.Fault → Rose (S.faults store.old) (S.faults store.new) }
{
    let file = text_of(&side.file);
    let text = match load_text(alloc, store, file) {
        Ok(text) => text,
        Err(stop) => return Err(stop),
    };
    match read_module(alloc, text.as_slice(), side.top.bytes()) {
        Ok(Some(design)) => Ok(design),
        Ok(None) => Err(not_yet(alloc, file)),
        Err(_) => Err(Stop::Memory),
    }
}
