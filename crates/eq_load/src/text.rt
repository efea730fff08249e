//! The text of a file.

ghost use Rattle.std.specs.Prelude.{◌≡◌, ◌≤◌, length, IfOk, IfErr, IsErrOf, Some};
ghost use Rattle.eq_io.specs.Faults.{Rose};
ghost use Rattle.eq_io.specs.Files.{Files};
ghost use Rattle.eq_load.specs.Stops.{IfRefused};
ghost use Rattle.eq_load.specs.Texts.{HasText, IsUnread};

use crate::stop::Stop;
use eq_base::{Bytes, Memory};
use eq_io::{Got, Store, StoreErr};
use eq_report::Refusal;
use std::alloc::Global;

/// The most bytes of a file that is read.
pub const MOST_BYTES: u64 = 67_108_864;

/// The bytes of a file's name.
pub(crate) fn bytes_of(alloc: Global, name: &str) -> Result<Bytes, Memory>
    ensures { IfOk result (λ bytes. bytes ≡ name.now) }
{
    Bytes::from_slice(alloc, name.as_bytes())
}

/// A file that nothing has the name of.
fn absent(alloc: Global, name: &str) -> Stop
    ensures no_fault { result ≡ Stop.Fault → ⊥ }
    ensures refusal { IfRefused result (λ r. r ≡ Refusal.Absent name.now) }
{
    match bytes_of(alloc, name) {
        Ok(name) => Stop::Refused(Refusal::Absent { name }),
        Err(_) => Stop::Memory,
    }
}

/// A file that has too many bytes.
fn too_long(alloc: Global, name: &str) -> Stop
    ensures no_fault { result ≡ Stop.Fault → ⊥ }
    ensures refusal { IfRefused result (λ r. r ≡ Refusal.TooLong name.now) }
{
    match bytes_of(alloc, name) {
        Ok(name) => Stop::Refused(Refusal::TooLong { name }),
        Err(_) => Stop::Memory,
    }
}

/// The text of a file.
pub fn read_text<S: Store>(alloc: Global, store: &mut S, name: &str) -> Result<Bytes, Stop>
    ensures ok { IfOk result (λ text. (files : Files) → S.map store.old ≡ Some files →
        HasText files name.now text) }
    ensures fits { IfOk result (λ text. length text ≤ MOST_BYTES) }
    ensures refused { IfErr result (λ stop. IfRefused stop (λ r. (files : Files) →
        S.map store.old ≡ Some files → IsUnread files name.now r)) }
    ensures kept { S.map store.new ≡ S.map store.old }
    ensures later { S.faults store.old ≤ S.faults store.new }
    ensures cause { IsErrOf result Stop.Fault → Rose (S.faults store.old) (S.faults store.new) }
{
    match store.read(alloc, name, MOST_BYTES) {
        Ok(Got::Held(text)) => Ok(text),
        Ok(Got::Absent) => Err(absent(alloc, name)),
        Ok(Got::TooLong) => Err(too_long(alloc, name)),
        Err(StoreErr::Failed) => Err(Stop::Fault),
        Err(StoreErr::Memory) => Err(Stop::Memory),
    }
}
