//! A store in memory, whose reads and writes fail where a test says so.
ghost use Rattle.std.specs.Prelude.{◌≡◌, ◌↔◌, ◌/◌, ◌≤◌, Some, take, length, true, false, IfOk, OnOk, OnErr, IsErrOf, option_copied, if◌then◌else◌};
ghost use Rattle.std.specs.FinMap.{get, insert};
ghost use Rattle.eq_io.specs.Files.{Answers, IsWithin};
ghost use Rattle.eq_io.specs.Faults.{one_more};
ghost use Rattle.eq_io.specs.Fakes.{files_of, no_files, next_call, next_fails};

use crate::call_plan::CallPlan;
use crate::{Got, Store, StoreErr};
use eq_base::{Bytes, Memory};
use std::alloc::Global;
use std::collections::BTreeMap;
use std::marker::Model;

/// Keeps bytes under names. Reads and writes are each counted from 1.
#[derive(Drop)]
pub struct MemStore {
    alloc: Global,
    files: BTreeMap<String, Bytes>,
    reads: CallPlan,
    writes: CallPlan,
    faults: u64,
}

impl Model for MemStore {
    ghost use Rattle.eq_io.specs.Fakes.{FilesInMemory, files_code, files_of};

    ghost Value = { FilesInMemory };

    ghost coded = { files_code };

    ghost view = { λ s. record {
      files = files_of s.files.entries;
      reads = s.reads;
      writes = s.writes;
      faults = s.faults;
    } };
}

// The bytes under the name.
fn find_file<'a>(files: &'a BTreeMap<String, Bytes>, name: &str) -> Option<&'a [u8]>
    ensures { option_copied result ≡ get (files_of files.now.entries) name.now }
{
    match files.get(name) {
        Some(bytes) => Some(bytes.as_slice()),
        None => None,
    }
}

// What a read answers where the name holds this.
fn answer(alloc: Global, held: Option<&[u8]>, most: u64) -> Result<Got, Memory>
    ensures answer { IfOk result (Answers most (option_copied held.entry)) }
    ensures within { IfOk result (IsWithin most) }
{
    match held {
        None => Ok(Got::Absent),
        Some(bytes) if bytes.len() as u64 > most => Ok(Got::TooLong),
        Some(bytes) => Ok(Got::Held(Bytes::from_slice(alloc, bytes)?)),
    }
}

// Puts the bytes under the name, in place of those that are there.
fn put_file(
    alloc: Global,
    files: &mut BTreeMap<String, Bytes>,
    name: &str,
    bytes: &[u8],
) -> Result<(), Memory>
    ensures ok { OnOk result
        (files_of files.new.entries ≡ insert (files_of files.old.entries) name.now bytes.now) }
    ensures err { OnErr result (files.new.entries ≡ files.old.entries) }
{
    let key = String::from_str(alloc, name)?;
    let value = Bytes::from_slice(alloc, bytes)?;
    files.insert(key, value)?;
    Ok(())
}

impl MemStore {
    /// An empty store whose reads and writes with these numbers fail.
    pub fn new(
        alloc: Global,
        failing_reads: &[u64],
        failing_writes: &[u64],
    ) -> Result<MemStore, Memory>
        ensures { IfOk result (λ store. store ≡ no_files failing_reads.now failing_writes.now) }
    {
        let reads = CallPlan::new(alloc, failing_reads)?;
        let writes = CallPlan::new(alloc, failing_writes)?;
        Ok(MemStore {
            alloc,
            files: BTreeMap::new(alloc),
            reads,
            writes,
            faults: 0,
        })
    }

    /// Puts the bytes under the name. It counts as no call, and does not fail as a write may.
    pub fn insert(&mut self, name: &str, bytes: &[u8]) -> Result<(), Memory>
        ensures ok { OnOk result
            (self.new ≡ record self.old { files = insert self.old.files name.now bytes.now }) }
        ensures err { OnErr result (self.new ≡ self.old) }
    {
        put_file(self.alloc, &mut self.files, name, bytes)
    }

    /// The bytes under the name. It counts as no call.
    pub fn get(&self, name: &str) -> Option<&[u8]>
        ensures { option_copied result ≡ get self.now.files name.now }
    {
        find_file(&self.files, name)
    }

    // Counts a fault, and gives the error that goes with it.
    fn fault(&mut self) -> StoreErr
        ensures error { result ≡ StoreErr.Failed }
        ensures counted { self.new ≡ record self.old { faults = one_more self.old.faults } }
        ensures later { self.old.faults ≤ self.new.faults }
    {
        self.faults = self.faults.saturating_add(1);
        StoreErr::Failed
    }
}

impl Store for MemStore {
    ghost map = { λ s. Some s.files };

    ghost faults = { λ s. s.faults };

    fn read(&mut self, alloc: Global, name: &str, most: u64) -> Result<Got, StoreErr>
        ensures within { IfOk result (IsWithin most) }
        ensures answer { IfOk result (Answers most (get self.old.files name.now)) }
        ensures failed { IsErrOf result StoreErr.Failed ↔ (next_fails self.old.reads ≡ true) }
        ensures after { self.new ≡ record self.old {
          reads = next_call self.old.reads;
          faults = (if next_fails self.old.reads then one_more self.old.faults else self.old.faults);
        } }
        ensures later { self.old.faults ≤ self.new.faults }
    {
        if self.reads.next() {
            return Err(self.fault());
        }
        Ok(answer(alloc, find_file(&self.files, name), most)?)
    }

    /// A write that fails leaves the first half of the bytes, rounded down, under the name.
    fn write(&mut self, _alloc: Global, name: &str, bytes: &[u8]) -> Result<(), StoreErr>
        ensures ok { OnOk result (self.new ≡ record self.old {
          files = insert self.old.files name.now bytes.now;
          writes = next_call self.old.writes;
        }) }
        ensures failed { IsErrOf result StoreErr.Failed → self.new ≡ record self.old {
          files = insert self.old.files name.now (take (length bytes.now / 2) bytes.now);
          writes = next_call self.old.writes;
          faults = one_more self.old.faults;
        } }
        ensures memory { IsErrOf result StoreErr.Memory
            → self.new ≡ record self.old { writes = next_call self.old.writes } }
        ensures no_fault { OnOk result (next_fails self.old.writes ≡ false) }
        ensures fault { IsErrOf result StoreErr.Failed → next_fails self.old.writes ≡ true }
        ensures later { self.old.faults ≤ self.new.faults }
    {
        if self.writes.next() {
            put_file(self.alloc, &mut self.files, name, &bytes[..bytes.len() / 2])?;
            return Err(self.fault());
        }
        put_file(self.alloc, &mut self.files, name, bytes)?;
        Ok(())
    }
}
