//! A store over the files of the system.
ghost use Rattle.std.specs.Prelude.{◌≡◌, ◌≢◌, ◌≤◌, IfOk, OnOk, IsErrOf, None};
ghost use Rattle.std.specs.IoError.{error_kind};
ghost use Rattle.eq_io.specs.Faults.{one_more};
ghost use Rattle.eq_io.specs.Files.{IsWithin};

use crate::{Got, Store, StoreErr};
use eq_base::Bytes;
use std::alloc::Global;
use std::fs::OpenFile;
use std::io::{ErrorKind, Read};
use std::marker::Model;
use std::path::Path;
use std::rt::Files;
use std::{fs, io};

// How many bytes are read at once.
const CHUNK: usize = 8192;

/// Reads and writes files, whose names are paths. It tells nothing of what they hold. Every error of the system is a
/// fault, except that a file which isn't found is absent.
#[derive(Drop)]
pub struct DirStore<R> {
    rt: R,
    faults: u64,
}

impl<R> Model for DirStore<R> {
    ghost use Rattle.eq_io.specs.Counted.{Counted, counted_code};

    ghost Value = { Counted R };

    ghost coded = { counted_code R.code };

    ghost view = { λ s. record { inner = s.rt; faults = s.faults } };
}

// The rest of the reader, held only where it is at most `most` bytes.
fn read_within<F: Read>(alloc: Global, file: &mut F, most: u64) -> Result<Got, StoreErr>
    ensures { IfOk result (IsWithin most) }
{
    let mut bytes = Vec::new(alloc);
    let mut chunk = [0u8; CHUNK];
    for _ in 0..u64::MAX {
        match file.read(&mut chunk) {
            Ok(0) => return Ok(Got::Held(Bytes::from_vec(bytes))),
            Ok(n) if n as u64 > most - bytes.len() as u64 => return Ok(Got::TooLong),
            Ok(n) => bytes.extend_from_slice(&chunk[..n])?,
            Err(e) if e.kind() == ErrorKind::Interrupted => {}
            Err(_) => return Err(StoreErr::Failed),
        }
    }
    Err(StoreErr::Failed)
}

// What a read answers of a file that can't be opened.
fn answer_unopened(e: &io::Error) -> Result<Got, StoreErr>
    ensures absent { error_kind e.now ≡ ErrorKind.NotFound → result ≡ Ok Got.Absent }
    ensures fault { error_kind e.now ≢ ErrorKind.NotFound → result ≡ Err StoreErr.Failed }
{
    match e.kind() {
        ErrorKind::NotFound => Ok(Got::Absent),
        _ => Err(StoreErr::Failed),
    }
}

fn read_file<R: Files>(rt: &R, alloc: Global, name: &str, most: u64) -> Result<Got, StoreErr>
    ensures { IfOk result (IsWithin most) }
{
    let mut file = match fs::open(rt, name) {
        Ok(file) => file,
        Err(e) => return answer_unopened(&e),
    };
    match file.metadata() {
        Ok(metadata) if metadata.len() > most => Ok(Got::TooLong),
        Ok(_) => read_within(alloc, &mut file, most),
        Err(_) => Err(StoreErr::Failed),
    }
}

fn write_in_new_folder<R: Files>(rt: &R, name: &str, bytes: &[u8]) -> io::Result<()> {
    if let Some(folder) = Path::new(name).parent() {
        fs::create_dir_all(rt, folder)?;
    }
    fs::write(rt, name, bytes)
}

fn write_file<R: Files>(rt: &R, name: &str, bytes: &[u8]) -> Result<(), StoreErr>
    ensures { IsErrOf result StoreErr.Memory → ⊥ }
{
    let done = match fs::write(rt, name, bytes) {
        Err(e) if e.kind() == ErrorKind::NotFound => write_in_new_folder(rt, name, bytes),
        done => done,
    };
    match done {
        Ok(()) => Ok(()),
        Err(_) => Err(StoreErr::Failed),
    }
}

impl<R: Files + Drop> DirStore<R> {
    pub fn new(rt: R) -> DirStore<R>
        ensures { result ≡ record { inner = rt; faults = 0 } }
    {
        DirStore { rt, faults: 0 }
    }

    // Counts a fault where the call failed.
    fn note<T>(&mut self, outcome: &Result<T, StoreErr>)
        ensures failed { IsErrOf outcome.now StoreErr.Failed
            → self.new ≡ record self.old { faults = one_more self.old.faults } }
        ensures memory { IsErrOf outcome.now StoreErr.Memory → self.new ≡ self.old }
        ensures ok { OnOk outcome.now (self.new ≡ self.old) }
        ensures later { self.old.faults ≤ self.new.faults }
    {
        if let Err(StoreErr::Failed) = outcome {
            self.faults = self.faults.saturating_add(1);
        }
    }
}

impl<R: Files + Drop> Store for DirStore<R> {
    ghost map = { λ _. None };

    ghost faults = { λ s. s.faults };

    fn read(&mut self, alloc: Global, name: &str, most: u64) -> Result<Got, StoreErr>
        ensures within { IfOk result (IsWithin most) }
        ensures failed { IsErrOf result StoreErr.Failed
            → self.new ≡ record self.old { faults = one_more self.old.faults } }
        ensures memory { IsErrOf result StoreErr.Memory → self.new ≡ self.old }
        ensures ok { OnOk result (self.new ≡ self.old) }
        ensures later { self.old.faults ≤ self.new.faults }
    {
        let got = read_file(&self.rt, alloc, name, most);
        self.note(&got);
        got
    }

    fn write(&mut self, _alloc: Global, name: &str, bytes: &[u8]) -> Result<(), StoreErr>
        ensures failed { IsErrOf result StoreErr.Failed
            → self.new ≡ record self.old { faults = one_more self.old.faults } }
        ensures only { IsErrOf result StoreErr.Memory → ⊥ }
        ensures ok { OnOk result (self.new ≡ self.old) }
        ensures later { self.old.faults ≤ self.new.faults }
    {
        let done = write_file(&self.rt, name, bytes);
        self.note(&done);
        done
    }
}
