//! Code over any store and any sink, proved from the traits' clauses alone, and run over fakes that fail where they are told to.

ghost use Rattle.std.specs.Prelude.{◌≡◌, ◌⊎◌, ◌≢◌, ◌≤◌, List, Option, ℕ, Some, None, ◌++◌, codes};
ghost use Rattle.std.specs.Option.{option_map};
ghost use Rattle.std.specs.FinMap.{get, insert};
ghost use Rattle.eq_io.specs.Faults.{Rose};
ghost use Rattle.eq_io.specs.Files.{Files};

use eq_io::{Got, MemSink, MemStore, Memory, Sink, SinkErr, Store, StoreErr};
use std::alloc::Global;
use std::test::Fail;

const ABSENT: u8 = 16;

const FAULT: u8 = 17;

const NO_MEMORY: u8 = 18;

fn status_of_store(e: StoreErr) -> u8
    ensures fault { result ≡ 17 → e ≡ StoreErr.Failed }
    ensures only { (result ≡ 17) ⊎ (result ≡ 18) }
{
    match e {
        StoreErr::Failed => FAULT,
        StoreErr::Memory => NO_MEMORY,
    }
}

fn status_of_sink(e: SinkErr) -> u8
    ensures fault { result ≡ 17 → e ≡ SinkErr.Failed }
    ensures only { (result ≡ 17) ⊎ (result ≡ 18) }
{
    match e {
        SinkErr::Failed => FAULT,
        SinkErr::Memory => NO_MEMORY,
    }
}

// Puts a line and ends with a status.
fn tell<O: Sink>(alloc: Global, out: &mut O, line: &[u8], status: u8) -> u8
    requires { (status ≢ 17) × (status ≢ 18) }
    ensures fault { result ≡ 17 → Rose (O.faults out.old) (O.faults out.new) }
    ensures done { result ≡ status
        → O.written out.new ≡ option_map (λ bytes. bytes ++ line.now) (O.written out.old) }
    ensures only { (result ≡ 17) ⊎ (result ≡ 18) ⊎ (result ≡ status) }
    ensures later { O.faults out.old ≤ O.faults out.new }
{
    match out.put(alloc, line) {
        Ok(()) => status,
        Err(e) => status_of_sink(e),
    }
}

// Copies a file and says so. 15: it is too long, 16: it isn't there, 17: the store or the sink failed, 18: memory ran
// out.
fn copy<S: Store, O: Sink>(alloc: Global, store: &mut S, out: &mut O) -> u8
    ensures fault { result ≡ 17
        → Rose (S.faults store.old) (S.faults store.new) ⊎ Rose (O.faults out.old) (O.faults out.new) }
    ensures refusal { result ≡ 16 → (S.map store.new ≡ S.map store.old)
        × (O.written out.new ≡ option_map (λ bytes. bytes ++ codes "absent") (O.written out.old)) }
    ensures absent { result ≡ 16
        → (files : Files) → S.map store.old ≡ Some files → get files (codes "from") ≡ None }
    ensures copied { result ≡ 0 → (files : Files) → S.map store.old ≡ Some files
        → (bytes : List ℕ) × (get files (codes "from") ≡ Some bytes)
        × (S.map store.new ≡ Some (insert files (codes "to") bytes)) }
{
    let bytes = match store.read(alloc, "from", 1_000) {
        Ok(Got::Held(bytes)) => bytes,
        Ok(Got::TooLong) => return 15,
        Ok(Got::Absent) => return tell(alloc, out, b"absent", ABSENT),
        Err(e) => return status_of_store(e),
    };
    if let Err(e) = out.put(alloc, b"copying\n") {
        return status_of_sink(e);
    }
    if let Err(e) = store.write(alloc, "to", bytes.as_slice()) {
        return status_of_store(e);
    }
    tell(alloc, out, b"copied\n", 0)
}

// A run of `copy`: the file, the calls that fail, the status, the output and what is left under `to`.
struct Run {
    from: Option<&'static [u8]>,
    reads: &'static [u64],
    writes: &'static [u64],
    puts: &'static [u64],
    status: u8,
    output: &'static [u8],
    to: Option<&'static [u8]>,
}

const FROM: Option<&'static [u8]> = Some(b"12345");

const RUNS: [Run; 6] = [
    Run {
        from: FROM,
        reads: &[2],
        writes: &[2, 3],
        puts: &[3],
        status: 0,
        output: b"copying\ncopied\n",
        to: FROM,
    },
    Run {
        from: None,
        reads: &[],
        writes: &[],
        puts: &[],
        status: ABSENT,
        output: b"absent",
        to: None,
    },
    Run {
        from: FROM,
        reads: &[1],
        writes: &[],
        puts: &[],
        status: FAULT,
        output: b"",
        to: None,
    },
    Run {
        from: FROM,
        reads: &[],
        writes: &[],
        puts: &[1],
        status: FAULT,
        output: b"copy",
        to: None,
    },
    Run {
        from: FROM,
        reads: &[],
        writes: &[1],
        puts: &[],
        status: FAULT,
        output: b"copying\n",
        to: Some(b"12"),
    },
    Run {
        from: FROM,
        reads: &[],
        writes: &[],
        puts: &[2],
        status: FAULT,
        output: b"copying\ncop",
        to: FROM,
    },
];

/// The store of a run, before it.
fn store_of(alloc: Global, run: &Run) -> Result<MemStore, Memory> {
    let mut store = MemStore::new(alloc, run.reads, run.writes)?;
    if let Some(bytes) = run.from {
        store.insert("from", bytes)?;
    }
    Ok(store)
}

/// Whether a run ends as it should.
fn ends_so(alloc: Global, run: &Run) -> Result<bool, Memory> {
    let mut store = store_of(alloc, run)?;
    let mut out = MemSink::new(alloc, run.puts)?;
    let status = copy(alloc, &mut store, &mut out);
    Ok(status == run.status && out.written() == run.output && store.get("to") == run.to)
}

/// The first run that ends otherwise.
fn first_other(alloc: Global) -> Result<Option<usize>, Memory> {
    for (row, run) in RUNS.iter().enumerate() {
        if !ends_so(alloc, run)? {
            return Ok(Some(row));
        }
    }
    Ok(None)
}

#[test]
fn fakes_fail_where_they_are_told_to(rt: HostRuntime) -> Result<(), Fail> {
    assert_eq!(rt; first_other(rt.alloc())?, None);
    Ok(())
}
