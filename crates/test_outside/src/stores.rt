//! What no proof covers of stores: that files are reached, and their limits.

use eq_io::{DirStore, Got, MemStore, Memory, Store};
use std::alloc::Global;
use std::fs;
use std::test::Fail;

// What a read is to answer.
#[derive(Clone, Copy)]
enum Want {
    Absent,
    TooLong,
    Held(&'static [u8]),
}

// Reads a name, and says whether the answer is the one that is wanted.
fn reads<S: Store>(alloc: Global, store: &mut S, name: &str, most: u64, want: &Want) -> bool {
    match (store.read(alloc, name, most), want) {
        (Ok(Got::Absent), Want::Absent) | (Ok(Got::TooLong), Want::TooLong) => true,
        (Ok(Got::Held(bytes)), Want::Held(wanted)) => bytes.as_slice() == *wanted,
        _ => false,
    }
}

static LONG: [u8; 20_000] = [7; 20_000];

// The reads of a store whose one file has the name and five bytes.
const READS: [(&str, u64, Want); 6] = [
    ("eq_io_test/new/0000", 5, Want::Held(b"bytes")),
    ("eq_io_test/new/0000", 4, Want::TooLong),
    ("eq_io_test/new/0000", 67_108_864, Want::Held(b"bytes")),
    ("eq_io_test/new/0000", 0, Want::TooLong),
    ("eq_io_test/new/0001", 5, Want::Absent),
    ("eq_io_test/old/0000", 5, Want::Absent),
];

// The first row that is read otherwise.
fn first_wrong<S: Store>(alloc: Global, store: &mut S) -> Option<usize> {
    for (row, (name, most, want)) in READS.iter().enumerate() {
        if !reads(alloc, store, name, *most, want) {
            return Some(row);
        }
    }
    None
}

/// Whether a store in memory reads back.
fn memory_reads_back(alloc: Global) -> Result<bool, Memory> {
    let mut store = MemStore::new(alloc, &[], &[])?;
    Ok(reads_back(alloc, &mut store))
}

#[test]
fn a_store_in_memory_reads_back(rt: HostRuntime) -> Result<(), Fail> {
    assert!(rt; memory_reads_back(rt.alloc())?);
    Ok(())
}

/// Whether a store takes a text, and a shorter one in its place, which is read back.
fn reads_back<S: Store>(alloc: Global, store: &mut S) -> bool {
    let name = "eq_io_test/new/0000";
    store
        .write(alloc, name, b"an older and longer text")
        .is_ok()
        && store.write(alloc, name, b"bytes").is_ok()
        && first_wrong(alloc, store).is_none()
}

#[test]
fn a_store_of_files_reads_back(rt: HostRuntime) -> Result<(), Fail> {
    let _ = fs::remove_dir_all(&rt, "eq_io_test");
    let mut store = DirStore::new(&rt);
    assert!(rt; reads_back(rt.alloc(), &mut store));
    fs::remove_dir_all(&rt, "eq_io_test")?;
    Ok(())
}

// Whether a long file and one whose length the system doesn't say are read, and a folder and a file below a file
// are faults.
fn meets_limits<S: Store>(alloc: Global, store: &mut S) -> bool {
    store.write(alloc, "eq_io_limits/long", &LONG).is_ok()
        && reads(
            alloc,
            store,
            "eq_io_limits/long",
            20_000,
            &Want::Held(&LONG),
        )
        && reads(alloc, store, "/dev/zero", 20_000, &Want::TooLong)
        && store.read(alloc, "eq_io_limits", u64::MAX).is_err()
        && store.write(alloc, "eq_io_limits/long/0000", b"").is_err()
        && store.read(alloc, "eq_io_limits/long/0000", 0).is_err()
}

#[test]
fn a_store_of_files_has_limits(rt: HostRuntime) -> Result<(), Fail> {
    let mut store = DirStore::new(&rt);
    assert!(rt; meets_limits(rt.alloc(), &mut store));
    fs::remove_dir_all(&rt, "eq_io_limits")?;
    Ok(())
}
