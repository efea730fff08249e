//! Files of the system.

use super::*;
use eq_io::DirStore;
use std::fs;
use std::test::Fail;

const FOLDER_JOB: &[u8] =
    b"[gold]\nread_verilog eqy_test/gold.v\nprep -top t\n[gate]\nread_verilog eqy_test/gate.v\nprep -top t\n[strategy s]\nuse sat\ndepth 3\n";

const FOLDER_WORDS: &[&[u8]] = &[b"eqy_test/job.eqy"];

const FOLDER_PASSES: Run = Run {
    words: FOLDER_WORDS,
    files: &[],
    reads: &[],
    puts: &[],
    status: 0,
    output: PASS,
};

const FOLDER_FAILS: Run = Run {
    words: FOLDER_WORDS,
    files: &[],
    reads: &[],
    puts: &[],
    status: 2,
    output: FAIL,
};

/// Whether a run over files that a store was given ends so.
fn folder_runs_so<R: Threads + Sync, S: Store>(
    rt: &R,
    alloc: Global,
    store: &mut S,
    gate: &[u8],
    run: &Run,
) -> Result<bool, Memory> {
    let are_written = store.write(alloc, "eqy_test/job.eqy", FOLDER_JOB).is_ok()
        && store.write(alloc, "eqy_test/gold.v", AND).is_ok()
        && store.write(alloc, "eqy_test/gate.v", gate).is_ok();
    Ok(are_written && runs_over(rt, alloc, store, run)?)
}

#[test]
fn files_of_the_system_are_read(rt: HostRuntime) -> Result<(), Fail> {
    let mut store = DirStore::new(&rt);
    assert!(rt; folder_runs_so(&rt, rt.alloc(), &mut store, NOR, &FOLDER_PASSES)?);
    assert!(rt; folder_runs_so(&rt, rt.alloc(), &mut store, OR, &FOLDER_FAILS)?);
    fs::remove_dir_all(&rt, "eqy_test")?;
    Ok(())
}
