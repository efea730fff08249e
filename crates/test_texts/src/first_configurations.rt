//! Configurations of the first form.

use crate::reading::{between, times};
use eq_first::{Job, read_job};
use std::alloc::{AllocError, Global};
use std::test::Fail;

/// The nine lines of a configuration.
static LINES: [&str; 9] = [
    "[gold]\n",
    "read_verilog gold.v\n",
    "prep -top t\n",
    "[gate]\n",
    "read_verilog gate.v\n",
    "prep -top u\n",
    "[strategy s]\n",
    "use sat\n",
    "depth 3\n",
];

/// The configuration with another line in one place.
fn configuration(alloc: Global, place: usize, other: &str) -> Result<String, AllocError> {
    let mut text = String::new(alloc);
    for (at, line) in LINES.iter().enumerate() {
        text.push_str(if at == place { other } else { *line })?;
    }
    Ok(text)
}

/// Whether a job has these names and this depth.
fn is_job(job: &Job, names: [&[u8]; 5], depth: u32) -> bool {
    let found = [
        job.gold.file.bytes(),
        job.gold.top.bytes(),
        job.gate.file.bytes(),
        job.gate.top.bytes(),
        job.strategy.bytes(),
    ];
    found == names && job.depth == depth
}

#[test]
fn the_nine_lines_are_read(rt: HostRuntime) -> Result<(), Fail> {
    let text = configuration(rt.alloc(), 9, "")?;
    let job = read_job(rt.alloc(), text.as_bytes())?;
    let names: [&[u8]; 5] = [b"gold.v", b"t", b"gate.v", b"u", b"s"];
    assert!(rt; job.is_some_and(|job| is_job(&job, names, 3)));
    Ok(())
}

/// A place, the line that stands there, and whether the text is then a configuration.
static LINE_CASES: [(usize, &str, bool); 66] = [
    (0, "", false),
    (0, "[gold] \n", false),
    (0, "[gold]\r\n", false),
    (0, "[ gold]\n", false),
    (0, " [gold]\n", false),
    (0, "[gate]\n", false),
    (0, "\n[gold]\n", false),
    (1, "", false),
    (1, "read_verilog  gold.v\n", false),
    (1, "read_verilog gold.v \n", false),
    (1, "read_verilog gold.v\r\n", false),
    (1, "read_verilog \n", false),
    (1, "read_verilog\n", false),
    (1, "read_verilog a b\n", false),
    (1, "read_verilog -v\n", false),
    (1, "read_verilog a\tb\n", false),
    (1, "read_verilog \u{e9}\n", false),
    (1, "read_verilog a-\n", true),
    (1, "read_verilog [gold]\n", true),
    (2, "", false),
    (2, "prep  -top t\n", false),
    (2, "prep -top  t\n", false),
    (2, "prep -top t \n", false),
    (2, "prep -top t\r\n", false),
    (2, "prep -top -t\n", true),
    (3, "", false),
    (3, "[gate] \n", false),
    (3, "[gate]\r\n", false),
    (3, "[gate ]\n", false),
    (4, "", false),
    (4, "read_verilog  gate.v\n", false),
    (4, "read_verilog gate.v \n", false),
    (4, "read_verilog gate.v\r\n", false),
    (4, "read_verilog -\n", false),
    (5, "", false),
    (5, "prep -top  u\n", false),
    (5, "prep -top u \n", false),
    (5, "prep -top u\r\n", false),
    (6, "", false),
    (6, "[strategy  s]\n", false),
    (6, "[strategy s ]\n", false),
    (6, "[strategy s] \n", false),
    (6, "[strategy s]\r\n", false),
    (6, "[strategy ]\n", false),
    (6, "[strategy s.t]\n", false),
    (6, "[strategy s]]\n", false),
    (6, "[strategy -_aZ09]\n", true),
    (7, "", false),
    (7, "use  sat\n", false),
    (7, "use sat \n", false),
    (7, "use sat\r\n", false),
    (8, "", false),
    (8, "depth  3\n", false),
    (8, "depth 3 \n", false),
    (8, "depth 3\r\n", false),
    (8, "depth 3", false),
    (8, "depth 3\n\n", false),
    (8, "depth \n", false),
    (8, "depth 0\n", false),
    (8, "depth 01\n", false),
    (8, "depth 1\n", true),
    (8, "depth 10\n", true),
    (8, "depth 64\n", true),
    (8, "depth 65\n", false),
    (8, "depth 100\n", false),
    (8, "depth +3\n", false),
];

/// Whether the configuration with another line in one place is read.
fn is_taken(alloc: Global, place: usize, line: &str) -> Result<bool, AllocError> {
    let text = configuration(alloc, place, line)?;
    Ok(read_job(alloc, text.as_bytes())?.is_some())
}

/// The first line that is taken and shouldn't be, or the other way round.
fn first_wrong(alloc: Global) -> Result<Option<usize>, AllocError> {
    for (row, (place, line, taken)) in LINE_CASES.iter().enumerate() {
        if is_taken(alloc, *place, line)? != *taken {
            return Ok(Some(row));
        }
    }
    Ok(None)
}

#[test]
fn lines_are_taken_and_refused(rt: HostRuntime) -> Result<(), Fail> {
    assert_eq!(rt; first_wrong(rt.alloc())?, None);
    assert!(rt; read_job(rt.alloc(), b"")?.is_none());
    Ok(())
}

/// A place, and what stands there before and behind a name.
const NAMED: [(usize, &str, &str); 3] = [
    (1, "read_verilog ", "\n"),
    (5, "prep -top ", "\n"),
    (6, "[strategy ", "]\n"),
];

/// Whether a line with this name is taken.
fn name_is_taken(alloc: Global, at: usize, name: &str) -> Result<bool, AllocError> {
    let Some((place, before, behind)) = NAMED.get(at) else {
        return Ok(false);
    };
    let line = between(alloc, before, name, behind)?;
    is_taken(alloc, *place, &line)
}

/// In how many places a name of so many bytes is taken.
fn names_taken(alloc: Global, bytes: usize) -> Result<usize, AllocError> {
    let name = times(alloc, "n", bytes)?;
    let mut count = 0usize;
    for at in 0..NAMED.len() {
        count = count.saturating_add(usize::from(name_is_taken(alloc, at, &name)?));
    }
    Ok(count)
}

#[test]
fn names_have_at_most_1024_bytes(rt: HostRuntime) -> Result<(), Fail> {
    assert_eq!(rt; names_taken(rt.alloc(), 1024)?, 3);
    assert_eq!(rt; names_taken(rt.alloc(), 1025)?, 0);
    Ok(())
}
