//! Configurations with another line in one place.

use super::*;
use std::test::Fail;

/// The nine lines of a configuration.
const LINES: [&str; 9] = [
    "[gold]\n",
    "read_verilog gold.v\n",
    "prep -top t\n",
    "[gate]\n",
    "read_verilog gate.v\n",
    "prep -top t\n",
    "[strategy s]\n",
    "use sat\n",
    "depth 3\n",
];

/// A place, and the line that stands there instead.
const DAMAGES: [(usize, &str); 44] = [
    (0, ""),
    (0, " [gold]\n"),
    (0, "[gold] \n"),
    (0, "[gold]\r\n"),
    (1, ""),
    (1, "read_verilog  gold.v\n"),
    (1, "read_verilog gold.v \n"),
    (1, "read_verilog gold.v\r\n"),
    (2, ""),
    (2, "prep  -top t\n"),
    (2, "prep -top  t\n"),
    (2, "prep -top t \n"),
    (2, "prep -top t\r\n"),
    (3, ""),
    (3, " [gate]\n"),
    (3, "[gate] \n"),
    (3, "[gate]\r\n"),
    (4, ""),
    (4, "read_verilog  gate.v\n"),
    (4, "read_verilog gate.v \n"),
    (4, "read_verilog gate.v\r\n"),
    (5, ""),
    (5, "prep  -top t\n"),
    (5, "prep -top  t\n"),
    (5, "prep -top t \n"),
    (5, "prep -top t\r\n"),
    (6, ""),
    (6, "[strategy  s]\n"),
    (6, "[strategy s] \n"),
    (6, "[strategy s]\r\n"),
    (7, ""),
    (7, "use  sat\n"),
    (7, "use sat \n"),
    (7, "use sat\r\n"),
    (8, ""),
    (8, "depth  3\n"),
    (8, "depth 3 \n"),
    (8, "depth 3\r\n"),
    (8, "depth 3"),
    (8, "depth 3\n\n"),
    (8, "depth 0\n"),
    (8, "depth 01\n"),
    (8, "depth 65\n"),
    (8, "depth\n"),
];

/// The configuration with another line in one place.
fn configuration(alloc: Global, place: usize, other: &str) -> Result<String, AllocError> {
    let mut text = String::new(alloc);
    for (at, line) in LINES.iter().enumerate() {
        text.push_str(if at == place { other } else { *line })?;
    }
    Ok(text)
}

/// The first damage that isn't refused.
fn first_undamaged<R: Threads + Sync>(rt: &R, alloc: Global) -> Result<Option<usize>, Memory> {
    for (row, (place, line)) in DAMAGES.iter().enumerate() {
        let job = configuration(alloc, *place, line)?;
        if !runs_so(rt, alloc, &[("job.eqy", job.as_bytes())], &NO_JOB)? {
            return Ok(Some(row));
        }
    }
    Ok(None)
}

#[test]
fn damaged_lines_are_refused(rt: HostRuntime) -> Result<(), Fail> {
    assert_eq!(rt; first_undamaged(&rt, rt.alloc())?, None);
    Ok(())
}

/// Whether equal designs pass with this depth.
fn depth_passes<R: Threads + Sync>(rt: &R, alloc: Global, depth: &str) -> Result<bool, Memory> {
    let job = configuration(alloc, 8, depth)?;
    let files: [(&str, &[u8]); 3] = [
        ("job.eqy", job.as_bytes()),
        ("gold.v", AND),
        ("gate.v", NOR),
    ];
    runs_so(rt, alloc, &files, &PASSES)
}

#[test]
fn the_least_and_the_greatest_depth_pass(rt: HostRuntime) -> Result<(), Fail> {
    for depth in ["depth 1\n", "depth 64\n"] {
        assert!(rt; depth_passes(&rt, rt.alloc(), depth)?, "{depth:?}");
    }
    Ok(())
}
