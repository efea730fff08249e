//! Where the sides of parts differ, in runs that were worked out by hand.

ghost use Rattle.std.specs.Prelude.{◌≡◌, ◌↔◌, All, IsTrue, length};
ghost use Rattle.eq_bits.specs.Replay.{IsRunOf};

use crate::configs::config;
use crate::cutting::{design, part_of};
use crate::ports::have_same_ports;
use eq_bits::{Bits, Frames, Part, Run, Scratch, replay};
use std::alloc::Global;
use std::test::Fail;

/// The netlists, the lines behind the frame, the partition's place, the registers' values, the inputs in each cycle, and the
/// first cycle and output that differ.
type Row = (
    u8,
    u8,
    &'static [u8],
    u32,
    &'static [bool],
    &'static [&'static [bool]],
    Option<(u32, u32)>,
);

const ROWS: [Row; 10] = [
    // equal for all inputs
    (
        10,
        11,
        b"",
        0,
        &[],
        &[
            &[false, false],
            &[false, true],
            &[true, false],
            &[true, true],
        ],
        None,
    ),
    // `n & a` and `n`
    (14, 15, b"", 0, &[], &[&[false, true]], Some((0, 0))),
    (
        14,
        15,
        b"",
        0,
        &[],
        &[&[true, true], &[false, true]],
        Some((1, 0)),
    ),
    (14, 15, b"", 0, &[], &[&[true, true], &[false, false]], None),
    // as one partition
    (
        14,
        15,
        b"[partition]\nmerge [ny]\n",
        0,
        &[],
        &[&[false], &[true]],
        None,
    ),
    // gate reads the input's negation
    (
        3,
        3,
        b"[match]\ngold-match m ~m\n",
        2,
        &[],
        &[&[false]],
        Some((0, 0)),
    ),
    // the counter is at 2 in the third cycle
    (16, 17, b"", 0, &[false, false], &[&[], &[]], None),
    (
        16,
        17,
        b"",
        0,
        &[false, false],
        &[&[], &[], &[]],
        Some((2, 0)),
    ),
    // registers of gold and gate with equal values, and with different ones
    (
        18,
        19,
        b"",
        0,
        &[false, false, false, false],
        &[&[true], &[false], &[true], &[true]],
        None,
    ),
    (
        18,
        19,
        b"",
        0,
        &[true, false, true, true],
        &[&[true]],
        Some((0, 1)),
    ),
];

fn run(alloc: Global, regs: &[bool], inputs: &[&[bool]]) -> Result<Run, Fail> {
    let mut frames = Frames::new(alloc);
    for frame in inputs {
        frames.push(Bits::from_slice(alloc, frame)?)?;
    }
    Ok(Run {
        regs: Bits::from_slice(alloc, regs)?,
        inputs: frames,
    })
}

fn are_frames(inputs: usize, frames: &[Bits]) -> bool
    ensures { IsTrue result ↔ All (λ frame. length frame ≡ inputs) frames.now }
{
    frames.iter().all(|frame| frame.len() == inputs)
}

/// Whether a run has a value for each register of the part and in each cycle for each input.
fn is_run(part: &Part, run: &Run) -> bool
    ensures { IsTrue result → IsRunOf part.now run.now }
{
    run.regs.len() == part.register_count() && are_frames(part.inputs.len(), run.inputs.as_slice())
}

/// The first cycle and output that differ in a run.
fn difference(alloc: Global, part: &Part, run: &Run) -> Result<Option<(u32, u32)>, Fail> {
    if !is_run(part, run) || 65 < run.inputs.len() {
        return Err(Fail::from("no run of this part"));
    }
    let mut scratch = Scratch::new(alloc, part)?;
    Ok(match replay(part, run, &mut scratch) {
        Some(difference) => Some((difference.cycle, difference.output)),
        None => None,
    })
}

fn is_right(alloc: Global, row: &Row) -> Result<bool, Fail> {
    let (gold, gate, lines, i, regs, inputs, wanted) = *row;
    let gold = design(alloc, gold)?;
    let gate = design(alloc, gate)?;
    let Some(config) = config(alloc, lines)? else {
        return Ok(false);
    };
    if !have_same_ports(&gold, &gate) {
        return Ok(false);
    }
    let Some(part) = part_of(alloc, &gold, &gate, &config, i)? else {
        return Ok(false);
    };
    let run = run(alloc, regs, inputs)?;
    Ok(difference(alloc, &part, &run)? == wanted)
}

/// The first row with another difference.
fn first_wrong(alloc: Global) -> Result<Option<usize>, Fail> {
    for (number, row) in ROWS.iter().enumerate() {
        if !is_right(alloc, row)? {
            return Ok(Some(number));
        }
    }
    Ok(None)
}

#[test]
fn sides_of_parts_differ_where_they_should(rt: HostRuntime) -> Result<(), Fail> {
    assert_eq!(rt; first_wrong(rt.alloc())?, None);
    Ok(())
}
