//! Whether the log or the run of each answer shows it: logs by the checker, runs by a replay.

ghost use Rattle.std.specs.Prelude.{◌≡◌, ◌↔◌, All, IsTrue, length};
ghost use Rattle.eq_bits.specs.Replay.{IsRunOf};

use crate::formulas::counted;
use crate::solving::{is_spent, refutes};
use eq_bits::{Bits, Node, Part, Run, Scratch, replay};
use eq_induct::{Answer, Asked, Attempt, Try};
use eq_proof::Log;
use eq_unroll::Query;
use std::alloc::Global;
use std::test::Fail;

fn are_frames(inputs: usize, frames: &[Bits]) -> bool
    ensures { IsTrue result ↔ All (λ frame. length frame ≡ inputs) frames.now }
{
    frames.iter().all(|frame| frame.len() == inputs)
}

/// Whether a run has a value for each register of the part and in each cycle for each input.
fn is_run(part: &Part, run: &Run) -> bool
    ensures { IsTrue result → IsRunOf part.now run.now }
{
    run.regs.len() == part.register_count() && are_frames(part.inputs.len(), run.inputs.as_slice())
}

/// Whether the registers begin at their initial values.
fn begins(nodes: &[Node], regs: &[bool]) -> bool {
    let mut at = 0usize;
    for node in nodes {
        if let Node::Reg { init, .. } = node {
            if regs.get(at).copied() != Some(*init) {
                return false;
            }
            at = at.wrapping_add(1);
        }
    }
    true
}

/// Whether the first difference of a run is in its last cycle, and there are so many.
fn ends_in_difference(alloc: Global, part: &Part, run: &Run, cycles: u32) -> Result<bool, Fail> {
    if !is_run(part, run) || 65 < run.inputs.len() {
        return Err(Fail::from("no run of this part"));
    }
    let mut scratch = Scratch::new(alloc, part)?;
    Ok(match replay(part, run, &mut scratch) {
        Some(difference) => {
            run.inputs.len() == cycles as usize && difference.cycle == cycles.wrapping_sub(1)
        }
        None => false,
    })
}

fn is_witness(alloc: Global, part: &Part, asked: &Asked, run: &Run) -> Result<bool, Fail> {
    match asked.query {
        Query::Base => Ok(
            ends_in_difference(alloc, part, run, asked.k)?
                && begins(part.nodes.as_slice(), run.regs.as_slice()),
        ),
        Query::Step => ends_in_difference(alloc, part, run, asked.k.wrapping_add(1)),
    }
}

fn is_refuted(alloc: Global, part: &Part, asked: &Asked, log: &Log) -> Result<bool, Fail> {
    let f = counted(alloc, part, asked.query, asked.k)?;
    Ok(refutes(alloc, &f, log))
}

fn is_undecided(alloc: Global, part: &Part, asked: &Asked, log: &Log) -> Result<bool, Fail> {
    let f = counted(alloc, part, asked.query, asked.k)?;
    Ok(is_spent(alloc, &f, log, log.len()))
}

/// Whether the run or the log of an answer shows it.
fn is_shown(alloc: Global, part: &Part, asked: &Asked) -> Result<bool, Fail> {
    match &asked.answer {
        Answer::Sat(run) => is_witness(alloc, part, asked, run),
        Answer::Unsat(log) => is_refuted(alloc, part, asked, log),
        Answer::Spent(log) => is_undecided(alloc, part, asked, log),
    }
}

fn are_shown(alloc: Global, part: &Part, attempt: &Attempt) -> Result<bool, Fail> {
    for asked in attempt.asked.as_slice() {
        if !is_shown(alloc, part, asked)? {
            return Ok(false);
        }
    }
    Ok(true)
}

/// Whether all tries are shown.
pub(crate) fn all_shown(alloc: Global, part: &Part, tries: &[Try]) -> Result<bool, Fail> {
    for one in tries {
        if !are_shown(alloc, part, &one.attempt)? {
            return Ok(false);
        }
    }
    Ok(true)
}
