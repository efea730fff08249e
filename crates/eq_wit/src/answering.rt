//! Where the reading stands behind a query and the lines of its run.

ghost use Rattle.std.specs.Prelude.{◌≡◌, ◌-◌, ◌<◌, ◌≤◌, IfOk};
ghost use Rattle.eq_unroll.specs.Query.{IsUnrollable, frame_count};
ghost use Rattle.eq_wit.specs.declared.state.State.TheVariants as XState;
ghost use Rattle.eq_wit.specs.inner.Counting.{AreCounts};
ghost use Rattle.eq_wit.specs.inner.Items as spec;
ghost use Rattle.eq_wit.specs.inner.Reading.{behind_query as spec_behind_query, in_frames as spec_in_frames, in_steps as spec_in_steps, log_answer as spec_log_answer, one_less as spec_one_less, with_answer as spec_with_answer};

use crate::counted::Counts;
use crate::dividing::Words;
use crate::questions::question;
use crate::state::{Due, Open, Question, State, Steps, Stop, Tally};
use crate::truths::bits;
use eq_base::{Frames, Memory};
use eq_bits::Run;
use eq_induct::{Answer, Asked};
use eq_proof::Log;
use eq_unroll::Query;
use std::alloc::Global;

/// With a query that is answered.
fn with_answer(attempt: Open, query: Query, k: u32, answer: Answer) -> Result<Open, Memory>
    ensures { IfOk result (λ after. after ≡ spec_with_answer attempt query k answer) }
{
    let Open {
        head,
        mut asked,
        left,
    } = attempt;
    asked.push(Asked { query, k, answer })?;
    Ok(Open { head, asked, left })
}

/// With a query less that is due.
fn one_less(attempt: Open) -> Open
    requires { 0 < attempt.left }
    ensures { result ≡ spec_one_less attempt (attempt.left - 1) }
{
    let Open { head, asked, left } = attempt;
    Open {
        head,
        asked,
        left: left - 1,
    }
}

// ---- runs

/// How many cycles a query's run has.
fn cycles(query: Query, k: u32) -> u32
    requires { k ≤ 64 }
    ensures { result ≡ frame_count query k }
{
    match query {
        Query::Base => k,
        Query::Step => k + 1,
    }
}

/// Behind some cycles of a run, of which so many are due.
fn in_frames(
    tally: Tally,
    attempt: Open,
    query: Query,
    k: u32,
    run: Run,
    left: u32,
) -> Result<State, Memory>
    ensures { IfOk result (λ next. next ≡ spec_in_frames tally attempt query k run left) }
{
    if left == 0 {
        return Ok(State::Queries(tally, with_answer(attempt, query, k, Answer::Sat(run))?));
    }
    Ok(State::Frames(tally, attempt, query, k, run, left))
}

/// Behind the registers of a run.
pub fn regs(
    alloc: Global,
    tally: Tally,
    attempt: Open,
    query: Query,
    k: u32,
    words: &Words,
    counts: &mut Counts,
) -> Result<State, Stop>
    requires may { IsUnrollable tally.part k }
    requires counts { AreCounts tally.part counts.old }
    ensures judges { spec.Judges (XState.Regs tally attempt query k) words.now result }
    ensures kept { AreCounts tally.part counts.new }
{
    let count = counts.registers_of(&tally.part);
    match bits(alloc, words, b"regs", count) {
        Ok(regs) => {
            let run = Run {
                regs,
                inputs: Frames::new(alloc),
            };
            Ok(in_frames(tally, attempt, query, k, run, cycles(query, k))?)
        }
        Err(stop) => Err(stop),
    }
}

/// Behind a cycle of a run, where one more is due.
pub fn frame(
    alloc: Global,
    tally: Tally,
    attempt: Open,
    query: Query,
    k: u32,
    run: Run,
    left: u32,
    words: &Words,
) -> Result<State, Stop>
    requires { 0 < left }
    ensures { spec.Judges (XState.Frames tally attempt query k run left) words.now result }
{
    match bits(alloc, words, b"in", tally.part.inputs.len()) {
        Ok(frame) => {
            let Run { regs, mut inputs } = run;
            inputs.push(frame)?;
            let run = Run { regs, inputs };
            Ok(in_frames(tally, attempt, query, k, run, left - 1)?)
        }
        Err(stop) => Err(stop),
    }
}

// ---- queries

/// The answer that a log is.
fn log_answer(spent: bool, log: Log) -> Answer
    ensures { result ≡ spec_log_answer spent log }
{
    if spent {
        Answer::Spent(log)
    } else {
        Answer::Unsat(log)
    }
}

/// Behind some steps of a log, of which so many are due.
pub fn in_steps(
    tally: Tally,
    attempt: Open,
    query: Query,
    k: u32,
    steps: Steps,
) -> Result<State, Memory>
    ensures { IfOk result (λ next. next ≡ spec_in_steps tally attempt query k steps.spent
        steps.first steps.log steps.left) }
{
    if steps.left == 0 {
        let Steps { spent, log, .. } = steps;
        return Ok(State::Queries(
            tally,
            with_answer(attempt, query, k, log_answer(spent, log))?,
        ));
    }
    Ok(State::Steps(tally, attempt, query, k, steps))
}

/// Behind the line of a query.
fn behind_query(
    alloc: Global,
    tally: Tally,
    attempt: Open,
    asked: Question,
    counts: &mut Counts,
) -> Result<State, Memory>
    requires may { IsUnrollable tally.part asked.k }
    requires counts { AreCounts tally.part counts.old }
    ensures next { IfOk result (λ next.
        next ≡ spec_behind_query tally attempt asked.query asked.k asked.due) }
    ensures kept { AreCounts tally.part counts.new }
{
    let Question { query, k, due } = asked;
    match due {
        Due::Run => Ok(State::Regs(tally, attempt, query, k)),
        Due::Log(spent, left) => {
            let steps = Steps {
                spent,
                first: counts.first_number(&tally.part, query, k),
                log: Log::new(alloc),
                left,
            };
            in_steps(tally, attempt, query, k, steps)
        }
    }
}

/// Behind a query, where one more is due.
pub fn one_query(
    alloc: Global,
    tally: Tally,
    attempt: Open,
    words: &Words,
    counts: &mut Counts,
) -> Result<State, Stop>
    requires some { 0 < attempt.left }
    requires may { IsUnrollable tally.part 1 }
    requires counts { AreCounts tally.part counts.old }
    ensures judges { spec.Judges (XState.Queries tally attempt) words.now result }
    ensures kept { AreCounts tally.part counts.new }
{
    match question(words, &tally.part) {
        Ok(asked) => Ok(behind_query(alloc, tally, one_less(attempt), asked, counts)?),
        Err(stop) => Err(stop),
    }
}
