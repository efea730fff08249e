//! Where the reading stands behind a step of a log.

ghost use Rattle.std.specs.Prelude.{◌≡◌, ℕ, ◌+◌, ◌-◌, ◌^◌, ◌<◌, ◌≤◌, All, List, [], ◌∷◌, ◌++◌, IfOk, length};
ghost use Rattle.eq_proof.specs.Clause.{IsClause};
ghost use Rattle.eq_proof.specs.Derivation.{nonempty_of};
ghost use Rattle.eq_wit.specs.declared.state.State.TheVariants as XState;
ghost use Rattle.eq_wit.specs.inner.Items as spec;
ghost use Rattle.eq_wit.specs.inner.Reading.{in_steps as spec_in_steps, with_conflicts};

use crate::answering::in_steps;
use crate::dividing::Words;
use crate::state::{Open, State, Steps, Stop, Tally};
use crate::steps::step;
use eq_base::Memory;
use eq_proof::Lit;
use eq_unroll::Query;

/// How many conflicts a step with these literals is: none where there are none.
fn conflicts_of(lits: &[Lit]) -> u64
    ensures value { (ants : List ℕ) →
        result ≡ nonempty_of ((record { clause = lits.now; ants = ants }) ∷ []) }
    ensures few { result ≤ 1 }
{
    match lits {
        [] => 0,
        [_, ..] => 1,
    }
}

/// With more conflicts.
fn with_more(tally: Tally, more: u64) -> Tally
    requires { tally.conflicts + more < 2 ^ 64 }
    ensures { result ≡ with_conflicts tally (tally.conflicts + more) }
{
    let Tally {
        part,
        heads,
        tries,
        conflicts,
        left,
    } = tally;
    Tally {
        part,
        heads,
        tries,
        conflicts: conflicts + more,
        left,
    }
}

/// With a step more.
fn grown(steps: Steps, lits: &[Lit], ants: &[u64]) -> Result<Steps, Memory>
    requires some { 0 < steps.left }
    requires few { length steps.log + 1 < 2 ^ 32 }
    requires ordered { IsClause lits.now }
    requires from_one { All (λ n. 1 ≤ n) ants.now }
    ensures { IfOk result (λ after. after ≡ record {
      spent = steps.spent;
      first = steps.first;
      log = steps.log ++ (record { clause = lits.now; ants = ants.now }) ∷ [];
      left = steps.left - 1;
    }) }
{
    let Steps {
        spent,
        first,
        mut log,
        left,
    } = steps;
    log.push_parts(lits, ants)?;
    Ok(Steps {
        spent,
        first,
        log,
        left: left - 1,
    })
}

/// Behind a step, where one more is due. The literals and the antecedents are kept in place of others.
pub fn one_step(
    tally: Tally,
    attempt: Open,
    query: Query,
    k: u32,
    steps: Steps,
    words: &Words,
    lits: &mut Vec<Lit>,
    ants: &mut Vec<u64>,
) -> Result<State, Stop>
    requires some { 0 < steps.left }
    requires first { 1 < steps.first }
    requires numbers { steps.first + length steps.log < 2 ^ 64 }
    requires few { length steps.log + steps.left < 2 ^ 32 }
    requires conflicts { tally.conflicts + 1 < 2 ^ 64 }
    ensures { spec.Judges (XState.Steps tally attempt query k steps) words.now result }
{
    let n = steps.first + u64::from(steps.log.len());
    match step(words, n, lits, ants) {
        Ok(()) => {
            let more = conflicts_of(lits.as_slice());
            let after = grown(steps, lits.as_slice(), ants.as_slice())?;
            Ok(in_steps(with_more(tally, more), attempt, query, k, after)?)
        }
        Err(stop) => Err(stop),
    }
}
