//! Laws of attempts, over the definitions alone.

ghost use Rattle.std.specs.Prelude.{ℕ, List};
ghost use Rattle.eq_bits.specs.declared.part.Part.{Part};
ghost use Rattle.eq_config.specs.declared.config.Strategy.{Strategy};
ghost use Rattle.eq_induct.specs.declared.types.Attempt.{Attempt};
ghost use Rattle.eq_induct.specs.declared.types.Decided.{Decided};
ghost use Rattle.eq_induct.specs.Attempts.{IsAttempt, Says};
ghost use Rattle.eq_induct.specs.Outcome.{IsOutcome, VerdictSays};

use crate::types::{Answer, Asked, Decided, Try};
use eq_bits::laws::one_replay;
use eq_proof::laws::empty_refutes;
use eq_unroll::laws::{holds_where_shown, satisfiable_where_held};

/// An attempt ends as k-induction does on the part up to the depth, unless its conflicts are spent. Proved in
/// `proofs/Induction.antt`.
pub fn an_attempt_is_induction()
    ensures { (part : Part) (depth conflicts : ℕ) (t : Attempt) →
        IsAttempt part depth conflicts t → Says part depth t.end }
{
    empty_refutes();
    one_replay();
    holds_where_shown();
    satisfiable_where_held();
}

/// What strategies come to says of the part what k-induction answers by the strategy that decided, or that each strategy
/// that applies gave up. Proved in `proofs/Verdicts.antt`.
pub fn a_verdict_is_induction()
    ensures { (part : Part) (strategies : List Strategy) (d : Decided) →
        IsOutcome part strategies d → VerdictSays part strategies d.tries d.verdict }
{
    an_attempt_is_induction();
}

/// Takes a value of a type that may move between threads and be shared by them.
fn across_threads<T: Send + Sync>(_: &T) {}

/// What strategies come to, with all that it holds, may move between threads and be shared by them: else this function
/// has no proof.
pub fn attempts_cross_threads(decided: &Decided, one: &Try, asked: &Asked, answer: &Answer) {
    across_threads(decided);
    across_threads(&decided.tries);
    across_threads(&decided.verdict);
    across_threads(one);
    across_threads(&one.attempt);
    across_threads(&one.attempt.asked);
    across_threads(&one.attempt.end);
    across_threads(asked);
    across_threads(&asked.query);
    across_threads(answer);
}
