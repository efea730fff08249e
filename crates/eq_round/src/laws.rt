//! Laws of what is done.

ghost use Rattle.std.specs.Prelude.{◌≡◌, ℕ, ◌<◌, AllPairs, Contains, List, Some, map, slice_get};
ghost use Rattle.eq_bits.specs.declared.part.Part.{Part};
ghost use Rattle.eq_compose.specs.Rows.{AreRight, IsRight};
ghost use Rattle.eq_compose.specs.declared.types.Row.{Row};
ghost use Rattle.eq_config.specs.declared.config.Strategy.{Strategy};
ghost use Rattle.eq_induct.specs.Outcome.{Applies, IsOutcome};
ghost use Rattle.eq_induct.specs.declared.types.Decided.{Decided};
ghost use Rattle.eq_induct.specs.declared.types.PartVerdict.TheVariants.{Unknown};
ghost use Rattle.eq_net.specs.Whole.{parts_of};
ghost use Rattle.eq_report.specs.Rows.{causes_of, row_of};
ghost use Rattle.eq_round.specs.Causes.{strategy_of};
ghost use Rattle.eq_round.specs.Done.{AreRowsOfDone, IsPartitionDone};
ghost use Rattle.eq_round.specs.declared.deciding.Done.{Done};
ghost use Rattle.eq_round.specs.declared.work.Work.{Work};

use crate::deciding::Done;
use crate::work::Work;
use eq_compose::laws::a_proved_part_never_differs;
use eq_induct::laws::a_verdict_is_induction;

/// The row of what a partition came to is right. Proved in `proofs/Rows.antt`.
pub fn rows_of_done_are_right()
    ensures one { (w : Work) (i : ℕ) (d : Done) → IsPartitionDone w i d →
        IsRight (parts_of w.gold.now) (parts_of w.gate.now) w.plan.now i
        (row_of w.strategies.now i d.decided).verdict }
    // So are all rows, where each is made so.
    ensures all { (w : Work) (rows : List Row) → AreRowsOfDone w rows →
        AreRight (parts_of w.gold.now) (parts_of w.gate.now) w.plan.now rows }
    // And each has the number of its place.
    ensures order { (w : Work) (rows : List Row) → AreRowsOfDone w rows →
        (q : ℕ) (row : Row) → slice_get rows q ≡ Some row → row.part ≡ q }
{
    a_verdict_is_induction();
    a_proved_part_never_differs();
}

/// Where nothing was decided there is one cause for each strategy that applies, in their order. Proved in
/// `proofs/Causes.antt`.
pub fn each_that_applies_has_a_cause()
    ensures each { (part : Part) (strategies : List Strategy) (d : Decided) →
        IsOutcome part strategies d → d.verdict ≡ Unknown →
        (n : ℕ) (s : Strategy) → slice_get strategies n ≡ Some s → Applies part.name s →
        Contains (map strategy_of (causes_of strategies d.tries)) n }
    ensures order { (part : Part) (strategies : List Strategy) (d : Decided) →
        IsOutcome part strategies d → d.verdict ≡ Unknown →
        AllPairs (λ m n. m < n) (map strategy_of (causes_of strategies d.tries)) }
{}

/// Takes a value of a type that may move between threads and be shared by them.
fn across_threads<T: Send + Sync>(_: &T) {}

/// What partitions are decided by, and what they come to, may move between threads and be shared by them: else this
/// function has no proof.
pub fn rounds_cross_threads(work: &Work<'_>, done: &Done) {
    across_threads(work);
    across_threads(done);
}
