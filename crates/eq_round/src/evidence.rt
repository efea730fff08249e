//! The evidence of a partition.

ghost use Rattle.std.specs.Prelude.{◌≡◌, IfOk};
ghost use Rattle.eq_induct.specs.Outcome.{IsOutcome};
ghost use Rattle.eq_wit.specs.Texts.{evidence_text};
ghost use Rattle.eq_wit.specs.Tried.{MayBeTried, heads_of};

use crate::deciding::Done;
use crate::work::Work;
use eq_base::{Bytes, Memory};
use eq_wit::laws::outcomes_are_evidence;
use eq_wit::print_evidence;
use std::alloc::Global;

/// The evidence of a partition as a text: its part, the tries on it, and what they came to.
pub fn evidence_of(alloc: Global, work: &Work<'_>, done: &Done) -> Result<Bytes, Memory>
    requires tried { MayBeTried done.now.part work.now.strategies.now }
    requires outcome { IsOutcome done.now.part work.now.strategies.now done.now.decided }
    ensures text { IfOk result (λ text. text ≡ evidence_text done.now.part
        (heads_of work.now.strategies.now done.now.decided.tries) done.now.decided) }
{
    outcomes_are_evidence();
    print_evidence(alloc, &done.part, work.strategies, &done.decided)
}
