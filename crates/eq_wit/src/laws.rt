//! Laws of evidences and of their texts. Each is the contract of a function that does nothing.

ghost use Rattle.eq_wit.specs.Faults.{OneEvidence, OneFault};
ghost use Rattle.eq_wit.specs.Lrat.{LogsAreLrat};
ghost use Rattle.eq_wit.specs.Tried.{OutcomesAreEvidence};

use crate::types::{Evidence, Head, WitErr};

/// What strategies that may be tried come to is an evidence, and so can be printed.
pub fn outcomes_are_evidence()
    ensures { OutcomesAreEvidence }
{}

/// The lines of a log are its LRAT text.
pub fn logs_are_lrat()
    ensures { LogsAreLrat }
{}

/// A text has one first line at most that no evidence continues with, and one kind of fault there; the text of an
/// evidence has none.
pub fn one_fault()
    ensures { OneFault }
{}

/// A text is that of one evidence at most, with its tries numbered in order.
pub fn one_evidence()
    ensures { OneEvidence }
{}

/// TakesLine a value of a type that may move between threads and be shared by them.
fn across_threads<T: Send + Sync>(_: &T) {}

/// An evidence and its heads, and what is wrong with a text, may move between threads and be shared by them: else this
/// function has no proof.
pub fn evidence_crosses_threads(evidence: &Evidence, head: &Head, fault: &WitErr) {
    across_threads(evidence);
    across_threads(&evidence.heads);
    across_threads(head);
    across_threads(fault);
}
