//! Steps of a log.
use crate::clause::Clause;
use eq_base::Numbers;
use std::marker::Model;

/// A clause with the numbers of the clauses that it follows from, its antecedents.
///
/// Clauses are numbered from 1, a formula's first and then a log's.
#[derive(Debug, Drop)]
pub struct Step {
    pub clause: Clause,
    pub ants: Numbers,
}

impl Model for Step {
    ghost use Rattle.eq_proof.specs.Inference.{Inference};

    ghost Value = { Inference };

    ghost use Rattle.std.specs.Prelude.{◌≤◌, All};

    ghost view = { λ s. record { clause = s.clause; ants = s.ants } };

    ghost invariant = { λ s. All (λ n. 1 ≤ n) s.ants };
}

impl Step {
    ghost use Rattle.std.specs.Prelude.{◌≤◌, ◌↔◌, All, IsTrue};

    /// Whether all numbers are from 1, as a step asks of its antecedents.
    pub fn are_from_one(ants: &[u64]) -> bool
        ensures { IsTrue result ↔ All (λ n. 1 ≤ n) ants.now }
    {
        ants.iter().all(|n| 1 <= *n)
    }
}
