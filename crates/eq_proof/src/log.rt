//! Logs of derivations.
ghost use Rattle.std.specs.Prelude.{◌≡◌, ◌≤◌, ◌<◌, ◌+◌, ◌^◌, [], ◌∷◌, ◌++◌, length, slice_get, All, OnOk, OnErr, IsTrue, ◌↔◌};
ghost use Rattle.eq_proof.specs.Clause.{IsClause};
ghost use Rattle.eq_proof.specs.Inference.{Inference};

use crate::clauses::Clauses;
use crate::lit::Lit;
use crate::rows::Rows;
use crate::step::Step;
use eq_base::Memory;
use std::alloc::Global;
use std::marker::Model;

/// A list of fewer than 2^32 steps, kept flat.
#[derive(Debug, Drop)]
pub struct Log {
    clauses: Clauses,
    ants: Rows<u64>,
}

/// The parts of a step that a log lends.
#[derive(Clone, Copy, Debug)]
pub struct StepRef<'a> {
    pub clause: &'a [Lit],
    pub ants: &'a [u64],
}

impl Model for Log {
    ghost use Rattle.std.specs.Prelude.{List};
    ghost use Rattle.eq_proof.specs.Inference.{Inference};

    ghost Value = { List Inference };

    ghost use Rattle.eq_proof.specs.Inference.{inferences, IsLog};

    ghost view = { λ l. inferences l.clauses l.ants };

    ghost invariant = { λ l. IsLog l.clauses l.ants };
}

impl Log {
    pub fn new(alloc: Global) -> Log
        ensures { result ≡ [] }
    {
        Log {
            clauses: Clauses::new(alloc),
            ants: Rows::new(alloc),
        }
    }

    pub fn len(&self) -> u32
        ensures { result ≡ length self.now }
    {
        self.clauses.len() as u32
    }

    pub fn is_empty(&self) -> bool
        ensures { IsTrue result ↔ (self.now ≡ []) }
    {
        self.len() == 0
    }

    /// The step at a place.
    pub fn at(&self, place: u32) -> StepRef<'_>
        requires { place < length self.now }
        ensures step { slice_get self.now place ≡ Some (record { clause = result.clause.now; ants = result.ants.now }) }
        ensures ordered { IsClause result.clause.now }
        ensures from_one { All (λ n. 1 ≤ n) result.ants.now }
    {
        StepRef {
            clause: self.clauses.at(place as usize),
            ants: self.ants.at(place as usize),
        }
    }

    pub fn push(&mut self, step: Step) -> Result<(), Memory>
        requires { length self.old + 1 < 2 ^ 32 }
        ensures ok { OnOk result (self.new ≡ self.old ++ step ∷ []) }
        ensures err { OnErr result (self.new ≡ self.old) }
    {
        let Step { clause, ants } = step;
        self.push_parts(clause.lits(), ants.as_slice())
    }

    /// Copies the parts of a step to the end.
    pub fn push_parts(&mut self, clause: &[Lit], ants: &[u64]) -> Result<(), Memory>
        requires few { length self.old + 1 < 2 ^ 32 }
        requires ordered { IsClause clause.now }
        requires from_one { All (λ n. 1 ≤ n) ants.now }
        ensures ok { OnOk result (self.new ≡ self.old ++ (record { clause = clause.now; ants = ants.now }) ∷ []) }
        ensures err { OnErr result (self.new ≡ self.old) }
    {
        let before = self.ants.len();
        self.ants.push(ants)?;
        match self.clauses.push_lits(clause) {
            Ok(()) => Ok(()),
            Err(Memory) => {
                self.ants.truncate(before);
                Err(Memory)
            }
        }
    }
}
