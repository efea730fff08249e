//! The clauses that stand before a step.
ghost use Rattle.std.specs.Prelude.{◌≡◌, ◌<◌, ◌^◌, List, length, slice_get, IfSome, IfNone};
ghost use Rattle.eq_proof.specs.Literal.{Literal};
ghost use Rattle.eq_proof.specs.Clause.{IsClause};

use crate::formula::Formula;
use crate::lit::Lit;
use crate::log::Log;
use std::marker::Model;

/// The clauses of a formula and of the first `steps` steps of a log, numbered from 1.
#[derive(Drop)]
pub struct Earlier<'a> {
    formula: &'a Formula,
    log: &'a Log,
    steps: u32,
}

impl<'a> Model for Earlier<'a> {
    ghost use Rattle.std.specs.Prelude.{List, ◌≤◌, ◌<◌, ◌^◌, length};
    ghost use Rattle.eq_proof.specs.Literal.{Literal};

    ghost Value = { List (List Literal) };

    ghost use Rattle.eq_proof.specs.Derivation.{clauses_before};

    ghost view = { λ e. clauses_before e.formula.now.clauses e.log.now e.steps };

    ghost invariant = { λ e. (e.steps ≤ length e.log.now) × (e.steps < 2 ^ 32) };
}

impl<'a> Earlier<'a> {
    ghost use Rattle.std.specs.Prelude.{◌≤◌};
    ghost use Rattle.eq_proof.specs.Derivation.{clauses_before, HasNumber};

    pub fn new(formula: &'a Formula, log: &'a Log, steps: u32) -> Earlier<'a>
        requires { steps ≤ length log.now }
        ensures { result ≡ clauses_before formula.now.clauses log.now steps }
    {
        Earlier {
            formula,
            log,
            steps,
        }
    }

    pub fn len(&self) -> u64
        ensures { result ≡ length self.now }
    {
        self.formula.clauses.len() as u64 + u64::from(self.steps)
    }

    /// The literals of the clause at a place from 0.
    pub fn at(&self, place: u64) -> &'a [Lit]
        requires { place < length self.now }
        ensures clause { slice_get self.now place ≡ Some result.now }
        ensures ordered { IsClause result.now }
    {
        let clauses = self.formula.clauses.len() as u64;
        if place < clauses {
            self.formula.clauses.at(place as usize)
        } else {
            self.log.at((place - clauses) as u32).clause
        }
    }

    /// The literals of the clause with a number, if there is one.
    pub fn get(&self, number: u64) -> Option<&'a [Lit]>
        ensures found { IfSome result (λ clause. HasNumber self.now number clause.now) }
        ensures ordered { IfSome result (λ clause. IsClause clause.now) }
        ensures none { IfNone result ((clause : List Literal) → ¬ HasNumber self.now number clause) }
    {
        let place = number.checked_sub(1)?;
        if place < self.len() {
            Some(self.at(place))
        } else {
            None
        }
    }
}
