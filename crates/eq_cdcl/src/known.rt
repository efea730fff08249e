//! The clauses that are known: a formula's and those learned.
ghost use Rattle.std.specs.Prelude.{◌≡◌, ◌<◌, ◌≤◌, length, slice_get};
ghost use Rattle.eq_proof.specs.Clause.{IsClause};

use eq_proof::{Formula, Lit, Log};
use std::marker::Model;

/// The clauses of a formula and of a log, numbered from 1.
#[derive(Drop)]
pub struct Known<'a> {
    formula: &'a Formula,
    log: &'a Log,
    steps: u32,
}

impl<'a> Model for Known<'a> {
    ghost use Rattle.std.specs.Prelude.{List};
    ghost use Rattle.eq_proof.specs.Literal.{Literal};

    ghost Value = { List (List Literal) };

    ghost use Rattle.eq_cdcl.specs.inner.Knowledge.{known_of};
    ghost use Rattle.std.specs.Prelude.{◌≡◌, ◌<◌, ◌^◌, length};

    ghost view = { λ k. known_of k.formula.now.clauses k.log.now };

    ghost invariant = { λ k. (k.steps ≡ length k.log.now) × (k.steps < 2 ^ 32) };
}

impl<'a> Known<'a> {
    ghost use Rattle.eq_cdcl.specs.inner.Knowledge.{known_of};
    ghost use Rattle.eq_proof.specs.Derivation.{HasNumber};

    pub fn new(formula: &'a Formula, log: &'a Log) -> Known<'a>
        ensures { result ≡ known_of formula.now.clauses log.now }
    {
        let steps = log.len();
        Known {
            formula,
            log,
            steps,
        }
    }

    pub fn len(&self) -> u64
        ensures { result ≡ length self.now }
    {
        self.formula.clauses.len() as u64 + u64::from(self.steps)
    }

    /// The literals of the clause at a place from 0.
    pub fn at(&self, place: u64) -> &'a [Lit]
        requires { place < length self.now }
        ensures clause { slice_get self.now place ≡ Some result.now }
        ensures ordered { IsClause result.now }
    {
        let clauses = self.formula.clauses.len() as u64;
        if place < clauses {
            self.formula.clauses.at(place as usize)
        } else {
            self.log.at((place - clauses) as u32).clause
        }
    }

    /// The literals of the clause with a number.
    pub fn numbered(&self, number: u64) -> &'a [Lit]
        requires from_one { 0 < number }
        requires within { number ≤ length self.now }
        ensures { HasNumber self.now number result.now }
    {
        self.at(number - 1)
    }
}
