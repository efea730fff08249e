//! Clauses.
ghost use Rattle.std.specs.Prelude.{◌≡◌, ◌↔◌, length, Contains, IfOk, IsTrue};
ghost use Rattle.eq_proof.specs.Literal.{Literal};
ghost use Rattle.eq_proof.specs.Clause.{IsClause};

use crate::lit::Lit;
use eq_base::Memory;
use std::alloc::Global;
use std::marker::Model;

/// A list of literals in ascending order, by variable and then the positive one first, without repeats.
#[derive(Debug, Drop)]
pub struct Clause {
    lits: Vec<Lit>,
}

impl Model for Clause {
    ghost use Rattle.std.specs.Prelude.{List};
    ghost use Rattle.eq_proof.specs.Literal.{Literal};

    ghost Value = { List Literal };

    ghost use Rattle.eq_proof.specs.Clause.{IsClause};

    ghost view = { λ c. c.lits.items };

    ghost invariant = { λ c. IsClause c.lits.items };
}

impl Clause {
    /// The clause of these literals, in any order and with any repeats.
    pub fn of(alloc: Global, lits: &[Lit]) -> Result<Clause, Memory>
        ensures members { IfOk result (λ clause. (l : Literal) → Contains clause l ↔ Contains lits.now l) }
        ensures ordered { IfOk result IsClause }
    {
        let mut lits = Vec::from_slice(alloc, lits)?;
        lits.sort_unstable();
        lits.dedup();
        Ok(Clause { lits })
    }

    pub fn lits(&self) -> &[Lit]
        ensures value { result.now ≡ self.now }
        ensures ordered { IsClause result.now }
    {
        self.lits.as_slice()
    }
}
