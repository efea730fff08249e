//! Lists of clauses, and formulas.
ghost use Rattle.std.specs.Prelude.{◌≡◌, ◌<◌, ◌≤◌, ◌^◌, All, [], ◌∷◌, ◌++◌, length, slice_get, OnOk, OnErr, IsTrue, ◌↔◌};
ghost use Rattle.eq_proof.specs.Clause.{IsClause};

use crate::clause::Clause;
use crate::lit::Lit;
use crate::rows::Rows;
use eq_base::Memory;
use std::alloc::Global;
use std::marker::Model;

/// A list of clauses, kept flat: four bytes a literal and eight bytes a clause.
#[derive(Debug, Drop)]
pub struct Clauses {
    rows: Rows<Lit>,
}

impl Model for Clauses {
    ghost use Rattle.std.specs.Prelude.{List, All};
    ghost use Rattle.eq_proof.specs.Literal.{Literal};

    ghost Value = { List (List Literal) };

    ghost use Rattle.eq_proof.specs.Clause.{IsClause};

    ghost view = { λ c. c.rows };

    ghost invariant = { λ c. All IsClause c.rows };
}

impl Clauses {
    pub fn new(alloc: Global) -> Clauses
        ensures { result ≡ [] }
    {
        Clauses {
            rows: Rows::new(alloc),
        }
    }

    pub fn len(&self) -> usize
        ensures value { result ≡ length self.now }
        ensures few { result < 2 ^ 63 }
    {
        self.rows.len()
    }

    pub fn is_empty(&self) -> bool
        ensures { IsTrue result ↔ (self.now ≡ []) }
    {
        self.rows.is_empty()
    }

    /// The literals of the clause at a place.
    pub fn at(&self, place: usize) -> &[Lit]
        requires { place < length self.now }
        ensures clause { slice_get self.now place ≡ Some result.now }
        ensures ordered { IsClause result.now }
    {
        self.rows.at(place)
    }

    /// Whether no literal's variable is above `vars`, as a `Formula` asks.
    pub fn are_within(&self, vars: u32) -> bool
        ensures { IsTrue result ↔ All (All (λ l. l.var ≤ vars)) self.now }
    {
        for place in 0..self.len() {
            if !is_within(self.at(place), vars) {
                return false;
            }
        }
        true
    }

    pub fn push(&mut self, clause: Clause) -> Result<(), Memory>
        ensures ok { OnOk result (self.new ≡ self.old ++ clause ∷ []) }
        ensures err { OnErr result (self.new ≡ self.old) }
    {
        self.push_lits(clause.lits())
    }

    /// Copies the literals of a clause to the end.
    pub fn push_lits(&mut self, lits: &[Lit]) -> Result<(), Memory>
        requires { IsClause lits.now }
        ensures ok { OnOk result (self.new ≡ self.old ++ lits.now ∷ []) }
        ensures err { OnErr result (self.new ≡ self.old) }
    {
        self.rows.push(lits)
    }
}

// Whether no variable of a clause is above `vars`.
fn is_within(clause: &[Lit], vars: u32) -> bool
    ensures { IsTrue result ↔ All (λ l. l.var ≤ vars) clause.now }
{
    clause.iter().all(|l| l.var() <= vars)
}
