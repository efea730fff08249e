//! A set of literals that are true, which grows one by one and is taken back by its trail.
ghost use Rattle.std.specs.Prelude.{◌≡◌, ◌<◌, ◌≤◌, [], ◌∷◌, ◌++◌, length, Contains, IfOk, OnOk, OnErr, MatchOption};
ghost use Rattle.eq_proof.specs.Literal.{negation};
ghost use Rattle.eq_proof.specs.Sets.{HasNoValue, IsConsistent};

use crate::lit::Lit;
use crate::marks::{mark_by, value_by};
use eq_base::Memory;
use std::alloc::Global;
use std::marker::Model;

/// How a variable is marked: without a value, or with the sign of its true literal.
#[derive(Clone, Copy, Debug)]
pub enum Mark {
    Open,
    Positive,
    Negative,
}

const _: () = prove!(size_of::<Mark>() == 1);

/// The value of a literal.
#[derive(Clone, Copy, Debug)]
pub enum Value {
    Unassigned,
    True,
    False,
}

/// The true literals, as a trail and as a mark for each variable.
///
/// Taking all back costs the length of the trail, whatever the number of variables.
#[derive(Debug, Drop)]
pub struct Trail {
    marks: Vec<Mark>,
    lits: Vec<Lit>,
}

impl Model for Trail {
    ghost use Rattle.std.specs.Prelude.{length};
    ghost use Rattle.eq_proof.specs.Assigned.{Assigned};

    ghost Value = { Assigned };

    ghost use Rattle.eq_proof.specs.Marks.{IsTrail};

    ghost view = { λ t. record { size = length t.marks.items; lits = t.lits.items } };

    ghost invariant = { λ t. IsTrail t.marks.items t.lits.items };
}

impl Trail {
    ghost use Rattle.eq_proof.specs.Marks.{HasValue};

    /// No literal of the variables below `size` is true.
    pub fn new(alloc: Global, size: usize) -> Result<Trail, Memory>
        ensures size { IfOk result (λ trail. trail.size ≡ size) }
        ensures none { IfOk result (λ trail. trail.lits ≡ []) }
    {
        let marks = vec![in alloc; Mark::Open; size]?;
        Ok(Trail {
            marks,
            lits: Vec::new(alloc),
        })
    }

    pub fn value(&self, l: Lit) -> Value
        requires { l.var < self.now.size }
        ensures value { HasValue self.now.lits l result }
        ensures consistent { IsConsistent self.now.lits }
    {
        value_by(self.marks[l.var() as usize], l.positive())
    }

    /// Makes a literal true.
    pub fn assign(&mut self, l: Lit) -> Result<(), Memory>
        requires within { l.var < self.old.size }
        requires no_value { HasNoValue self.old.lits l }
        ensures ok { OnOk result (self.new.lits ≡ self.old.lits ++ l ∷ []) }
        ensures room { OnOk result (length self.new.lits ≤ self.new.size) }
        ensures err { OnErr result (self.new.lits ≡ self.old.lits) }
        ensures size { self.new.size ≡ self.old.size }
    {
        self.lits.push(l)?;
        self.marks[l.var() as usize] = mark_by(l.positive());
        Ok(())
    }

    /// Takes the last literal back.
    pub fn pop(&mut self) -> Option<Lit>
        ensures last { MatchOption result ((self.old.lits ≡ []) × (self.new.lits ≡ [])) (λ l. self.old.lits ≡ self.new.lits ++ l ∷ []) }
        ensures size { self.new.size ≡ self.old.size }
    {
        let l = self.lits.pop()?;
        self.marks[l.var() as usize] = Mark::Open;
        Some(l)
    }

    /// Takes all literals back.
    pub fn clear(&mut self)
        ensures none { self.new.lits ≡ [] }
        ensures size { self.new.size ≡ self.old.size }
    {
        while let Some(_) = self.pop() {}
    }
}
