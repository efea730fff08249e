//! The trail: the true literals in the order in which they became so, each with its reason.
ghost use Rattle.std.specs.Prelude.{◌≡◌, ◌<◌, ◌≤◌, ◌-◌, ◌^◌, ◌↔◌, [], length, slice_get, true, IsTrue, Contains, IfOk, OnOk, OnErr, IsSome, IfSome, MatchOption};
ghost use Rattle.eq_proof.specs.Literal.{Literal};
ghost use Rattle.eq_proof.specs.Sets.{HasNoValue};

use crate::short::short;
use crate::slots::{holds_by, value_by};
use eq_base::Memory;
use eq_proof::Lit;
use std::alloc::Global;
use std::marker::Model;

/// Where a variable's literal stands on the trail, and its sign.
#[derive(Clone, Copy, Debug)]
pub enum Slot {
    Open,
    Taken(u32, bool),
}

/// The value of a literal.
#[derive(Clone, Copy, Debug)]
pub enum Value {
    Unassigned,
    True,
    False,
}

/// Why a literal is on the trail. A decision begins a level.
#[derive(Clone, Copy, Debug)]
pub enum Reason {
    Decision,
    /// The number of a clause whose other literals are all false.
    Implied(u32),
}

/// The true literals with their reasons, and for each variable the place of its literal.
#[derive(Debug, Drop)]
pub struct Trail {
    slots: Vec<Slot>,
    lits: Vec<Lit>,
    reasons: Vec<Reason>,
}

impl Model for Trail {
    ghost use Rattle.std.specs.Prelude.{length};
    ghost use Rattle.eq_cdcl.specs.inner.Assignment.{Assignment};

    ghost Value = { Assignment };

    ghost use Rattle.eq_cdcl.specs.inner.Slots.{IsTrail};

    ghost view = { λ t. record { size = length t.slots.items; lits = t.lits.items; reasons = t.reasons.items } };

    ghost invariant = { λ t. IsTrail t.slots.items t.lits.items t.reasons.items };
}

impl Trail {
    ghost use Rattle.eq_cdcl.specs.inner.Assignment.{extended, cut_to};
    ghost use Rattle.eq_cdcl.specs.inner.Slots.{HasValue, HasVariable, IsAtPlace, IsProper};

    /// No literal of the variables below `size` is true.
    pub fn new(alloc: Global, size: usize) -> Result<Trail, Memory>
        ensures { IfOk result (λ trail. trail ≡ record { size = size; lits = []; reasons = [] }) }
    {
        let slots = vec![in alloc; Slot::Open; size]?;
        Ok(Trail {
            slots,
            lits: Vec::with_capacity(alloc, size)?,
            reasons: Vec::with_capacity(alloc, size)?,
        })
    }

    /// How many literals are true.
    pub fn len(&self) -> usize
        ensures value { result ≡ length self.now.lits }
        ensures room { result ≤ self.now.size }
        ensures same { length self.now.reasons ≡ length self.now.lits }
    {
        self.lits.len()
    }

    pub fn value(&self, l: Lit) -> Value
        requires { l.var < self.now.size }
        ensures value { HasValue self.now.lits l result }
        ensures proper { IsProper l }
    {
        value_by(self.slots[l.var() as usize], l.positive())
    }

    /// Whether the positive literal of a variable is true.
    pub fn holds(&self, var: usize) -> bool
        requires { var < self.now.size }
        ensures { IsTrue result ↔ Contains self.now.lits (record { var = var; positive = true }) }
    {
        holds_by(self.slots[var])
    }

    /// The literal at a place.
    pub fn lit(&self, place: usize) -> Lit
        requires { place < length self.now.lits }
        ensures { slice_get self.now.lits place ≡ Some result }
    {
        self.lits[place]
    }

    /// The reason of the literal at a place.
    pub fn reason(&self, place: usize) -> Reason
        requires { place < length self.now.reasons }
        ensures value { slice_get self.now.reasons place ≡ Some result }
        ensures few { length self.now.reasons < 2 ^ 63 }
    {
        self.reasons[place]
    }

    /// The place of the literal of a variable that has a value.
    pub fn place(&self, l: Lit) -> usize
        requires { HasVariable self.now.lits l.var }
        ensures { IsAtPlace self.now.lits l.var result }
    {
        match self.slots[l.var() as usize] {
            Slot::Taken(place, _) => place as usize,
            Slot::Open => unreachable!(),
        }
    }

    /// Makes a literal true.
    pub fn assign(&mut self, l: Lit, reason: Reason) -> Result<(), Memory>
        requires within { l.var < self.old.size }
        requires no_value { HasNoValue self.old.lits l }
        ensures ok { OnOk result (self.new ≡ extended self.old l reason) }
        ensures room { OnOk result (length self.new.lits ≤ self.new.size) }
        ensures proper { OnOk result (IsProper l) }
    {
        let place = short(self.lits.len() as u64)?;
        self.reasons.push(reason)?;
        match self.lits.push(l) {
            Ok(()) => {
                self.slots[l.var() as usize] = Slot::Taken(place, l.positive());
                Ok(())
            }
            Err(_) => {
                self.reasons.pop();
                Err(Memory)
            }
        }
    }

    /// Makes a literal true by the clause with a number.
    pub fn imply(&mut self, l: Lit, number: u64) -> Result<(), Memory>
        requires within { l.var < self.old.size }
        requires no_value { HasNoValue self.old.lits l }
        ensures ok { OnOk result (self.new ≡ extended self.old l (Reason.Implied number)) }
        ensures room { OnOk result (length self.new.lits ≤ self.new.size) }
        ensures proper { OnOk result (IsProper l) }
    {
        let kept = short(number)?;
        self.assign(l, Reason::Implied(kept))
    }

    /// Takes back all literals but the first `len`.
    pub fn cut(&mut self, len: usize)
        requires { len ≤ length self.old.lits }
        ensures { self.new ≡ cut_to len self.old }
    {
        while self.len() > len {
            self.pop();
        }
    }

    // Takes back the last literal.
    fn pop(&mut self)
        requires { 0 < length self.old.lits }
        ensures { self.new ≡ cut_to (length self.old.lits - 1) self.old }
    {
        self.reasons.pop();
        if let Some(l) = self.lits.pop() {
            self.slots[l.var() as usize] = Slot::Open;
        }
    }
}
