//! Propagation and decisions in turn, up to a conflict or to values for all variables.
ghost use Rattle.std.specs.Prelude.{◌≡◌, ◌<◌, ◌≤◌, All, length, IfOk, OnOk, IfSome, IfNone};
ghost use Rattle.eq_proof.specs.Assigned.{AllBelow};
ghost use Rattle.eq_proof.specs.Sets.{HasNoValue, IsConsistent};
ghost use Rattle.eq_cdcl.specs.inner.Sound.{IsSound};
ghost use Rattle.eq_cdcl.specs.inner.Halting.{Halts, AllHaveValues, GivesValues};
ghost use Rattle.eq_cdcl.specs.inner.Watched.{Watching};

use crate::heuristics::Heuristics;
use crate::known::Known;
use crate::propagation::{Propagated, propagate};
use crate::trail::{Reason, Trail, Value};
use crate::watches::Watches;
use eq_base::{Bits, Memory};
use eq_proof::Lit;
use std::alloc::Global;

/// How the search halts.
#[derive(Clone, Copy, Debug)]
pub enum Halt {
    /// The clause with this number is falsified.
    Conflict(u64),
    /// All variables have values, and all clauses are satisfied.
    Satisfied,
}

const LAST_VARIABLE: u32 = 0x7fff_ffff;

/// Decides and propagates until a clause is falsified or all variables have values.
pub fn search(
    trail: &mut Trail,
    watches: &mut Watches,
    known: &Known<'_>,
    heuristics: &mut Heuristics,
    vars: u32,
) -> Result<Halt, Memory>
    requires vars { vars < trail.old.size }
    requires below { All (AllBelow trail.old.size) known.now }
    requires sound { IsSound known.now trail.old }
    requires watching { Watching known.now trail.old watches.old }
    ensures sound { OnOk result (IsSound known.now trail.new) }
    ensures watching { OnOk result (Watching known.now trail.new watches.new) }
    ensures found { IfOk result (Halts known.now vars trail.new.lits) }
    ensures size { OnOk result (trail.new.size ≡ trail.old.size) }
{
    loop {
        match propagate(trail, watches, known)? {
            Propagated::Conflict(number) => return Ok(Halt::Conflict(number)),
            Propagated::Settled => match decide(trail, heuristics, vars) {
                Some(l) => trail.assign(l, Reason::Decision)?,
                None => return Ok(Halt::Satisfied),
            },
        }
    }
}

// A literal of a variable without value: the first one in the heuristics' order. Where no variable is left there, all are
// looked at.
fn decide(trail: &Trail, heuristics: &mut Heuristics, vars: u32) -> Option<Lit>
    requires { vars < trail.now.size }
    ensures within { IfSome result (λ l. l.var < trail.now.size) }
    ensures no_value { IfSome result (λ l. HasNoValue trail.now.lits l) }
    ensures none { IfNone result (AllHaveValues vars trail.now.lits) }
{
    while let Some((var, sign)) = heuristics.next() {
        if let Some(l) = open_literal(trail, vars, var, sign) {
            return Some(l);
        }
    }
    first_open(trail, vars)
}

// A variable's literal with a sign, where it is one of the first `vars` and has no value.
fn open_literal(trail: &Trail, vars: u32, var: u32, sign: bool) -> Option<Lit>
    requires { vars < trail.now.size }
    ensures within { IfSome result (λ l. l.var < trail.now.size) }
    ensures no_value { IfSome result (λ l. HasNoValue trail.now.lits l) }
{
    if var == 0 || vars < var || LAST_VARIABLE < var {
        return None;
    }
    let l = Lit::new(var, sign);
    match trail.value(l) {
        Value::Unassigned => Some(l),
        Value::True => None,
        Value::False => None,
    }
}

// The negative literal of the first variable without value.
fn first_open(trail: &Trail, vars: u32) -> Option<Lit>
    requires { vars < trail.now.size }
    ensures within { IfSome result (λ l. l.var < trail.now.size) }
    ensures no_value { IfSome result (λ l. HasNoValue trail.now.lits l) }
    ensures none { IfNone result (AllHaveValues vars trail.now.lits) }
{
    for before in 0..vars.min(LAST_VARIABLE) {
        let l = Lit::new(before + 1, false);
        match trail.value(l) {
            Value::Unassigned => return Some(l),
            Value::True => {}
            Value::False => {}
        }
    }
    None
}

/// The values of the variables from 1 to `vars`, false where there is none.
pub fn values(alloc: Global, trail: &Trail, vars: u32) -> Result<Bits, Memory>
    requires vars { vars < trail.now.size }
    requires consistent { IsConsistent trail.now.lits }
    ensures len { IfOk result (λ bits. length bits ≡ vars) }
    ensures values { IfOk result (GivesValues vars trail.now.lits) }
{
    let mut bits = Bits::new(alloc);
    for before in 0..vars {
        bits.push(trail.holds(before as usize + 1))?;
    }
    Ok(bits)
}
