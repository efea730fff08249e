//! Clauses of two or three literals, put in order without memory of their own.

ghost use Rattle.std.specs.Prelude.{◌≡◌, ◌+◌, ◌<◌, ◌^◌, [], ◌∷◌, ◌++◌, OnOk};
ghost use Rattle.eq_proof.specs.Literal.{code_of};
ghost use Rattle.eq_unroll.specs.Unrolling.{insert, literal, ordered};

use eq_base::Memory;
use eq_proof::{Clauses, Lit};

/// The literal of the variable of number m, from 0, after `before` others.
pub fn literal(before: u32, m: u32) -> Lit
    requires { before + m + 1 < 2 ^ 31 }
    ensures { result ≡ literal before m }
{
    Lit::new(before + m + 1, true)
}

/// The number that keeps the literals' order.
fn code(lit: Lit) -> u32
    ensures { result ≡ code_of lit }
{
    2 * lit.var() + if lit.positive() { 0 } else { 1 }
}

/// Appends the clause of one literal.
pub fn push_one(clauses: &mut Clauses, a: Lit) -> Result<(), Memory>
    ensures { OnOk result (clauses.new ≡ clauses.old ++ ordered (a ∷ []) ∷ []) }
{
    let lits = [a];
    clauses.push_lits(&lits)
}

/// Appends the clause of two literals.
pub fn push_two(clauses: &mut Clauses, a: Lit, b: Lit) -> Result<(), Memory>
    ensures { OnOk result (clauses.new ≡ clauses.old ++ ordered (a ∷ b ∷ []) ∷ []) }
{
    if code(a) == code(b) {
        push_one(clauses, b)
    } else if code(a) < code(b) {
        let lits = [a, b];
        clauses.push_lits(&lits)
    } else {
        let lits = [b, a];
        clauses.push_lits(&lits)
    }
}

/// Appends the clause of two literals in order and of one more.
fn push_into(clauses: &mut Clauses, a: Lit, low: Lit, high: Lit) -> Result<(), Memory>
    requires { code_of low < code_of high }
    ensures { OnOk result (clauses.new ≡ clauses.old ++ insert a (low ∷ high ∷ []) ∷ []) }
{
    if code(a) == code(low) || code(a) == code(high) {
        push_two(clauses, low, high)
    } else if code(a) < code(low) {
        let lits = [a, low, high];
        clauses.push_lits(&lits)
    } else if code(a) < code(high) {
        let lits = [low, a, high];
        clauses.push_lits(&lits)
    } else {
        let lits = [low, high, a];
        clauses.push_lits(&lits)
    }
}

/// Appends the clause of three literals.
pub fn push_three(clauses: &mut Clauses, a: Lit, b: Lit, c: Lit) -> Result<(), Memory>
    ensures { OnOk result (clauses.new ≡ clauses.old ++ ordered (a ∷ b ∷ c ∷ []) ∷ []) }
{
    if code(b) == code(c) {
        push_two(clauses, a, c)
    } else if code(b) < code(c) {
        push_into(clauses, a, b, c)
    } else {
        push_into(clauses, a, c, b)
    }
}
