//! The clauses of one node, kind by kind, and of two literals that are to be equal or to differ.

ghost use Rattle.std.specs.Prelude.{◌≡◌, ◌+◌, ◌*◌, ◌<◌, ◌^◌, [], ◌∷◌, ◌++◌, true, map, OnOk};
ghost use Rattle.eq_bits.specs.Node.{IsNode};
ghost use Rattle.eq_unroll.specs.Unrolling.{and_rows, differ_rows, mux_rows, not_rows, ordered, register_rows, rows_at, same_rows, xor_rows};

use crate::literals::{literal, push_one, push_three, push_two};
use crate::query::Query;
use eq_base::Memory;
use eq_bits::Node;
use eq_proof::{Clauses, Lit};

fn push_not(clauses: &mut Clauses, v: Lit, a: Lit) -> Result<(), Memory>
    ensures { OnOk result (clauses.new ≡ clauses.old ++ map ordered (not_rows v a)) }
{
    push_two(clauses, v, a)?;
    push_two(clauses, v.negation(), a.negation())
}

fn push_and(clauses: &mut Clauses, v: Lit, a: Lit, b: Lit) -> Result<(), Memory>
    ensures { OnOk result (clauses.new ≡ clauses.old ++ map ordered (and_rows v a b)) }
{
    push_two(clauses, v.negation(), a)?;
    push_two(clauses, v.negation(), b)?;
    push_three(clauses, v, a.negation(), b.negation())
}

fn push_xor(clauses: &mut Clauses, v: Lit, a: Lit, b: Lit) -> Result<(), Memory>
    ensures { OnOk result (clauses.new ≡ clauses.old ++ map ordered (xor_rows v a b)) }
{
    push_three(clauses, v.negation(), a, b)?;
    push_three(clauses, v.negation(), a.negation(), b.negation())?;
    push_three(clauses, v, a.negation(), b)?;
    push_three(clauses, v, a, b.negation())
}

fn push_mux(clauses: &mut Clauses, v: Lit, s: Lit, a: Lit, b: Lit) -> Result<(), Memory>
    ensures { OnOk result (clauses.new ≡ clauses.old ++ map ordered (mux_rows v s a b)) }
{
    push_three(clauses, s.negation(), a.negation(), v)?;
    push_three(clauses, s.negation(), a, v.negation())?;
    push_three(clauses, s, b.negation(), v)?;
    push_three(clauses, s, b, v.negation())
}

/// Appends the clauses that two literals are equal.
pub fn push_same(clauses: &mut Clauses, v: Lit, a: Lit) -> Result<(), Memory>
    ensures { OnOk result (clauses.new ≡ clauses.old ++ map ordered (same_rows v a)) }
{
    push_two(clauses, v.negation(), a)?;
    push_two(clauses, v, a.negation())
}

/// Appends the clauses that two literals differ where d is true.
pub fn push_differ(clauses: &mut Clauses, d: Lit, g: Lit, h: Lit) -> Result<(), Memory>
    ensures { OnOk result (clauses.new ≡ clauses.old ++ map ordered (differ_rows d g h)) }
{
    push_three(clauses, d.negation(), g, h)?;
    push_three(clauses, d.negation(), g.negation(), h.negation())
}

/// Appends the clause that a literal is true, or false.
fn push_value(clauses: &mut Clauses, v: Lit, value: bool) -> Result<(), Memory>
    requires { v.positive ≡ true }
    ensures { OnOk result (clauses.new ≡ clauses.old ++
        map ordered (((record { var = v.var; positive = value }) ∷ []) ∷ [])) }
{
    if value {
        push_one(clauses, v)
    } else {
        push_one(clauses, v.negation())
    }
}

/// Appends the clauses of the register m of n nodes in frame f.
fn push_register(
    clauses: &mut Clauses,
    q: Query,
    n: u32,
    f: u32,
    m: u32,
    next: u32,
    init: bool,
) -> Result<(), Memory>
    requires node { m < n }
    requires next { next < n }
    requires fits { f * n + n < 2 ^ 31 }
    ensures { OnOk result (clauses.new ≡ clauses.old ++
        map ordered (register_rows f n q m next init)) }
{
    let v = literal(f * n, m);
    if f > 0 {
        return push_same(clauses, v, literal((f - 1) * n, next));
    }
    match q {
        Query::Base => push_value(clauses, v, init),
        Query::Step => Ok(()),
    }
}

/// Appends the clauses of node m of n nodes in frame f.
pub fn push_node(
    clauses: &mut Clauses,
    q: Query,
    n: u32,
    f: u32,
    m: u32,
    node: Node,
) -> Result<(), Memory>
    requires node { m < n }
    requires operands { IsNode n m node }
    requires fits { f * n + n < 2 ^ 31 }
    ensures { OnOk result (clauses.new ≡ clauses.old ++ map ordered (rows_at f n q m node)) }
{
    let before = f * n;
    let v = literal(before, m);
    match node {
        Node::Const(value) => push_value(clauses, v, value),
        Node::Input(_) => Ok(()),
        Node::Not(a) => push_not(clauses, v, literal(before, a)),
        Node::And(a, b) => push_and(clauses, v, literal(before, a), literal(before, b)),
        Node::Xor(a, b) => push_xor(clauses, v, literal(before, a), literal(before, b)),
        Node::Mux(s, a, b) => {
            let (s, a, b) = (literal(before, s), literal(before, a), literal(before, b));
            push_mux(clauses, v, s, a, b)
        }
        Node::Buf(a) => push_same(clauses, v, literal(before, a)),
        Node::Reg { next, init } => push_register(clauses, q, n, f, m, next, init),
    }
}
