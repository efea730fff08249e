//! Laws of the formulas, over the definitions alone. Each is the contract of a function that does nothing.

ghost use Rattle.std.specs.Prelude.{ℕ, ◌≤◌, ◌↔◌, All, Bool, Contains, List, length};
ghost use Rattle.eq_model.specs.System.{Agree, Values, Solves, nothing};
ghost use Rattle.eq_proof.specs.Literal.{Literal};
ghost use Rattle.eq_proof.specs.Clause.{IsClause};
ghost use Rattle.eq_proof.specs.Satisfying.{SatisfiesAll};
ghost use Rattle.eq_bits.specs.Node.{system_of};
ghost use Rattle.eq_unroll.specs.Unrolling.{ordered, unrolled, variable_count};
ghost use Rattle.eq_unroll.specs.Values.{IsSatisfiable, node_values};
ghost use Rattle.eq_unroll.specs.Query.{Holds, Shows, frame_count};

use crate::query::Query;
use eq_bits::Part;
use eq_bits::laws::part_is_one;
use eq_model::laws::solved;

/// A query holds of a part exactly where the nodes' values in some run are as the query asks.
pub fn holds_where_shown()
    ensures { (part : Part) (q : Query) (k : ℕ) → 1 ≤ k →
        (Holds part q k ↔ ((x : ℕ → Values) ×
        Solves (system_of part.nodes) nothing (frame_count q k) x × Shows part q k x)) }
{
    part_is_one();
    solved();
}

/// Values that satisfy a query's formula are, on the nodes, those of a run that is as the query asks; and the nodes' values
/// in such a run are those of values that satisfy it.
pub fn satisfied_by_runs()
    ensures run { (part : Part) (q : Query) (k : ℕ) (values : ℕ → Bool) → 1 ≤ k →
        SatisfiesAll values (unrolled part q k) →
        Solves (system_of part.nodes) nothing (frame_count q k)
        (node_values values (length part.nodes)) ×
        Shows part q k (node_values values (length part.nodes)) }
    ensures values { (part : Part) (q : Query) (k : ℕ) (x : ℕ → Values) → 1 ≤ k →
        Solves (system_of part.nodes) nothing (frame_count q k) x → Shows part q k x →
        (values : ℕ → Bool) × SatisfiesAll values (unrolled part q k) ×
        Agree (system_of part.nodes) (frame_count q k)
        (node_values values (length part.nodes)) x }
{
    part_is_one();
}

/// A query's formula is satisfiable exactly where the query holds of the part.
pub fn satisfiable_where_held()
    ensures { (part : Part) (q : Query) (k : ℕ) → 1 ≤ k →
        (IsSatisfiable (unrolled part q k) ↔ Holds part q k) }
{
    part_is_one();
    solved();
}

/// The variables of a formula's literals are the numbers from 1 to the greatest variable.
pub fn variables()
    ensures { (part : Part) (q : Query) (k : ℕ) → 1 ≤ k →
        All (All (λ l. (1 ≤ l.var) × (l.var ≤ variable_count part q k))) (unrolled part q k) }
{}

/// What is put in order is a clause, and has the same literals.
pub fn ordered_is_a_clause()
    ensures ordered { (ls : List Literal) → IsClause (ordered ls) }
    ensures members { (ls : List Literal) (l : Literal) →
        (Contains (ordered ls) l ↔ Contains ls l) }
{}
