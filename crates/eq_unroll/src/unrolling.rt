//! The formula of a query.

ghost use Rattle.std.specs.Prelude.{◌≡◌, ◌↔◌, IfOk};
ghost use Rattle.eq_unroll.specs.Unrolling.{unrolled, variable_count};
ghost use Rattle.eq_unroll.specs.Values.{IsSatisfiable};
ghost use Rattle.eq_unroll.specs.Query.{Holds, IsUnrollable};

use crate::frames::{push_agreements, push_any, push_differences, push_frames};
use crate::laws::{satisfiable_where_held, variables};
use crate::query::Query;
use eq_base::Memory;
use eq_bits::Part;
use eq_proof::{Clauses, Formula};
use std::alloc::Global;

/// The formula that says that a query holds of a part at k cycles.
pub fn formula(alloc: Global, part: &Part, q: Query, k: u32) -> Result<Formula, Memory>
    requires { IsUnrollable part.now k }
    ensures clauses { IfOk result (λ f. f.clauses ≡ unrolled part.now q k) }
    ensures vars { IfOk result (λ f. f.vars ≡ variable_count part.now q k) }
    ensures satisfiable { IfOk result (λ f. IsSatisfiable f.clauses ↔ Holds part.now q k) }
{
    satisfiable_where_held();
    variables();
    let clauses = unrolled(alloc, part, q, k)?;
    let vars = q.frame_count(k) * part.nodes.len() as u32 + part.outputs.len() as u32;
    Ok(Formula { vars, clauses })
}

/// The clauses of the formula.
fn unrolled(alloc: Global, part: &Part, q: Query, k: u32) -> Result<Clauses, Memory>
    requires { IsUnrollable part.now k }
    ensures { IfOk result (λ clauses. clauses ≡ unrolled part.now q k) }
{
    let nodes = part.nodes.as_slice();
    let outputs = part.outputs.as_slice();
    let n = nodes.len() as u32;
    let frames = q.frame_count(k);
    let mut clauses = Clauses::new(alloc);
    push_frames(&mut clauses, q, nodes, frames)?;
    push_agreements(&mut clauses, n, outputs, q.agreeing(k))?;
    push_differences(&mut clauses, n, outputs, q.last_frame(k), frames)?;
    push_any(alloc, &mut clauses, frames * n, outputs.len() as u32)?;
    Ok(clauses)
}
