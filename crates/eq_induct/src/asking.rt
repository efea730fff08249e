//! One query asked of the solver.

ghost use Rattle.std.specs.Prelude.{◌≡◌, ◌≤◌, IfOk, length};
ghost use Rattle.eq_unroll.specs.Query.{IsUnrollable};
ghost use Rattle.eq_config.specs.declared.limits.TheConstants.{MOST_CONFLICTS};
ghost use Rattle.eq_induct.specs.Answers.{learned_for};
ghost use Rattle.eq_induct.specs.inner.Asking.{IsCounted, IsFound, IsNext, IsSolved};

use crate::types::{Answer, End};
use eq_base::Memory;
use eq_bits::Part;
use eq_cdcl::{Solved, solve};
use eq_unroll::{Query, formula, run_of};
use std::alloc::Global;

/// What the solver says of the query's formula, which is let go of here.
fn solved(alloc: Global, part: &Part, q: Query, k: u32, left: u64) -> Result<Solved, Memory>
    requires unrollable { IsUnrollable part.now k }
    requires few { left ≤ MOST_CONFLICTS }
    ensures { IfOk result (IsSolved part.now q k left) }
{
    let f = formula(alloc, part, q, k)?;
    solve(alloc, &f, left)
}

/// The answer to a query, for which at most `left` clauses are learned.
pub fn ask(alloc: Global, part: &Part, q: Query, k: u32, left: u64) -> Result<Answer, Memory>
    requires unrollable { IsUnrollable part.now k }
    requires few { left ≤ MOST_CONFLICTS }
    ensures { IfOk result (IsFound part.now q k left) }
{
    match solved(alloc, part, q, k, left)? {
        Solved::Sat(values) => Ok(Answer::Sat(run_of(alloc, part, q, k, values.as_slice())?)),
        Solved::Unsat(log) => Ok(Answer::Unsat(log)),
        Solved::Spent(log) => Ok(Answer::Spent(log)),
    }
}

/// How many clauses were learned for an answer.
pub fn learned_for(answer: &Answer) -> u64
    requires { IsCounted answer.now }
    ensures { result ≡ learned_for answer.now }
{
    match answer {
        Answer::Sat(_) => 0,
        Answer::Unsat(log) => u64::from(log.len()) - 1,
        Answer::Spent(log) => u64::from(log.len()),
    }
}

/// How an attempt ends with an answer, or that it goes on.
pub fn end_of(query: Query, k: u32, answer: &Answer) -> Option<End>
    ensures { IsNext query k answer.now result }
{
    match answer {
        Answer::Sat(_) => match query {
            Query::Base => Some(End::Fail(k)),
            Query::Step => None,
        },
        Answer::Unsat(_) => match query {
            Query::Base => None,
            Query::Step => Some(End::Proved(k)),
        },
        Answer::Spent(_) => Some(End::Spent),
    }
}
