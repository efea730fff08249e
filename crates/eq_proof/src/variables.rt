//! The highest variables of clauses and logs.
ghost use Rattle.std.specs.Prelude.{◌≤◌, All};
ghost use Rattle.eq_proof.specs.Clause.{IsClause};
ghost use Rattle.eq_proof.specs.Inference.{clauses_of};

use crate::lit::Lit;
use crate::log::Log;

/// The highest variable of a log's clauses, or 0 where there is none.
pub fn highest(log: &Log) -> u32
    ensures { All (All (λ l. l.var ≤ result)) (clauses_of log.now) }
{
    let mut most = 0;
    for index in 0..log.len() {
        most = highest_of(log.at(index).clause).max(most);
    }
    most
}

/// The highest variable of a clause, or 0 where it is empty.
pub fn highest_of(clause: &[Lit]) -> u32
    requires { IsClause clause.now }
    ensures { All (λ l. l.var ≤ result) clause.now }
{
    match clause.last() {
        Some(last) => last.var(),
        None => 0,
    }
}
