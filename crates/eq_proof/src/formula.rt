//! Formulas.
ghost use Rattle.std.specs.Prelude.{◌≤◌, All};

use crate::clauses::Clauses;

/// Clauses over the variables from 1 to `vars`.
#[derive(Debug, Drop)]
pub struct Formula {
    pub vars: u32,
    pub clauses: Clauses,
    pub ghost within: { All (λ clause. All (λ l. l.var ≤ vars) clause) clauses },
}
