//! Laws of derivations and of freshness, each a function without a body whose contract is the law.
ghost use Rattle.eq_proof.specs.Laws.{DerivationKeeps, EmptyRefutes, EmptyIsStale, SupersetIsStale};

/// Values that satisfy the clauses before a derivation satisfy its clause.
pub fn derivation_keeps()
    ensures { DerivationKeeps }
{}

/// No values satisfy clauses from which the empty clause is derived.
pub fn empty_refutes()
    ensures { EmptyRefutes }
{}

/// The empty clause is never fresh.
pub fn empty_is_stale()
    ensures { EmptyIsStale }
{}

/// A clause isn't fresh where an earlier one has no other literals.
pub fn superset_is_stale()
    ensures { SupersetIsStale }
{}
