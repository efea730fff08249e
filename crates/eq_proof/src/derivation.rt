//! Whether a step is a derivation from the clauses before it.
ghost use Rattle.std.specs.Prelude.{◌≡◌, ◌↔◌, [], IsTrue, All, IfOk, OnOk, MatchBool, map};
ghost use Rattle.eq_proof.specs.Literal.{negation};
ghost use Rattle.eq_proof.specs.Clause.{IsClause};
ghost use Rattle.eq_proof.specs.Assigned.{AllBelow};
ghost use Rattle.eq_proof.specs.Sets.{IsConsistent};
ghost use Rattle.eq_proof.specs.Derivation.{IsDerivation, Refutes};

use crate::earlier::Earlier;
use crate::judgement::{Judgement, judge};
use crate::lit::Lit;
use crate::trail::{Trail, Value};
use eq_base::Memory;

/// Whether a step with this clause and these antecedents is a derivation. The trail is empty before and after.
///
/// The cost is the length of the clause and of the antecedents that are visited.
pub fn derives(
    trail: &mut Trail,
    before: &Earlier<'_>,
    clause: &[Lit],
    ants: &[u64],
) -> Result<bool, Memory>
    requires empty { trail.old.lits ≡ [] }
    requires ordered { IsClause clause.now }
    requires clause_below { AllBelow trail.old.size clause.now }
    requires before_below { All (AllBelow trail.old.size) before.now }
    ensures answer { IfOk result (λ yes. IsTrue yes ↔ IsDerivation before.now (record { clause = clause.now; ants = ants.now })) }
    ensures empty { OnOk result (trail.new.lits ≡ []) }
    ensures size { trail.new.size ≡ trail.old.size }
{
    if !assume_false(trail, clause)? {
        trail.clear();
        return Ok(false);
    }
    let yes = refutes(trail, before, ants)?;
    trail.clear();
    Ok(yes)
}

// Makes the literals of a clause false, in order, unless one stands beside its negation.
fn assume_false(trail: &mut Trail, clause: &[Lit]) -> Result<bool, Memory>
    requires empty { trail.old.lits ≡ [] }
    requires ordered { IsClause clause.now }
    requires below { AllBelow trail.old.size clause.now }
    ensures answer { IfOk result (λ yes. MatchBool yes (IsConsistent clause.now) (¬ IsConsistent clause.now)) }
    ensures lits { IfOk result (λ yes. IsTrue yes → trail.new.lits ≡ map negation clause.now) }
    ensures size { trail.new.size ≡ trail.old.size }
{
    for l in clause {
        let negation = l.negation();
        match trail.value(negation) {
            Value::Unassigned => trail.assign(negation)?,
            Value::True => return Ok(false),
            Value::False => return Ok(false),
        }
    }
    Ok(true)
}

// Whether each antecedent but the last is unit, its literal becoming true, and the last has all literals false.
fn refutes(trail: &mut Trail, before: &Earlier<'_>, ants: &[u64]) -> Result<bool, Memory>
    requires { All (AllBelow trail.old.size) before.now }
    ensures answer { IfOk result (λ yes. IsTrue yes ↔ Refutes before.now trail.old.lits ants.now) }
    ensures size { trail.new.size ≡ trail.old.size }
{
    for (place, number) in ants.iter().enumerate() {
        let Some(clause) = before.get(*number) else {
            return Ok(false);
        };
        match judge(trail, clause) {
            Judgement::Conflict => return Ok(place + 1 == ants.len()),
            Judgement::Propagates(l) => trail.assign(l)?,
            Judgement::Idle => return Ok(false),
        }
    }
    Ok(false)
}
