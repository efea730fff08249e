//! What all rows say together.

ghost use Rattle.std.specs.Prelude.{◌≡◌, ◌↔◌, All, Any, true};
ghost use Rattle.eq_model.specs.Agreement.{SameDesign};
ghost use Rattle.eq_model.specs.Run.{Design, Equivalent};
ghost use Rattle.eq_net.specs.Net.{design_of};
ghost use Rattle.eq_net.specs.Whole.{parts_of};
ghost use Rattle.eq_part.specs.Plans.{IsPlanOf};
ghost use Rattle.eq_compose.specs.Rows.{AreRight, AreRowsOf, SaysFail, SaysProved, is_failure, is_proof};
ghost use Rattle.eq_compose.specs.declared.types.Whole.TheVariants.{Fail, Pass, Unknown};

use crate::types::{Row, Verdict, Whole};
use eq_model::laws::{agreement, all_proved};
use eq_net::Net;
use eq_net::laws::net_is_design;
use eq_part::Plan;

impl Row {
    fn is_proved(&self) -> bool
        ensures { result ≡ is_proof self.now.verdict }
    {
        matches!(self.verdict, Verdict::Proved { .. })
    }

    fn is_fail(&self) -> bool
        ensures { result ≡ is_failure self.now.verdict }
    {
        matches!(self.verdict, Verdict::Fail { .. })
    }
}

/// Pass exactly where every row is proved, also where there is none; fail exactly where a row is; else unknown.
pub fn whole(rows: &[Row]) -> Whole
    ensures pass { (result ≡ Pass) ↔ All SaysProved rows.now }
    ensures fail { (result ≡ Fail) ↔ Any SaysFail rows.now }
{
    if rows.iter().any(|row| row.is_fail()) {
        return Whole::Fail;
    }
    if rows.iter().all(|row| row.is_proved()) {
        Whole::Pass
    } else {
        Whole::Unknown
    }
}

/// What the rows of a plan say of its two netlists. It takes no memory.
pub fn conclude(gold: &Net, gate: &Net, plan: &Plan, rows: &[Row]) -> Whole
    requires plan { IsPlanOf (parts_of gold.now) (parts_of gate.now) plan.now }
    requires rows { AreRowsOf plan.now rows.now }
    requires right { AreRight (parts_of gold.now) (parts_of gate.now) plan.now rows.now }
    ensures pass { (result ≡ Pass) ↔ All SaysProved rows.now }
    ensures fail { (result ≡ Fail) ↔ Any SaysFail rows.now }
    ensures equivalent { result ≡ Pass →
        Equivalent (design_of (parts_of gold.now)) (design_of (parts_of gate.now)) }
    // So it is of whatever designs these netlists were made from.
    ensures sources { result ≡ Pass → (d e : Design) →
        SameDesign (design_of (parts_of gold.now)) d → SameDesign (design_of (parts_of gate.now)) e →
        Equivalent d e }
{
    all_proved();
    agreement();
    net_is_design();
    whole(rows)
}
