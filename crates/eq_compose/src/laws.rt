//! Laws of rows.

ghost use Rattle.std.specs.Prelude.{ℕ};
ghost use Rattle.eq_model.specs.Denotes.{Denotes};
ghost use Rattle.eq_model.specs.Kind.{IsKind, proved};
ghost use Rattle.eq_model.specs.Part.{Part, PartBase, PartStep};
ghost use Rattle.eq_net.specs.Net.{Parts, system_of};
ghost use Rattle.eq_part.specs.declared.plan.Plan.{Plan};
ghost use Rattle.eq_part.specs.Plans.{plan_of};
ghost use Rattle.eq_compose.specs.Rows.{NeverDiffers};

use eq_model::laws::queries;

/// Where k-induction answers proved on a part that denotes a partition, a row that says so is right
/// (proofs/Provings.antt).
pub fn a_proved_part_never_differs()
    ensures { (gold gate : Parts) (plan : Plan) (q : ℕ) (part : Part) (depth k : ℕ) →
        Denotes (system_of gold) (system_of gate) (plan_of gold gate plan)
        ((plan_of gold gate plan).holds q) part →
        IsKind (PartBase part) (PartStep part) depth (proved k) → NeverDiffers gold gate plan q k }
{
    queries();
}
