//! The pairs at which a cone is cut, which are the part's inputs.

ghost use Rattle.std.specs.Prelude.{◌≡◌, ◌<◌, OnOk, IfOk, length};
ghost use Rattle.eq_cone.specs.inner.Cones.{AreAscending, AreInputs, AreWithin, Reached, pairs_of};
ghost use Rattle.eq_cone.specs.inner.Sides.{AreSides, cut_of, nodes_of};

use crate::numbers::Numbers;
use crate::sides::Sides;
use eq_base::Memory;
use std::alloc::Global;

/// Appends the pair at which a node is cut.
fn note(sides: &Sides<'_>, m: u32, inputs: &mut Numbers) -> Result<(), Memory>
    requires sides { AreSides sides.now }
    requires there { m < length (nodes_of sides.now) }
    ensures { OnOk result (Reached inputs.old inputs.new (pairs_of (cut_of sides.now m))) }
{
    match sides.cut(m) {
        Some(pair) => inputs.insert(pair),
        None => Ok(()),
    }
}

/// The pairs of all cuts.
fn collect(alloc: Global, sides: &Sides<'_>, cone: &Numbers) -> Result<Numbers, Memory>
    requires sides { AreSides sides.now }
    requires within { AreWithin (nodes_of sides.now) cone.now }
    ensures { IfOk result (λ inputs.
        AreInputs (cut_of sides.now) cone.now inputs (length cone.now)) }
{
    let mut inputs = Numbers::new(alloc);
    for place in 0..cone.len() {
        note(sides, cone.at(place), &mut inputs)?;
    }
    Ok(inputs)
}

/// The pairs of all cuts, in order.
pub fn inputs(alloc: Global, sides: &Sides<'_>, cone: &Numbers) -> Result<Numbers, Memory>
    requires sides { AreSides sides.now }
    requires within { AreWithin (nodes_of sides.now) cone.now }
    ensures ok { IfOk result (λ inputs.
        AreInputs (cut_of sides.now) cone.now inputs (length cone.now)) }
    ensures ascending { IfOk result (λ inputs. AreAscending inputs) }
{
    let mut inputs = collect(alloc, sides, cone)?;
    inputs.sort()?;
    Ok(inputs)
}
