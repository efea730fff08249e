//! The nodes that the outputs read, up to the cuts.

ghost use Rattle.std.specs.Prelude.{◌≡◌, ◌<◌, [], ◌∷◌, OnOk, length};
ghost use Rattle.eq_model.specs.System.{reads_ever};
ghost use Rattle.eq_bits.specs.Node.{driver_of};
ghost use Rattle.eq_cone.specs.inner.Cones.{AreWithin, IsCone, IsWalk, Reached, number_at, reads_of};
ghost use Rattle.eq_cone.specs.inner.Sides.{AreSides, cut_of, nodes_of};

use crate::numbers::Numbers;
use crate::sides::Sides;
use eq_base::Memory;
use eq_bits::Node;

fn reach_two(cone: &mut Numbers, a: u32, b: u32) -> Result<(), Memory>
    ensures { OnOk result (Reached cone.old cone.new (a ∷ b ∷ [])) }
{
    cone.insert(a)?;
    cone.insert(b)
}

/// Appends what a node reads.
fn reach(cone: &mut Numbers, node: Node) -> Result<(), Memory>
    ensures { OnOk result (Reached cone.old cone.new (reads_ever (driver_of node))) }
{
    match node {
        Node::Const(_) => Ok(()),
        Node::Input(_) => Ok(()),
        Node::Not(a) => cone.insert(a),
        Node::And(a, b) => reach_two(cone, a, b),
        Node::Xor(a, b) => reach_two(cone, a, b),
        Node::Mux(s, a, b) => {
            cone.insert(s)?;
            reach_two(cone, a, b)
        }
        Node::Buf(a) => cone.insert(a),
        Node::Reg { next, .. } => cone.insert(next),
    }
}

/// Appends what the node at a place of the cone reads, unless it is cut.
fn expand(sides: &Sides<'_>, cone: &mut Numbers, place: usize) -> Result<(), Memory>
    requires sides { AreSides sides.now }
    requires place { place < length cone.old }
    requires within { AreWithin (nodes_of sides.now) cone.old }
    ensures { OnOk result (Reached cone.old cone.new
        (reads_of (nodes_of sides.now) (cut_of sides.now) (number_at cone.old place))) }
{
    let m = cone.at(place);
    match sides.cut(m) {
        Some(_) => Ok(()),
        None => reach(cone, sides.node(m)),
    }
}

/// Appends all nodes that the roots lead to.
pub fn walk(sides: &Sides<'_>, cone: &mut Numbers) -> Result<(), Memory>
    requires sides { AreSides sides.now }
    requires within { AreWithin (nodes_of sides.now) cone.old }
    ensures { OnOk result (IsCone (nodes_of sides.now) (cut_of sides.now) cone.old cone.new) }
{
    for place in 0..sides.len() {
        if place == cone.len() {
            return Ok(());
        }
        expand(sides, cone, place)?;
    }
    let _all = cone.len();
    Ok(())
}
