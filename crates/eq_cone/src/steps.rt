//! One partition cut out, as the part that the other modules make of both graphs.

ghost use Rattle.std.specs.Prelude.{◌≡◌, ◌<◌, IfOk, List, ℕ, length};
ghost use Rattle.eq_bits.specs.Shared.{Shared};
ghost use Rattle.eq_cone.specs.inner.Steps.{IsBegun, IsConeOf, IsCutOut};
ghost use Rattle.eq_cone.specs.inner.Outputs.{HasNamedBits};

use crate::cone::walk;
use crate::copying::copy;
use crate::inputs::inputs;
use crate::numbers::Numbers;
use crate::parting::part;
use crate::roots::{Graphs, roots};
use crate::sides::Sides;
use eq_base::Memory;
use eq_bits::Part;
use eq_net::Net;
use eq_part::Partition;
use std::alloc::Global;

/// The nodes that the outputs at these positions read, in ascending order.
fn cone(
    alloc: Global,
    graphs: &Graphs<'_>,
    sides: &Sides<'_>,
    positions: &[u32],
) -> Result<Numbers, Memory>
    requires { IsBegun graphs.now sides.now positions.now }
    ensures { IfOk result (λ cone.
        (roots : List ℕ) × IsConeOf graphs.now sides.now positions.now roots cone) }
{
    let mut cone = roots(alloc, graphs, positions)?;
    walk(sides, &mut cone)?;
    cone.sort()?;
    let _distinct = cone.len();
    Ok(cone)
}

/// The part of a cone.
fn of_cone(
    alloc: Global,
    net: &Net,
    graphs: &Graphs<'_>,
    sides: &Sides<'_>,
    cone: &Numbers,
    partition: &Partition,
) -> Result<Part, Memory>
    requires begun { IsBegun graphs.now sides.now partition.now.outputs }
    requires bits { HasNamedBits net.now.nets graphs.now }
    requires cone { (roots : List ℕ) ×
        IsConeOf graphs.now sides.now partition.now.outputs roots cone.now }
    ensures ok { IfOk result (λ part.
        IsCutOut net.now.nets graphs.now sides.now partition.now.outputs part) }
    ensures name { IfOk result (λ part. part.name ≡ partition.now.name) }
    ensures shared { IfOk result (λ part. Shared part.nodes) }
{
    let inputs = inputs(alloc, sides, cone)?;
    let _distinct = inputs.len();
    let copied = copy(alloc, sides, cone, &inputs)?;
    part(alloc, net, graphs, copied, &inputs, partition)
}

/// The part of a partition.
pub fn cut_out(
    alloc: Global,
    net: &Net,
    graphs: &Graphs<'_>,
    sides: &Sides<'_>,
    partition: &Partition,
) -> Result<Part, Memory>
    requires begun { IsBegun graphs.now sides.now partition.now.outputs }
    requires bits { HasNamedBits net.now.nets graphs.now }
    ensures ok { IfOk result (λ part.
        IsCutOut net.now.nets graphs.now sides.now partition.now.outputs part) }
    ensures name { IfOk result (λ part. part.name ≡ partition.now.name) }
    ensures shared { IfOk result (λ part. Shared part.nodes) }
{
    let cone = cone(alloc, graphs, sides, partition.outputs.as_slice())?;
    of_cone(alloc, net, graphs, sides, &cone, partition)
}
