//! Parts: two sides of a comparison in one list of nodes.

ghost use Rattle.std.specs.Prelude.{◌≡◌};
ghost use Rattle.eq_bits.specs.Cycle.{register_count};
ghost use Rattle.eq_bits.specs.Part.{MakePart};
ghost use Rattle.eq_bits.specs.inner.PartProp.{MakePart-prop};

use crate::node::Nodes;
use eq_base::Items;
use eq_names::Name;

/// Two nodes that are to have the same value in each cycle, under the name of a bit.
#[derive(Debug, Drop)]
pub struct Output {
    pub name: Name,
    pub gold: u32,
    pub gate: u32,
}

pub type Outputs = Items<Output>;

pub type Names = Items<Name>;

/// Both sides of a comparison. They stand in one list of nodes and share the inputs.
#[derive(Debug, Drop)]
pub struct Part {
    pub name: Name,
    /// The bits of gold that the inputs stand for, each by its name.
    pub inputs: Names,
    pub nodes: Nodes,
    pub outputs: Outputs,
    ghost is_part: { MakePart inputs nodes outputs } by { MakePart-prop inputs nodes outputs },
}

impl Part {
    /// How many registers there are, so how many values a run of the part begins with.
    pub fn register_count(&self) -> usize
        ensures { result ≡ register_count self.now.nodes }
    {
        let mut count = 0;
        for node in self.nodes.as_slice() {
            if node.is_register() {
                count += 1;
            }
        }
        count
    }
}
