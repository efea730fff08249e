//! Laws of nodes and parts, over the definitions alone.

ghost use Rattle.std.specs.Prelude.{List};
ghost use Rattle.eq_model.specs.Part.{IsPart};
ghost use Rattle.eq_model.specs.System.{IsLoopFree, IsSystem};
ghost use Rattle.eq_bits.specs.Node.{AreNodes, system_of};
ghost use Rattle.eq_bits.specs.Replay.{HasOneReplay, meaning};
ghost use Rattle.eq_bits.specs.declared.node.Node.{Node};

use crate::node::Graph;
use crate::part::Part;
use crate::run::{Difference, Run};
use eq_model::laws::{one_cycle, ranked};

/// Nodes whose operands stand before them make a system without a loop. Proved in `proofs/Meanings.antt`.
pub fn nodes_are_a_system()
    ensures system { (nodes : List Node) → AreNodes nodes → IsSystem (system_of nodes) }
    ensures loop_free { (nodes : List Node) → AreNodes nodes → IsLoopFree (system_of nodes) }
{
    ranked();
}

/// What a part stands for is a part of the model. Proved in `proofs/Meanings.antt`.
pub fn part_is_one()
    ensures { (part : Part) → IsPart (meaning part) }
{}

/// A part has exactly one run with given registers in the first cycle and given inputs in each. Proved in
/// `proofs/OneReplay.antt`.
pub fn one_replay()
    ensures { (part : Part) (run : Run) → HasOneReplay part run }
{
    ranked();
    one_cycle();
}

/// Takes a value of a type that may move between threads and be shared by them.
fn across_threads<T: Send + Sync>(_: &T) {}

/// Parts, graphs, runs and differences, with all that they hold, may move between threads and be shared by them: else this
/// function has no proof.
pub fn parts_cross_threads(part: &Part, graph: &Graph, run: &Run, difference: &Difference) {
    across_threads(part);
    across_threads(&part.name);
    across_threads(&part.inputs);
    across_threads(&part.nodes);
    across_threads(&part.outputs);
    across_threads(graph);
    across_threads(run);
    across_threads(&run.regs);
    across_threads(&run.inputs);
    across_threads(difference);
}
