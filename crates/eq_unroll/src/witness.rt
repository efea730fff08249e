//! The run that satisfying values show.

ghost use Rattle.std.specs.Prelude.{◌≡◌, ℕ, ◌+◌, ◌*◌, ◌<◌, ◌≤◌, ◌^◌, IfOk, length};
ghost use Rattle.eq_model.specs.Frames.{values};
ghost use Rattle.eq_model.specs.System.{Values};
ghost use Rattle.eq_proof.specs.Satisfying.{SatisfiesAll};
ghost use Rattle.eq_bits.specs.Node.{AllNameInputs, NamesInput};
ghost use Rattle.eq_bits.specs.Replay.{IsReplay, IsRunOf};
ghost use Rattle.eq_unroll.specs.Query.{IsUnrollable, Shows, frame_count};
ghost use Rattle.eq_unroll.specs.Unrolling.{unrolled};
ghost use Rattle.eq_unroll.specs.Values.{value_of};
ghost use Rattle.eq_unroll.specs.inner.Witnessing.{HasFrames, HasInputs, HasOneNode, HasRegisters, with_input};

use crate::query::Query;
use eq_base::Memory;
use eq_bits::laws::{one_replay, part_is_one};
use eq_bits::{Bits, Frames, Node, Part, Run};
use std::alloc::Global;

/// The bit at a place, and 0 beyond the list.
fn bit_at(bits: &[bool], place: usize) -> bool
    ensures { result ≡ values bits.now place }
{
    place < bits.len() && bits[place]
}

/// The values of the registers, in the order of the nodes, where these are the nodes' values.
fn registers(alloc: Global, nodes: &[Node], bits: &[bool]) -> Result<Bits, Memory>
    ensures { IfOk result (λ regs.
        HasRegisters nodes.now (values bits.now) (length nodes.now) regs) }
{
    let mut regs = Vec::new(alloc);
    for (m, node) in nodes.iter().enumerate() {
        if node.is_register() {
            regs.push(bit_at(bits, m))?;
        }
    }
    Ok(Bits::from_vec(regs))
}

/// Gives the input that a node stands for, where it stands for one, this value.
fn put_input(node: Node, given: bool, inputs: &mut [bool])
    requires { NamesInput (length inputs.old) node }
    ensures { inputs.new ≡ with_input node given inputs.old }
{
    if let Node::Input(i) = node {
        inputs[i as usize] = given;
    }
}

/// Gives the inputs the values that their nodes have, which begin at a place of `bits`.
fn put_inputs(nodes: &[Node], bits: &[bool], first: usize, inputs: &mut [bool])
    requires inputs { AllNameInputs (length inputs.old) nodes.now }
    requires one_node { HasOneNode nodes.now }
    requires fits { first + length nodes.now < 2 ^ 31 }
    ensures size { length inputs.new ≡ length inputs.old }
    ensures has { HasInputs nodes.now (λ m. values bits.now (first + m))
        (length nodes.now) inputs.new }
{
    for (m, node) in nodes.iter().enumerate() {
        put_input(*node, bit_at(bits, first + m), inputs);
    }
}

/// The values of the inputs in a frame whose nodes' values begin at a place of `bits`.
fn frame_inputs(alloc: Global, part: &Part, bits: &[bool], first: usize) -> Result<Bits, Memory>
    requires fits { first + length part.now.nodes < 2 ^ 31 }
    ensures size { IfOk result (λ inputs. length inputs ≡ length part.now.inputs) }
    ensures has { IfOk result (λ inputs. HasInputs part.now.nodes
        (λ m. values bits.now (first + m)) (length part.now.nodes) inputs) }
{
    let mut inputs = vec![in alloc; false; part.inputs.len()]?;
    put_inputs(part.nodes.as_slice(), bits, first, &mut inputs);
    Ok(Bits::from_vec(inputs))
}

/// The values of the inputs in each of the first frames.
fn inputs(alloc: Global, part: &Part, bits: &[bool], frames: u32) -> Result<Frames, Memory>
    requires fits { frames * length part.now.nodes < 2 ^ 31 }
    ensures { IfOk result (λ inputs. HasFrames part.now bits.now frames inputs) }
{
    let n = part.nodes.len();
    let mut inputs = Frames::new(alloc);
    for c in 0..frames {
        inputs.push(frame_inputs(alloc, part, bits, c as usize * n)?)?;
    }
    Ok(inputs)
}

/// A run that shows that a query holds of a part at k cycles, from values that satisfy its formula: those of the variables
/// from 1 on, and 0 for the variables beyond the list.
pub fn run_of(alloc: Global, part: &Part, q: Query, k: u32, values: &[bool]) -> Result<Run, Memory>
    requires unrollable { IsUnrollable part.now k }
    requires satisfies { SatisfiesAll (value_of values.now) (unrolled part.now q k) }
    ensures fits { IfOk result (λ run. IsRunOf part.now run) }
    ensures cycles { IfOk result (λ run. length run.inputs ≡ frame_count q k) }
    ensures shows { IfOk result (λ run. (x : ℕ → Values) → IsReplay part.now run x →
        Shows part.now q k x) }
{
    part_is_one();
    one_replay();
    let regs = registers(alloc, part.nodes.as_slice(), values)?;
    let inputs = inputs(alloc, part, values, q.frame_count(k))?;
    Ok(Run { regs, inputs })
}
