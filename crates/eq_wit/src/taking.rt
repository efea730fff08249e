//! Where the reading stands behind a line of a part.

ghost use Rattle.std.specs.Prelude.{◌≡◌, ◌<◌, ◌≤◌, ◌^◌, ◌↔◌, ℕ, IfOk, false, length, replicate};
ghost use Rattle.eq_wit.specs.declared.state.State.TheVariants as XState;
ghost use Rattle.eq_wit.specs.inner.Items as spec;
ghost use Rattle.eq_bits.specs.Node.{NamesInput};
ghost use Rattle.eq_wit.specs.inner.Reading.{IsMadeFrom, MayHave, marked, with_node};
ghost use Rattle.eq_wit.specs.inner.Standing.{Stands};

use crate::dividing::Words;
use crate::inputs::node;
use crate::items::{count, input_name, output, part_name};
use crate::state::{Draft, State, Stop, Tally};
use crate::types::Heads;
use eq_base::{Bits, Memory};
use eq_bits::{Node, Nodes, Outputs, Part};
use eq_induct::Tries;
use eq_names::{Name, Names};
use std::alloc::Global;

/// Behind the first line.
pub fn titled(alloc: Global, words: &Words) -> Result<State, Stop>
    ensures { spec.Judges XState.Titled words.now result }
{
    match part_name(alloc, words) {
        Ok(name) => Ok(State::Named(name)),
        Err(stop) => Err(stop),
    }
}

/// Behind the name of the part.
pub fn named(alloc: Global, name: Name, words: &Words) -> Result<State, Stop>
    ensures { spec.Judges (XState.Named name) words.now result }
{
    match count(words, b"inputs", 0xFFFF_FFFF) {
        Ok(left) => Ok(State::Inputs(
            Draft {
                name,
                inputs: Names::new(alloc),
                nodes: Nodes::new(alloc),
                outputs: Outputs::new(alloc),
            },
            left,
        )),
        Err(stop) => Err(stop),
    }
}

/// Behind an input, where one more is due.
fn one_input(alloc: Global, draft: Draft, left: u32, words: &Words) -> Result<State, Stop>
    requires { 0 < left }
    ensures { spec.Judges (XState.Inputs draft left) words.now result }
{
    let Draft {
        name,
        mut inputs,
        nodes,
        outputs,
    } = draft;
    match input_name(alloc, words) {
        Ok(input) => {
            inputs.push(input)?;
            Ok(State::Inputs(
                Draft {
                    name,
                    inputs,
                    nodes,
                    outputs,
                },
                left - 1,
            ))
        }
        Err(stop) => Err(stop),
    }
}

/// So many marks, of which none is set.
fn marks(alloc: Global, count: usize) -> Result<Bits, Memory>
    ensures { IfOk result (λ marks. marks ≡ replicate count false) }
{
    Ok(Bits::from_vec(vec![in alloc; false; count]?))
}

/// Behind the number of nodes.
fn inputs_over(alloc: Global, draft: Draft, words: &Words) -> Result<State, Stop>
    ensures { spec.Judges (XState.Inputs draft 0) words.now result }
{
    match count(words, b"nodes", 0xFFFF_FFFF) {
        Ok(left) => {
            let seen = marks(alloc, draft.inputs.len())?;
            Ok(State::Nodes(draft, seen, left))
        }
        Err(stop) => Err(stop),
    }
}

/// Behind an input, or behind the number of nodes where none is due.
pub fn next_input(alloc: Global, draft: Draft, left: u32, words: &Words) -> Result<State, Stop>
    ensures { spec.Judges (XState.Inputs draft left) words.now result }
{
    if left == 0 {
        inputs_over(alloc, draft, words)
    } else {
        one_input(alloc, draft, left, words)
    }
}

/// The greatest number of outputs of so many nodes: there are none where there is no node.
fn most_outputs(nodes: &Nodes) -> u32
    ensures { (n : ℕ) → (n ≤ result) ↔ ((n < 2 ^ 32) × MayHave nodes.now n) }
{
    if nodes.is_empty() { 0 } else { 0xFFFF_FFFF }
}

/// Behind the number of outputs.
fn nodes_over(draft: Draft, seen: Bits, words: &Words) -> Result<State, Stop>
    ensures { spec.Judges (XState.Nodes draft seen 0) words.now result }
{
    let most = most_outputs(&draft.nodes);
    match count(words, b"outputs", most) {
        Ok(left) => Ok(State::Outputs(draft, left)),
        Err(stop) => Err(stop),
    }
}

/// Behind an output, where one more is due.
fn one_output(alloc: Global, draft: Draft, left: u32, words: &Words) -> Result<State, Stop>
    requires some { 0 < left }
    requires stands { Stands (XState.Outputs draft left) }
    ensures { spec.Judges (XState.Outputs draft left) words.now result }
{
    let Draft {
        name,
        inputs,
        nodes,
        mut outputs,
    } = draft;
    match output(alloc, words, nodes.len() as u32) {
        Ok(output) => {
            outputs.push(output)?;
            Ok(State::Outputs(
                Draft {
                    name,
                    inputs,
                    nodes,
                    outputs,
                },
                left - 1,
            ))
        }
        Err(stop) => Err(stop),
    }
}

/// Sets the mark of the input that a node stands for.
fn mark(seen: &mut Bits, node: Node)
    requires { NamesInput (length seen.old) node }
    ensures { seen.new ≡ marked node seen.old }
{
    if let Node::Input(i) = node {
        seen.set(i as usize, true);
    }
}

/// With a node more, and its mark.
fn grown(draft: Draft, seen: Bits, left: u32, node: Node) -> Result<State, Memory>
    requires { NamesInput (length seen) node }
    ensures { IfOk result (λ next.
        next ≡ XState.Nodes (with_node draft node) (marked node seen) left) }
{
    let Draft {
        name,
        inputs,
        mut nodes,
        outputs,
    } = draft;
    let mut seen = seen;
    mark(&mut seen, node);
    nodes.push(node)?;
    Ok(State::Nodes(
        Draft {
            name,
            inputs,
            nodes,
            outputs,
        },
        seen,
        left,
    ))
}

/// Behind a node, where one more is due.
fn one_node(draft: Draft, seen: Bits, left: u32, words: &Words) -> Result<State, Stop>
    requires some { 0 < left }
    requires stands { Stands (XState.Nodes draft seen left) }
    ensures { spec.Judges (XState.Nodes draft seen left) words.now result }
{
    match node(words, &draft, &seen, left - 1) {
        Ok(node) => Ok(grown(draft, seen, left - 1, node)?),
        Err(stop) => Err(stop),
    }
}

/// Behind a node, or behind the number of outputs where none is due.
pub fn next_node(draft: Draft, seen: Bits, left: u32, words: &Words) -> Result<State, Stop>
    requires { Stands (XState.Nodes draft seen left) }
    ensures { spec.Judges (XState.Nodes draft seen left) words.now result }
{
    if left == 0 {
        nodes_over(draft, seen, words)
    } else {
        one_node(draft, seen, left, words)
    }
}

/// The part of a draft that is read whole.
fn whole(draft: Draft) -> Part
    requires { Stands (XState.Outputs draft 0) }
    ensures { IsMadeFrom draft result }
{
    let Draft {
        name,
        inputs,
        nodes,
        outputs,
    } = draft;
    Part {
        name,
        inputs,
        nodes,
        outputs,
    }
}

/// Behind the number of tries.
fn outputs_over(alloc: Global, draft: Draft, words: &Words) -> Result<State, Stop>
    requires { Stands (XState.Outputs draft 0) }
    ensures { spec.Judges (XState.Outputs draft 0) words.now result }
{
    match count(words, b"attempts", 0xFFFF_FFFF) {
        Ok(left) => Ok(State::Tries(Tally {
            part: whole(draft),
            heads: Heads::new(alloc),
            tries: Tries::new(alloc),
            conflicts: 0,
            left,
        })),
        Err(stop) => Err(stop),
    }
}

/// Behind an output, or behind the number of tries where none is due.
pub fn next_output(alloc: Global, draft: Draft, left: u32, words: &Words) -> Result<State, Stop>
    requires { Stands (XState.Outputs draft left) }
    ensures { spec.Judges (XState.Outputs draft left) words.now result }
{
    if left == 0 {
        outputs_over(alloc, draft, words)
    } else {
        one_output(alloc, draft, left, words)
    }
}
