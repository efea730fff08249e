//! Runs of a part, and the first difference of its two sides in one.

ghost use Rattle.std.specs.Prelude.{◌≡◌, ℕ, ◌-◌, ◌<◌, ◌^◌, All, IfNone, IfSome, length};
ghost use Rattle.eq_model.specs.Frames.{values};
ghost use Rattle.eq_model.specs.System.{Values};
ghost use Rattle.eq_bits.specs.Part.{NamesNodes};
ghost use Rattle.eq_bits.specs.Replay.{IsFirstDifference, IsReplay, IsRunOf, IsSame, meaning};
ghost use Rattle.eq_bits.specs.inner.Replaying.{HasCycle, IsFirstOutput, IsSameAt};

use crate::cycle::Scratch;
use crate::part::{Output, Part};
use eq_base::{Bits, Frames};

/// What a part's run is given: the values of the registers in the first cycle, in the order of the nodes, and in each
/// cycle the values of the inputs.
#[derive(Debug, Drop)]
pub struct Run {
    pub regs: Bits,
    pub inputs: Frames,
}

/// Where the two nodes of an output have different values. Cycles and outputs are counted from 0.
#[derive(Clone, Copy, Debug, PartialEq, Eq)]
pub struct Difference {
    pub cycle: u32,
    pub output: u32,
}

/// Gives all nodes their values in cycle c, where the scratch has those of the cycle before.
fn advance(part: &Part, run: &Run, c: usize, scratch: &mut Scratch)
    requires run { IsRunOf part.now run.now }
    requires cycle { c < length run.now.inputs }
    requires size { length scratch.old ≡ length part.now.nodes }
    requires before { 0 < c → HasCycle part.now run.now (c - 1) scratch.old }
    ensures size { length scratch.new ≡ length scratch.old }
    ensures cycle { HasCycle part.now run.now c scratch.new }
{
    let nodes = part.nodes.as_slice();
    let inputs = run.inputs.as_slice()[c].as_slice();
    if c == 0 {
        scratch.begin(nodes, run.regs.as_slice(), inputs);
    } else {
        scratch.follow(nodes, inputs);
    }
}

/// The first output whose two nodes have different values in the scratch.
fn first_output(outputs: &[Output], scratch: &Scratch) -> Option<u32>
    requires nodes { All (NamesNodes (length scratch.now)) outputs.now }
    requires few { length outputs.now < 2 ^ 32 }
    ensures found { IfSome result (IsFirstOutput outputs.now (values scratch.now)) }
    ensures none { IfNone result (
        (o : ℕ) → o < length outputs.now → IsSameAt outputs.now (values scratch.now) o) }
{
    for (o, output) in outputs.iter().enumerate() {
        if scratch.value(output.gold) != scratch.value(output.gate) {
            return Some(o as u32);
        }
    }
    None
}

/// The first cycle of a run in which an output's two nodes differ, and in it the first such output.
pub fn replay(part: &Part, run: &Run, scratch: &mut Scratch) -> Option<Difference>
    requires run { IsRunOf part.now run.now }
    requires cycles { length run.now.inputs < 2 ^ 32 }
    requires scratch { length scratch.old ≡ length part.now.nodes }
    ensures size { length scratch.new ≡ length scratch.old }
    ensures found { (x : ℕ → Values) → IsReplay part.now run.now x → IfSome result (λ d.
        IsFirstDifference (meaning part.now) (length run.now.inputs) x d.cycle d.output) }
    ensures none { (x : ℕ → Values) → IsReplay part.now run.now x → IfNone result (
        IsSame (meaning part.now) (length run.now.inputs) x) }
{
    for c in 0..run.inputs.len() {
        advance(part, run, c, scratch);
        if let Some(output) = first_output(part.outputs.as_slice(), scratch) {
            return Some(Difference {
                cycle: c as u32,
                output,
            });
        }
    }
    None
}
