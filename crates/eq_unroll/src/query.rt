//! The two queries of induction.

ghost use Rattle.std.specs.Prelude.{◌≡◌, ◌+◌, ◌*◌, ◌≤◌, ◌<◌, ◌^◌, ◌↔◌, IsTrue, length};
ghost use Rattle.eq_unroll.specs.Query.{IsUnrollable, agreeing, frame_count, last_frame};

use eq_bits::Part;

/// What is asked of a part at a number of cycles k, from 1.
#[derive(Clone, Copy, Debug, PartialEq, Eq)]
pub enum Query {
    /// Whether some run of k cycles from the initial values differs in its last cycle.
    Base,
    /// Whether some run of k + 1 cycles, from any values of the registers, differs in its last cycle and in none
    /// before.
    Step,
}

impl Query {
    /// How many cycles a run has that shows what is asked.
    pub(crate) fn frame_count(self, k: u32) -> u32
        requires { k ≤ 64 }
        ensures { result ≡ frame_count self k }
    {
        match self {
            Query::Base => k,
            Query::Step => k + 1,
        }
    }

    /// In how many cycles the outputs are to agree.
    pub(crate) fn agreeing(self, k: u32) -> u32
        ensures { result ≡ agreeing self k }
    {
        match self {
            Query::Base => 0,
            Query::Step => k,
        }
    }

    /// The cycle in which an output is to differ, counted from 0.
    pub(crate) fn last_frame(self, k: u32) -> u32
        requires { 1 ≤ k }
        ensures { result ≡ last_frame self k }
    {
        match self {
            Query::Base => k - 1,
            Query::Step => k,
        }
    }
}

/// Whether the formulas of this part at k cycles have numbers for all their variables.
pub fn is_unrollable(part: &Part, k: u32) -> bool
    ensures { IsTrue result ↔ IsUnrollable part.now k }
{
    let nodes = part.nodes.len() as u64;
    let outputs = part.outputs.len() as u64;
    1 <= k && k <= 64 && nodes * (u64::from(k) + 1) + outputs <= 2_147_483_647
}
