//! Where the reading of an evidence stands, behind some of its lines.

use crate::types::{Head, Heads, WitKind};
use eq_base::{Bits, Memory};
use eq_bits::{Nodes, Outputs, Part, Run};
use eq_induct::{AskedList, Tries};
use eq_names::{Name, Names};
use eq_proof::Log;
use eq_unroll::Query;

/// The lists of a part, as far as they are read.
#[derive(Drop)]
pub struct Draft {
    pub name: Name,
    pub inputs: Names,
    pub nodes: Nodes,
    pub outputs: Outputs,
}

/// The tries that are read, how many steps with a literal all logs have so far, and how many tries are still due.
#[derive(Drop)]
pub struct Tally {
    pub part: Part,
    pub heads: Heads,
    pub tries: Tries,
    pub conflicts: u64,
    pub left: u32,
}

/// A try that is being read, and how many queries are still due.
#[derive(Drop)]
pub struct Open {
    pub head: Head,
    pub asked: AskedList,
    pub left: u32,
}

/// A log that is being read, the number of its first step, and how many steps are still due.
#[derive(Drop)]
pub struct Steps {
    pub spent: bool,
    pub first: u64,
    pub log: Log,
    pub left: u32,
}

/// What a query says is to follow.
#[derive(Clone, Copy)]
pub enum Due {
    /// A run.
    Run,
    /// A log of so many steps, with all conflicts spent or not.
    Log(bool, u32),
}

/// A query of k cycles.
#[derive(Clone, Copy)]
pub struct Question {
    pub query: Query,
    pub k: u32,
    pub due: Due,
}

/// What was read, and so which lines are due. The first line is read before.
#[derive(Drop)]
pub enum State {
    /// The line of the part's name is due.
    Titled,
    /// The number of inputs is due.
    Named(Name),
    /// So many names of inputs are due, and then the number of nodes.
    Inputs(Draft, u32),
    /// So many nodes are due, and then the number of outputs. The marks say which inputs have a node.
    Nodes(Draft, Bits, u32),
    /// So many outputs are due, and then the number of tries.
    Outputs(Draft, u32),
    /// A try is due, or the verdict.
    Tries(Tally),
    /// A query is due, or the end of the try.
    Queries(Tally, Open),
    /// The registers of a run are due.
    Regs(Tally, Open, Query, u32),
    /// So many cycles of a run are due.
    Frames(Tally, Open, Query, u32, Run, u32),
    /// A step of a log is due.
    Steps(Tally, Open, Query, u32, Steps),
    /// The last line is due.
    Closing(Tally),
    /// Nothing is due.
    Ended(Tally),
}

/// Why a line isn't taken.
#[derive(Clone, Copy)]
pub enum Stop {
    Fault(WitKind),
    Memory,
}

impl From<Memory> for Stop {
    ghost use Rattle.std.specs.Prelude.{◌≡◌};
    ghost use Rattle.eq_wit.specs.declared.state.Stop.TheVariants.{Memory as NoMemory};

    ghost from_gives = { λ _ e. e ≡ NoMemory };

    fn from(_: Memory) -> Stop {
        Stop::Memory
    }
}
