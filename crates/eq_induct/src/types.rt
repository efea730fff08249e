//! What is kept of a proof of a part: each query with its answer, and how each strategy ended.

use eq_base::Items;
use eq_bits::Run;
use eq_proof::Log;
use eq_unroll::Query;

/// What the solver says of a query.
#[derive(Debug, Drop)]
pub enum Answer {
    /// The query holds, as this run shows.
    Sat(Run),
    /// It doesn't hold: the log ends with the empty clause.
    Unsat(Log),
    /// It is undecided, and all conflicts are spent.
    Spent(Log),
}

/// A query of k cycles with its answer.
#[derive(Debug, Drop)]
pub struct Asked {
    pub query: Query,
    pub k: u32,
    pub answer: Answer,
}

/// How an attempt ends.
#[derive(Clone, Copy, Debug, PartialEq, Eq)]
pub enum End {
    /// There never is a difference, by induction over so many cycles.
    Proved(u32),
    /// There is one after so many cycles, and none before.
    Fail(u32),
    /// Neither was seen up to the depth.
    Deep,
    /// The conflicts were spent.
    Spent,
}

/// The queries of one strategy in order, and how it ended.
#[derive(Debug, Drop)]
pub struct Attempt {
    pub asked: AskedList,
    pub end: End,
}

/// An attempt by the strategy of this number.
#[derive(Debug, Drop)]
pub struct Try {
    pub strategy: u32,
    pub attempt: Attempt,
}

/// What all tries say together. The strategy is the number of the one that decided.
#[derive(Clone, Copy, Debug, PartialEq, Eq)]
pub enum PartVerdict {
    Proved { k: u32, strategy: u32 },
    Fail { k: u32, strategy: u32 },
    Unknown,
}

/// The tries in order, what they say, and how many clauses they learned.
#[derive(Debug, Drop)]
pub struct Decided {
    pub tries: Tries,
    pub verdict: PartVerdict,
    pub conflicts: u64,
}

pub type AskedList = Items<Asked>;

pub type Tries = Items<Try>;
