//! How many clauses a formula has.

ghost use Rattle.std.specs.Prelude.{◌≡◌, ◌*◌, ◌≤◌, ◌<◌, ◌^◌, length};
ghost use Rattle.eq_unroll.specs.Query.{IsUnrollable};
ghost use Rattle.eq_unroll.specs.Unrolling.{unrolled};
ghost use Rattle.eq_unroll.specs.inner.Counting.{first_clauses, frame_clauses, node_clauses};

use crate::query::Query;
use eq_bits::{Node, Part};

/// How many clauses a node has in a frame, where a register has this many.
fn node_clauses(register: u64, node: Node) -> u64
    requires { register ≤ 2 }
    ensures value { result ≡ node_clauses register node }
    ensures few { result ≤ 4 }
{
    match node {
        Node::Const(_) => 1,
        Node::Input(_) => 0,
        Node::Not(_) => 2,
        Node::And(..) => 3,
        Node::Xor(..) => 4,
        Node::Mux(..) => 4,
        Node::Buf(_) => 2,
        Node::Reg { .. } => register,
    }
}

/// How many clauses all nodes have in a frame, where a register has this many.
fn frame_clauses(register: u64, nodes: &[Node]) -> u64
    requires register { register ≤ 2 }
    requires few { length nodes.now < 2 ^ 32 }
    ensures value { result ≡ frame_clauses register nodes.now }
    ensures few { result ≤ 4 * length nodes.now }
{
    let mut clauses = 0;
    for node in nodes {
        clauses += node_clauses(register, *node);
    }
    clauses
}

/// How many clauses a register has in the first frame.
fn first_clauses(q: Query) -> u64
    ensures value { result ≡ first_clauses q }
    ensures few { result ≤ 2 }
{
    match q {
        Query::Base => 1,
        Query::Step => 0,
    }
}

/// So many clauses in each of some frames.
fn in_frames(frames: u32, clauses: u64) -> u64
    requires frames { frames ≤ 64 }
    requires clauses { clauses < 2 ^ 35 }
    ensures value { result ≡ frames * clauses }
    ensures few { result ≤ 2 ^ 41 }
{
    u64::from(frames) * clauses
}

/// The number of clauses of `formula` for the same arguments.
pub fn clause_count(part: &Part, q: Query, k: u32) -> u64
    requires { IsUnrollable part.now k }
    ensures { result ≡ length (unrolled part.now q k) }
{
    let nodes = part.nodes.as_slice();
    let outputs = part.outputs.len() as u64;
    let first = frame_clauses(first_clauses(q), nodes);
    let later = in_frames(q.frame_count(k) - 1, frame_clauses(2, nodes));
    let agreements = in_frames(q.agreeing(k), 2 * outputs);
    first + later + agreements + 2 * outputs + 1
}
