//! The builder of shared nodes: a list of questions, with the number that each is answered.

ghost use Rattle.std.specs.Prelude.{◌≡◌, ◌↔◌, false, IsTrue};
ghost use Rattle.eq_bits.specs.Node.{IsNode, is_register};

use eq_base::Memory;
use eq_bits::{Builder, Node};
use std::alloc::Global;
use std::test::Fail;

const QUESTIONS: [(Node, u32); 24] = [
    (Node::Const(false), 0),
    (Node::Const(true), 1),
    (Node::Const(false), 0),
    (Node::Const(true), 1),
    // never shared
    (Node::Input(0), 2),
    (Node::Input(1), 3),
    (Node::Input(1), 4),
    (Node::Buf(2), 5),
    (Node::Buf(2), 6),
    // in either order
    (Node::And(3, 2), 7),
    (Node::And(2, 3), 7),
    (Node::Xor(2, 3), 8),
    (Node::Xor(3, 2), 8),
    // in this order
    (Node::Mux(2, 3, 4), 9),
    (Node::Mux(2, 4, 3), 10),
    (Node::Mux(3, 2, 4), 11),
    (Node::Mux(2, 3, 4), 9),
    (Node::Not(2), 12),
    (Node::Not(3), 13),
    (Node::Not(2), 12),
    // and nothing is simplified
    (Node::And(2, 2), 14),
    (Node::And(0, 2), 15),
    (Node::Not(12), 16),
    (Node::Const(true), 1),
];

/// Whether the operands of a node are among n, and it is no register.
fn is_question(n: u32, node: Node) -> bool
    ensures { IsTrue result ↔ IsNode n n node × (is_register node ≡ false) }
{
    match node {
        Node::Const(_) => true,
        Node::Input(_) => true,
        Node::Not(a) => a < n,
        Node::And(a, b) => a < n && b < n,
        Node::Xor(a, b) => a < n && b < n,
        Node::Mux(s, a, b) => s < n && a < n && b < n,
        Node::Buf(a) => a < n,
        Node::Reg { .. } => false,
    }
}

/// The number of a node, unless it is no question.
fn asked(builder: &mut Builder, node: Node) -> Result<Option<u32>, Memory> {
    let n = builder.len();
    if n == u32::MAX || !is_question(n, node) {
        return Ok(None);
    }
    Ok(Some(builder.node(node)?))
}

/// The first question that is answered otherwise.
fn first_wrong(builder: &mut Builder) -> Result<Option<usize>, Memory> {
    for (row, (node, number)) in QUESTIONS.iter().enumerate() {
        if asked(builder, *node)? != Some(*number) {
            return Ok(Some(row));
        }
    }
    Ok(None)
}

/// The first wrong answer, and how many nodes there are at the end.
fn answers(alloc: Global) -> Result<(Option<usize>, u32), Fail> {
    let mut builder = Builder::new(alloc)?;
    let wrong = first_wrong(&mut builder)?;
    Ok((wrong, builder.len()))
}

#[test]
fn answers_each_question_by_a_number(rt: HostRuntime) -> Result<(), Fail> {
    assert_eq!(rt; answers(rt.alloc())?, (None, 17));
    Ok(())
}
