//! What is printed of small parts.

use crate::tables::{Plan, Table, made, strategies};
use eq_base::Bytes;
use eq_bits::{Node, Part};
use eq_config::Strategy;
use eq_induct::decide;
use eq_wit::laws::outcomes_are_evidence;
use eq_wit::{may_be_tried, print_evidence};
use std::alloc::Global;
use std::test::Fail;
use test_parts::Sides;

/// A part with strategies, and the texts of which one is to be printed.
pub(crate) struct Case {
    part: Table,
    plans: &'static [Plan],
    pub(crate) texts: &'static [&'static [u8]],
}

/// The sides of both are unequal where one of two inputs is 1; no strategy is for the part of each kind of node; one node
/// on both sides, where the antecedents may stand in two orders.
pub(crate) const CASES: [Case; 3] = [
    Case {
        part: Table {
            inputs: 2,
            nodes: &[
                Node::Input(0),
                Node::Input(1),
                Node::And(0, 1),
                Node::Buf(2),
                Node::Not(0),
                Node::Not(1),
                Node::And(4, 5),
                Node::Not(6),
                Node::Buf(7),
            ],
            outputs: &[Sides { gold: 3, gate: 8 }],
        },
        plans: &[(b"", 3, 20_000)],
        texts: &[
            b"eqe 1\npart y\ninputs 2\ny\ny\nnodes 9\ninput 0\ninput 1\nand 0 1\nbuf 2\nnot 0\nnot 1\nand 4 5\nnot 6\nbuf 7\noutputs 1\ny 3 8\nattempts 1\nattempt s 3 20000 1\nbase 1 sat\nregs -\nin 01\nfail 1\nverdict fail\nend\n",
            b"eqe 1\npart y\ninputs 2\ny\ny\nnodes 9\ninput 0\ninput 1\nand 0 1\nbuf 2\nnot 0\nnot 1\nand 4 5\nnot 6\nbuf 7\noutputs 1\ny 3 8\nattempts 1\nattempt s 3 20000 1\nbase 1 sat\nregs -\nin 10\nfail 1\nverdict fail\nend\n",
        ],
    },
    Case {
        part: Table {
            inputs: 3,
            nodes: &[
                Node::Input(0),
                Node::Input(1),
                Node::Input(2),
                Node::Const(true),
                Node::Const(false),
                Node::Not(0),
                Node::And(1, 0),
                Node::Xor(2, 1),
                Node::Mux(0, 1, 2),
                Node::Buf(8),
                Node::Reg {
                    next: 6,
                    init: true,
                },
                Node::Reg {
                    next: 12,
                    init: false,
                },
                Node::Xor(10, 11),
            ],
            outputs: &[Sides { gold: 9, gate: 12 }],
        },
        plans: &[(b"x*", 3, 20_000)],
        texts: &[
            b"eqe 1\npart y\ninputs 3\ny\ny\ny\nnodes 13\ninput 0\ninput 1\ninput 2\nconst 1\nconst 0\nnot 0\nand 1 0\nxor 2 1\nmux 0 1 2\nbuf 8\nreg 6 1\nreg 12 0\nxor 10 11\noutputs 1\ny 9 12\nattempts 0\nverdict unknown\nend\n",
        ],
    },
    Case {
        part: Table {
            inputs: 1,
            nodes: &[Node::Input(0)],
            outputs: &[Sides { gold: 0, gate: 0 }],
        },
        plans: &[(b"x", 1, 1), (b"y", 3, 5)],
        texts: &[
            b"eqe 1\npart y\ninputs 1\ny\nnodes 1\ninput 0\noutputs 1\ny 0 0\nattempts 1\nattempt s 3 5 2\nbase 1 unsat 1\n4 0 3 1 2 0\nstep 1 unsat 1\n6 0 5 3 4 0\nproved 1\nverdict proved\nend\n",
            b"eqe 1\npart y\ninputs 1\ny\nnodes 1\ninput 0\noutputs 1\ny 0 0\nattempts 1\nattempt s 3 5 2\nbase 1 unsat 1\n4 0 3 2 1 0\nstep 1 unsat 1\n6 0 5 4 3 0\nproved 1\nverdict proved\nend\n",
        ],
    },
];

/// `x & r` beside 0, with a register r that is 0 and stays: Step holds, with r at 1 and x at 0 and then 1.
const HOLDS: Table = Table {
    inputs: 1,
    nodes: &[
        Node::Input(0),
        Node::Reg {
            next: 1,
            init: false,
        },
        Node::And(0, 1),
        Node::Const(false),
    ],
    outputs: &[Sides { gold: 2, gate: 3 }],
};

fn printed(alloc: Global, part: &Part, s: &[Strategy]) -> Result<Bytes, Fail> {
    if !may_be_tried(part, s) {
        return Err(Fail::from("no strategies for this part"));
    }
    let decided = decide(alloc, part, s)?;
    outcomes_are_evidence();
    Ok(print_evidence(alloc, part, s, &decided)?)
}

fn text_of(alloc: Global, table: &Table, plans: &[Plan]) -> Result<Bytes, Fail> {
    let part = made(alloc, table)?;
    let s = strategies(alloc, plans)?;
    printed(alloc, &part, s.as_slice())
}

fn is_one_of(text: &[u8], texts: &[&[u8]]) -> bool {
    for wanted in texts {
        if text == *wanted {
            return true;
        }
    }
    false
}

fn first_wrong(alloc: Global) -> Result<Option<usize>, Fail> {
    for (row, case) in CASES.iter().enumerate() {
        let text = text_of(alloc, &case.part, case.plans)?;
        if !is_one_of(text.as_slice(), case.texts) {
            return Ok(Some(row));
        }
    }
    Ok(None)
}

#[test]
fn small_parts_are_printed(rt: HostRuntime) -> Result<(), Fail> {
    assert_eq!(rt; first_wrong(rt.alloc())?, None);
    Ok(())
}

/// A Step that holds, at the depth. The one step of Base's log may have its antecedents in several orders.
fn deep_ends(alloc: Global) -> Result<bool, Fail> {
    let text = text_of(alloc, &HOLDS, &[(b"", 1, 20_000)])?;
    Ok(
        text.as_slice().starts_with(
            b"eqe 1\npart y\ninputs 1\ny\nnodes 4\ninput 0\nreg 1 0\nand 0 1\nconst 0\noutputs 1\ny 2 3\nattempts 1\nattempt s 1 20000 2\nbase 1 unsat 1\n9 0 ",
        ) && text.as_slice().ends_with(
            b" 0\nstep 1 sat\nregs 1\nin 0\nin 1\ndeep\nverdict unknown\nend\n",
        ),
    )
}

#[test]
fn a_deep_try_is_printed(rt: HostRuntime) -> Result<(), Fail> {
    assert!(rt; deep_ends(rt.alloc())?);
    Ok(())
}
