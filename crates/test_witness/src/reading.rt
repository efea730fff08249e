//! What is read of texts that are evidences.

use crate::damage::LINES;
use crate::printing::CASES;
use crate::texts::{first_fault, read, with_line};
use eq_bits::{Node, Run};
use eq_induct::{Answer, Asked, End, PartVerdict};
use eq_proof::Log;
use eq_wit::Evidence;
use std::alloc::Global;
use std::test::Fail;

/// The evidence of a pair that differs.
const PAIR: &[u8] =
    b"eqe 1\npart y\ninputs 2\na\nb\nnodes 9\ninput 0\ninput 1\nand 0 1\nbuf 2\nnot 0\nnot 1\nand 4 5\nnot 6\nbuf 7\noutputs 1\ny 3 8\nattempts 1\nattempt s 3 20000 1\nbase 1 sat\nregs -\nin 01\nfail 1\nverdict fail\nend\n";

const NODES: [Node; 8] = [
    Node::Const(true),
    Node::Input(0),
    Node::Not(0),
    Node::And(1, 2),
    Node::Xor(3, 1),
    Node::Mux(1, 2, 3),
    Node::Buf(5),
    Node::Reg {
        next: 3,
        init: false,
    },
];

/// Whether the part of the lines was read.
fn has_part(e: &Evidence) -> bool {
    let part = &e.part;
    let names = part.inputs.as_slice();
    let outputs = part.outputs.as_slice();
    if names.len() != 2 || outputs.len() != 1 {
        return false;
    }
    part.name.bytes() == b"y".as_slice()
        && names[1].bytes() == b"b".as_slice()
        && part.nodes.as_slice() == NODES.as_slice()
        && outputs[0].gold == 6
        && outputs[0].gate == 7
}

/// Whether a log has the two steps of the lines.
fn has_steps(log: &Log) -> bool {
    if log.len() != 2 {
        return false;
    }
    let first = log.at(0);
    let last = log.at(1);
    first.clause.len() == 2
        && first.clause[1].var() == 2
        && !first.clause[1].positive()
        && first.ants == [3, 4].as_slice()
        && last.clause.is_empty()
        && last.ants == [20, 1, 21].as_slice()
}

/// Whether a run has the values of the lines.
fn has_run(run: &Run) -> bool {
    let frames = run.inputs.as_slice();
    frames.len() == 2
        && run.regs.as_slice() == [true].as_slice()
        && frames[0].as_slice() == [false, true].as_slice()
        && frames[1].as_slice() == [true, false].as_slice()
}

/// Whether the queries of the first try were read.
fn has_queries(asked: &[Asked]) -> bool {
    if asked.len() != 2 || asked[0].k != 1 || asked[1].k != 1 {
        return false;
    }
    let first = match &asked[0].answer {
        Answer::Unsat(log) => has_steps(log),
        _ => false,
    };
    let second = match &asked[1].answer {
        Answer::Sat(run) => has_run(run),
        _ => false,
    };
    first && second
}

/// Whether the tries of the lines were read, numbered in order, and one conflict: the empty clause is none.
fn has_tries(e: &Evidence) -> bool {
    let heads = e.heads.as_slice();
    let tries = e.decided.tries.as_slice();
    if heads.len() != 2 || tries.len() != 2 || e.decided.conflicts != 1 {
        return false;
    }
    heads[1].name.bytes() == b"t".as_slice()
        && heads[1].depth == 3
        && heads[1].conflicts == 9
        && tries[1].strategy == 1
        && tries[0].attempt.end == End::Deep
        && tries[1].attempt.end == End::Fail(1)
        && e.decided.verdict == PartVerdict::Fail { k: 1, strategy: 1 }
        && has_queries(tries[0].attempt.asked.as_slice())
}

fn is_read(alloc: Global) -> Result<bool, Fail> {
    let text = with_line(alloc, &LINES, 0, b"")?;
    match read(alloc, text.as_slice())? {
        Ok(e) => Ok(has_part(&e) && has_tries(&e)),
        Err(_) => Ok(false),
    }
}

#[test]
fn what_is_read_has_the_values_of_its_lines(rt: HostRuntime) -> Result<(), Fail> {
    assert!(rt; is_read(rt.alloc())?);
    Ok(())
}

/// The first row of what is printed with a text that is not read.
fn first_unread(alloc: Global) -> Result<Option<usize>, Fail> {
    for (row, case) in CASES.iter().enumerate() {
        if !are_read(alloc, case.texts)? {
            return Ok(Some(row));
        }
    }
    Ok(None)
}

fn are_read(alloc: Global, texts: &[&[u8]]) -> Result<bool, Fail> {
    for text in texts {
        if first_fault(alloc, text)? != None {
            return Ok(false);
        }
    }
    Ok(true)
}

#[test]
fn printed_texts_are_read(rt: HostRuntime) -> Result<(), Fail> {
    assert_eq!(rt; first_unread(rt.alloc())?, None);
    Ok(())
}

#[test]
fn the_evidence_of_a_failing_pair_is_read(rt: HostRuntime) -> Result<(), Fail> {
    assert_eq!(rt; first_fault(rt.alloc(), PAIR)?, None);
    Ok(())
}
