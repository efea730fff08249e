//! DIMACS and LRAT texts: a few that are read and printed back, and tables of bad lines.

use eq_base::Bytes;
use eq_proof::{
    Clauses, Formula, Lit, Log, TextErr, print_dimacs, print_lrat, read_dimacs, read_lrat,
};
use std::alloc::{AllocError, Global};
use std::test::Fail;

/// DIMACS texts of formulas, with how many clauses.
const FORMULAS: [(&[u8], usize); 5] = [
    (b"p cnf 1 2\n1 0\n-1 0\n", 2),
    (b"p cnf 0 0\n", 0),
    (b"p cnf 3 3\n1 -1 -2 3 0\n0\n-3 0\n", 3),
    (b"p cnf 2147483647 1\n-2147483647 0\n", 1),
    (b"p cnf 4294967295 1\n10 20 -20 300 0\n", 1),
];

/// DIMACS texts with the first line that is bad.
const BAD_FORMULAS: [(&[u8], u32); 45] = [
    // no header, or another
    (b"", 1),
    (b"\n", 1),
    (b"p cnf 1 0", 1),
    (b"p cnf 1\n1 0\n", 1),
    (b"p cnf  1 1\n1 0\n", 1),
    (b"p  cnf 1 1\n1 0\n", 1),
    (b"p cnf 1 1 \n1 0\n", 1),
    (b" p cnf 1 1\n1 0\n", 1),
    (b"P cnf 1 1\n1 0\n", 1),
    (b"p cnf 01 1\n1 0\n", 1),
    (b"p cnf 1 01\n1 0\n", 1),
    (b"p cnf -1 1\n1 0\n", 1),
    (b"p cnf 1 -0\n", 1),
    (b"p cnf 1 1\r\n1 0\r\n", 1),
    (b"c no comments\np cnf 1 1\n1 0\n", 1),
    // numbers that don't fit
    (b"p cnf 4294967296 0\n", 1),
    (b"p cnf 1 18446744073709551616\n", 1),
    (b"p cnf 18446744073709551617 1\n1 0\n", 1),
    (b"p cnf 4294967295 1\n99999999999999999999 0\n", 2),
    (b"p cnf 4294967295 1\n18446744073709551617 0\n", 2),
    (b"p cnf 4294967295 1\n2147483648 0\n", 2),
    // a count that doesn't match
    (b"p cnf 1 2\n", 2),
    (b"p cnf 1 2\n1 0\n", 3),
    (b"p cnf 1 18446744073709551615\n1 0\n-1 0\n", 4),
    (b"p cnf 1 1\n1 0\n-1 0\n", 3),
    (b"p cnf 1 0\n\n", 2),
    (b"p cnf 1 1\n1 0\nx", 3),
    // lines of no clause
    (b"p cnf 1 1\n1 0", 2),
    (b"p cnf 1 2\n1 0\n-1 0", 3),
    (b"p cnf 2 2\n1 0\n1  2 0\n", 3),
    (b"p cnf 1 2\n1 0 \n-1 0\n", 2),
    (b"p cnf 1 2\n 1 0\n-1 0\n", 2),
    (b"p cnf 1 2\n1\t0\n-1 0\n", 2),
    (b"p cnf 1 1\n01 0\n", 2),
    (b"p cnf 1 1\n-0 0\n", 2),
    (b"p cnf 1 1\n1 -0\n", 2),
    (b"p cnf 1 1\n1 00\n", 2),
    (b"p cnf 1 1\n+1 0\n", 2),
    (b"p cnf 1 1\n--1 0\n", 2),
    (b"p cnf 1 2\n1 0\n2 0\n", 3),
    (b"p cnf 9 1\n-10 0\n", 2),
    (b"p cnf 2 1\n2 1 0\n", 2),
    (b"p cnf 2 1\n-1 1 0\n", 2),
    (b"p cnf 2 1\n1 1 0\n", 2),
    (b"p cnf 2 1\n1 2\n", 2),
];

/// LRAT texts of logs with the first step's number, and with how many steps.
const LOGS: [(u64, &[u8], u32); 5] = [
    (3, b"3 0 1 2 0\n", 1),
    (3, b"", 0),
    (9, b"9 1 -1 -2 0 0\n10 0 18446744073709551615 7 7 0\n", 2),
    (1, b"1 -2147483647 0 1 0\n2 0 0\n3 5 0 20 100 0\n", 3),
    (
        9223372036854775808,
        b"9223372036854775808 0 1 0\n9223372036854775809 0 0\n",
        2,
    ),
];

/// LRAT texts with the first step's number 3, and the first line that is bad.
const BAD_LOGS: [(&[u8], u32); 32] = [
    (b"\n", 1),
    (b"3 0 1 2 0", 1),
    (b"3 0 1 2 0\n4 0 1 2 0", 2),
    (b"3 0 1 2 0\n\n", 2),
    (b"3 0 1 2 0\nx", 2),
    // blanks
    (b"3  0 1 2 0\n", 1),
    (b"3 0  1 2 0\n", 1),
    (b"3 0 1  2 0\n", 1),
    (b"3 0 1 2 0 \n", 1),
    (b" 3 0 1 2 0\n", 1),
    (b"3 0 1 2 0\r\n", 1),
    // numbers
    (b"03 0 1 2 0\n", 1),
    (b"3 01 0 1 0\n", 1),
    (b"3 0 01 2 0\n", 1),
    (b"3 -0 1 2 0\n", 1),
    (b"3 0 1 2 -0\n", 1),
    (b"3 0 1 -2 0\n", 1),
    (b"3 2147483648 0 1 0\n", 1),
    (b"3 18446744073709551617 0 1 0\n", 1),
    (b"3 0 18446744073709551616 0\n", 1),
    (b"3 0 99999999999999999999 0\n", 1),
    // not the next step
    (b"2 0 1 2 0\n", 1),
    (b"4 0 1 2 0\n", 1),
    (b"3 1 0 1 0\n5 0 1 2 0\n", 2),
    (b"3 1 0 1 0\n3 0 1 2 0\n", 2),
    (b"18446744073709551619 0 1 2 0\n", 1),
    (b"3 d 1 0\n", 1),
    // no clause, or no end
    (b"3 2 1 0 1 0\n", 1),
    (b"3 -1 1 0 1 0\n", 1),
    (b"3 1 1 0 1 0\n", 1),
    (b"3 1 0 2\n", 1),
    (b"3 1 0\n", 1),
];

fn read_formula(alloc: Global, text: &[u8]) -> Result<Formula, TextErr> {
    if 1000 < text.len() {
        return Err(TextErr::Memory);
    }
    read_dimacs(alloc, text)
}

/// The log of a text whose first step has number 3.
fn read_log(alloc: Global, text: &[u8]) -> Result<Log, TextErr> {
    if 1000 < text.len() {
        return Err(TextErr::Memory);
    }
    read_lrat(alloc, 3, text)
}

/// How many clauses a text has, and the text of its formula.
fn printed(alloc: Global, text: &[u8]) -> Result<(usize, Bytes), Fail> {
    let f = read_formula(alloc, text)?;
    Ok((f.clauses.len(), print_dimacs(alloc, &f)?))
}

/// The first formula that doesn't come back.
fn first_lost(alloc: Global) -> Result<Option<usize>, Fail> {
    for (row, (text, clauses)) in FORMULAS.iter().enumerate() {
        let (count, bytes) = printed(alloc, text)?;
        if count != *clauses || bytes.as_slice() != *text {
            return Ok(Some(row));
        }
    }
    Ok(None)
}

#[test]
fn formulas_come_back(rt: HostRuntime) -> Result<(), Fail> {
    assert_eq!(rt; first_lost(rt.alloc())?, None);
    Ok(())
}

/// The first text whose first bad line is another.
fn first_misread(alloc: Global) -> Option<usize> {
    for (row, (text, line)) in BAD_FORMULAS.iter().enumerate() {
        if read_formula(alloc, text).err() != Some(TextErr::At { line: *line }) {
            return Some(row);
        }
    }
    None
}

#[test]
fn bad_lines_of_formulas_are_named(rt: HostRuntime) {
    assert_eq!(rt; first_misread(rt.alloc()), None);
}

/// How many steps a text has, and the text of its log.
fn printed_log(alloc: Global, first: u64, text: &[u8]) -> Result<(u32, Bytes), Fail> {
    if first == 0 || 9223372036854775808 < first || 1000 < text.len() {
        return Err(Fail::from("out of range"));
    }
    let log = read_lrat(alloc, first, text)?;
    Ok((log.len(), print_lrat(alloc, first, &log)?))
}

/// The first log that doesn't come back.
fn first_lost_log(alloc: Global) -> Result<Option<usize>, Fail> {
    for (row, (first, text, steps)) in LOGS.iter().enumerate() {
        let (count, bytes) = printed_log(alloc, *first, text)?;
        if count != *steps || bytes.as_slice() != *text {
            return Ok(Some(row));
        }
    }
    Ok(None)
}

#[test]
fn logs_come_back(rt: HostRuntime) -> Result<(), Fail> {
    assert_eq!(rt; first_lost_log(rt.alloc())?, None);
    Ok(())
}

/// The first text whose first bad line is another.
fn first_misread_log(alloc: Global) -> Option<usize> {
    for (row, (text, line)) in BAD_LOGS.iter().enumerate() {
        if read_log(alloc, text).err() != Some(TextErr::At { line: *line }) {
            return Some(row);
        }
    }
    None
}

#[test]
fn bad_lines_of_logs_are_named(rt: HostRuntime) {
    assert_eq!(rt; first_misread_log(rt.alloc()), None);
}

/// The variables of a clause's literals with their signs, and an end.
fn push_signs(all: &mut Vec<(u32, bool)>, clause: &[Lit]) -> Result<(), AllocError> {
    for lit in clause {
        all.push((lit.var(), lit.positive()))?;
    }
    all.push((0, false))?;
    Ok(())
}

fn signs(alloc: Global, clauses: &Clauses) -> Result<Vec<(u32, bool)>, AllocError> {
    let mut all = Vec::new(alloc);
    for place in 0..clauses.len() {
        push_signs(&mut all, clauses.at(place))?;
    }
    Ok(all)
}

/// Whether a text's formula has so many variables, and these literals.
fn has_literals(
    alloc: Global,
    text: &[u8],
    vars: u32,
    wanted: &[(u32, bool)],
) -> Result<bool, Fail> {
    let f = read_formula(alloc, text)?;
    Ok(f.vars == vars && signs(alloc, &f.clauses)?.as_slice() == wanted)
}

#[test]
fn a_formula_has_its_literals(rt: HostRuntime) -> Result<(), Fail> {
    let wanted = [(1, true), (0, false), (1, false), (0, false)];
    assert!(rt; has_literals(rt.alloc(), b"p cnf 1 2\n1 0\n-1 0\n", 1, &wanted)?);
    Ok(())
}

/// How many literals and how many antecedents the log's first step has.
fn sizes(log: &Log) -> Option<(usize, usize)> {
    if log.is_empty() {
        return None;
    }
    let step = log.at(0);
    Some((step.clause.len(), step.ants.len()))
}

fn sizes_read(alloc: Global, text: &[u8]) -> Result<Option<(usize, usize)>, Fail> {
    Ok(sizes(&read_log(alloc, text)?))
}

#[test]
fn a_step_has_its_antecedents(rt: HostRuntime) -> Result<(), Fail> {
    assert_eq!(rt; sizes_read(rt.alloc(), b"3 0 1 2 0\n")?, Some((0, 2)));
    Ok(())
}
