//! Lines that are damaged, and what is then named.

use crate::texts::{first_fault, with_line};
use eq_wit::WitKind;
use std::alloc::Global;
use std::test::Fail;

/// The lines of an evidence with each kind of node, a log, a run of each query, and two tries.
pub(crate) const LINES: [&[u8]; 33] = [
    b"eqe 1\n",
    b"part y\n",
    b"inputs 2\n",
    b"a\n",
    b"b\n",
    b"nodes 8\n",
    b"const 1\n",
    b"input 0\n",
    b"not 0\n",
    b"and 1 2\n",
    b"xor 3 1\n",
    b"mux 1 2 3\n",
    b"buf 5\n",
    b"reg 3 0\n",
    b"outputs 1\n",
    b"y 6 7\n",
    b"attempts 2\n",
    b"attempt s 1 20 2\n",
    b"base 1 unsat 2\n",
    b"21 1 -2 0 3 4 0\n",
    b"22 0 20 1 21 0\n",
    b"step 1 sat\n",
    b"regs 1\n",
    b"in 01\n",
    b"in 10\n",
    b"deep\n",
    b"attempt t 3 9 1\n",
    b"base 1 sat\n",
    b"regs 0\n",
    b"in 11\n",
    b"fail 1\n",
    b"verdict fail\n",
    b"end\n",
];

/// A line, counted from 1, what stands in its place, and the fault that is named then.
type Case = (usize, &'static [u8], u32, WitKind);

const CASES: [Case; 120] = [
    (1, b"eqe 2\n", 1, WitKind::Head),
    (1, b"eqe 1 \n", 1, WitKind::Head),
    (1, b"eqe 1\r\n", 1, WitKind::Head),
    (1, b"", 1, WitKind::Head),
    (2, b"part\n", 2, WitKind::Word),
    (2, b"part y z\n", 2, WitKind::Word),
    (2, b"port y\n", 2, WitKind::Word),
    (2, b"part  y\n", 2, WitKind::Word),
    (2, b"part y", 2, WitKind::Word),
    (2, b"", 2, WitKind::Word),
    (3, b"inputs x\n", 3, WitKind::Number),
    (3, b"inputs 02\n", 3, WitKind::Number),
    (3, b"inputs 4294967296\n", 3, WitKind::Number),
    (3, b"inputs\n", 3, WitKind::Word),
    (3, b"inputs 2 \n", 3, WitKind::Word),
    (3, b"inputs 3\n", 6, WitKind::Word),
    (3, b"inputs 1\n", 5, WitKind::Word),
    (4, b"a b\n", 4, WitKind::Word),
    (4, b"\n", 4, WitKind::Word),
    (5, b"\tb\n", 5, WitKind::Word),
    (5, b"b", 5, WitKind::Word),
    (6, b"nodes -8\n", 6, WitKind::Number),
    (6, b"nodes 9\n", 15, WitKind::Word),
    (6, b"nodes 7\n", 14, WitKind::Word),
    (6, b"node 8\n", 6, WitKind::Word),
    (7, b"const 2\n", 7, WitKind::Word),
    (7, b"const\n", 7, WitKind::Word),
    (7, b"const 01\n", 7, WitKind::Word),
    (7, b"not 0\n", 7, WitKind::Word),
    (8, b"input 2\n", 8, WitKind::Number),
    (8, b"input 00\n", 8, WitKind::Number),
    (8, b"input\n", 8, WitKind::Word),
    (8, b"input 0 \n", 8, WitKind::Word),
    (9, b"input 0\n", 9, WitKind::Word),
    (9, b"not 2\n", 9, WitKind::Number),
    (9, b"not 0 0\n", 9, WitKind::Word),
    (9, b"nor 0\n", 9, WitKind::Word),
    (10, b"and 1 3\n", 10, WitKind::Number),
    (10, b"and 1\n", 10, WitKind::Word),
    (10, b"and 1  2\n", 10, WitKind::Word),
    (11, b"xor 3 +1\n", 11, WitKind::Number),
    (11, b"xor 3 1 0\n", 11, WitKind::Word),
    (12, b"mux 1 2 5\n", 12, WitKind::Number),
    (12, b"mux 1 2\n", 12, WitKind::Word),
    (13, b"buf 6\n", 13, WitKind::Number),
    (13, b"buff 5\n", 13, WitKind::Word),
    (14, b"reg 8 0\n", 14, WitKind::Number),
    (14, b"reg 3 2\n", 14, WitKind::Word),
    (14, b"reg 3\n", 14, WitKind::Word),
    (15, b"outputs z\n", 15, WitKind::Number),
    (15, b"outputs 0\n", 16, WitKind::Word),
    (15, b"outputs 2\n", 17, WitKind::Word),
    (16, b"y 6 8\n", 16, WitKind::Number),
    (16, b"y 6\n", 16, WitKind::Word),
    (16, b"y 6 7 7\n", 16, WitKind::Word),
    (17, b"attempts 4294967296\n", 17, WitKind::Number),
    (17, b"attempts 3\n", 32, WitKind::Word),
    (17, b"attempts 1\n", 27, WitKind::Word),
    (17, b"tries 2\n", 17, WitKind::Word),
    (18, b"attempt s 0 20 2\n", 18, WitKind::Number),
    (18, b"attempt s 65 20 2\n", 18, WitKind::Number),
    (18, b"attempt s 1 0 2\n", 18, WitKind::Number),
    (18, b"attempt s 1 200001 2\n", 18, WitKind::Number),
    (18, b"attempt s 1 20\n", 18, WitKind::Word),
    (18, b"attempt s 1 20 1\n", 22, WitKind::Word),
    (18, b"attempt s 1 20 3\n", 26, WitKind::Word),
    (19, b"base 0 unsat 2\n", 19, WitKind::Number),
    (19, b"base 65 unsat 2\n", 19, WitKind::Number),
    (19, b"base 2 unsat 2\n", 20, WitKind::Number),
    (19, b"base 1 unsat 3\n", 22, WitKind::Word),
    (19, b"base 1 unsat 1\n", 21, WitKind::Word),
    (19, b"base 1 sat\n", 20, WitKind::Word),
    (19, b"bass 1 unsat 2\n", 19, WitKind::Word),
    (19, b"base 1 unsat\n", 19, WitKind::Word),
    (20, b"22 1 -2 0 3 4 0\n", 20, WitKind::Number),
    (20, b"21 1 -2 0 3 21 0\n", 20, WitKind::Number),
    (20, b"21 -2 1 0 3 4 0\n", 20, WitKind::Number),
    (20, b"21 1 1 0 3 4 0\n", 20, WitKind::Number),
    (20, b"21 1 -2 0 3 0 0\n", 20, WitKind::Number),
    (20, b"21 1 -2 0 3 4 0 0\n", 20, WitKind::Number),
    (20, b"21 1 -2 0 -3 4 0\n", 20, WitKind::Number),
    (20, b"21 2147483648 0 3 4 0\n", 20, WitKind::Number),
    (20, b"21 d 1 2 0\n", 20, WitKind::Word),
    (20, b"21 1 -2 0 3 4\n", 20, WitKind::Word),
    (20, b"21 1 -2 3 4 0\n", 20, WitKind::Word),
    (20, b"21 1 -2  0 3 4 0\n", 20, WitKind::Word),
    (20, b"21 1 -2 0 3 4 0", 20, WitKind::Number),
    (21, b"22 0 22 0\n", 21, WitKind::Number),
    (21, b"21 0 20 1 0\n", 21, WitKind::Number),
    (22, b"step 1 sut\n", 22, WitKind::Word),
    (22, b"step 1 sat 0\n", 22, WitKind::Word),
    (22, b"step one sat\n", 22, WitKind::Number),
    (22, b"base 1 sat\n", 25, WitKind::Word),
    (23, b"regs -\n", 23, WitKind::Word),
    (23, b"regs 11\n", 23, WitKind::Word),
    (23, b"regs 2\n", 23, WitKind::Word),
    (23, b"", 23, WitKind::Word),
    (24, b"in 0\n", 24, WitKind::Word),
    (24, b"in -\n", 24, WitKind::Word),
    (25, b"regs 10\n", 25, WitKind::Word),
    (25, b"", 25, WitKind::Word),
    (26, b"deep 1\n", 26, WitKind::Word),
    (26, b"proved 01\n", 26, WitKind::Number),
    (26, b"proved\n", 26, WitKind::Word),
    (26, b"", 26, WitKind::Word),
    (31, b"fail 4294967296\n", 31, WitKind::Number),
    (31, b"fail\n", 31, WitKind::Word),
    (31, b"deep\n", 32, WitKind::Word),
    (31, b"proved 1\n", 32, WitKind::Word),
    (32, b"verdict proved\n", 32, WitKind::Word),
    (32, b"verdict unknown\n", 32, WitKind::Word),
    (32, b"verdict\n", 32, WitKind::Word),
    (32, b"", 32, WitKind::Word),
    (33, b"End\n", 33, WitKind::Word),
    (33, b"end \n", 33, WitKind::Word),
    (33, b"end", 33, WitKind::Word),
    (33, b"", 33, WitKind::End),
    (33, b"end\nend\n", 34, WitKind::End),
    (33, b"end\n ", 34, WitKind::End),
    (33, b"end\n\n", 34, WitKind::End),
];

/// The number of the first case whose fault isn't the one that is named.
fn first_wrong(alloc: Global) -> Result<Option<usize>, Fail> {
    for (row, case) in CASES.iter().enumerate() {
        let (line, bytes, at, kind) = case;
        if fault_with(alloc, *line, bytes)? != Some((*at, *kind)) {
            return Ok(Some(row));
        }
    }
    Ok(None)
}

/// What is wrong where a line has other bytes.
fn fault_with(alloc: Global, line: usize, bytes: &[u8]) -> Result<Option<(u32, WitKind)>, Fail> {
    let text = with_line(alloc, &LINES, line, bytes)?;
    first_fault(alloc, text.as_slice())
}

#[test]
fn each_damaged_line_is_named_with_its_kind(rt: HostRuntime) -> Result<(), Fail> {
    assert_eq!(rt; first_wrong(rt.alloc())?, None);
    Ok(())
}

/// What is wrong with the first bytes of a text that is an evidence's: they are no first line, end within a line, or end
/// where a line is due.
fn fault_of_front(front: &[u8]) -> (u32, WitKind) {
    if front.len() < 6 {
        return (1, WitKind::Head);
    }
    let mut line: u32 = 1;
    for byte in front {
        if *byte == b'\n' {
            line = line.wrapping_add(1);
        }
    }
    if front.ends_with(b"\n") {
        (line, WitKind::End)
    } else {
        (line, WitKind::Word)
    }
}

/// The length of the first front of the text whose fault is another one.
fn first_wrong_front(alloc: Global) -> Result<Option<usize>, Fail> {
    let text = with_line(alloc, &LINES, 0, b"")?;
    let text = text.as_slice();
    for len in 0..text.len() {
        let front = &text[..len];
        if first_fault(alloc, front)? != Some(fault_of_front(front)) {
            return Ok(Some(len));
        }
    }
    Ok(None)
}

#[test]
fn each_front_of_a_text_ends_too_early(rt: HostRuntime) -> Result<(), Fail> {
    assert_eq!(rt; first_wrong_front(rt.alloc())?, None);
    Ok(())
}
