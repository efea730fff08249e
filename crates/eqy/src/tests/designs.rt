//! Texts that are no designs, and the limits of designs.

use super::*;
use std::test::Fail;

/// Texts that are no design of a module `t`.
const OUTSIDE: [&[u8]; 17] = [
    b"",
    b"module u(input a, input b, output y); assign y = a & b; endmodule",
    b"module t(input a, input wire, output y); assign y = a; endmodule",
    b"module t(input a, input module, output y); assign y = a; endmodule",
    b"module t(input a, input a, output y); assign y = a; endmodule",
    b"module t(input a, input y, output y); assign y = a; endmodule",
    b"module t(input a, output x, output y); assign y = a; endmodule",
    b"module t(input a, input y); assign y = a; endmodule",
    b"module t(input a, input b, output y); assign a = b; endmodule",
    b"module t(input a, output y); assign y = b; endmodule",
    b"module t(input a, output y); assign y = y; endmodule",
    b"module t(input a, output y); // buffer\n assign y = a; endmodule",
    b"module t(input a, output y); /* buffer */ assign y = a; endmodule",
    b"module t(input a, output y); assign y = a; endmodule\xFF",
    b"module t(input a, output y); assign y = a; endmodule module",
    b"module t(input a, output y); assign y = a & ; endmodule",
    b"module t(input a, output y); assign y = a; assign y = a; endmodule",
];

/// Whether a run over two designs ends so.
fn designs_run_so<'a, R: Threads + Sync>(
    rt: &R,
    alloc: Global,
    gold: &'a [u8],
    gate: &'a [u8],
    run: &Run,
) -> Result<bool, Memory> {
    let files: [(&str, &[u8]); 3] = [("job.eqy", JOB), ("gold.v", gold), ("gate.v", gate)];
    runs_so(rt, alloc, &files, run)
}

/// The first of these texts that isn't refused as gold or as gate.
fn first_taken<R: Threads + Sync>(rt: &R, alloc: Global) -> Result<Option<usize>, Memory> {
    for (row, text) in OUTSIDE.iter().enumerate() {
        if !designs_run_so(rt, alloc, text, AND, &NO_GOLD)?
            || !designs_run_so(rt, alloc, AND, text, &NO_GATE)?
        {
            return Ok(Some(row));
        }
    }
    Ok(None)
}

#[test]
fn other_designs_are_refused(rt: HostRuntime) -> Result<(), Fail> {
    assert_eq!(rt; first_taken(&rt, rt.alloc())?, None);
    Ok(())
}

/// A design that has so many marks.
fn marks(alloc: Global, count: usize) -> Result<String, AllocError> {
    let mut text = String::new(alloc);
    text.push_str("module t(input a, output y); assign y = ")?;
    for _ in 0..count {
        text.push_str("a&")?;
    }
    text.push_str("a; endmodule")?;
    Ok(text)
}

fn marks_run_so<R: Threads + Sync>(
    rt: &R,
    alloc: Global,
    count: usize,
    run: &Run,
) -> Result<bool, Memory> {
    let gold = marks(alloc, count)?;
    designs_run_so(rt, alloc, gold.as_bytes(), ONE_LESS, run)
}

#[test]
fn an_expression_has_at_most_1000_marks(rt: HostRuntime) -> Result<(), Fail> {
    for (count, run) in [(1000, &PASSES), (1001, &NO_GOLD)] {
        assert!(rt; marks_run_so(&rt, rt.alloc(), count, run)?, "{count} marks");
    }
    Ok(())
}

/// A design of 64 times so many bytes, nearly all of them white space.
fn spaces(alloc: Global, count: usize) -> Result<String, AllocError> {
    let mut text = String::new(alloc);
    text.push_str("module t(input a, output y); assign y = a; endmodule            ")?;
    for _ in 1..count {
        text.push_str("                                                                ")?;
    }
    Ok(text)
}

/// Whether a file of 67,108,864 bytes is read, and one with a byte more refused.
fn limit_holds<R: Threads + Sync>(rt: &R, alloc: Global) -> Result<bool, Memory> {
    let mut gold = spaces(alloc, 1_048_576)?;
    let is_read = gold.len() == 67_108_864
        && designs_run_so(rt, alloc, gold.as_bytes(), ONE_LESS, &PASSES)?;
    gold.push_str(" ")?;
    Ok(is_read && designs_run_so(rt, alloc, gold.as_bytes(), ONE_LESS, &NO_GOLD)?)
}

#[test]
fn a_file_has_at_most_67108864_bytes(rt: HostRuntime) -> Result<(), Fail> {
    assert!(rt; limit_holds(&rt, rt.alloc())?);
    Ok(())
}
