//! Whole reports, and rows of what strategies came to.

use crate::making::{Limits, partitions, strategies};
use eq_base::{Items, Memory};
use eq_compose::{Cause, Causes, Row, Verdict, Whole};
use eq_config::Strategy;
use eq_induct::{Attempt, Decided, End, PartVerdict, Tries, Try};
use eq_part::Partition;
use eq_report::{closing_lines, counts_of, row_line, row_of};
use std::alloc::Global;
use std::test::Fail;

/// What is known of a partition.
#[derive(Clone, Copy)]
enum Known {
    Proved(u32, u32),
    Fail(u32, u32),
    /// By the strategies that gave up: a number, whether its conflicts were spent, and the limit.
    Unknown(&'static [(u32, bool, u64)]),
    Skipped,
}

/// What is known, whether it was kept, and how many clauses were learned.
type RowOf = (Known, bool, u64);

/// Strategies, names of partitions, a row for each, the whole, and the output.
struct Case {
    strategies: &'static [Limits],
    names: &'static [&'static str],
    rows: &'static [RowOf],
    whole: Whole,
    output: &'static str,
}

const ONE: &[Limits] = &[("s", 3, 20_000)];

const TWO: &[Limits] = &[("s", 3, 1), ("t", 3, 20_000)];

static CASES: [Case; 14] = [
    Case {
        strategies: ONE,
        names: &["y"],
        rows: &[(Known::Proved(1, 0), false, 7)],
        whole: Whole::Pass,
        output: "y: PROVED 1 by s\nproved 1, failed 0, unknown 0, skipped 0, conflicts 7\nPASS\n",
    },
    Case {
        strategies: ONE,
        names: &["y"],
        rows: &[(Known::Fail(1, 0), false, 0)],
        whole: Whole::Fail,
        output: "y: FAIL 1 by s\nproved 0, failed 1, unknown 0, skipped 0, conflicts 0\nFAIL\n",
    },
    Case {
        strategies: ONE,
        names: &["y", "n"],
        rows: &[
            (Known::Proved(1, 0), false, 1),
            (Known::Proved(1, 0), false, 1),
        ],
        whole: Whole::Pass,
        output: "y: PROVED 1 by s\nn: PROVED 1 by s\nproved 2, failed 0, unknown 0, skipped 0, conflicts 2\nPASS\n",
    },
    Case {
        strategies: &[("s", 5, 20_000)],
        names: &["y"],
        rows: &[(Known::Unknown(&[(0, false, 5)]), false, 0)],
        whole: Whole::Unknown,
        output: "y: UNKNOWN s depth 5\nproved 0, failed 0, unknown 1, skipped 0, conflicts 0\nUNKNOWN\n",
    },
    Case {
        strategies: &[("s", 3, 1)],
        names: &["y"],
        rows: &[(Known::Unknown(&[(0, true, 1)]), false, 1)],
        whole: Whole::Unknown,
        output: "y: UNKNOWN s conflicts 1\nproved 0, failed 0, unknown 1, skipped 0, conflicts 1\nUNKNOWN\n",
    },
    Case {
        strategies: TWO,
        names: &["y"],
        rows: &[(Known::Proved(1, 1), false, 12)],
        whole: Whole::Pass,
        output: "y: PROVED 1 by t\nproved 1, failed 0, unknown 0, skipped 0, conflicts 12\nPASS\n",
    },
    Case {
        strategies: TWO,
        names: &["y"],
        rows: &[(Known::Unknown(&[(0, true, 1), (1, false, 3)]), false, 10)],
        whole: Whole::Unknown,
        output: "y: UNKNOWN s conflicts 1; t depth 3\nproved 0, failed 0, unknown 1, skipped 0, conflicts 10\nUNKNOWN\n",
    },
    Case {
        strategies: ONE,
        names: &["y"],
        rows: &[(Known::Unknown(&[]), false, 0)],
        whole: Whole::Unknown,
        output: "y: UNKNOWN no strategy applies\nproved 0, failed 0, unknown 1, skipped 0, conflicts 0\nUNKNOWN\n",
    },
    Case {
        strategies: ONE,
        names: &[],
        rows: &[],
        whole: Whole::Pass,
        output: "proved 0, failed 0, unknown 0, skipped 0, conflicts 0\nPASS\n",
    },
    Case {
        strategies: ONE,
        names: &["q", "cnt_q[0]", "cnt_q[1]"],
        rows: &[
            (Known::Proved(1, 0), false, 0),
            (Known::Proved(1, 0), false, 0),
            (Known::Proved(1, 0), false, 0),
        ],
        whole: Whole::Pass,
        output: "q: PROVED 1 by s\ncnt_q[0]: PROVED 1 by s\ncnt_q[1]: PROVED 1 by s\nproved 3, failed 0, unknown 0, skipped 0, conflicts 0\nPASS\n",
    },
    Case {
        strategies: ONE,
        names: &["y", "n"],
        rows: &[(Known::Fail(1, 0), false, 0), (Known::Skipped, false, 0)],
        whole: Whole::Fail,
        output: "y: FAIL 1 by s\nn: SKIPPED\nproved 0, failed 1, unknown 0, skipped 1, conflicts 0\nFAIL\n",
    },
    Case {
        strategies: ONE,
        names: &["y0", "y1", "y2"],
        rows: &[
            (Known::Proved(1, 0), true, 0),
            (Known::Fail(64, 0), true, 3_199_999),
            (Known::Proved(10, 0), false, 1),
        ],
        whole: Whole::Fail,
        output: "y0: PROVED 1 by s, kept\ny1: FAIL 64 by s, kept\ny2: PROVED 10 by s\nproved 2, failed 1, unknown 0, skipped 0, conflicts 3200000\nFAIL\n",
    },
    Case {
        strategies: ONE,
        names: &["y", "n"],
        rows: &[
            (Known::Proved(1, 0), false, 18_446_744_073_709_551_615),
            (Known::Proved(1, 0), false, 18_446_744_073_709_551_615),
        ],
        whole: Whole::Pass,
        output: "y: PROVED 1 by s\nn: PROVED 1 by s\nproved 2, failed 0, unknown 0, skipped 0, conflicts 36893488147419103230\nPASS\n",
    },
    Case {
        strategies: ONE,
        names: &["a", "b", "c"],
        rows: &[
            (Known::Proved(1, 0), false, 0),
            (Known::Unknown(&[(0, false, 3)]), false, 0),
            (Known::Proved(2, 0), false, 0),
        ],
        whole: Whole::Unknown,
        output: "a: PROVED 1 by s\nb: UNKNOWN s depth 3\nc: PROVED 2 by s\nproved 2, failed 0, unknown 1, skipped 0, conflicts 0\nUNKNOWN\n",
    },
];

fn cause(all: &(u32, bool, u64)) -> Cause {
    if all.1 {
        Cause::Conflicts {
            strategy: all.0,
            conflicts: all.2,
        }
    } else {
        Cause::Depth {
            strategy: all.0,
            depth: (all.2 & 0xFF) as u32,
        }
    }
}

fn causes(alloc: Global, all: &[(u32, bool, u64)]) -> Result<Causes, Memory> {
    let mut causes = Causes::new(alloc);
    for one in all {
        causes.push(cause(one))?;
    }
    Ok(causes)
}

fn verdict(alloc: Global, known: Known) -> Result<Verdict, Memory> {
    Ok(match known {
        Known::Proved(k, strategy) => Verdict::Proved { k, strategy },
        Known::Fail(k, strategy) => Verdict::Fail { k, strategy },
        Known::Unknown(all) => Verdict::Unknown(causes(alloc, all)?),
        Known::Skipped => Verdict::Skipped,
    })
}

fn row(alloc: Global, part: usize, all: &RowOf) -> Result<Row, Memory> {
    Ok(Row {
        part: (part & 0xFF) as u32,
        verdict: verdict(alloc, all.0)?,
        kept: all.1,
        conflicts: all.2,
    })
}

fn rows(alloc: Global, all: &[RowOf]) -> Result<Vec<Row>, Memory> {
    let mut rows = Vec::new(alloc);
    for (part, one) in all.iter().enumerate() {
        let row = row(alloc, part, one)?;
        rows.push(row)?;
    }
    Ok(rows)
}

/// The lines of rows, one after another.
fn lines(
    alloc: Global,
    strategies: &[Strategy],
    parts: &[Partition],
    rows: &[Row],
) -> Result<Vec<u8>, Memory> {
    let mut output = Vec::new(alloc);
    for row in rows {
        let line = row_line(alloc, strategies, parts, row)?;
        output.extend_from_slice(&line)?;
    }
    Ok(output)
}

/// Adds the closing lines.
fn close(alloc: Global, output: &mut Vec<u8>, rows: &[Row], whole: Whole) -> Result<(), Memory> {
    let closing = closing_lines(alloc, counts_of(rows), whole)?;
    output.extend_from_slice(&closing)
}

fn report(
    alloc: Global,
    strategies: &[Strategy],
    parts: &[Partition],
    case: &Case,
) -> Result<Vec<u8>, Memory> {
    let rows = rows(alloc, case.rows)?;
    let mut output = lines(alloc, strategies, parts, &rows)?;
    close(alloc, &mut output, &rows, case.whole)?;
    Ok(output)
}

fn is_right(alloc: Global, case: &Case) -> Result<bool, Fail> {
    let strategies = strategies(alloc, case.strategies)?;
    let parts = partitions(alloc, case.names)?;
    let output = report(alloc, &strategies, &parts, case)?;
    Ok(output.as_slice() == case.output.as_bytes())
}

/// The first case whose output is another.
fn first_wrong(alloc: Global) -> Result<Option<usize>, Fail> {
    for (place, case) in CASES.iter().enumerate() {
        if !is_right(alloc, case)? {
            return Ok(Some(place));
        }
    }
    Ok(None)
}

#[test]
fn rows_and_closing_lines_are_printed(rt: HostRuntime) -> Result<(), Fail> {
    assert_eq!(rt; first_wrong(rt.alloc())?, None);
    Ok(())
}

/// How each strategy ended, what they say together, and the line.
type Outcome = (&'static [(u32, End)], PartVerdict, &'static str);

static OUTCOMES: [Outcome; 5] = [
    (
        &[(0, End::Proved(1))],
        PartVerdict::Proved { k: 1, strategy: 0 },
        "y: PROVED 1 by s\n",
    ),
    (
        &[(0, End::Spent), (1, End::Fail(12))],
        PartVerdict::Fail { k: 12, strategy: 1 },
        "y: FAIL 12 by t\n",
    ),
    (
        &[(0, End::Spent), (1, End::Deep)],
        PartVerdict::Unknown,
        "y: UNKNOWN s conflicts 1; t depth 3\n",
    ),
    (
        &[(1, End::Spent)],
        PartVerdict::Unknown,
        "y: UNKNOWN t conflicts 20000\n",
    ),
    (
        &[],
        PartVerdict::Unknown,
        "y: UNKNOWN no strategy applies\n",
    ),
];

fn tries(alloc: Global, ends: &[(u32, End)]) -> Result<Tries, Memory> {
    let mut tries = Tries::new(alloc);
    for one in ends {
        let attempt = Attempt {
            asked: Items::new(alloc),
            end: one.1,
        };
        tries.push(Try {
            strategy: one.0,
            attempt,
        })?;
    }
    Ok(tries)
}

/// The row of the first partition, for which the strategies came to this.
fn outcome_row(alloc: Global, strategies: &[Strategy], outcome: &Outcome) -> Result<Row, Memory> {
    let decided = Decided {
        tries: tries(alloc, outcome.0)?,
        verdict: outcome.1,
        conflicts: 9,
    };
    row_of(alloc, strategies, 0, &decided)
}

/// The line of that row, if it has the conflicts.
fn outcome_line(
    alloc: Global,
    strategies: &[Strategy],
    parts: &[Partition],
    outcome: &Outcome,
) -> Result<Vec<u8>, Memory> {
    let row = outcome_row(alloc, strategies, outcome)?;
    if row.conflicts != 9 {
        return Ok(Vec::new(alloc));
    }
    row_line(alloc, strategies, parts, &row)
}

fn is_outcome_right(alloc: Global, outcome: &Outcome) -> Result<bool, Fail> {
    let strategies = strategies(alloc, TWO)?;
    let parts = partitions(alloc, &["y"])?;
    let line = outcome_line(alloc, &strategies, &parts, outcome)?;
    Ok(line.as_slice() == outcome.2.as_bytes())
}

/// The first outcome whose line is another.
fn first_wrong_outcome(alloc: Global) -> Result<Option<usize>, Fail> {
    for (place, outcome) in OUTCOMES.iter().enumerate() {
        if !is_outcome_right(alloc, outcome)? {
            return Ok(Some(place));
        }
    }
    Ok(None)
}

#[test]
fn what_strategies_came_to_is_a_row(rt: HostRuntime) -> Result<(), Fail> {
    assert_eq!(rt; first_wrong_outcome(rt.alloc())?, None);
    Ok(())
}
