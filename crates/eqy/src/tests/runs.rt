//! Verdicts, refusals, usage lines and faults.

use super::*;
use std::test::Fail;

const RUNS: [Run; 29] = [
    // verdicts and refusals of files
    Run {
        words: JOB_WORDS,
        files: PROVED,
        reads: &[],
        puts: &[],
        status: 0,
        output: PASS,
    },
    Run {
        words: JOB_WORDS,
        files: DIFFERENT,
        reads: &[],
        puts: &[],
        status: 2,
        output: FAIL,
    },
    Run {
        words: JOB_WORDS,
        files: &[("job.eqy", JOB), ("gold.v", TWELVE), ("gate.v", TWELVE)],
        reads: &[],
        puts: &[],
        status: 0,
        output: PASS,
    },
    Run {
        words: JOB_WORDS,
        files: &[],
        reads: &[],
        puts: &[],
        status: 16,
        output: b"eqy: job.eqy: no such file\n",
    },
    Run {
        words: JOB_WORDS,
        files: &[("job.eqy", b"[gold]\n")],
        reads: &[],
        puts: &[],
        status: 16,
        output: b"eqy: job.eqy: NotYet\n",
    },
    Run {
        words: JOB_WORDS,
        files: &[("job.eqy", JOB), ("gate.v", NOR)],
        reads: &[],
        puts: &[],
        status: 16,
        output: b"eqy: gold.v: no such file\n",
    },
    Run {
        words: JOB_WORDS,
        files: &[("job.eqy", JOB), ("gold.v", BROKEN)],
        reads: &[],
        puts: &[],
        status: 16,
        output: b"eqy: gold.v: NotYet\n",
    },
    Run {
        words: JOB_WORDS,
        files: &[("job.eqy", JOB), ("gold.v", AND)],
        reads: &[],
        puts: &[],
        status: 16,
        output: b"eqy: gate.v: no such file\n",
    },
    Run {
        words: JOB_WORDS,
        files: &[("job.eqy", JOB), ("gold.v", AND), ("gate.v", OTHER_NAME)],
        reads: &[],
        puts: &[],
        status: 16,
        output: b"eqy: ports: NotYet\n",
    },
    Run {
        words: JOB_WORDS,
        files: &[("job.eqy", JOB), ("gold.v", AND), ("gate.v", OTHER_ORDER)],
        reads: &[],
        puts: &[],
        status: 16,
        output: b"eqy: ports: NotYet\n",
    },
    Run {
        words: JOB_WORDS,
        files: &[("job.eqy", JOB), ("gold.v", AND), ("gate.v", ONE_LESS)],
        reads: &[],
        puts: &[],
        status: 16,
        output: b"eqy: ports: NotYet\n",
    },
    Run {
        words: JOB_WORDS,
        files: &[("job.eqy", JOB), ("gold.v", THIRTEEN), ("gate.v", THIRTEEN)],
        reads: &[],
        puts: &[],
        status: 16,
        output: b"eqy: size: TooWide 13\n",
    },
    // other words get the usage line
    Run {
        words: &[],
        files: PROVED,
        reads: &[],
        puts: &[],
        status: 16,
        output: USAGE,
    },
    Run {
        words: &[b""],
        files: PROVED,
        reads: &[],
        puts: &[],
        status: 16,
        output: USAGE,
    },
    Run {
        words: &[b"-h"],
        files: PROVED,
        reads: &[],
        puts: &[],
        status: 16,
        output: USAGE,
    },
    Run {
        words: &[b"gen"],
        files: PROVED,
        reads: &[],
        puts: &[],
        status: 16,
        output: USAGE,
    },
    Run {
        words: &[b"job\xFF.eqy"],
        files: PROVED,
        reads: &[],
        puts: &[],
        status: 16,
        output: USAGE,
    },
    Run {
        words: &[b"job.eqy", b"job.eqy"],
        files: PROVED,
        reads: &[],
        puts: &[],
        status: 16,
        output: USAGE,
    },
    // faults leave a front of the output
    Run {
        words: JOB_WORDS,
        files: PROVED,
        reads: &[1],
        puts: &[],
        status: 17,
        output: b"",
    },
    Run {
        words: JOB_WORDS,
        files: PROVED,
        reads: &[2],
        puts: &[],
        status: 17,
        output: b"",
    },
    Run {
        words: JOB_WORDS,
        files: PROVED,
        reads: &[3],
        puts: &[],
        status: 17,
        output: b"",
    },
    Run {
        words: JOB_WORDS,
        files: PROVED,
        reads: &[],
        puts: &[1],
        status: 17,
        output: b"y: PROVE",
    },
    Run {
        words: JOB_WORDS,
        files: PROVED,
        reads: &[],
        puts: &[2],
        status: 17,
        output: b"y: PROVED 1 by s\nproved 1, failed 0, unknown",
    },
    Run {
        words: JOB_WORDS,
        files: PROVED,
        reads: &[],
        puts: &[3],
        status: 17,
        output: b"y: PROVED 1 by s\nproved 1, failed 0, unknown 0, skipped 0, conflicts 0\nPA",
    },
    Run {
        words: &[b"none"],
        files: PROVED,
        reads: &[],
        puts: &[1],
        status: 17,
        output: b"eqy: none: n",
    },
    // a refused file is the last that is read
    Run {
        words: JOB_WORDS,
        files: &[],
        reads: &[2],
        puts: &[],
        status: 16,
        output: b"eqy: job.eqy: no such file\n",
    },
    Run {
        words: JOB_WORDS,
        files: &[("job.eqy", b"[gold]\n")],
        reads: &[2],
        puts: &[],
        status: 16,
        output: b"eqy: job.eqy: NotYet\n",
    },
    Run {
        words: JOB_WORDS,
        files: &[("job.eqy", JOB)],
        reads: &[3],
        puts: &[],
        status: 16,
        output: b"eqy: gold.v: no such file\n",
    },
    Run {
        words: JOB_WORDS,
        files: &[("job.eqy", JOB), ("gold.v", BROKEN)],
        reads: &[3],
        puts: &[],
        status: 16,
        output: b"eqy: gold.v: NotYet\n",
    },
];

/// The first run that ends otherwise.
fn first_other<R: Threads + Sync>(rt: &R, alloc: Global) -> Result<Option<usize>, Memory> {
    for (row, run) in RUNS.iter().enumerate() {
        if !runs_so(rt, alloc, run.files, run)? {
            return Ok(Some(row));
        }
    }
    Ok(None)
}

#[test]
fn runs_end_so(rt: HostRuntime) -> Result<(), Fail> {
    assert_eq!(rt; first_other(&rt, rt.alloc())?, None);
    Ok(())
}
