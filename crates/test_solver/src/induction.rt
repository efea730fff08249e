//! Strategies on small parts: how each try ends, and what they come to.

use crate::evidence::all_shown;
use crate::miters::{ENABLED, HOLDS, PIGEONS};
use crate::tables::{AND_AND_OR, COUNTER, DELAYS, SMALLEST, STAYS_AT_1, TOGGLES, Table, made};
use eq_bits::Part;
use eq_config::{Patterns, Strategy};
use eq_induct::{
    Answer, Attempt, Decided, End, PartVerdict, Try, are_usable, attempt, decide, is_usable,
};
use eq_names::{Name, Pattern, are_name_bytes};
use std::alloc::Global;
use std::test::Fail;

/// A pattern, or none where it is empty, a depth, and how many conflicts.
type Plan = (&'static [u8], u32, u64);

/// A part named y, strategies, and for each try the strategy's number, its end and how many queries were asked. Then the
/// verdict, and the conflicts where they are known.
struct Case {
    part: &'static Table,
    plans: &'static [Plan],
    tries: &'static [(u32, End, usize)],
    verdict: PartVerdict,
    conflicts: Option<u64>,
}

const CASES: [Case; 14] = [
    Case {
        part: &HOLDS,
        plans: &[(b"", 5, 20_000)],
        tries: &[(0, End::Deep, 10)],
        verdict: PartVerdict::Unknown,
        conflicts: None,
    },
    Case {
        part: &COUNTER,
        plans: &[(b"", 3, 20_000)],
        tries: &[(0, End::Fail(3), 5)],
        verdict: PartVerdict::Fail { k: 3, strategy: 0 },
        conflicts: None,
    },
    Case {
        part: &COUNTER,
        plans: &[(b"", 2, 20_000)],
        tries: &[(0, End::Deep, 4)],
        verdict: PartVerdict::Unknown,
        conflicts: None,
    },
    Case {
        part: &PIGEONS,
        plans: &[(b"", 3, 0)],
        tries: &[(0, End::Spent, 1)],
        verdict: PartVerdict::Unknown,
        conflicts: Some(0),
    },
    Case {
        part: &PIGEONS,
        plans: &[(b"", 3, 1)],
        tries: &[(0, End::Spent, 1)],
        verdict: PartVerdict::Unknown,
        conflicts: Some(1),
    },
    Case {
        part: &PIGEONS,
        plans: &[(b"", 3, 1), (b"", 3, 20_000)],
        tries: &[(0, End::Spent, 1), (1, End::Proved(1), 2)],
        verdict: PartVerdict::Proved { k: 1, strategy: 1 },
        conflicts: None,
    },
    Case {
        part: &ENABLED,
        plans: &[(b"", 3, 20_000)],
        tries: &[(0, End::Proved(1), 2)],
        verdict: PartVerdict::Proved { k: 1, strategy: 0 },
        conflicts: None,
    },
    Case {
        part: &TOGGLES,
        plans: &[(b"", 64, 200_000)],
        tries: &[(0, End::Proved(1), 2)],
        verdict: PartVerdict::Proved { k: 1, strategy: 0 },
        conflicts: None,
    },
    Case {
        part: &AND_AND_OR,
        plans: &[(b"", 1, 20_000), (b"", 2, 20_000)],
        tries: &[(0, End::Fail(1), 1)],
        verdict: PartVerdict::Fail { k: 1, strategy: 0 },
        conflicts: None,
    },
    Case {
        part: &STAYS_AT_1,
        plans: &[(b"[x-z]", 1, 1)],
        tries: &[(0, End::Fail(1), 1)],
        verdict: PartVerdict::Fail { k: 1, strategy: 0 },
        conflicts: None,
    },
    Case {
        part: &SMALLEST,
        plans: &[(b"z*", 3, 20_000), (b"yy", 3, 20_000)],
        tries: &[],
        verdict: PartVerdict::Unknown,
        conflicts: Some(0),
    },
    Case {
        part: &SMALLEST,
        plans: &[],
        tries: &[],
        verdict: PartVerdict::Unknown,
        conflicts: Some(0),
    },
    // equal by induction over two cycles, and not over one
    Case {
        part: &DELAYS,
        plans: &[(b"", 1, 20_000), (b"", 3, 20_000), (b"", 5, 20_000)],
        tries: &[(0, End::Deep, 2), (1, End::Proved(2), 4)],
        verdict: PartVerdict::Proved { k: 2, strategy: 1 },
        conflicts: None,
    },
    Case {
        part: &DELAYS,
        plans: &[
            (b"z*", 3, 20_000),
            (b"?", 1, 20_000),
            (b"z", 3, 20_000),
            (b"*", 2, 20_000),
        ],
        tries: &[(1, End::Deep, 2), (3, End::Proved(2), 4)],
        verdict: PartVerdict::Proved { k: 2, strategy: 3 },
        conflicts: None,
    },
];

fn pattern(alloc: Global, text: &[u8]) -> Result<Pattern, Fail> {
    if !are_name_bytes(text) || 4096 < text.len() {
        return Err(Fail::from("no pattern"));
    }
    Ok(Pattern::read(alloc, text)?)
}

fn patterns(alloc: Global, text: &[u8]) -> Result<Patterns, Fail> {
    let mut patterns = Patterns::new(alloc);
    if !text.is_empty() {
        patterns.push(pattern(alloc, text)?)?;
    }
    Ok(patterns)
}

fn strategy(alloc: Global, plan: &Plan) -> Result<Strategy, Fail> {
    let (text, depth, conflicts) = plan;
    let name = Name::read(alloc, b"s")?;
    let apply = patterns(alloc, text)?;
    Ok(Strategy {
        name,
        depth: *depth,
        conflicts: *conflicts,
        apply,
    })
}

fn strategies(alloc: Global, plans: &[Plan]) -> Result<Vec<Strategy>, Fail> {
    let mut all = Vec::new(alloc);
    for plan in plans {
        all.push(strategy(alloc, plan)?)?;
    }
    Ok(all)
}

fn decided(alloc: Global, part: &Part, s: &[Strategy]) -> Result<Decided, Fail> {
    if 16 < s.len() || !are_usable(part, s) {
        return Err(Fail::from("no strategies for this part"));
    }
    Ok(decide(alloc, part, s)?)
}

/// Whether the tries are the ones that are wanted.
fn are_wanted(tries: &[Try], wanted: &[(u32, End, usize)]) -> bool {
    if tries.len() != wanted.len() {
        return false;
    }
    for (one, (strategy, end, queries)) in tries.iter().zip(wanted) {
        if one.strategy != *strategy
            || one.attempt.end != *end
            || one.attempt.asked.len() != *queries
        {
            return false;
        }
    }
    true
}

/// How many steps of an answer aren't empty.
fn nonempty(answer: &Answer) -> u64 {
    match answer {
        Answer::Sat(_) => 0,
        Answer::Unsat(log) => u64::from(log.len().wrapping_sub(1)),
        Answer::Spent(log) => u64::from(log.len()),
    }
}

fn nonempty_in(tries: &[Try]) -> u64 {
    let mut count = 0u64;
    for one in tries {
        for asked in one.attempt.asked.as_slice() {
            count = count.wrapping_add(nonempty(&asked.answer));
        }
    }
    count
}

fn is_decided_so(alloc: Global, part: &Part, decided: &Decided, case: &Case) -> Result<bool, Fail> {
    let tries = decided.tries.as_slice();
    Ok(
        are_wanted(tries, case.tries)
            && decided.verdict == case.verdict
            && decided.conflicts == nonempty_in(tries)
            && case
                .conflicts
                .is_none_or(|wanted| decided.conflicts == wanted)
            && all_shown(alloc, part, tries)?,
    )
}

fn holds(alloc: Global, case: &Case) -> Result<bool, Fail> {
    let part = made(alloc, case.part)?;
    let s = strategies(alloc, case.plans)?;
    let decided = decided(alloc, &part, s.as_slice())?;
    is_decided_so(alloc, &part, &decided, case)
}

fn first_wrong(alloc: Global) -> Result<Option<usize>, Fail> {
    for (row, case) in CASES.iter().enumerate() {
        if !holds(alloc, case)? {
            return Ok(Some(row));
        }
    }
    Ok(None)
}

#[test]
fn parts_are_decided(rt: HostRuntime) -> Result<(), Fail> {
    assert_eq!(rt; first_wrong(rt.alloc())?, None);
    Ok(())
}

fn attempted(alloc: Global, part: &Part, plan: &Plan) -> Result<Attempt, Fail> {
    let s = strategy(alloc, plan)?;
    if !is_usable(part, &s) {
        return Err(Fail::from("no strategy for this part"));
    }
    Ok(attempt(alloc, part, &s)?)
}

/// How an attempt on the pigeons ends, and how many steps its answers have that aren't empty.
fn counts(alloc: Global, conflicts: u64) -> Result<(End, Vec<u64>), Fail> {
    let part = made(alloc, &PIGEONS)?;
    let attempt = attempted(alloc, &part, &(b"", 3, conflicts))?;
    let mut counts = Vec::new(alloc);
    for asked in attempt.asked.as_slice() {
        counts.push(nonempty(&asked.answer))?;
    }
    Ok((attempt.end, counts))
}

/// Whether an attempt goes on where its conflicts are just used up by a query that is decided: then the next one is
/// undecided, and no clause is learned for it.
fn goes_on(alloc: Global) -> Result<bool, Fail> {
    let (_end, ample) = counts(alloc, 20_000)?;
    let base = ample.as_slice().first().copied().unwrap_or(0);
    let (end, spent) = counts(alloc, base)?;
    let wanted = [base, 0];
    Ok(2 <= base && end == End::Spent && spent.as_slice() == wanted.as_slice())
}

#[test]
fn conflicts_that_are_just_used_up_go_on(rt: HostRuntime) -> Result<(), Fail> {
    assert!(rt; goes_on(rt.alloc())?);
    Ok(())
}
