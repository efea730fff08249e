//! What rows say together, by what each of them says.

use crate::concluding::whole;
use crate::types::{Causes, Row, Verdict, Whole};
use eq_base::Memory;
use std::alloc::Global;
use std::test::Fail;

/// A letter for each row, proved, fail, unknown or skipped, and what is said of the whole.
const CASES: [(&[u8], Whole); 9] = [
    (b"", Whole::Pass),
    (b"p", Whole::Pass),
    (b"pp", Whole::Pass),
    (b"pu", Whole::Unknown),
    (b"up", Whole::Unknown),
    (b"u", Whole::Unknown),
    (b"pfs", Whole::Fail),
    (b"f", Whole::Fail),
    (b"uupf", Whole::Fail),
];

fn verdict(alloc: Global, letter: u8) -> Verdict {
    match letter {
        b'p' => Verdict::Proved { k: 1, strategy: 0 },
        b'f' => Verdict::Fail { k: 1, strategy: 0 },
        b'u' => Verdict::Unknown(Causes::new(alloc)),
        _ => Verdict::Skipped,
    }
}

/// A row for each letter.
fn rows_of(alloc: Global, letters: &[u8]) -> Result<Vec<Row>, Memory> {
    let mut rows = Vec::new(alloc);
    let mut part = 0_u32;
    for letter in letters {
        rows.push(Row {
            part,
            verdict: verdict(alloc, *letter),
            kept: false,
            conflicts: 0,
        })?;
        part = part.saturating_add(1);
    }
    Ok(rows)
}

/// The place of the first case that comes out otherwise.
fn first_wrong(alloc: Global) -> Result<Option<usize>, Memory> {
    for (place, case) in CASES.iter().enumerate() {
        let rows = rows_of(alloc, case.0)?;
        if whole(rows.as_slice()) != case.1 {
            return Ok(Some(place));
        }
    }
    Ok(None)
}

#[test]
fn the_whole_is_what_all_rows_say(rt: HostRuntime) -> Result<(), Fail> {
    assert_eq!(rt; first_wrong(rt.alloc())?, None);
    Ok(())
}
