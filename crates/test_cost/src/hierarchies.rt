//! Modules that each instantiate the next one twice. With n levels below the top these are 2 ^ (n + 1) - 1 instances, and
//! the cost is one more, since a module has nothing else.

use crate::reading::told_of;
use std::alloc::Global;
use std::test::Fail;

/// Levels below the top, the cost, and the cost that is too much.
type Row = (u32, u64, Option<u64>);

static ROWS: [Row; 8] = [
    (0, 2, None),
    (1, 4, None),
    (3, 16, None),
    (19, 1_048_576, None),
    (20, 2_097_152, Some(2_097_152)),
    (28, 536_870_912, Some(536_870_912)),
    (29, 1_000_000_000, Some(1_000_000_000)),
    (200, 1_000_000_000, Some(1_000_000_000)),
];

/// A text of so many levels.
fn text_of(alloc: Global, levels: u32) -> Result<String, Fail> {
    let mut text = String::new(alloc);
    for level in 0..levels {
        let above = format!(in alloc; "module m{level}; ")?;
        text.push_str(&above)?;
        if level > 0 {
            let below = level - 1;
            let inside = format!(in alloc; "m{below} a(); m{below} b(); ")?;
            text.push_str(&inside)?;
        }
        text.push_str("endmodule ")?;
    }
    text.push_str("module t; ")?;
    if levels > 0 {
        let below = levels - 1;
        let inside = format!(in alloc; "m{below} a(); m{below} b(); ")?;
        text.push_str(&inside)?;
    }
    text.push_str("endmodule")?;
    Ok(text)
}

fn is_right(alloc: Global, row: &Row) -> Result<bool, Fail> {
    let text = text_of(alloc, row.0)?;
    let told = told_of(alloc, text.as_bytes())?;
    Ok(told.cost == row.1 && told.excess == row.2)
}

/// The first row that isn't right.
fn first_wrong(alloc: Global) -> Result<Option<usize>, Fail> {
    for (place, row) in ROWS.iter().enumerate() {
        if !is_right(alloc, row)? {
            return Ok(Some(place));
        }
    }
    Ok(None)
}

#[test]
fn hierarchies_are_told_in_the_time_of_their_text(rt: HostRuntime) -> Result<(), Fail> {
    assert_eq!(rt; first_wrong(rt.alloc())?, None);
    Ok(())
}
