//! Tables and their loops.

use crate::making::loop_of;
use crate::table::Source;
use std::alloc::Global;
use std::test::Fail;

/// What drives the bits, and the bits of the first loop; none where there is no loop.
type Row = (&'static [Source], &'static [u32]);

const ROWS: [Row; 10] = [
    // two wires
    (&[Source::Copy(1), Source::Copy(0)], &[0, 1]),
    // bits 5 to 8 are carries of one vector, each over the one below it
    (
        &[
            Source::Input,
            Source::Input,
            Source::Input,
            Source::Input,
            Source::Input,
            Source::And(4, 0),
            Source::And(5, 1),
            Source::And(6, 2),
            Source::And(7, 3),
        ],
        &[],
    ),
    // through two words
    (
        &[Source::And(2, 1), Source::Copy(0), Source::Input],
        &[0, 1],
    ),
    // one bit that reads itself
    (&[Source::Input, Source::Copy(1)], &[1]),
    // the least bit of two loops
    (
        &[
            Source::Input,
            Source::Copy(4),
            Source::Copy(3),
            Source::Copy(2),
            Source::Copy(1),
        ],
        &[1, 4],
    ),
    // bit 0 is read by one loop and reads the other, and is on none
    (
        &[
            Source::Copy(3),
            Source::And(2, 0),
            Source::Copy(1),
            Source::Copy(4),
            Source::Copy(3),
        ],
        &[1, 2],
    ),
    // a register
    (&[Source::Copy(1), Source::Keep(0)], &[]),
    // without driver
    (&[Source::Copy(1), Source::Undriven], &[]),
    // three wires, in the order of reading
    (
        &[Source::Copy(2), Source::Copy(0), Source::Copy(1)],
        &[0, 2, 1],
    ),
    // bit 0 reads 2 past 1
    (
        &[Source::And(1, 2), Source::Copy(2), Source::Copy(0)],
        &[0, 2],
    ),
];

/// Whether these are the bits of the first loop.
fn is_right(alloc: Global, row: &Row) -> Result<bool, Fail> {
    let (table, wanted) = *row;
    if table.is_empty() || table.len() > 100 {
        return Ok(false);
    }
    match loop_of(alloc, table)? {
        Some(bits) => Ok(!wanted.is_empty() && bits.as_slice() == wanted),
        None => Ok(wanted.is_empty()),
    }
}

/// The first row of which something else is said.
fn first_wrong(alloc: Global) -> Result<Option<usize>, Fail> {
    for (number, row) in ROWS.iter().enumerate() {
        if !is_right(alloc, row)? {
            return Ok(Some(number));
        }
    }
    Ok(None)
}

#[test]
fn tells_the_first_loop(rt: HostRuntime) -> Result<(), Fail> {
    assert_eq!(rt; first_wrong(rt.alloc())?, None);
    Ok(())
}
