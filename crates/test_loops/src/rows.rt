//! 100,000 bits in a row, each of which reads the one before it.

use crate::making::loop_of;
use crate::table::Source;
use std::alloc::Global;
use std::test::Fail;

const BITS: u32 = 100_000;

/// The first loop of the row, where this drives its first bit.
fn row(alloc: Global, first: Source) -> Result<Option<Vec<u32>>, Fail> {
    let mut table = Vec::new(alloc);
    table.push(first)?;
    for bit in 1..BITS {
        table.push(Source::Copy(bit - 1))?;
    }
    if table.is_empty() || table.len() > 100_000 {
        return Ok(None);
    }
    Ok(loop_of(alloc, &table)?)
}

/// Whether the bits are the first one, and then all others from the last one down.
fn goes_down(bits: &[u32]) -> bool {
    for (place, bit) in bits.iter().enumerate() {
        let wanted = if place == 0 { 0 } else { bits.len() - place };
        if *bit as usize != wanted {
            return false;
        }
    }
    bits.len() == 100_000
}

#[test]
fn a_row_without_a_loop(rt: HostRuntime) -> Result<(), Fail> {
    assert!(rt; row(rt.alloc(), Source::Input)?.is_none());
    Ok(())
}

#[test]
fn a_row_that_closes(rt: HostRuntime) -> Result<(), Fail> {
    match row(rt.alloc(), Source::Copy(BITS - 1))? {
        Some(bits) => assert!(rt; goes_down(&bits)),
        None => assert!(rt; false),
    }
    Ok(())
}
