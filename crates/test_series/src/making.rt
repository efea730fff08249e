//! Names and nets.

ghost use Rattle.std.specs.Prelude.{◌≡◌, IfOk};
ghost use Rattle.test_series.specs.Lists.{ranged as ranged_of};

use eq_base::Memory;
use eq_net::{Dir, Name, NetInfo};
use std::alloc::{AllocError, Global};

fn named(alloc: Global, name: &[u8]) -> Result<Name, Memory>
    ensures { IfOk result (λ read. read ≡ name.now) }
{
    match Name::read(alloc, name) {
        Ok(name) => Ok(name),
        Err(_) => Err(AllocError),
    }
}

/// A net with the range from `width - 1` down to 0. A text that is no name answers want of memory.
pub fn ranged(alloc: Global, name: &[u8], width: u32, dir: Dir) -> Result<NetInfo, Memory>
    ensures { IfOk result (λ net. net ≡ ranged_of name.now width dir) }
{
    Ok(NetInfo {
        name: named(alloc, name)?,
        left: width.saturating_sub(1),
        right: 0,
        ranged: true,
        dir,
        auto: false,
    })
}
