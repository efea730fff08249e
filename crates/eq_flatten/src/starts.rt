//! The numbers of the nets' first bits, and of all bits.

ghost use Rattle.std.specs.Prelude.{◌≡◌, ◌+◌, IfOk};
ghost use Rattle.eq_net.specs.Net.{bits_of};
ghost use Rattle.eq_net.specs.Nets.{width_of};
ghost use Rattle.eq_flatten.specs.Equating.{AreStarts};

use eq_base::Memory;
use eq_net::NetInfo;
use std::alloc::Global;

/// Of each net the number of its first bit, and how many bits there are.
#[derive(Drop)]
pub struct Starts {
    pub starts: Vec<u32>,
    pub bits: u32,
}

/// Where the bits of nets begin. Bits whose number has more than 32 bits are want of memory.
pub fn starts_of(alloc: Global, nets: &[NetInfo]) -> Result<Starts, Memory>
    ensures starts { IfOk result (λ found. AreStarts nets.now found.starts.items) }
    ensures bits { IfOk result (λ found. found.bits ≡ bits_of nets.now) }
{
    let mut starts = Vec::new(alloc);
    let mut bits = 0;
    for net in nets {
        starts.push(bits)?;
        bits = behind(bits, net)?;
    }
    Ok(Starts { starts, bits })
}

/// The number of the first bit behind a net that begins at this one.
fn behind(bits: u32, net: &NetInfo) -> Result<u32, Memory>
    ensures { IfOk result (λ next. next ≡ bits + width_of net.now) }
{
    let Some(next) = u64::from(bits).checked_add(net.width()) else {
        return Err(Memory);
    };
    match u32::try_from(next) {
        Ok(next) => Ok(next),
        Err(_) => Err(Memory),
    }
}
