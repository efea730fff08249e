//! A loop by the names of its bits.

ghost use Rattle.std.specs.Prelude.{◌≡◌, ◌<◌, ◌^◌, All, IfOk, length, map, slice_index_or};
ghost use Rattle.eq_net.specs.Net.{bits_of};
ghost use Rattle.eq_elab.specs.inner.Naming.{name_at};
ghost use Rattle.eq_elab.specs.inner.Looping.{IsNamed};

use crate::naming::{all_bits, name_of};
use eq_base::Memory;
use eq_names::{BitName, Name};
use eq_net::NetInfo;
use eq_verilog::BitNames;
use std::alloc::Global;

/// A loop: its bits, and the name of the first.
#[derive(Drop)]
pub struct NamedLoop {
    pub cycle: BitNames,
    pub name: Name,
}

/// The names of bits.
fn names_of(alloc: Global, all: &[BitName], bits: &[u32]) -> Result<BitNames, Memory>
    requires there { All (λ b. b < length all.now) bits.now }
    ensures { IfOk result (λ names. names ≡ map (name_at all.now) bits.now) }
{
    let mut names = BitNames::new(alloc);
    for bit in bits {
        names.push(all[*bit as usize])?;
    }
    Ok(names)
}

/// The first of some bits.
fn first_of(bits: &[u32]) -> u32
    requires some { 0 < length bits.now }
    ensures { result ≡ slice_index_or bits.now 0 0 }
{
    bits[0]
}

/// A loop of these bits, the first of which gives its name.
pub fn named_loop(alloc: Global, nets: &[NetInfo], bits: &[u32]) -> Result<NamedLoop, Memory>
    requires there { All (λ b. b < bits_of nets.now) bits.now }
    requires some { 0 < length bits.now }
    requires few { bits_of nets.now < 2 ^ 32 }
    ensures { IfOk result (λ told. IsNamed nets.now bits.now told.cycle told.name) }
{
    let all = all_bits(alloc, nets)?;
    let cycle = names_of(alloc, &all, bits)?;
    let name = name_of(alloc, nets, first_of(bits))?;
    Ok(NamedLoop { cycle, name })
}
