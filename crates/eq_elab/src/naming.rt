//! The bits of nets by their numbers. This is made only where bits are to be told, and takes the time of all bits.

ghost use Rattle.std.specs.Prelude.{◌≡◌, ◌+◌, ◌<◌, ◌^◌, IfOk, OnOk, length, map};
ghost use Rattle.eq_net.specs.Net.{bits_of, net_at, offset};
ghost use Rattle.eq_net.specs.Nets.{net_of, width_of};
ghost use Rattle.eq_verilog.specs.Nets.{bit_name};
ghost use Rattle.eq_elab.specs.inner.Naming.{AreBits};

use eq_base::Memory;
use eq_names::{BitName, Name};
use eq_net::laws::bits_stand_by_nets;
use eq_net::{NetInfo, named_position};
use std::alloc::Global;

/// Puts the bits of a net behind those of the nets before it.
fn add_net(nets: &[NetInfo], net: u32, width: u32, names: &mut Vec<BitName>) -> Result<(), Memory>
    requires there { net < length nets.now }
    requires width { width ≡ width_of (net_at nets.now net) }
    requires before { AreBits nets.now names.old.items (offset nets.now net) }
    ensures { OnOk result (AreBits nets.now names.new.items (offset nets.now (net + 1))) }
{
    bits_stand_by_nets();
    for bit in 0..width {
        names.push(BitName { net, bit })?;
    }
    Ok(())
}

/// The bits of all nets.
pub fn all_bits(alloc: Global, nets: &[NetInfo]) -> Result<Vec<BitName>, Memory>
    requires few { bits_of nets.now < 2 ^ 32 }
    ensures { IfOk result (λ names. AreBits nets.now names.items (bits_of nets.now)) }
{
    bits_stand_by_nets();
    let mut names = Vec::new(alloc);
    for net in 0..nets.len() {
        add_net(nets, net as u32, nets[net].width() as u32, &mut names)?;
    }
    Ok(names)
}

/// The name of a bit.
pub fn name_of(alloc: Global, nets: &[NetInfo], bit: u32) -> Result<Name, Memory>
    requires there { bit < bits_of nets.now }
    ensures { IfOk result (λ name. name ≡ bit_name (map net_of nets.now) bit) }
{
    let mut left = u64::from(bit);
    for net in nets {
        if left < net.width() {
            return named_position(alloc, net, left as u32);
        }
        left -= net.width();
    }
    unreachable!()
}
