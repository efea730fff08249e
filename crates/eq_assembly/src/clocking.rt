//! The net of a bit.

ghost use Rattle.std.specs.Prelude.{◌<◌, IfSome};
ghost use Rattle.eq_net.specs.Net.{bits_of};
ghost use Rattle.eq_assembly.specs.inner.Numbers.{IsNetOf, IsNetOfMaybe};

use eq_net::NetInfo;

/// The number of the net of a bit.
fn net_of_bit(nets: &[NetInfo], bit: u32) -> u32
    requires there { bit < bits_of nets.now }
    ensures { IsNetOf nets.now bit result }
{
    let mut left = u64::from(bit);
    for (place, net) in nets.iter().enumerate() {
        let width = net.width();
        if left < width {
            return place as u32;
        }
        left -= width;
    }
    unreachable!()
}

/// The number of the net of the clock, where there is one.
pub fn clock_net(nets: &[NetInfo], clock: Option<u32>) -> Option<u32>
    requires there { IfSome clock (λ c. c < bits_of nets.now) }
    ensures { IsNetOfMaybe nets.now clock result }
{
    match clock {
        Some(bit) => Some(net_of_bit(nets, bit)),
        None => None,
    }
}
