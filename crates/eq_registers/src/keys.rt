//! The bits that an always item sets.

ghost use Rattle.std.specs.Prelude.{◌≡◌, ◌<◌, ◌^◌, Some, slice_get};
ghost use Rattle.eq_registers.specs.Running.{HasKeys, IsKey};

use eq_base::Items;
use eq_net::BitNames;
use std::collections::HashMap;

/// Bits by their numbers and by their names, and the place of each.
#[derive(Drop)]
pub struct Keys {
    pub bits: Items<u32>,
    pub names: BitNames,
    pub places: HashMap<u32, u32>,
}

/// The place of a bit.
pub fn place(keys: &Keys, bit: u32) -> u32
    requires keys { HasKeys keys.now.bits keys.now.places }
    requires there { IsKey keys.now.bits bit }
    ensures { slice_get keys.now.bits result ≡ Some bit }
{
    match keys.places.get(&bit).copied() {
        Some(place) => place,
        None => unreachable!(),
    }
}
