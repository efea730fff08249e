//! The names of an instance's nets, and how many bits there may be.

ghost use Rattle.std.specs.Prelude.{◌≡◌, ◌<◌, ◌^◌, map, option_map, slice_get};
ghost use Rattle.eq_flatten.specs.Owning.{names_in};

use eq_flatten::Owned;

/// The nets of the module at a place.
pub fn owned_at<'t>(owned: &'t [Owned], place: u32) -> Option<&'t Owned>
    ensures { option_map (λ o. names_in o.now) result ≡ slice_get (map names_in owned.now) place }
{
    owned.get(place as usize)
}

/// A count of bits has 32 bits.
pub fn is_narrow(bits: u32)
    ensures { bits < 2 ^ 32 }
{}
