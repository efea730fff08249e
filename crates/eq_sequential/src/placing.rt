//! What an always item sets: each bit has one setter more.

ghost use Rattle.std.specs.Prelude.{◌≡◌, ◌<◌, ℕ, All, length};
ghost use Rattle.eq_flatten.specs.Driving as spec;
ghost use Rattle.eq_flatten.specs.Driving.{slot_at};
ghost use Rattle.eq_sequential.specs.inner.Placing.{AreOnce, IsPut};

use eq_flatten::Slot;
use eq_net::WordBit;

/// What sets a bit of which there is one more setter.
fn after(slot: Slot, bit: WordBit) -> Slot
    ensures { result ≡ spec.after slot bit }
{
    match slot {
        Slot::Free => Slot::Once(bit),
        Slot::Once(_) => Slot::Twice,
        Slot::Twice => Slot::Twice,
    }
}

/// A bit is set by a bit of a word.
fn put_bit(slots: &mut [Slot], at: u32, bit: WordBit)
    requires { at < length slots.old }
    ensures size { length slots.new ≡ length slots.old }
    ensures here { slot_at slots.new at ≡ spec.after (slot_at slots.old at) bit }
    ensures others { (b : ℕ) → (b ≡ at → ⊥) → slot_at slots.new b ≡ slot_at slots.old b }
{
    slots[at as usize] = after(slots[at as usize], bit);
}

/// Each of these bits is set by the bit of a word beside it.
pub fn put_all(bits: &[u32], entries: &[WordBit], slots: &mut [Slot])
    requires once { AreOnce bits.now }
    requires there { All (λ b. b < length slots.old) bits.now }
    requires size { length entries.now ≡ length bits.now }
    ensures { IsPut bits.now entries.now slots.old slots.new (length bits.now) }
{
    for at in 0..bits.len() {
        let bit = bits[at];
        let entry = entries[at];
        put_bit(slots, bit, entry);
    }
}
