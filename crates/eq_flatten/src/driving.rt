//! What drives each bit, of the equations so far.

ghost use Rattle.std.specs.Prelude.{◌≡◌, ◌<◌, ◌^◌, ℕ, Option, All, length};
ghost use Rattle.eq_verilog.specs.Equations.{place_below};
ghost use Rattle.eq_flatten.specs.Driving as spec;
ghost use Rattle.eq_flatten.specs.Driving.{filled, slot_at, AreWired, IsApart};

use eq_net::{BitName, WordBit};

/// What drives a bit.
#[derive(Clone, Copy, Debug, PartialEq, Eq)]
pub enum Slot {
    /// No equation.
    Free,
    /// One equation, by this bit of a word.
    Once(WordBit),
    /// Two or more.
    Twice,
}

/// What drives a bit of which there is one more equation.
fn after(slot: Slot, bit: WordBit) -> Slot
    ensures { result ≡ spec.after slot bit }
{
    match slot {
        Slot::Free => Slot::Once(bit),
        Slot::Once(_) => Slot::Twice,
        Slot::Twice => Slot::Twice,
    }
}

/// The number of a bit, where the nets' first bits have these numbers.
pub fn number_in(starts: &[u32], bit: BitName) -> u32
    requires there { bit.net < length starts.now }
    requires room { spec.number_in starts.now bit < 2 ^ 32 }
    ensures { result ≡ spec.number_in starts.now bit }
{
    starts[bit.net as usize] + bit.bit
}

/// A bit is driven by a bit of a word.
fn drive_bit(slots: &mut [Slot], at: u32, bit: WordBit)
    requires { at < length slots.old }
    ensures size { length slots.new ≡ length slots.old }
    ensures here { slot_at slots.new at ≡ spec.after (slot_at slots.old at) bit }
    ensures others { (b : ℕ) → (b ≡ at → ⊥) → slot_at slots.new b ≡ slot_at slots.old b }
{
    slots[at as usize] = after(slots[at as usize], bit);
}

/// The bits of a target are driven by the bits of a word, position by position.
pub fn drive(slots: &mut [Slot], starts: &[u32], bits: &[BitName], word: u32)
    requires there { All (λ b. (b.net < length starts.now) ×
        (spec.number_in starts.now b < length slots.old)) bits.now }
    requires room { length slots.old < 2 ^ 32 }
    requires few { length bits.now < 2 ^ 32 }
    ensures size { length slots.new ≡ length slots.old }
    ensures driven { (f : ℕ → Option ℕ) → AreWired starts.now bits.now f → IsApart f →
        (b : ℕ) → slot_at slots.new b ≡
        filled (slot_at slots.old b) word (place_below (length bits.now) f b) }
{
    for at in 0..bits.len() {
        let number = number_in(starts, bits[at]);
        let bit = WordBit {
            word,
            bit: at as u32,
        };
        drive_bit(slots, number, bit);
    }
}
