//! Marks of bits of the nets that have their final values: those that are given, and those that marked words drive.

ghost use Rattle.std.specs.Prelude.{◌≡◌, ℕ, ◌<◌, IfOk, IfSome, false, length, slice_index_or, true};
ghost use Rattle.eq_model.specs.Frames.{values};
ghost use Rattle.eq_model.specs.System.{IsHeld};
ghost use Rattle.eq_net.specs.Net.{bits_of, driver_at, system_of};
ghost use Rattle.eq_net.specs.Whole.{parts_of};
ghost use Rattle.eq_net.specs.declared.types.Driver.TheVariants.{Undriven};
ghost use Rattle.eq_net.specs.inner.Circuits.{IsSwept};
ghost use Rattle.eq_net.specs.inner.Marks.{HasValue, IsGiven, IsMarkedAs};

use crate::chains::{Chains, link_at};
use crate::net::Net;
use crate::readiness::is_marked;
use crate::types::{Driver, WordBit};
use crate::word::picked;
use eq_base::{Bits, Memory};
use std::alloc::Global;

/// Whether a bit that has this value has its final one from the start: it is given, or nothing drives it and it is 0.
fn is_given(driver: Driver, value: bool) -> bool
    ensures { result ≡ true → IsGiven driver value }
{
    match driver {
        Driver::Input => true,
        Driver::Undriven => !value,
        Driver::Expr { .. } => false,
        Driver::Reg { .. } => true,
    }
}

/// Marks the bits that a cycle doesn't compute.
pub fn given_marks(alloc: Global, net: &Net, now: &[bool]) -> Result<Vec<bool>, Memory>
    requires { length now.now ≡ bits_of net.now.nets }
    ensures size { IfOk result (λ done. length done.items ≡ bits_of net.now.nets) }
    ensures given { IfOk result (λ done. (b : ℕ) → values done.items b ≡ true →
        IsGiven (driver_at (parts_of net.now) b) (values now.now b)) }
{
    let mut done = Vec::with_capacity(alloc, now.len())?;
    for (b, driver) in net.drivers.as_slice().iter().enumerate() {
        done.push(is_given(*driver, now[b]))?;
    }
    Ok(done)
}

/// Gives a bit its final value, where it has one.
fn mark(b: usize, value: Option<bool>, now: &mut [bool], done: &mut Vec<bool>)
    requires bit { b < length now.old }
    requires mark { b < length done.old.items }
    ensures marked { IsMarkedAs b value now.old now.new done.old.items done.new.items }
    ensures size { length done.new.items ≡ length done.old.items }
{
    match value {
        Some(value) => {
            now[b] = value;
            done[b] = true;
        }
        None => {}
    }
}

/// The final value of a bit, where a word that is marked drives it.
fn final_value(driver: Driver, words: &[Bits], whole: &[bool]) -> Option<bool>
    ensures { IfSome result (λ value. HasValue driver words.now whole.now value) }
{
    match driver {
        Driver::Expr { word, bit } => {
            if is_marked(whole, word as usize) {
                Some(picked(WordBit { word, bit }, words))
            } else {
                None
            }
        }
        Driver::Input => None,
        Driver::Undriven => None,
        Driver::Reg { .. } => None,
    }
}

/// The driver of a bit.
fn driver_in(drivers: &[Driver], b: usize) -> Driver
    requires { b < length drivers.now }
    ensures { result ≡ slice_index_or drivers.now b Undriven }
{
    drivers[b]
}

/// Gives a bit that isn't marked what its driver has among the bits of words, where a word that is marked drives it.
fn put_fresh(
    net: &Net,
    words: &[Bits],
    whole: &[bool],
    b: usize,
    now: &mut [bool],
    done: &mut Vec<bool>,
)
    requires bits { length now.old ≡ bits_of net.now.nets }
    requires marks { length done.old.items ≡ bits_of net.now.nets }
    requires bit { b < bits_of net.now.nets }
    requires fresh { values done.old.items b ≡ false }
    ensures held { (k : ℕ) → IsHeld ((system_of (parts_of net.now)).driver k) →
        values now.new k ≡ values now.old k }
    ensures swept { IsSwept (parts_of net.now) now.old done.old.items words.now whole.now →
        IsSwept (parts_of net.now) now.new done.new.items words.now whole.now }
    ensures size { length done.new.items ≡ length done.old.items }
{
    let driver = driver_in(net.drivers.as_slice(), b);
    let value = final_value(driver, words, whole);
    mark(b, value, now, done);
}

/// The same, where the bit is there and isn't marked.
fn put_driven(
    net: &Net,
    words: &[Bits],
    whole: &[bool],
    b: usize,
    now: &mut [bool],
    done: &mut Vec<bool>,
)
    requires bits { length now.old ≡ bits_of net.now.nets }
    requires marks { length done.old.items ≡ bits_of net.now.nets }
    ensures held { (k : ℕ) → IsHeld ((system_of (parts_of net.now)).driver k) →
        values now.new k ≡ values now.old k }
    ensures swept { IsSwept (parts_of net.now) now.old done.old.items words.now whole.now →
        IsSwept (parts_of net.now) now.new done.new.items words.now whole.now }
    ensures size { length done.new.items ≡ length done.old.items }
{
    if b < net.drivers.len() && !is_marked(done, b) {
        put_fresh(net, words, whole, b, now, done);
    }
}

/// Gives the bits that a word drives their values among the bits of words.
pub fn put_chain(
    net: &Net,
    words: &[Bits],
    whole: &[bool],
    chains: &Chains,
    word: usize,
    now: &mut [bool],
    done: &mut Vec<bool>,
)
    requires bits { length now.old ≡ bits_of net.now.nets }
    requires marks { length done.old.items ≡ bits_of net.now.nets }
    ensures held { (k : ℕ) → IsHeld ((system_of (parts_of net.now)).driver k) →
        values now.new k ≡ values now.old k }
    ensures swept { IsSwept (parts_of net.now) now.old done.old.items words.now whole.now →
        IsSwept (parts_of net.now) now.new done.new.items words.now whole.now }
    ensures size { length done.new.items ≡ length done.old.items }
{
    let mut cursor = link_at(&chains.first, word);
    for _ in 0..net.drivers.len() {
        if cursor == 0 {
            break;
        }
        let b = (cursor - 1) as usize;
        put_driven(net, words, whole, b, now, done);
        cursor = link_at(&chains.next, b);
    }
}
