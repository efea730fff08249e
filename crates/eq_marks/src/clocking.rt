//! The class of a clock, and whether a design takes it as data.

ghost use Rattle.std.specs.Prelude.{◌≡◌, ◌≢◌, ℕ, ◌<◌, ◌≤◌, ◌^◌, IfOk, length, None, Some, replicate};
ghost use Rattle.eq_marks.specs.inner.Carrying.{mark_of};
ghost use Rattle.eq_marks.specs.inner.Clocking as spec;
ghost use Rattle.eq_marks.specs.inner.Clocking.{AreKnown, AreWithin, IsClass, known_of, leads};

use eq_base::Memory;
use std::alloc::Global;

pub fn copy_at(copies: &[Option<u32>], at: u32) -> Option<u32>
    requires { at < length copies.now }
    ensures { result ≡ mark_of copies.now at }
{
    copies[at as usize]
}

fn known_at(known: &[Option<bool>], at: u32) -> Option<bool>
    requires { at < length known.now }
    ensures { result ≡ known_of known.now at }
{
    known[at as usize]
}

fn put_known(known: &mut [Option<bool>], at: u32, leads: bool)
    requires { at < length known.old }
    ensures there { known_of known.new at ≡ Some leads }
    ensures others { (b : ℕ) → b ≢ at → known_of known.new b ≡ known_of known.old b }
    ensures size { length known.new ≡ length known.old }
{
    known[at as usize] = Some(leads);
}

/// Whether plain copies lead from a bit to the clock. `known` tells it of some bits.
fn leads_on(copies: &[Option<u32>], known: &[Option<bool>], clock: u32, from: u32) -> bool
    requires within { AreWithin copies.now }
    requires known { AreKnown copies.now clock known.now }
    requires there { from < length copies.now }
    ensures { result ≡ leads copies.now clock from }
{
    let mut at = from;
    for _ in 0..copies.len() {
        if let Some(leads) = known_at(known, at) {
            return leads;
        }
        match copy_at(copies, at) {
            Some(next) => at = next,
            None => return at == clock,
        }
    }
    false
}

/// Keeps of a bit, and of those to which copies lead from it, whether they lead to the clock.
fn keep(copies: &[Option<u32>], known: &mut [Option<bool>], clock: u32, from: u32, leads: bool)
    requires within { AreWithin copies.now }
    requires known { AreKnown copies.now clock known.old }
    requires there { from < length copies.now }
    requires leads { leads ≡ spec.leads copies.now clock from }
    ensures { AreKnown copies.now clock known.new }
{
    let mut at = from;
    for _ in 0..copies.len() {
        if known_at(known, at).is_some() {
            return;
        }
        put_known(known, at, leads);
        match copy_at(copies, at) {
            Some(next) => at = next,
            None => return,
        }
    }
}

/// Of no bit anything.
fn nothing_known(alloc: Global, count: usize) -> Result<Vec<Option<bool>>, Memory>
    ensures { IfOk result (λ known. known.items ≡ replicate count None) }
{
    let mut known = Vec::with_capacity(alloc, count)?;
    for _ in 0..count {
        known.push(None)?;
    }
    Ok(known)
}

/// Marks the bits from which plain copies lead to the clock. Each bit is walked over twice at most.
pub fn clock_class(
    alloc: Global,
    copies: &[Option<u32>],
    clock: u32,
) -> Result<Vec<Option<u32>>, Memory>
    requires within { AreWithin copies.now }
    requires few { length copies.now < 2 ^ 32 }
    ensures { IfOk result (λ class. IsClass copies.now clock class.items) }
{
    let mut known = nothing_known(alloc, copies.len())?;
    let mut class = Vec::with_capacity(alloc, copies.len())?;
    for bit in 0..copies.len() as u32 {
        let leads = leads_on(copies, &known, clock, bit);
        keep(copies, &mut known, clock, bit, leads);
        class.push(if leads { Some(bit) } else { None })?;
    }
    Ok(class)
}
