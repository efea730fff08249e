//! One cycle of a netlist.

ghost use Rattle.std.specs.Prelude.{◌≡◌, ℕ, ◌<◌, ◌^◌, true, IfOk, length};
ghost use Rattle.eq_model.specs.Frames.{frames, values};
ghost use Rattle.eq_model.specs.System.{Values, Cycle, compute, nothing};
ghost use Rattle.eq_net.specs.Held.{held_bits, initial_bits, input_count, next_bits, register_count};
ghost use Rattle.eq_net.specs.Cycles.{IsStep};
ghost use Rattle.eq_net.specs.Net.{NamesWord, bits_of, number_of, source_of, system_of};
ghost use Rattle.eq_net.specs.Tree.{trees_of};
ghost use Rattle.eq_net.specs.Whole.{parts_of};
ghost use Rattle.eq_net.specs.inner.Circuits.{IsSwept};
ghost use Rattle.eq_net.specs.inner.Sized.{AreStarts, HasWords};

use crate::cells::complete;
use crate::net::Net;
use crate::sweep::{Swept, is_done, sweep_all};
use crate::types::{Driver, NetInfo, WordBit};
use crate::word::{evaluate_all, picked};
use eq_base::{Bits, Memory};
use eq_model::laws::{heights, one_cycle};
use std::alloc::Global;

/// The values of the register bits, in order.
pub type State = Bits;

/// What one cycle gives.
#[derive(Debug, Drop)]
pub struct Stepped {
    /// The values of all bits.
    pub values: Bits,
    /// The values of the register bits in the next cycle.
    pub next: State,
}

/// The registers' values in the first cycle.
pub fn initial(alloc: Global, net: &Net) -> Result<State, Memory>
    ensures values { IfOk result (λ state. state ≡ initial_bits net.now.drivers) }
    ensures size { IfOk result (λ state. length state ≡ register_count net.now.drivers) }
{
    initial_values(alloc, net.drivers.as_slice())
}

fn initial_values(alloc: Global, drivers: &[Driver]) -> Result<State, Memory>
    ensures { IfOk result (λ state. state ≡ initial_bits drivers.now) }
{
    let mut state = State::new(alloc);
    for driver in drivers {
        match driver {
            Driver::Reg { init, .. } => state.push(*init)?,
            Driver::Input => {}
            Driver::Undriven => {}
            Driver::Expr { .. } => {}
        }
    }
    Ok(state)
}

/// The registers' next values, from the bits of all words.
fn next_values(alloc: Global, drivers: &[Driver], words: &[Bits]) -> Result<State, Memory>
    ensures { IfOk result (λ state. state ≡ next_bits (frames words.now) drivers.now) }
{
    let mut state = State::new(alloc);
    for driver in drivers {
        match driver {
            Driver::Reg { word, bit, .. } => {
                let next = picked(
                    WordBit {
                        word: *word,
                        bit: *bit,
                    },
                    words,
                );
                state.push(next)?;
            }
            Driver::Input => {}
            Driver::Undriven => {}
            Driver::Expr { .. } => {}
        }
    }
    Ok(state)
}

/// Where the bits of each net begin.
fn starts(alloc: Global, nets: &[NetInfo]) -> Result<Vec<u32>, Memory>
    requires { bits_of nets.now < 2 ^ 32 }
    ensures { IfOk result (λ starts. AreStarts nets.now starts.items) }
{
    let mut starts = Vec::with_capacity(alloc, nets.len())?;
    let mut next: u32 = 0;
    for net in nets {
        starts.push(next)?;
        next += net.width() as u32;
    }
    Ok(starts)
}

/// Puts the values of the registers and the inputs in the places of their bits. All other bits are 0.
fn held(
    alloc: Global,
    drivers: &[Driver],
    state: &[bool],
    inputs: &[bool],
) -> Result<Vec<bool>, Memory>
    requires state { length state.now ≡ register_count drivers.now }
    requires inputs { length inputs.now ≡ input_count drivers.now }
    ensures { IfOk result (λ held. held.items ≡ held_bits drivers.now state.now inputs.now) }
{
    let mut held = Vec::with_capacity(alloc, drivers.len())?;
    let mut register = 0;
    let mut input = 0;
    for driver in drivers {
        let bit = match driver {
            Driver::Input => {
                input += 1;
                inputs[input - 1]
            }
            Driver::Undriven => false,
            Driver::Expr { .. } => false,
            Driver::Reg { .. } => {
                register += 1;
                state[register - 1]
            }
        };
        held.push(bit)?;
    }
    Ok(held)
}

/// What a driver gives its bit, which has the value `held` now, from the bits of all words.
fn driven(driver: Driver, held: bool, net: &Net, words: &[Bits]) -> bool
    requires { NamesWord (trees_of net.now.words) driver }
    ensures { (v : Values) →
        HasWords v (number_of net.now.nets) (trees_of net.now.words) (length net.now.words)
        words.now →
        result ≡ compute (source_of net.now.nets (trees_of net.now.words) driver) v held }
{
    match driver {
        Driver::Input => held,
        Driver::Undriven => false,
        Driver::Expr { word, bit } => picked(WordBit { word, bit }, words),
        Driver::Reg { .. } => held,
    }
}

/// Whether each bit has what its driver computes.
fn is_settled(net: &Net, words: &[Bits], now: &[bool]) -> bool
    requires bits { length now.now ≡ bits_of net.now.nets }
    requires words { HasWords (values now.now) (number_of net.now.nets) (trees_of net.now.words)
        (length net.now.words) words.now }
    ensures { result ≡ true → (b : ℕ) → b < bits_of net.now.nets → values now.now b ≡
        compute ((system_of (parts_of net.now)).driver b) (values now.now) (values now.now b) }
{
    for (b, driver) in net.drivers.as_slice().iter().enumerate() {
        if driven(*driver, now[b], net, words) != now[b] {
            return false;
        }
    }
    true
}

/// Gives each bit what its driver computes from the values `now`, of which `words` has the bits of all words.
fn update(net: &Net, words: &[Bits], now: &mut [bool])
    requires bits { length now.old ≡ bits_of net.now.nets }
    requires words { HasWords (values now.old) (number_of net.now.nets) (trees_of net.now.words)
        (length net.now.words) words.now }
    ensures { (b : ℕ) → b < bits_of net.now.nets → values now.new b ≡
        compute ((system_of (parts_of net.now)).driver b) (values now.old) (values now.old b) }
{
    for (b, driver) in net.drivers.as_slice().iter().enumerate() {
        now[b] = driven(*driver, now[b], net, words);
    }
}

/// Gives all bits their values in one cycle by rounds over all of them, until none changes. From any values there are at
/// most one more than there are bits. Answers the bits of all words.
fn go_round(alloc: Global, net: &Net, starts: &[u32], now: &mut [bool]) -> Result<Vec<Bits>, Memory>
    requires starts { AreStarts net.now.nets starts.now }
    requires bits { length now.old ≡ bits_of net.now.nets }
    ensures cycle { IfOk result (λ words.
        Cycle (system_of (parts_of net.now)) nothing (values now.old) (values now.new)) }
    ensures words { IfOk result (λ words. HasWords (values now.new) (number_of net.now.nets)
        (trees_of net.now.words) (length net.now.words) words.items) }
{
    one_cycle();
    heights();
    for _ in 0..net.drivers.len() + 1 {
        let words = evaluate_all(
            alloc,
            net.words.as_slice(),
            net.nets.as_slice(),
            starts,
            now,
        )?;
        if is_settled(net, &words, now) {
            return Ok(words);
        }
        update(net, &words, now);
    }
    evaluate_all(
        alloc,
        net.words.as_slice(),
        net.nets.as_slice(),
        starts,
        now,
    )
}

/// The bits of all words, where all are marked.
fn done_words(net: &Net, swept: Swept, now: &[bool]) -> Vec<Bits>
    requires swept { IsSwept (parts_of net.now) now.now swept.done.items swept.words.items
        swept.whole.items }
    requires count { length swept.words.items ≡ length net.now.words }
    requires bits { (b : ℕ) → b < bits_of net.now.nets → values swept.done.items b ≡ true }
    requires words { (w : ℕ) → w < length net.now.words → values swept.whole.items w ≡ true }
    ensures cycle { Cycle (system_of (parts_of net.now)) nothing (values now.now)
        (values now.now) }
    ensures words { HasWords (values now.now) (number_of net.now.nets)
        (trees_of net.now.words) (length net.now.words) result.items }
{
    swept.words
}

/// Gives the bits that aren't marked their values, and answers the bits of all words.
///
/// What the sweep has left is computed once bit by bit. The rounds stand for what the walk through these bits doesn't reach,
/// and for more cells than there are numbers. In no netlist are there such bits, since a netlist has no loop, but this is no
/// contract of the walk.
fn finish(
    alloc: Global,
    net: &Net,
    starts: &[u32],
    swept: Swept,
    now: &mut [bool],
) -> Result<Vec<Bits>, Memory>
    requires starts { AreStarts net.now.nets starts.now }
    requires bits { length now.old ≡ bits_of net.now.nets }
    requires swept { IsSwept (parts_of net.now) now.old swept.done.items swept.words.items
        swept.whole.items }
    requires marks { length swept.done.items ≡ bits_of net.now.nets }
    requires words { length swept.words.items ≡ length net.now.words }
    requires whole { length swept.whole.items ≡ length net.now.words }
    ensures cycle { IfOk result (λ words.
        Cycle (system_of (parts_of net.now)) nothing (values now.old) (values now.new)) }
    ensures words { IfOk result (λ words. HasWords (values now.new) (number_of net.now.nets)
        (trees_of net.now.words) (length net.now.words) words.items) }
{
    if is_done(&swept) {
        return Ok(done_words(net, swept, now));
    }
    let found = complete(
        alloc,
        net,
        starts,
        &swept.words,
        &swept.whole,
        &swept.done,
        now,
    )?;
    match found {
        Some(words) => Ok(words),
        None => go_round(alloc, net, starts, now),
    }
}

/// Gives all bits their values in one cycle, in which the inputs and the registers have the values that stand in `now`.
/// Answers the bits of all words.
///
/// Each word is evaluated once, behind those that it reads. Where no such order was found, since words read one another bit
/// by bit, what is left is computed once bit by bit.
fn solve(alloc: Global, net: &Net, now: &mut [bool]) -> Result<Vec<Bits>, Memory>
    requires { length now.old ≡ bits_of net.now.nets }
    ensures cycle { IfOk result (λ words.
        Cycle (system_of (parts_of net.now)) nothing (values now.old) (values now.new)) }
    ensures words { IfOk result (λ words. HasWords (values now.new) (number_of net.now.nets)
        (trees_of net.now.words) (length net.now.words) words.items) }
{
    let starts = starts(alloc, net.nets.as_slice())?;
    let swept = sweep_all(alloc, net, &starts, now)?;
    finish(alloc, net, &starts, swept, now)
}

/// The values of all bits in one cycle and the registers' next values, from the values of the registers and of the inputs,
/// each in the order of the bits.
pub fn step(alloc: Global, net: &Net, state: &State, inputs: &[bool]) -> Result<Stepped, Memory>
    requires state { length state.now ≡ register_count net.now.drivers }
    requires inputs { length inputs.now ≡ input_count net.now.drivers }
    ensures { IfOk result (λ stepped.
        IsStep (parts_of net.now) state.now inputs.now stepped.values stepped.next) }
{
    let mut values = held(alloc, net.drivers.as_slice(), state.as_slice(), inputs)?;
    let words = solve(alloc, net, &mut values)?;
    let next = next_values(alloc, net.drivers.as_slice(), &words)?;
    Ok(Stepped {
        values: Bits::from_vec(values),
        next,
    })
}
