//! The driver of one bit, by what its slots say.

ghost use Rattle.std.specs.Prelude.{◌≡◌, IfOk, OnOk};
ghost use Rattle.eq_net.specs.Net.{number_of, AreWords, HasBit};
ghost use Rattle.eq_net.specs.Numbers.{digit};
ghost use Rattle.eq_net.specs.Tree.{trees_of};
ghost use Rattle.eq_verilog.specs.Registers.{itself};
ghost use Rattle.eq_registers.specs.Standing.{StandsFor};
ghost use Rattle.eq_drivers.specs.inner.Choosing as spec;
ghost use Rattle.eq_drivers.specs.inner.Choosing.{Grows, IsChosenBy, IsNextBy};

use eq_base::Memory;
use eq_flatten::{Slot, add_word};
use eq_net::{BitName, BitNames, Driver, NetInfo, Word, WordBit, Words};
use eq_vlex::Constant;
use std::alloc::Global;

/// What drives a bit, by the equations.
fn driver_by(slot: Slot) -> Driver
    ensures { result ≡ spec.driver_by slot }
{
    match slot {
        Slot::Free => Driver::Undriven,
        Slot::Once(at) => Driver::Expr {
            word: at.word,
            bit: at.bit,
        },
        Slot::Twice => Driver::Undriven,
    }
}

/// A binary digit of a number.
fn digit_at(value: u128, place: u32) -> bool
    ensures { result ≡ digit value place }
{
    if place < 128 {
        (value >> place) % 2 == 1
    } else {
        false
    }
}

/// A digit of the constant at a place.
fn digit_of(constants: &[Constant], at: WordBit) -> bool
    ensures { result ≡ spec.digit_of constants.now at }
{
    match constants.get(at.word as usize) {
        Some(constant) => digit_at(constant.value, at.bit),
        None => false,
    }
}

/// The initial value of a bit, by the initial values.
fn initial_by(constants: &[Constant], slot: Slot) -> bool
    ensures { result ≡ spec.initial_by constants.now slot }
{
    match slot {
        Slot::Free => false,
        Slot::Once(at) => digit_of(constants, at),
        Slot::Twice => false,
    }
}

/// A word that reads a bit becomes one of the words.
fn add_read(
    alloc: Global,
    name: BitName,
    nets: &[NetInfo],
    words: &mut Words,
) -> Result<WordBit, Memory>
    requires there { HasBit nets.now name }
    requires words { AreWords nets.now (trees_of words.old) }
    ensures grows { OnOk result (Grows nets.now (trees_of words.old) (trees_of words.new)) }
    ensures stands { IfOk result (λ made. StandsFor nets.now (trees_of words.new) made
        (itself (number_of nets.now name))) }
{
    let mut names = BitNames::new(alloc);
    names.push(name)?;
    let word = add_word(Word::Read(names), words)?;
    Ok(WordBit { word, bit: 0 })
}

/// The next value of a bit, by the always items: a bit that no item sets keeps its value.
fn next_by(
    alloc: Global,
    name: BitName,
    slot: Slot,
    nets: &[NetInfo],
    words: &mut Words,
) -> Result<WordBit, Memory>
    requires there { HasBit nets.now name }
    requires words { AreWords nets.now (trees_of words.old) }
    ensures grows { OnOk result (Grows nets.now (trees_of words.old) (trees_of words.new)) }
    ensures next { IfOk result (λ next. IsNextBy nets.now (trees_of words.new)
        (number_of nets.now name) slot next) }
{
    match slot {
        Slot::Free => add_read(alloc, name, nets, words),
        Slot::Once(at) => Ok(at),
        Slot::Twice => add_read(alloc, name, nets, words),
    }
}

/// The driver of a bit that is one of a reg, or comes from outside, or neither, with these slots.
pub fn choose(
    alloc: Global,
    name: BitName,
    is_reg: bool,
    outside: bool,
    constants: &[Constant],
    driven: Slot,
    followed: Slot,
    begun: Slot,
    nets: &[NetInfo],
    words: &mut Words,
) -> Result<Driver, Memory>
    requires there { HasBit nets.now name }
    requires words { AreWords nets.now (trees_of words.old) }
    ensures grows { OnOk result (Grows nets.now (trees_of words.old) (trees_of words.new)) }
    ensures chosen { IfOk result (IsChosenBy nets.now (trees_of words.new)
        (number_of nets.now name) is_reg outside constants.now driven followed begun) }
{
    if is_reg {
        let next = next_by(alloc, name, followed, nets, words)?;
        Ok(Driver::Reg {
            init: initial_by(constants, begun),
            word: next.word,
            bit: next.bit,
        })
    } else if outside {
        Ok(Driver::Input)
    } else {
        Ok(driver_by(driven))
    }
}
