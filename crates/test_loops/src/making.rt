//! One net, two words over it and drivers of its bits: the first word has at each bit the conjunction of two bits of the net, and
//! the second one bit of it.

ghost use Rattle.std.specs.Prelude.{◌≡◌, ◌<◌, ◌^◌, ◌∷◌, [], All, IfOk, length};
ghost use Rattle.eq_net.specs.Nets.{width_of};
ghost use Rattle.eq_net.specs.Tree.{binary, read, tree_of, trees_of};
ghost use Rattle.test_loops.specs.Made.{IsDriven, IsNamed};

use crate::table::Source;
use eq_base::{Boxed, Memory};
use eq_loops::first_loop;
use eq_net::{BitName, BitNames, Dir, Driver, Drivers, Name, NetInfo, Word, WordOp};
use std::alloc::{AllocError, Global};

/// The bit of the net, or its first where there is no such.
fn named(bit: u32, bits: u32) -> BitName
    requires { 0 < bits }
    ensures { IsNamed bits result }
{
    BitName {
        net: 0,
        bit: if bit < bits { bit } else { 0 },
    }
}

/// The first bits that all bits read.
fn first_names(alloc: Global, table: &[Source], bits: u32) -> Result<BitNames, Memory>
    requires { 0 < bits }
    ensures size { IfOk result (λ names. length names ≡ length table.now) }
    ensures each { IfOk result (λ names. All (IsNamed bits) names) }
{
    let mut names = BitNames::new(alloc);
    for source in table {
        names.push(named(source.first(), bits))?;
    }
    Ok(names)
}

/// The second bits that all bits read.
fn second_names(alloc: Global, table: &[Source], bits: u32) -> Result<BitNames, Memory>
    requires { 0 < bits }
    ensures size { IfOk result (λ names. length names ≡ length table.now) }
    ensures each { IfOk result (λ names. All (IsNamed bits) names) }
{
    let mut names = BitNames::new(alloc);
    for source in table {
        names.push(named(source.second(), bits))?;
    }
    Ok(names)
}

fn driver(source: Source, bit: u32, bits: u32) -> Driver
    requires { bit < bits }
    ensures { IsDriven bits result }
{
    match source {
        Source::Input => Driver::Input,
        Source::Undriven => Driver::Undriven,
        Source::And(_, _) => Driver::Expr { word: 0, bit },
        Source::Copy(_) => Driver::Expr { word: 1, bit },
        Source::Keep(_) => Driver::Reg {
            init: false,
            word: 1,
            bit,
        },
    }
}

fn drivers(alloc: Global, table: &[Source]) -> Result<Drivers, Memory>
    requires { length table.now < 2 ^ 31 }
    ensures size { IfOk result (λ drivers. length drivers ≡ length table.now) }
    ensures each { IfOk result (λ drivers. All (IsDriven (length table.now)) drivers) }
{
    let bits = table.len() as u32;
    let mut drivers = Drivers::new(alloc);
    for bit in 0..bits {
        drivers.push(driver(table[bit as usize], bit, bits))?;
    }
    Ok(drivers)
}

/// The name of the net.
fn name(alloc: Global) -> Result<Name, Memory> {
    match Name::read(alloc, b"v") {
        Ok(name) => Ok(name),
        Err(_) => Err(AllocError),
    }
}

fn net(alloc: Global, bits: u32) -> Result<NetInfo, Memory>
    requires { 0 < bits }
    ensures { IfOk result (λ net. width_of net ≡ bits) }
{
    Ok(NetInfo {
        name: name(alloc)?,
        left: bits - 1,
        right: 0,
        ranged: true,
        dir: Dir::Inner,
        auto: false,
    })
}

fn both(alloc: Global, left: BitNames, right: BitNames) -> Result<Word, Memory>
    ensures { IfOk result (λ word. tree_of word ≡ binary WordOp.And (read left) (read right)) }
{
    let left = Boxed::new(alloc, Word::Read(left))?;
    let right = Boxed::new(alloc, Word::Read(right))?;
    Ok(Word::Binary(WordOp::And, left, right))
}

/// The first loop of the bits of a table.
pub fn loop_of(alloc: Global, table: &[Source]) -> Result<Option<Vec<u32>>, Memory>
    requires some { 0 < length table.now }
    requires few { length table.now < 2 ^ 31 }
{
    let bits = table.len() as u32;
    let drivers = drivers(alloc, table)?;
    let net = net(alloc, bits)?;
    let word = both(
        alloc,
        first_names(alloc, table, bits)?,
        second_names(alloc, table, bits)?,
    )?;
    let copies = Word::Read(first_names(alloc, table, bits)?);
    first_loop(alloc, &[net], &[word, copies], drivers.as_slice())
}
