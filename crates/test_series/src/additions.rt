//! The netlist of a chain of additions of 8 bits, each of which reads the one behind it through a net.

ghost use Rattle.std.specs.Prelude.{◌≡◌, ◌+◌, ◌*◌, ◌<◌, ◌≤◌, [], ◌∷◌, IfOk, OnOk};
ghost use Rattle.eq_net.specs.Tree.{binary, tree_of, trees_of};
ghost use Rattle.eq_net.specs.Whole.{parts_of};
ghost use Rattle.test_series.specs.Additions.{chain, chain_nets, driver as driver_of, eight as eight_of, link as link_of, name as name_of};
ghost use Rattle.test_series.specs.Lists.{listed};

use crate::making::ranged;
use eq_base::{Boxed, Memory};
use eq_net::laws::test_of_nets;
use eq_net::{
    BitName, BitNames, Dir, Driver, Drivers, Net, NetInfos, NetNumbers, Word, WordOp, Words,
};
use std::alloc::Global;

fn name(bit: u32) -> BitName
    ensures { result ≡ name_of bit }
{
    if bit < 8 {
        BitName { net: 0, bit }
    } else {
        BitName {
            net: 1,
            bit: bit - 8,
        }
    }
}

fn eight(alloc: Global, from: u32) -> Result<Word, Memory>
    requires { from ≤ 100000 }
    ensures { IfOk result (λ word. tree_of word ≡ eight_of from) }
{
    let mut names = BitNames::new(alloc);
    for i in 0..8 {
        names.push(name(from + i))?;
    }
    Ok(Word::Read(names))
}

fn added(alloc: Global, left: Word, right: Word) -> Result<Word, Memory>
    ensures { IfOk result (λ word.
        tree_of word ≡ binary WordOp.Add (tree_of left) (tree_of right)) }
{
    let left = Boxed::new(alloc, left)?;
    let right = Boxed::new(alloc, right)?;
    Ok(Word::Binary(WordOp::Add, left, right))
}

fn link(alloc: Global, last: u32, number: u32) -> Result<Word, Memory>
    requires order { number ≤ last }
    requires size { last < 10000 }
    ensures { IfOk result (λ word. tree_of word ≡ link_of last number) }
{
    let before = eight(alloc, 8 * (last - number))?;
    let input = eight(alloc, 0)?;
    added(alloc, before, input)
}

fn words(alloc: Global, last: u32) -> Result<Words, Memory>
    requires { last < 10000 }
    ensures { IfOk result (λ words. trees_of words ≡ listed (link_of last) (last + 1)) }
{
    let mut words = Words::new(alloc);
    for number in 0..last + 1 {
        words.push(link(alloc, last, number)?)?;
    }
    Ok(words)
}

fn driver(last: u32, bit: u32) -> Driver
    requires { bit < 8 * last + 16 }
    ensures { result ≡ driver_of last bit }
{
    if bit < 8 {
        Driver::Input
    } else {
        Driver::Expr {
            word: last - (bit - 8) / 8,
            bit: (bit - 8) % 8,
        }
    }
}

fn drivers(alloc: Global, last: u32) -> Result<Drivers, Memory>
    requires { last < 10000 }
    ensures { IfOk result (λ drivers. drivers ≡ listed (driver_of last) (8 * last + 16)) }
{
    let mut drivers = Drivers::new(alloc);
    for bit in 0..8 * last + 16 {
        drivers.push(driver(last, bit))?;
    }
    Ok(drivers)
}

fn nets(alloc: Global, last: u32) -> Result<NetInfos, Memory>
    requires { last < 10000 }
    ensures { IfOk result (λ nets. nets ≡ chain_nets last) }
{
    let mut nets = NetInfos::new(alloc);
    nets.push(ranged(alloc, b"a", 8, Dir::Input)?)?;
    nets.push(ranged(alloc, b"y", 8 * last + 8, Dir::Output)?)?;
    Ok(nets)
}

fn ports(alloc: Global) -> Result<NetNumbers, Memory>
    ensures { IfOk result (λ ports. ports ≡ 0 ∷ 1 ∷ []) }
{
    NetNumbers::from_slice(alloc, &[0, 1])
}

/// A chain of so many additions and one more. It costs 2, one for each bit, and 40 for each addition.
pub fn chain_of_additions(alloc: Global, last: u32) -> Result<Net, Memory>
    requires { last < 10000 }
    ensures { IfOk result (λ net. parts_of net ≡ chain last) }
{
    test_of_nets();
    let nets = nets(alloc, last)?;
    let words = words(alloc, last)?;
    let drivers = drivers(alloc, last)?;
    let ports = ports(alloc)?;
    Ok(Net {
        nets,
        words,
        drivers,
        ports,
        clock: None,
        cost: 2_000_000,
    })
}
