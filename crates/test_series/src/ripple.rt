//! The netlist of the carries of a sum, as one word that reads its own bits through a net.

ghost use Rattle.std.specs.Prelude.{◌≡◌, ◌+◌, ◌*◌, ◌<◌, ◌≤◌, [], ◌∷◌, IfOk};
ghost use Rattle.eq_net.specs.Whole.{parts_of};
ghost use Rattle.eq_net.specs.Tree.{binary as binary_tree, tree_of, trees_of};
ghost use Rattle.test_series.specs.Lists.{listed};
ghost use Rattle.test_series.specs.Carries.{carries as carries_of, driver as driver_of, name as name_of, nets as nets_of, pair as pair_of, passed as passed_of, ripple, row as row_of};

use crate::making::ranged;
use eq_base::{Boxed, Memory};
use eq_net::laws::test_of_bits;
use eq_net::{
    BitName, BitNames, Dir, Driver, Drivers, Net, NetInfos, NetNumbers, Word, WordOp, Words,
};
use std::alloc::Global;

fn name(width: u32, bit: u32) -> BitName
    requires { width < 10000 }
    ensures { result ≡ name_of width bit }
{
    let inputs = 2 * width + 1;
    if bit < inputs {
        BitName { net: 0, bit }
    } else {
        BitName {
            net: 1,
            bit: bit - inputs,
        }
    }
}

fn row(alloc: Global, width: u32, from: u32) -> Result<Word, Memory>
    requires width { width < 10000 }
    requires from { from ≤ 20000 }
    ensures { IfOk result (λ word. tree_of word ≡ row_of width from) }
{
    let mut names = BitNames::new(alloc);
    for i in 0..width {
        names.push(name(width, from + i))?;
    }
    Ok(Word::Read(names))
}

fn binary(alloc: Global, op: WordOp, left: Word, right: Word) -> Result<Word, Memory>
    ensures { IfOk result (λ word. tree_of word ≡ binary_tree op (tree_of left) (tree_of right)) }
{
    let left = Boxed::new(alloc, left)?;
    let right = Boxed::new(alloc, right)?;
    Ok(Word::Binary(op, left, right))
}

fn pair(alloc: Global, op: WordOp, width: u32) -> Result<Word, Memory>
    requires { width < 10000 }
    ensures { IfOk result (λ word. tree_of word ≡ pair_of op width) }
{
    let left = row(alloc, width, 0)?;
    let right = row(alloc, width, width)?;
    binary(alloc, op, left, right)
}

fn passed(alloc: Global, width: u32) -> Result<Word, Memory>
    requires { width < 10000 }
    ensures { IfOk result (λ word. tree_of word ≡ passed_of width) }
{
    let left = row(alloc, width, 2 * width)?;
    let right = pair(alloc, WordOp::Xor, width)?;
    binary(alloc, WordOp::And, left, right)
}

fn carries(alloc: Global, width: u32) -> Result<Word, Memory>
    requires { width < 10000 }
    ensures { IfOk result (λ word. tree_of word ≡ carries_of width) }
{
    let left = pair(alloc, WordOp::And, width)?;
    let right = passed(alloc, width)?;
    binary(alloc, WordOp::Or, left, right)
}

fn words(alloc: Global, width: u32) -> Result<Words, Memory>
    requires { width < 10000 }
    ensures { IfOk result (λ words. trees_of words ≡ carries_of width ∷ []) }
{
    let word = carries(alloc, width)?;
    let mut words = Words::new(alloc);
    words.push(word)?;
    Ok(words)
}

fn driver(width: u32, bit: u32) -> Driver
    requires { width < 10000 }
    ensures { result ≡ driver_of width bit }
{
    let inputs = 2 * width + 1;
    if bit < inputs {
        Driver::Input
    } else {
        Driver::Expr {
            word: 0,
            bit: bit - inputs,
        }
    }
}

fn drivers(alloc: Global, width: u32) -> Result<Drivers, Memory>
    requires { width < 10000 }
    ensures { IfOk result (λ drivers. drivers ≡ listed (driver_of width) (3 * width + 1)) }
{
    let mut drivers = Drivers::new(alloc);
    for bit in 0..3 * width + 1 {
        drivers.push(driver(width, bit))?;
    }
    Ok(drivers)
}

fn nets(alloc: Global, width: u32) -> Result<NetInfos, Memory>
    requires { width < 10000 }
    ensures { IfOk result (λ nets. nets ≡ nets_of width) }
{
    let mut nets = NetInfos::new(alloc);
    nets.push(ranged(alloc, b"a", 2 * width + 1, Dir::Input)?)?;
    nets.push(ranged(alloc, b"c", width, Dir::Output)?)?;
    Ok(nets)
}

fn ports(alloc: Global) -> Result<NetNumbers, Memory>
    ensures { IfOk result (λ ports. ports ≡ 0 ∷ 1 ∷ []) }
{
    NetNumbers::from_slice(alloc, &[0, 1])
}

/// The carries of two numbers of so many bits. They cost 2, one for each bit, and 7 for each carry.
pub fn chain_of_carries(alloc: Global, width: u32) -> Result<Net, Memory>
    requires some { 0 < width }
    requires size { width < 10000 }
    ensures { IfOk result (λ net. parts_of net ≡ ripple width) }
{
    test_of_bits();
    let nets = nets(alloc, width)?;
    let words = words(alloc, width)?;
    let drivers = drivers(alloc, width)?;
    let ports = ports(alloc)?;
    Ok(Net {
        nets,
        words,
        drivers,
        ports,
        clock: None,
        cost: 2_000_000,
    })
}
