//! A netlist of stages: each is a net of as many bits as the input, and the exclusive or of the net before it and the
//! input.

ghost use Rattle.std.specs.Prelude.{◌≡◌, ◌+◌, ◌*◌, ◌<◌, ◌≤◌, ◌++◌, [], ◌∷◌, IfOk, OnOk};
ghost use Rattle.eq_net.specs.Tree.{binary as binary_tree, tree_of, trees_of};
ghost use Rattle.eq_net.specs.Whole.{parts_of};
ghost use Rattle.test_series.specs.Lists.{listed};
ghost use Rattle.test_series.specs.Stages as spec;

use crate::making::ranged;
use eq_base::{Boxed, Memory};
use eq_net::laws::test_of_nets;
use eq_net::{
    BitName, BitNames, Dir, Driver, Drivers, Net, NetInfo, NetInfos, NetNumbers, Word, WordOp,
    Words,
};
use std::alloc::Global;

/// A digit of a number of four digits, as its byte.
fn digit(value: u32) -> u8
    requires { value < 10 }
    ensures { result ≡ 48 + value }
{
    48 + value as u8
}

/// `n` and the digits of a number.
fn stage_name(number: u32) -> [u8; 5]
    requires { number < 10000 }
    ensures { result ≡ spec.stage_name number }
{
    [
        b'n',
        digit(number / 10 / 10 / 10),
        digit(number / 10 / 10 % 10),
        digit(number / 10 % 10),
        digit(number % 10),
    ]
}

fn stage_dir(count: u32, number: u32) -> Dir
    requires { number < 10000 }
    ensures { result ≡ spec.stage_dir count number }
{
    if number + 1 < count {
        Dir::Inner
    } else {
        Dir::Output
    }
}

fn stage_net(alloc: Global, width: u32, count: u32, number: u32) -> Result<NetInfo, Memory>
    requires { number < 10000 }
    ensures { IfOk result (λ net. net ≡ spec.stage_net width count number) }
{
    let name = stage_name(number);
    ranged(alloc, &name, width, stage_dir(count, number))
}

fn nets(alloc: Global, width: u32, count: u32) -> Result<NetInfos, Memory>
    requires { count < 10000 }
    ensures { IfOk result (λ nets. nets ≡ spec.stage_nets width count) }
{
    let mut nets = NetInfos::new(alloc);
    nets.push(ranged(alloc, b"a", width, Dir::Input)?)?;
    for number in 0..count {
        nets.push(stage_net(alloc, width, count, number)?)?;
    }
    Ok(nets)
}

/// All bits of a net of so many.
pub fn all_bits(alloc: Global, width: u32, net: u32) -> Result<Word, Memory>
    ensures { IfOk result (λ word. tree_of word ≡ spec.all_bits width net) }
{
    let mut names = BitNames::new(alloc);
    for bit in 0..width {
        names.push(BitName { net, bit })?;
    }
    Ok(Word::Read(names))
}

fn differing(alloc: Global, left: Word, right: Word) -> Result<Word, Memory>
    ensures { IfOk result (λ word.
        tree_of word ≡ binary_tree WordOp.Xor (tree_of left) (tree_of right)) }
{
    let left = Boxed::new(alloc, left)?;
    let right = Boxed::new(alloc, right)?;
    Ok(Word::Binary(WordOp::Xor, left, right))
}

fn stage(alloc: Global, width: u32, number: u32) -> Result<Word, Memory>
    ensures { IfOk result (λ word. tree_of word ≡ spec.stage width number) }
{
    let before = all_bits(alloc, width, number)?;
    let input = all_bits(alloc, width, 0)?;
    differing(alloc, before, input)
}

fn words(alloc: Global, width: u32, count: u32) -> Result<Words, Memory>
    ensures { IfOk result (λ words. trees_of words ≡ listed (spec.stage width) count) }
{
    let mut words = Words::new(alloc);
    for number in 0..count {
        words.push(stage(alloc, width, number)?)?;
    }
    Ok(words)
}

fn push_given(width: u32, out: &mut Drivers) -> Result<(), Memory>
    ensures { OnOk result (out.new ≡ out.old ++ listed spec.given width) }
{
    for _ in 0..width {
        out.push(Driver::Input)?;
    }
    Ok(())
}

fn push_driven(word: u32, width: u32, out: &mut Drivers) -> Result<(), Memory>
    ensures { OnOk result (out.new ≡ out.old ++ listed (Driver.Expr word) width) }
{
    for bit in 0..width {
        out.push(Driver::Expr { word, bit })?;
    }
    Ok(())
}

fn drivers(alloc: Global, width: u32, count: u32) -> Result<Drivers, Memory>
    ensures { IfOk result (λ drivers.
        drivers ≡ listed spec.given width ++ spec.driven width count) }
{
    let mut drivers = Drivers::new(alloc);
    push_given(width, &mut drivers)?;
    for word in 0..count {
        push_driven(word, width, &mut drivers)?;
    }
    Ok(drivers)
}

fn ports(alloc: Global, count: u32) -> Result<NetNumbers, Memory>
    ensures { IfOk result (λ ports. ports ≡ 0 ∷ count ∷ []) }
{
    NetNumbers::from_slice(alloc, &[0, count])
}

/// An input `a` of so many bits, and so many nets `n0000`, `n0001`, .. of as many. It costs 2, one for each bit, and one
/// for each bit of a net but the input.
pub fn chain_of_stages(alloc: Global, width: u32, count: u32) -> Result<Net, Memory>
    requires bits { 0 < width }
    requires some { 0 < count }
    requires few { count < 10000 }
    requires cost { 2 + width + 2 * (count * width) ≤ 2000000 }
    ensures { IfOk result (λ net. parts_of net ≡ spec.stages width count) }
{
    test_of_nets();
    let nets = nets(alloc, width, count)?;
    let words = words(alloc, width, count)?;
    let drivers = drivers(alloc, width, count)?;
    let ports = ports(alloc, count)?;
    Ok(Net {
        nets,
        words,
        drivers,
        ports,
        clock: None,
        cost: 2_000_000,
    })
}
