//! The netlist of `assign y = (((a << b) << b) ..) << b`.

ghost use Rattle.std.specs.Prelude.{◌≡◌, ◌*◌, ◌++◌, ◌≤◌, [], ◌∷◌, IfOk, OnOk, true};
ghost use Rattle.eq_net.specs.Tree.{binary as binary_tree, read, tree_of, trees_of};
ghost use Rattle.measure_netlist.specs.Nested.{driven, inputs, is_good, nested as nested_of, nets as nets_of, places as places_of};

use eq_base::{Boxed, Memory};
use eq_net::laws::test_of_nets;
use eq_net::{
    BitName, BitNames, Dir, Driver, Drivers, Net, NetInfos, NetNumbers, Word, WordOp, Words,
};
use std::alloc::Global;
use test_series::ranged;

fn places(alloc: Global, net: u32, width: u32) -> Result<BitNames, Memory>
    ensures { IfOk result (λ names. names ≡ places_of net width) }
{
    let mut names = BitNames::new(alloc);
    for bit in 0..width {
        names.push(BitName { net, bit })?;
    }
    Ok(names)
}

fn reading(alloc: Global, net: u32, width: u32) -> Result<Word, Memory>
    ensures { IfOk result (λ word. tree_of word ≡ read (places_of net width)) }
{
    let names = places(alloc, net, width)?;
    Ok(Word::Read(names))
}

fn shifted(alloc: Global, left: Word, right: Word) -> Result<Word, Memory>
    ensures { IfOk result (λ word.
        tree_of word ≡ binary_tree WordOp.Shl (tree_of left) (tree_of right)) }
{
    let left = Boxed::new(alloc, left)?;
    let right = Boxed::new(alloc, right)?;
    Ok(Word::Binary(WordOp::Shl, left, right))
}

/// One shift more.
fn again(alloc: Global, word: Word, width: u32) -> Result<Word, Memory>
    ensures { IfOk result (λ more.
        tree_of more ≡ binary_tree WordOp.Shl (tree_of word) (read (places_of 1 width))) }
{
    let by = reading(alloc, 1, width)?;
    shifted(alloc, word, by)
}

fn nested(alloc: Global, width: u32, shifts: u32) -> Result<Word, Memory>
    ensures { IfOk result (λ word. tree_of word ≡ nested_of width shifts) }
{
    let mut word = reading(alloc, 0, width)?;
    for _ in 0..shifts {
        word = again(alloc, word, width)?;
    }
    Ok(word)
}

fn words(alloc: Global, width: u32, shifts: u32) -> Result<Words, Memory>
    ensures { IfOk result (λ words. trees_of words ≡ nested_of width shifts ∷ []) }
{
    let word = nested(alloc, width, shifts)?;
    let mut words = Words::new(alloc);
    words.push(word)?;
    Ok(words)
}

fn push_inputs(count: u32, out: &mut Drivers) -> Result<(), Memory>
    ensures { OnOk result (out.new ≡ out.old ++ inputs count) }
{
    for _ in 0..count {
        out.push(Driver::Input)?;
    }
    Ok(())
}

fn push_driven(count: u32, out: &mut Drivers) -> Result<(), Memory>
    ensures { OnOk result (out.new ≡ out.old ++ driven count) }
{
    for bit in 0..count {
        out.push(Driver::Expr { word: 0, bit })?;
    }
    Ok(())
}

fn drivers(alloc: Global, width: u32) -> Result<Drivers, Memory>
    requires { width ≤ 128 }
    ensures { IfOk result (λ drivers. drivers ≡ inputs (2 * width) ++ driven width) }
{
    let mut drivers = Drivers::new(alloc);
    push_inputs(2 * width, &mut drivers)?;
    push_driven(width, &mut drivers)?;
    Ok(drivers)
}

fn nets(alloc: Global, width: u32) -> Result<NetInfos, Memory>
    ensures { IfOk result (λ nets. nets ≡ nets_of width) }
{
    let mut nets = NetInfos::new(alloc);
    nets.push(ranged(alloc, b"a", width, Dir::Input)?)?;
    nets.push(ranged(alloc, b"b", width, Dir::Input)?)?;
    nets.push(ranged(alloc, b"y", width, Dir::Output)?)?;
    Ok(nets)
}

fn ports(alloc: Global) -> Result<NetNumbers, Memory>
    ensures { IfOk result (λ ports. ports ≡ 0 ∷ 1 ∷ 2 ∷ []) }
{
    NetNumbers::from_slice(alloc, &[0, 1, 2])
}

/// So many shifts of words of so many bits.
fn netlist(alloc: Global, width: u32, shifts: u32) -> Result<Net, Memory>
    requires small { width ≤ 128 }
    requires good { is_good width shifts ≡ true }
{
    test_of_nets();
    let nets = nets(alloc, width)?;
    let words = words(alloc, width, shifts)?;
    let drivers = drivers(alloc, width)?;
    let ports = ports(alloc)?;
    Ok(Net {
        nets,
        words,
        drivers,
        ports,
        clock: None,
        cost: 999_810,
    })
}

/// 61 shifts of words of 128 bits. They cost 2, one for each of 384 bits, and 128 times 128 for each shift.
pub fn large(alloc: Global) -> Result<Net, Memory> {
    netlist(alloc, 128, 61)
}
