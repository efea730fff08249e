//! A netlist of all that isn't an operator of two operands, at widths of 1 to 65 bits.

ghost use Rattle.std.specs.Prelude.{◌≡◌, ◌+◌, ◌++◌, ◌≤◌, [], ◌∷◌, IfOk, OnOk, map, true};
ghost use Rattle.eq_net.specs.Tree.{choice, empty, extended, joined, negated, opposite, pick, read, tree_of, trees_of};
ghost use Rattle.test_netlists.specs.Forms.{condition, drivers as drivers_of, is_good, left, nets as nets_of, picked, reduction as reduction_of, reductions as all_reductions, right, size as size_of, wide as wide_of, words as words_of};
ghost use Rattle.test_netlists.specs.Operators.{places};

use crate::operators::{push_driven, push_inputs, ranged, reading};
use crate::steps::spanning;
use eq_base::Boxed;
use eq_net::laws::test_of_nets;
use eq_net::{Dir, Drivers, Net, NetInfos, NetNumbers, RedOp, Word, WordBit, WordBits, Words};
use std::alloc::Global;
use std::test::Fail;

fn boxed(alloc: Global, net: u32, width: u32) -> Result<Boxed<Word>, Fail>
    ensures { IfOk result (λ word. tree_of word ≡ read (places net width)) }
{
    let word = reading(alloc, net, width)?;
    Ok(Boxed::new(alloc, word)?)
}

fn negation(alloc: Global, width: u32) -> Result<Word, Fail>
    ensures { IfOk result (λ word. tree_of word ≡ negated (left width)) }
{
    Ok(Word::Not(boxed(alloc, 0, width)?))
}

fn negative(alloc: Global, width: u32) -> Result<Word, Fail>
    ensures { IfOk result (λ word. tree_of word ≡ opposite (left width)) }
{
    Ok(Word::Neg(boxed(alloc, 0, width)?))
}

fn chosen(alloc: Global, width: u32) -> Result<Word, Fail>
    ensures { IfOk result (λ word.
        tree_of word ≡ choice condition (left width) (right width)) }
{
    let condition = boxed(alloc, 2, 2)?;
    let left = boxed(alloc, 0, width)?;
    let right = boxed(alloc, 1, width)?;
    Ok(Word::Mux(condition, left, right))
}

fn extension(alloc: Global, width: u32) -> Result<Word, Fail>
    requires { width ≤ 65 }
    ensures { IfOk result (λ word. tree_of word ≡ extended (left width) (width + 2)) }
{
    Ok(Word::Extend(boxed(alloc, 0, width)?, width + 2))
}

fn parts(alloc: Global, width: u32) -> Result<Words, Fail>
    ensures { IfOk result (λ words.
        trees_of words ≡ left width ∷ condition ∷ right width ∷ []) }
{
    let mut words = Words::new(alloc);
    words.push(reading(alloc, 0, width)?)?;
    words.push(reading(alloc, 2, 2)?)?;
    words.push(reading(alloc, 1, width)?)?;
    Ok(words)
}

fn concatenation(alloc: Global, width: u32) -> Result<Word, Fail>
    ensures { IfOk result (λ word. tree_of word ≡
        joined (left width) (joined condition (joined (right width) empty))) }
{
    Ok(Word::Concat(parts(alloc, width)?))
}

fn pick_of(alloc: Global, width: u32) -> Result<Word, Fail>
    ensures { IfOk result (λ word. tree_of word ≡ pick (picked width)) }
{
    let bits = [
        WordBit { word: 1, bit: 0 },
        WordBit {
            word: 0,
            bit: width.saturating_sub(1),
        },
        WordBit { word: 2, bit: 0 },
    ];
    Ok(Word::Pick(WordBits::from_slice(alloc, &bits)?))
}

fn wide(alloc: Global, width: u32) -> Result<Words, Fail>
    requires { width ≤ 65 }
    ensures { IfOk result (λ words. trees_of words ≡ wide_of width) }
{
    let mut words = Words::new(alloc);
    words.push(negation(alloc, width)?)?;
    words.push(negative(alloc, width)?)?;
    words.push(chosen(alloc, width)?)?;
    words.push(extension(alloc, width)?)?;
    words.push(concatenation(alloc, width)?)?;
    words.push(pick_of(alloc, width)?)?;
    Ok(words)
}

fn reduction(alloc: Global, op: RedOp, width: u32) -> Result<Word, Fail>
    ensures { IfOk result (λ word. tree_of word ≡ reduction_of width op) }
{
    Ok(Word::Reduce(op, boxed(alloc, 0, width)?))
}

fn push_reductions(alloc: Global, ops: &[RedOp], width: u32, out: &mut Words) -> Result<(), Fail>
    ensures { OnOk result
        (trees_of out.new ≡ trees_of out.old ++ map (reduction_of width) ops.now) }
{
    for op in ops {
        out.push(reduction(alloc, *op, width)?)?;
    }
    Ok(())
}

fn words(alloc: Global, width: u32) -> Result<Words, Fail>
    requires { width ≤ 65 }
    ensures { IfOk result (λ words. trees_of words ≡ words_of width) }
{
    let mut words = wide(alloc, width)?;
    let reductions = [
        RedOp::And,
        RedOp::Or,
        RedOp::Xor,
        RedOp::Nand,
        RedOp::Nor,
        RedOp::Xnor,
        RedOp::Zero,
    ];
    push_reductions(alloc, &reductions, width, &mut words)?;
    Ok(words)
}

/// How many bits a word has.
pub fn size(width: u32, word: u32) -> u32
    requires { width ≤ 65 }
    ensures { result ≡ size_of width word }
{
    if word < 3 {
        width
    } else if word < 4 {
        width + 2
    } else if word < 5 {
        2 * width + 2
    } else if word < 6 {
        3
    } else {
        1
    }
}

fn drivers(alloc: Global, width: u32) -> Result<Drivers, Fail>
    requires { width ≤ 65 }
    ensures { IfOk result (λ drivers. drivers ≡ drivers_of width 13) }
{
    let mut drivers = Drivers::new(alloc);
    push_inputs(2 * width + 2, &mut drivers)?;
    for word in 0..13 {
        push_driven(word, size(width, word), &mut drivers)?;
    }
    Ok(drivers)
}

fn nets(alloc: Global, width: u32) -> Result<NetInfos, Fail>
    requires { width ≤ 65 }
    ensures { IfOk result (λ nets. nets ≡ nets_of width) }
{
    let mut nets = NetInfos::new(alloc);
    nets.push(ranged(alloc, b"a", width, Dir::Input)?)?;
    nets.push(ranged(alloc, b"b", width, Dir::Input)?)?;
    nets.push(spanning(alloc, b"c", 4, 5, true, Dir::Input)?)?;
    nets.push(ranged(alloc, b"y", 6 * width + 14, Dir::Output)?)?;
    Ok(nets)
}

fn ports(alloc: Global) -> Result<NetNumbers, Fail>
    ensures { IfOk result (λ ports. ports ≡ 0 ∷ 1 ∷ 2 ∷ 3 ∷ []) }
{
    Ok(NetNumbers::from_slice(alloc, &[0, 1, 2, 3])?)
}

fn netlist(alloc: Global, width: u32) -> Result<Net, Fail>
    requires small { width ≤ 65 }
    requires good { is_good width ≡ true }
{
    test_of_nets();
    let nets = nets(alloc, width)?;
    let words = words(alloc, width)?;
    let drivers = drivers(alloc, width)?;
    let ports = ports(alloc)?;
    Ok(Net {
        nets,
        words,
        drivers,
        ports,
        clock: None,
        cost: 2_000_000,
    })
}

/// The netlist at one of the widths 1, 2, 3, 8, 64 and 65.
pub fn forms_at(alloc: Global, width: u32) -> Result<Net, Fail> {
    match width {
        1 => netlist(alloc, 1),
        2 => netlist(alloc, 2),
        3 => netlist(alloc, 3),
        8 => netlist(alloc, 8),
        64 => netlist(alloc, 64),
        _ => netlist(alloc, 65),
    }
}
