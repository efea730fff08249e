//! A sum whose carries are a net of their own: each bit of it but the lowest reads the bit below.

ghost use Rattle.std.specs.Prelude.{◌≡◌, ◌+◌, ◌++◌, ◌≤◌, [], ◌∷◌, IfOk, OnOk, false, true};
ghost use Rattle.eq_net.specs.Tree.{const, tree_of, trees_of};
ghost use Rattle.test_netlists.specs.Ripple.{bit as bit_of, carries as carries_of, carry as carry_of, drivers as drivers_of, is_good, lowest, nets as nets_of, of_bits as of_bits_of, passed as passed_of, sum_word, words as words_of};

use crate::drawn::draw;
use crate::graphs::graph_values;
use crate::operators::{
    binary, has_number, operation, push_driven, push_inputs, push_number, ranged, reading, stepped,
};
use eq_net::laws::test_of_nets;
use eq_net::{
    BitName, BitNames, Bits, Dir, Driver, Drivers, Net, NetInfos, NetNumbers, Word, WordOp, Words,
};
use std::alloc::Global;
use std::test::Fail;

fn bit(alloc: Global, net: u32, bit: u32) -> Result<Word, Fail>
    ensures { IfOk result (λ word. tree_of word ≡ bit_of net bit) }
{
    let name = [BitName { net, bit }];
    Ok(Word::Read(BitNames::from_slice(alloc, &name)?))
}

fn of_bits(alloc: Global, op: WordOp, net: u32, place: u32) -> Result<Word, Fail>
    ensures { IfOk result (λ word. tree_of word ≡ of_bits_of op net place) }
{
    let left = bit(alloc, net, place)?;
    let right = bit(alloc, 1, place)?;
    binary(alloc, op, left, right)
}

fn passed(alloc: Global, place: u32) -> Result<Word, Fail>
    ensures { IfOk result (λ word. tree_of word ≡ passed_of place) }
{
    let left = bit(alloc, 2, place)?;
    let right = of_bits(alloc, WordOp::Xor, 0, place)?;
    binary(alloc, WordOp::And, left, right)
}

fn carry(alloc: Global, place: u32) -> Result<Word, Fail>
    ensures { IfOk result (λ word. tree_of word ≡ carry_of place) }
{
    let left = of_bits(alloc, WordOp::And, 0, place)?;
    let right = passed(alloc, place)?;
    binary(alloc, WordOp::Or, left, right)
}

pub fn none(alloc: Global) -> Result<Word, Fail>
    ensures { IfOk result (λ word. tree_of word ≡ const (false ∷ [])) }
{
    Ok(Word::Const(Bits::from_slice(alloc, &[false])?))
}

fn carries(alloc: Global, width: u32) -> Result<Words, Fail>
    ensures { IfOk result (λ words. trees_of words ≡ carries_of width) }
{
    let mut words = Words::new(alloc);
    words.push(none(alloc)?)?;
    for place in 0..width {
        words.push(carry(alloc, place)?)?;
    }
    Ok(words)
}

fn sum(alloc: Global, width: u32) -> Result<Word, Fail>
    ensures { IfOk result (λ word. tree_of word ≡ sum_word width) }
{
    let left = operation(alloc, WordOp::Xor, width)?;
    let right = reading(alloc, 2, width)?;
    binary(alloc, WordOp::Xor, left, right)
}

fn words(alloc: Global, width: u32) -> Result<Words, Fail>
    ensures { IfOk result (λ words. trees_of words ≡ words_of width) }
{
    let mut words = carries(alloc, width)?;
    words.push(sum(alloc, width)?)?;
    Ok(words)
}

/// Bit 0 of each of the first words.
fn push_lowest(count: u32, out: &mut Drivers) -> Result<(), Fail>
    ensures { OnOk result (out.new ≡ out.old ++ lowest count) }
{
    for word in 0..count {
        out.push(Driver::Expr { word, bit: 0 })?;
    }
    Ok(())
}

fn drivers(alloc: Global, width: u32) -> Result<Drivers, Fail>
    requires { width ≤ 128 }
    ensures { IfOk result (λ drivers. drivers ≡ drivers_of width) }
{
    let mut drivers = Drivers::new(alloc);
    push_inputs(2 * width, &mut drivers)?;
    push_lowest(width + 1, &mut drivers)?;
    push_driven(width + 1, width, &mut drivers)?;
    Ok(drivers)
}

fn nets(alloc: Global, width: u32) -> Result<NetInfos, Fail>
    requires { width ≤ 128 }
    ensures { IfOk result (λ nets. nets ≡ nets_of width) }
{
    let mut nets = NetInfos::new(alloc);
    nets.push(ranged(alloc, b"a", width, Dir::Input)?)?;
    nets.push(ranged(alloc, b"b", width, Dir::Input)?)?;
    nets.push(ranged(alloc, b"c", width + 1, Dir::Inner)?)?;
    nets.push(ranged(alloc, b"y", width, Dir::Output)?)?;
    Ok(nets)
}

fn ports(alloc: Global) -> Result<NetNumbers, Fail>
    ensures { IfOk result (λ ports. ports ≡ 0 ∷ 1 ∷ 3 ∷ []) }
{
    Ok(NetNumbers::from_slice(alloc, &[0, 1, 3])?)
}

fn netlist(alloc: Global, width: u32) -> Result<Net, Fail>
    requires small { width ≤ 128 }
    requires good { is_good width ≡ true }
{
    test_of_nets();
    let nets = nets(alloc, width)?;
    let words = words(alloc, width)?;
    let drivers = drivers(alloc, width)?;
    let ports = ports(alloc)?;
    Ok(Net {
        nets,
        words,
        drivers,
        ports,
        clock: None,
        cost: 2_000_000,
    })
}

/// The netlist of 4 or of 64 bits.
fn ripple_at(alloc: Global, width: u32) -> Result<Net, Fail> {
    match width {
        4 => netlist(alloc, 4),
        _ => netlist(alloc, 64),
    }
}

/// Whether the carries and the sum are those of two numbers of so many digits, where there are so many such numbers.
fn is_sum(values: &[bool], width: u32, numbers: u128, a: u128, b: u128) -> bool {
    let sum = a.wrapping_add(b);
    let carries = (width as usize).saturating_mul(2);
    let digits = carries.saturating_add(width as usize).saturating_add(1);
    has_number(values, carries, width.saturating_add(1), a ^ b ^ sum)
        && has_number(values, digits, width, sum % numbers.max(1))
}

/// Whether a step and the graph give the sum.
fn adds(alloc: Global, width: u32, numbers: u128, a: u128, b: u128) -> Result<bool, Fail> {
    let net = ripple_at(alloc, width)?;
    let mut inputs = Bits::new(alloc);
    push_number(a, width, &mut inputs)?;
    push_number(b, width, &mut inputs)?;
    let step = stepped(alloc, &net, inputs.as_slice())?;
    let graph = graph_values(alloc, &net, inputs.as_slice())?;
    Ok(is_sum(step.as_slice(), width, numbers, a, b) && graph.as_slice() == step.as_slice())
}

/// The first pair of numbers of four digits, as the first and 16 times the second, that isn't added.
fn first_wrong(alloc: Global) -> Result<Option<u32>, Fail> {
    for pair in 0..256_u32 {
        let a = u128::from(pair % 16);
        let b = u128::from(pair / 16);
        if !adds(alloc, 4, 16, a, b)? {
            return Ok(Some(pair));
        }
    }
    Ok(None)
}

/// The first of 32 drawn pairs of numbers of 64 digits that isn't added.
fn first_drawn_wrong(alloc: Global) -> Result<Option<u32>, Fail> {
    let mut seed = 0x2545_f491_4f6c_dd1d;
    for round in 0..32_u32 {
        let a = u128::from(draw(&mut seed));
        let b = u128::from(draw(&mut seed));
        if !adds(alloc, 64, 0x1_0000_0000_0000_0000, a, b)? {
            return Ok(Some(round));
        }
    }
    Ok(None)
}

#[test]
fn a_carry_ripples_over_the_bits_of_one_net(rt: HostRuntime) -> Result<(), Fail> {
    assert_eq!(rt; first_wrong(rt.alloc())?, None);
    Ok(())
}

#[test]
fn a_carry_ripples_over_sixty_four_bits(rt: HostRuntime) -> Result<(), Fail> {
    assert_eq!(rt; first_drawn_wrong(rt.alloc())?, None);
    Ok(())
}
