//! Words that read their own bits: the carries of a sum in one net, in two nets that read one another, and a sum of a net
//! with itself.

ghost use Rattle.std.specs.Prelude.{◌≡◌, ◌+◌, ◌*◌, ◌≤◌, [], ◌∷◌, IfOk, OnOk, false, true};
ghost use Rattle.eq_net.specs.Tree.{const, tree_of, trees_of};
ghost use Rattle.test_netlists.specs.Vectors.{carries as carries_of, doubled as doubled_of, drivers as drivers_of, is_good, nets as nets_of, passed as passed_of, with_passed as with_passed_of, words as words_of};

use crate::drawn::draw;
use crate::graphs::graph_values;
use crate::operators::{
    binary, has_number, operation, push_driven, push_inputs, push_number, ranged, reading, stepped,
};
use crate::ripple::none;
use eq_net::laws::test_of_bits;
use eq_net::{Bits, Dir, Drivers, Net, NetInfos, NetNumbers, Word, WordOp, Words};
use std::alloc::Global;
use std::test::Fail;

fn passed(alloc: Global, net: u32, width: u32) -> Result<Word, Fail>
    ensures { IfOk result (λ word. tree_of word ≡ passed_of net width) }
{
    let left = reading(alloc, net, width)?;
    let right = operation(alloc, WordOp::Xor, width)?;
    binary(alloc, WordOp::And, left, right)
}

fn carries(alloc: Global, width: u32) -> Result<Word, Fail>
    ensures { IfOk result (λ word. tree_of word ≡ carries_of width) }
{
    let left = operation(alloc, WordOp::And, width)?;
    let right = passed(alloc, 2, width)?;
    binary(alloc, WordOp::Or, left, right)
}

fn with_passed(alloc: Global, width: u32) -> Result<Word, Fail>
    ensures { IfOk result (λ word. tree_of word ≡ with_passed_of width) }
{
    let left = operation(alloc, WordOp::And, width)?;
    let right = reading(alloc, 4, width)?;
    binary(alloc, WordOp::Or, left, right)
}

fn doubled(alloc: Global, width: u32) -> Result<Word, Fail>
    ensures { IfOk result (λ word. tree_of word ≡ doubled_of width) }
{
    let left = reading(alloc, 5, width)?;
    let right = reading(alloc, 0, width)?;
    binary(alloc, WordOp::Add, left, right)
}

fn words(alloc: Global, width: u32) -> Result<Words, Fail>
    ensures { IfOk result (λ words. trees_of words ≡ words_of width) }
{
    let mut words = Words::new(alloc);
    words.push(none(alloc)?)?;
    words.push(carries(alloc, width)?)?;
    words.push(passed(alloc, 3, width)?)?;
    words.push(with_passed(alloc, width)?)?;
    words.push(doubled(alloc, width)?)?;
    Ok(words)
}

fn drivers(alloc: Global, width: u32) -> Result<Drivers, Fail>
    requires { width ≤ 128 }
    ensures { IfOk result (λ drivers. drivers ≡ drivers_of width) }
{
    let mut drivers = Drivers::new(alloc);
    push_inputs(2 * width, &mut drivers)?;
    push_driven(0, 1, &mut drivers)?;
    push_driven(1, width, &mut drivers)?;
    push_driven(0, 1, &mut drivers)?;
    push_driven(3, width, &mut drivers)?;
    push_driven(2, width, &mut drivers)?;
    push_driven(0, 1, &mut drivers)?;
    push_driven(4, width, &mut drivers)?;
    Ok(drivers)
}

fn nets(alloc: Global, width: u32) -> Result<NetInfos, Fail>
    requires { width ≤ 128 }
    ensures { IfOk result (λ nets. nets ≡ nets_of width) }
{
    let mut nets = NetInfos::new(alloc);
    nets.push(ranged(alloc, b"a", width, Dir::Input)?)?;
    nets.push(ranged(alloc, b"b", width, Dir::Input)?)?;
    nets.push(ranged(alloc, b"c", width + 1, Dir::Inner)?)?;
    nets.push(ranged(alloc, b"d", width + 1, Dir::Inner)?)?;
    nets.push(ranged(alloc, b"p", width, Dir::Inner)?)?;
    nets.push(ranged(alloc, b"t", width + 1, Dir::Inner)?)?;
    Ok(nets)
}

fn ports(alloc: Global) -> Result<NetNumbers, Fail>
    ensures { IfOk result (λ ports. ports ≡ 0 ∷ 1 ∷ []) }
{
    Ok(NetNumbers::from_slice(alloc, &[0, 1])?)
}

fn netlist(alloc: Global, width: u32) -> Result<Net, Fail>
    requires small { width ≤ 128 }
    requires good { is_good width ≡ true }
{
    test_of_bits();
    let nets = nets(alloc, width)?;
    let words = words(alloc, width)?;
    let drivers = drivers(alloc, width)?;
    let ports = ports(alloc)?;
    Ok(Net {
        nets,
        words,
        drivers,
        ports,
        clock: None,
        cost: 2_000_000,
    })
}

/// The netlist of 4 or of 64 bits.
fn vectors_at(alloc: Global, width: u32) -> Result<Net, Fail> {
    match width {
        4 => netlist(alloc, 4),
        _ => netlist(alloc, 64),
    }
}

/// Whether the carries are those of two numbers of so many digits, where there are so many such numbers, and what the first
/// is added to, doubled, to make itself is its negative.
fn is_sum(values: &[bool], width: u32, numbers: u128, a: u128, b: u128) -> bool {
    let sum = a.wrapping_add(b);
    let carries = a ^ b ^ sum;
    let digits = width.saturating_add(1);
    let size = width as usize;
    let one = size.saturating_mul(2);
    let two = one.saturating_add(size).saturating_add(1);
    let last = two
        .saturating_add(size)
        .saturating_add(size)
        .saturating_add(1);
    let negative = numbers.saturating_sub(a) % numbers.max(1);
    has_number(values, one, digits, carries)
        && has_number(values, two, digits, carries)
        && has_number(values, last, digits, negative.wrapping_mul(2))
}

/// Whether a step and the graph give the carries and the negative.
fn adds(alloc: Global, width: u32, numbers: u128, a: u128, b: u128) -> Result<bool, Fail> {
    let net = vectors_at(alloc, width)?;
    let mut inputs = Bits::new(alloc);
    push_number(a, width, &mut inputs)?;
    push_number(b, width, &mut inputs)?;
    let step = stepped(alloc, &net, inputs.as_slice())?;
    let graph = graph_values(alloc, &net, inputs.as_slice())?;
    Ok(is_sum(step.as_slice(), width, numbers, a, b) && graph.as_slice() == step.as_slice())
}

/// The first pair of numbers of four digits, as the first and 16 times the second, that isn't added.
fn first_wrong(alloc: Global) -> Result<Option<u32>, Fail> {
    for pair in 0..256_u32 {
        let a = u128::from(pair % 16);
        let b = u128::from(pair / 16);
        if !adds(alloc, 4, 16, a, b)? {
            return Ok(Some(pair));
        }
    }
    Ok(None)
}

/// The first of 32 drawn pairs of numbers of 64 digits that isn't added.
fn first_drawn_wrong(alloc: Global) -> Result<Option<u32>, Fail> {
    let mut seed = 0x2545_f491_4f6c_dd1d;
    for round in 0..32_u32 {
        let a = u128::from(draw(&mut seed));
        let b = u128::from(draw(&mut seed));
        if !adds(alloc, 64, 0x1_0000_0000_0000_0000, a, b)? {
            return Ok(Some(round));
        }
    }
    Ok(None)
}

#[test]
fn words_read_their_own_bits_and_one_another(rt: HostRuntime) -> Result<(), Fail> {
    assert_eq!(rt; first_wrong(rt.alloc())?, None);
    Ok(())
}

#[test]
fn words_of_sixty_four_bits_read_their_own(rt: HostRuntime) -> Result<(), Fail> {
    assert_eq!(rt; first_drawn_wrong(rt.alloc())?, None);
    Ok(())
}
