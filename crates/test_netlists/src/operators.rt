//! Each operator of two operands in a step of a netlist, at widths of 1 to 128 bits, against numbers.

ghost use Rattle.std.specs.Prelude.{◌≡◌, ◌++◌, ◌≤◌, [], ◌∷◌, IfOk, OnOk, map, true};
ghost use Rattle.eq_net.specs.Tree.{binary as binary_tree, read, tree_of, trees_of};
ghost use Rattle.test_netlists.specs.Operators.{driven, drivers as drivers_of, inputs, is_good, nets as nets_of, operation as operation_of, operators, places as places_of, ranged as ranged_of, size as size_of};

use crate::operator_rows::ROWS;
use eq_base::Boxed;
use eq_net::laws::test_of_nets;
use eq_net::{
    BitName, BitNames, Bits, Dir, Driver, Drivers, Name, Net, NetInfo, NetInfos, NetNumbers, Word,
    WordOp, Words, initial, step,
};
use std::alloc::Global;
use std::test::Fail;

fn places(alloc: Global, net: u32, width: u32) -> Result<BitNames, Fail>
    ensures { IfOk result (λ names. names ≡ places_of net width) }
{
    let mut names = BitNames::new(alloc);
    for bit in 0..width {
        names.push(BitName { net, bit })?;
    }
    Ok(names)
}

pub fn reading(alloc: Global, net: u32, width: u32) -> Result<Word, Fail>
    ensures { IfOk result (λ word. tree_of word ≡ read (places_of net width)) }
{
    let names = places(alloc, net, width)?;
    Ok(Word::Read(names))
}

pub fn binary(alloc: Global, op: WordOp, left: Word, right: Word) -> Result<Word, Fail>
    ensures { IfOk result (λ word. tree_of word ≡ binary_tree op (tree_of left) (tree_of right)) }
{
    let left = Boxed::new(alloc, left)?;
    let right = Boxed::new(alloc, right)?;
    Ok(Word::Binary(op, left, right))
}

pub fn operation(alloc: Global, op: WordOp, width: u32) -> Result<Word, Fail>
    ensures { IfOk result (λ word. tree_of word ≡ operation_of width op) }
{
    let left = reading(alloc, 0, width)?;
    let right = reading(alloc, 1, width)?;
    binary(alloc, op, left, right)
}

fn words(alloc: Global, ops: &[WordOp], width: u32) -> Result<Words, Fail>
    ensures { IfOk result (λ words. trees_of words ≡ map (operation_of width) ops.now) }
{
    let mut words = Words::new(alloc);
    for op in ops {
        words.push(operation(alloc, *op, width)?)?;
    }
    Ok(words)
}

fn all_words(alloc: Global, width: u32) -> Result<Words, Fail>
    ensures { IfOk result (λ words. trees_of words ≡ map (operation_of width) operators) }
{
    words(
        alloc,
        &[
            WordOp::And,
            WordOp::Or,
            WordOp::Xor,
            WordOp::Xnor,
            WordOp::Add,
            WordOp::Sub,
            WordOp::Shl,
            WordOp::Shr,
            WordOp::Eq,
            WordOp::Ne,
            WordOp::Lt,
            WordOp::Le,
            WordOp::Gt,
            WordOp::Ge,
            WordOp::LogAnd,
            WordOp::LogOr,
        ],
        width,
    )
}

pub fn push_inputs(count: u32, out: &mut Drivers) -> Result<(), Fail>
    ensures { OnOk result (out.new ≡ out.old ++ inputs count) }
{
    for _ in 0..count {
        out.push(Driver::Input)?;
    }
    Ok(())
}

pub fn push_driven(word: u32, count: u32, out: &mut Drivers) -> Result<(), Fail>
    ensures { OnOk result (out.new ≡ out.old ++ driven word count) }
{
    for bit in 0..count {
        out.push(Driver::Expr { word, bit })?;
    }
    Ok(())
}

/// How many bits a word has.
fn size(width: u32, word: u32) -> u32
    ensures { result ≡ size_of width word }
{
    if word < 8 { width } else { 1 }
}

fn drivers(alloc: Global, width: u32) -> Result<Drivers, Fail>
    requires { width ≤ 128 }
    ensures { IfOk result (λ drivers. drivers ≡ drivers_of width 16) }
{
    let mut drivers = Drivers::new(alloc);
    push_inputs(2 * width, &mut drivers)?;
    for word in 0..16 {
        push_driven(word, size(width, word), &mut drivers)?;
    }
    Ok(drivers)
}

pub fn ranged(alloc: Global, name: &[u8], width: u32, dir: Dir) -> Result<NetInfo, Fail>
    ensures { IfOk result (λ net. net ≡ ranged_of name.now width dir) }
{
    Ok(NetInfo {
        name: Name::read(alloc, name)?,
        left: width.saturating_sub(1),
        right: 0,
        ranged: true,
        dir,
        auto: false,
    })
}

fn nets(alloc: Global, width: u32) -> Result<NetInfos, Fail>
    requires { width ≤ 128 }
    ensures { IfOk result (λ nets. nets ≡ nets_of width) }
{
    let mut nets = NetInfos::new(alloc);
    nets.push(ranged(alloc, b"a", width, Dir::Input)?)?;
    nets.push(ranged(alloc, b"b", width, Dir::Input)?)?;
    nets.push(ranged(alloc, b"y", 8 * width + 8, Dir::Output)?)?;
    Ok(nets)
}

fn ports(alloc: Global) -> Result<NetNumbers, Fail>
    ensures { IfOk result (λ ports. ports ≡ 0 ∷ 1 ∷ 2 ∷ []) }
{
    Ok(NetNumbers::from_slice(alloc, &[0, 1, 2])?)
}

fn netlist(alloc: Global, width: u32) -> Result<Net, Fail>
    requires small { width ≤ 128 }
    requires good { is_good width ≡ true }
{
    test_of_nets();
    let nets = nets(alloc, width)?;
    let words = all_words(alloc, width)?;
    let drivers = drivers(alloc, width)?;
    let ports = ports(alloc)?;
    Ok(Net {
        nets,
        words,
        drivers,
        ports,
        clock: None,
        cost: 2_000_000,
    })
}

/// The netlist at one of the widths of the rows.
pub fn netlist_at(alloc: Global, width: u32) -> Result<Net, Fail> {
    match width {
        1 => netlist(alloc, 1),
        2 => netlist(alloc, 2),
        3 => netlist(alloc, 3),
        4 => netlist(alloc, 4),
        5 => netlist(alloc, 5),
        6 => netlist(alloc, 6),
        7 => netlist(alloc, 7),
        8 => netlist(alloc, 8),
        64 => netlist(alloc, 64),
        65 => netlist(alloc, 65),
        _ => netlist(alloc, 128),
    }
}

/// Writes the lowest `width` digits of a number.
pub fn push_number(number: u128, width: u32, out: &mut Bits) -> Result<(), Fail> {
    let mut rest = number;
    for _ in 0..width {
        out.push(rest % 2 == 1)?;
        rest /= 2;
    }
    Ok(())
}

/// Whether the `count` bits from a place on are the digits of a number.
pub fn has_number(bits: &[bool], from: usize, count: u32, number: u128) -> bool {
    let mut rest = number;
    for place in 0..count {
        if bits.get(from.saturating_add(place as usize)) != Some(&(rest % 2 == 1)) {
            return false;
        }
        rest /= 2;
    }
    rest == 0
}

/// The values of all bits in a step on these inputs.
pub fn stepped(alloc: Global, net: &Net, inputs: &[bool]) -> Result<Bits, Fail> {
    let state = initial(alloc, net)?;
    if inputs.len() != net.inputs() {
        return Ok(Bits::new(alloc));
    }
    Ok(step(alloc, net, &state, inputs)?.values)
}

pub fn values(alloc: Global, width: u32, a: u128, b: u128) -> Result<Bits, Fail> {
    let net = netlist_at(alloc, width)?;
    let mut inputs = Bits::new(alloc);
    push_number(a, width, &mut inputs)?;
    push_number(b, width, &mut inputs)?;
    stepped(alloc, &net, inputs.as_slice())
}

/// The first operator whose result is another.
pub fn wrong_operator(values: &[bool], width: u32, wanted: &[u128; 16]) -> Option<usize> {
    let mut from = (width as usize).saturating_mul(2);
    for (number, wanted) in wanted.iter().enumerate() {
        let count = if number < 8 { width } else { 1 };
        if !has_number(values, from, count, *wanted) {
            return Some(number);
        }
        from = from.saturating_add(count as usize);
    }
    None
}

/// The first operator with a wrong result in a row.
fn wrong_in_row(alloc: Global, row: &(u32, u128, u128, [u128; 16])) -> Result<Option<usize>, Fail> {
    let (width, a, b, wanted) = row;
    let values = values(alloc, *width, *a, *b)?;
    Ok(wrong_operator(values.as_slice(), *width, wanted))
}

/// The first row with a wrong result, and the operator.
fn first_wrong(alloc: Global) -> Result<Option<(usize, usize)>, Fail> {
    for (number, row) in ROWS.iter().enumerate() {
        if let Some(operator) = wrong_in_row(alloc, row)? {
            return Ok(Some((number, operator)));
        }
    }
    Ok(None)
}

#[test]
fn computes_each_operator_at_each_width(rt: HostRuntime) -> Result<(), Fail> {
    assert_eq!(rt; first_wrong(rt.alloc())?, None);
    Ok(())
}
