//! Steps of a netlist with registers, and the names of its bits.

ghost use Rattle.std.specs.Prelude.{◌≡◌, ◌∷◌, [], IfOk, false, true};
ghost use Rattle.eq_net.specs.Tree.{const, tree_of, trees_of};
ghost use Rattle.test_netlists.specs.Steps.{counter_drivers, counter_nets, is_two, next_count, spanning as spanning_of};

use crate::operators::{binary, reading};
use eq_net::laws::test_of_nets;
use eq_net::{
    BitName, Bits, Dir, Driver, Drivers, Name, Net, NetInfo, NetInfos, NetNumbers, State, Stepped,
    Word, WordOp, Words, bit_text, initial, step,
};
use std::alloc::Global;
use std::test::Fail;

fn one(alloc: Global) -> Result<Word, Fail>
    ensures { IfOk result (λ word. tree_of word ≡ const (true ∷ false ∷ [])) }
{
    Ok(Word::Const(Bits::from_slice(alloc, &[true, false])?))
}

fn count_word(alloc: Global) -> Result<Word, Fail>
    ensures { IfOk result (λ word. tree_of word ≡ next_count) }
{
    let left = reading(alloc, 1, 2)?;
    let right = one(alloc)?;
    binary(alloc, WordOp::Add, left, right)
}

fn two(alloc: Global) -> Result<Word, Fail>
    ensures { IfOk result (λ word. tree_of word ≡ const (false ∷ true ∷ [])) }
{
    Ok(Word::Const(Bits::from_slice(alloc, &[false, true])?))
}

fn equal_word(alloc: Global) -> Result<Word, Fail>
    ensures { IfOk result (λ word. tree_of word ≡ is_two) }
{
    let left = reading(alloc, 1, 2)?;
    let right = two(alloc)?;
    binary(alloc, WordOp::Eq, left, right)
}

fn words(alloc: Global) -> Result<Words, Fail>
    ensures { IfOk result (λ words. trees_of words ≡ next_count ∷ is_two ∷ []) }
{
    let mut words = Words::new(alloc);
    words.push(count_word(alloc)?)?;
    words.push(equal_word(alloc)?)?;
    Ok(words)
}

pub fn spanning(
    alloc: Global,
    name: &[u8],
    left: u32,
    right: u32,
    ranged: bool,
    dir: Dir,
) -> Result<NetInfo, Fail>
    ensures { IfOk result (λ net. net ≡ spanning_of name.now left right ranged dir) }
{
    Ok(NetInfo {
        name: Name::read(alloc, name)?,
        left,
        right,
        ranged,
        dir,
        auto: false,
    })
}

fn nets(alloc: Global) -> Result<NetInfos, Fail>
    ensures { IfOk result (λ nets. nets ≡ counter_nets) }
{
    let mut nets = NetInfos::new(alloc);
    nets.push(spanning(alloc, b"clk", 0, 0, false, Dir::Input)?)?;
    nets.push(spanning(alloc, b"q", 2, 1, true, Dir::Output)?)?;
    nets.push(spanning(alloc, b"y", 0, 0, false, Dir::Output)?)?;
    Ok(nets)
}

fn drivers(alloc: Global) -> Result<Drivers, Fail>
    ensures { IfOk result (λ drivers. drivers ≡ counter_drivers) }
{
    Ok(Drivers::from_slice(
        alloc,
        &[
            Driver::Input,
            Driver::Reg {
                init: false,
                word: 0,
                bit: 0,
            },
            Driver::Reg {
                init: false,
                word: 0,
                bit: 1,
            },
            Driver::Expr { word: 1, bit: 0 },
        ],
    )?)
}

fn ports(alloc: Global) -> Result<NetNumbers, Fail>
    ensures { IfOk result (λ ports. ports ≡ 0 ∷ 1 ∷ 2 ∷ []) }
{
    Ok(NetNumbers::from_slice(alloc, &[0, 1, 2])?)
}

/// The counter, seen as `q`, and whether it is 2.
pub fn counter(alloc: Global) -> Result<Net, Fail>
    ensures { IfOk result (λ net. net.nets ≡ counter_nets) }
{
    test_of_nets();
    let nets = nets(alloc)?;
    let words = words(alloc)?;
    let drivers = drivers(alloc)?;
    let ports = ports(alloc)?;
    Ok(Net {
        nets,
        words,
        drivers,
        ports,
        clock: Some(0),
        cost: 22,
    })
}

/// A step with the clock at 0.
fn stepped(alloc: Global, net: &Net, state: &State) -> Result<Option<Stepped>, Fail> {
    if net.inputs() != 1 || net.registers() != state.len() {
        return Ok(None);
    }
    Ok(Some(step(alloc, net, state, &[false])?))
}

/// What the counter's bits spell, and whether it is said to be 2.
pub fn number(values: &[bool]) -> Option<(u8, bool)> {
    match values {
        [_, low, high, two] => Some((u8::from(*low) + 2 * u8::from(*high), *two)),
        _ => None,
    }
}

/// What is seen in a step, and the next state.
fn counted(alloc: Global, net: &Net, state: &State) -> Result<Option<((u8, bool), State)>, Fail> {
    match stepped(alloc, net, state)? {
        Some(stepped) => match number(stepped.values.as_slice()) {
            Some(seen) => Ok(Some((seen, stepped.next))),
            None => Ok(None),
        },
        None => Ok(None),
    }
}

/// Whether the counter is seen like this.
fn counts(alloc: Global, wanted: &[(u8, bool)]) -> Result<bool, Fail> {
    let net = counter(alloc)?;
    let mut state = initial(alloc, &net)?;
    for wanted in wanted {
        match counted(alloc, &net, &state)? {
            Some((seen, next)) => {
                if seen != *wanted {
                    return Ok(false);
                }
                state = next;
            }
            None => return Ok(false),
        }
    }
    Ok(true)
}

/// What is seen of the counter, cycle by cycle.
pub const SEEN: [(u8, bool); 5] = [(0, false), (1, false), (2, true), (3, false), (0, false)];

#[test]
fn sees_a_counter_count(rt: HostRuntime) -> Result<(), Fail> {
    assert_eq!(rt; counts(rt.alloc(), &SEEN)?, true);
    Ok(())
}
