//! Netlists made by hand from tables of wires.

ghost use Rattle.std.specs.Prelude.{◌≡◌, ◌++◌, ◌<◌, ◌^◌, [], ◌∷◌, IfOk, OnOk, length, map, true};
ghost use Rattle.eq_net.specs.Tree.{tree_of, trees_of};
ghost use Rattle.test_plans.specs.Chains as spec;
ghost use Rattle.test_plans.specs.Designs.{none as nothing, with_port};

use crate::designs::{design, none, push_port};
use crate::tables::wires::{BRANCHES, LINE, SHORTER};
use crate::types::{Draft, Wire};
use eq_net::laws::test_of_nets;
use eq_net::{BitName, BitNames, Dir, Driver, Name, Net, NetInfo, Word, Words};
use std::alloc::Global;
use std::test::Fail;

fn driver(dir: Dir, register: bool, word: u32) -> Driver
    ensures { result ≡ spec.driver_of dir register word }
{
    let given = if register {
        Driver::Reg {
            init: false,
            word,
            bit: 0,
        }
    } else {
        Driver::Expr { word, bit: 0 }
    };
    match dir {
        Dir::Input => Driver::Input,
        Dir::Inner => given,
        Dir::Output => given,
    }
}

fn net_of(alloc: Global, wire: &Wire) -> Result<NetInfo, Fail>
    ensures { IfOk result (λ net. net ≡ spec.net_of wire.now) }
{
    Ok(NetInfo {
        name: Name::read(alloc, wire.name)?,
        left: 0,
        right: 0,
        ranged: false,
        dir: wire.dir,
        auto: wire.auto,
    })
}

pub fn reading(alloc: Global, net: u32) -> Result<Word, Fail>
    ensures { IfOk result (λ word. tree_of word ≡ spec.reading net) }
{
    let bit = BitName { net, bit: 0 };
    Ok(Word::Read(BitNames::from_slice(alloc, &[bit])?))
}

fn push_wire(alloc: Global, draft: &mut Draft, wire: &Wire) -> Result<(), Fail>
    requires { length draft.old.nets < 2 ^ 31 }
    ensures { OnOk result (draft.new ≡ spec.with_wire draft.old wire.now) }
{
    let number = draft.nets.len() as u32;
    draft.drivers.push(driver(wire.dir, wire.register, number))?;
    push_port(&mut draft.ports, wire.dir, number)?;
    draft.nets.push(net_of(alloc, wire)?)?;
    Ok(())
}

pub fn drafted(alloc: Global, wires: &[Wire]) -> Result<Draft, Fail>
    requires { length wires.now < 2 ^ 31 }
    ensures { IfOk result (λ draft. draft ≡ spec.draft_of wires.now) }
{
    let mut draft = none(alloc);
    for wire in wires {
        push_wire(alloc, &mut draft, wire)?;
    }
    Ok(draft)
}

fn words(alloc: Global, wires: &[Wire]) -> Result<Words, Fail>
    ensures { IfOk result (λ words. trees_of words ≡ spec.words_of wires.now) }
{
    let mut words = Words::new(alloc);
    for wire in wires {
        words.push(reading(alloc, wire.reads)?)?;
    }
    Ok(words)
}

/// The netlist of wires.
pub fn wired(alloc: Global, wires: &[Wire]) -> Result<Net, Fail>
    requires few { length wires.now < 2 ^ 31 }
    requires good { spec.is_good wires.now ≡ true }
{
    test_of_nets();
    let words = words(alloc, wires)?;
    let Draft {
        nets,
        drivers,
        ports,
    } = drafted(alloc, wires)?;
    Ok(Net {
        nets,
        words,
        drivers,
        ports,
        clock: None,
        cost: 2_000_000,
    })
}

/// A chain by its number: three nets in a line, the same with a shorter way to the output, or with branches.
pub fn chain(alloc: Global, number: u8) -> Result<Net, Fail> {
    match number {
        3 => wired(alloc, &LINE),
        5 => wired(alloc, &SHORTER),
        _ => wired(alloc, &BRANCHES),
    }
}

/// A netlist by its number: the first three are designs of signals, the others chains.
pub fn netlist(alloc: Global, number: u8) -> Result<Net, Fail> {
    if number < 3 {
        design(alloc, number)
    } else {
        chain(alloc, number)
    }
}
