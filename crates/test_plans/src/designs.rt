//! Netlists made by hand from tables of signals.

ghost use Rattle.std.specs.Prelude.{◌≡◌, ◌++◌, ◌<◌, ◌^◌, [], ◌∷◌, IfOk, OnOk, length, true, false};
ghost use Rattle.eq_net.specs.Tree.{trees_of};
ghost use Rattle.test_plans.specs.Designs as spec;

use crate::tables::signals::{GATE, GOLD, TWO};
use crate::types::{Draft, Signal};
use eq_net::laws::test_of_nets;
use eq_net::{Bits, Dir, Driver, Drivers, Name, Net, NetInfo, NetInfos, NetNumbers, Word, Words};
use std::alloc::Global;
use std::test::Fail;

fn driver(dir: Dir, driven: bool) -> Driver
    ensures { result ≡ spec.driver_of dir driven }
{
    let given = if driven {
        Driver::Expr { word: 0, bit: 0 }
    } else {
        Driver::Undriven
    };
    match dir {
        Dir::Input => Driver::Input,
        Dir::Inner => given,
        Dir::Output => given,
    }
}

fn push_copies(out: &mut Drivers, driver: Driver, count: u64) -> Result<(), Fail>
    ensures { OnOk result (out.new ≡ out.old ++ spec.copies driver count) }
{
    for _ in 0..count {
        out.push(driver)?;
    }
    Ok(())
}

fn net_of(alloc: Global, s: &Signal) -> Result<NetInfo, Fail>
    ensures { IfOk result (λ net. net ≡ spec.net_of s.now) }
{
    Ok(NetInfo {
        name: Name::read(alloc, s.name)?,
        left: s.left,
        right: s.right,
        ranged: s.ranged,
        dir: s.dir,
        auto: s.auto,
    })
}

pub fn push_port(out: &mut NetNumbers, dir: Dir, k: u32) -> Result<(), Fail>
    ensures { OnOk result (out.new ≡ spec.with_port dir k out.old) }
{
    match dir {
        Dir::Inner => {}
        Dir::Input => out.push(k)?,
        Dir::Output => out.push(k)?,
    }
    Ok(())
}

fn push_net(alloc: Global, draft: &mut Draft, s: &Signal) -> Result<(), Fail>
    requires { length draft.old.nets < 2 ^ 31 }
    ensures { OnOk result (draft.new ≡ spec.with_net draft.old s.now) }
{
    let net = net_of(alloc, s)?;
    push_copies(&mut draft.drivers, driver(s.dir, s.driven), net.width())?;
    push_port(&mut draft.ports, s.dir, draft.nets.len() as u32)?;
    draft.nets.push(net)?;
    Ok(())
}

pub fn none(alloc: Global) -> Draft
    ensures { result ≡ spec.none }
{
    Draft {
        nets: NetInfos::new(alloc),
        drivers: Drivers::new(alloc),
        ports: NetNumbers::new(alloc),
    }
}

fn drafted(alloc: Global, signals: &[Signal]) -> Result<Draft, Fail>
    requires { length signals.now < 2 ^ 31 }
    ensures { IfOk result (λ draft. draft ≡ spec.draft_of signals.now) }
{
    let mut draft = none(alloc);
    for s in signals {
        push_net(alloc, &mut draft, s)?;
    }
    Ok(draft)
}

fn words(alloc: Global) -> Result<Words, Fail>
    ensures { IfOk result (λ words. trees_of words ≡ spec.zero_word) }
{
    let mut words = Words::new(alloc);
    words.push(Word::Const(Bits::from_slice(alloc, &[false])?))?;
    Ok(words)
}

/// The netlist of signals.
pub fn netlist(alloc: Global, signals: &[Signal]) -> Result<Net, Fail>
    requires few { length signals.now < 2 ^ 31 }
    requires good { spec.is_good signals.now ≡ true }
{
    test_of_nets();
    let words = words(alloc)?;
    let Draft {
        nets,
        drivers,
        ports,
    } = drafted(alloc, signals)?;
    Ok(Net {
        nets,
        words,
        drivers,
        ports,
        clock: None,
        cost: 2_000_000,
    })
}

/// A design by its number: gold, gate, or two nets inside.
pub fn design(alloc: Global, number: u8) -> Result<Net, Fail> {
    match number {
        0 => netlist(alloc, &GOLD),
        1 => netlist(alloc, &GATE),
        _ => netlist(alloc, &TWO),
    }
}
