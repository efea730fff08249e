//! Netlists made by hand from tables of lines.

ghost use Rattle.std.specs.Prelude.{◌≡◌, ◌++◌, ◌<◌, ◌^◌, IfOk, OnOk, length, true};
ghost use Rattle.eq_net.specs.Tree as spec_tree;
ghost use Rattle.eq_net.specs.Tree.{tree_of, trees_of};
ghost use Rattle.test_elab.specs.Made as spec;

use crate::types::{Draft, Form, Line};
use eq_base::Boxed;
use eq_net::laws::test_of_nets;
use eq_net::{
    BitName, BitNames, Dir, Driver, Drivers, Name, Net, NetInfo, NetInfos, NetNumbers, Word, Words,
};
use std::alloc::Global;
use std::test::Fail;

fn driver(form: Form, word: u32) -> Driver
    ensures { result ≡ spec.driver_of form word }
{
    match form {
        Form::Copy => Driver::Expr { word, bit: 0 },
        Form::Inverted => Driver::Expr { word, bit: 0 },
        Form::Next => Driver::Reg {
            init: false,
            word,
            bit: 0,
        },
        Form::Undriven => Driver::Undriven,
    }
}

fn push_inputs(out: &mut Drivers, count: u64) -> Result<(), Fail>
    ensures { OnOk result (out.new ≡ out.old ++ spec.copies Driver.Input count) }
{
    for _ in 0..count {
        out.push(Driver::Input)?;
    }
    Ok(())
}

fn push_drivers(out: &mut Drivers, line: &Line, word: u32) -> Result<(), Fail>
    ensures { OnOk result (out.new ≡
        out.old ++ spec.drivers_of line.now.dir line.now.form line.now.wide word) }
{
    match line.dir {
        Dir::Input => push_inputs(out, u64::from(line.wide) + 1)?,
        Dir::Inner => out.push(driver(line.form, word))?,
        Dir::Output => out.push(driver(line.form, word))?,
    }
    Ok(())
}

fn push_port(out: &mut NetNumbers, dir: Dir, k: u32) -> Result<(), Fail>
    ensures { OnOk result (out.new ≡ spec.with_port dir k out.old) }
{
    match dir {
        Dir::Inner => {}
        Dir::Input => out.push(k)?,
        Dir::Output => out.push(k)?,
    }
    Ok(())
}

fn net_of(alloc: Global, line: &Line) -> Result<NetInfo, Fail>
    ensures { IfOk result (λ net. net ≡ spec.net_of line.now) }
{
    Ok(NetInfo {
        name: Name::read(alloc, line.name)?,
        left: line.wide,
        right: 0,
        ranged: 0 < line.wide,
        dir: line.dir,
        auto: false,
    })
}

fn reading(alloc: Global, net: u32) -> Result<Word, Fail>
    ensures { IfOk result (λ word. tree_of word ≡ spec.reading net) }
{
    let bit = BitName { net, bit: 0 };
    Ok(Word::Read(BitNames::from_slice(alloc, &[bit])?))
}

fn inverted(alloc: Global, word: Word) -> Result<Word, Fail>
    ensures { IfOk result (λ made. tree_of made ≡ spec_tree.negated (tree_of word)) }
{
    Ok(Word::Not(Boxed::new(alloc, word)?))
}

fn word(alloc: Global, form: Form, net: u32) -> Result<Word, Fail>
    ensures { IfOk result (λ word. tree_of word ≡ spec.word_of form net) }
{
    let word = reading(alloc, net)?;
    match form {
        Form::Copy => Ok(word),
        Form::Inverted => inverted(alloc, word),
        Form::Next => Ok(word),
        Form::Undriven => Ok(word),
    }
}

fn push_line(alloc: Global, draft: &mut Draft, line: &Line) -> Result<(), Fail>
    requires { length draft.old.nets < 2 ^ 31 }
    ensures { OnOk result (draft.new ≡ spec.with_line draft.old line.now) }
{
    let number = draft.nets.len() as u32;
    push_drivers(&mut draft.drivers, line, number)?;
    push_port(&mut draft.ports, line.dir, number)?;
    draft.nets.push(net_of(alloc, line)?)?;
    Ok(())
}

fn none(alloc: Global) -> Draft
    ensures { result ≡ spec.none }
{
    Draft {
        nets: NetInfos::new(alloc),
        drivers: Drivers::new(alloc),
        ports: NetNumbers::new(alloc),
    }
}

fn drafted(alloc: Global, lines: &[Line]) -> Result<Draft, Fail>
    requires { length lines.now < 2 ^ 31 }
    ensures { IfOk result (λ draft. draft ≡ spec.draft_of lines.now) }
{
    let mut draft = none(alloc);
    for line in lines {
        push_line(alloc, &mut draft, line)?;
    }
    Ok(draft)
}

fn words(alloc: Global, lines: &[Line]) -> Result<Words, Fail>
    ensures { IfOk result (λ words. trees_of words ≡ spec.words_of lines.now) }
{
    let mut words = Words::new(alloc);
    for line in lines {
        words.push(word(alloc, line.form, line.reads)?)?;
    }
    Ok(words)
}

/// The netlist of lines, with the clock's net.
pub fn made(alloc: Global, lines: &[Line], clock: Option<u32>) -> Result<Net, Fail>
    requires few { length lines.now < 2 ^ 31 }
    requires good { spec.is_good lines.now clock ≡ true }
{
    test_of_nets();
    let words = words(alloc, lines)?;
    let Draft {
        nets,
        drivers,
        ports,
    } = drafted(alloc, lines)?;
    Ok(Net {
        nets,
        words,
        drivers,
        ports,
        clock,
        cost: 2_000_000,
    })
}
