//! Netlists made by hand from tables of cells.

ghost use Rattle.std.specs.Prelude.{◌≡◌, ◌++◌, ◌<◌, ◌^◌, [], ◌∷◌, IfOk, OnOk, length, true};
ghost use Rattle.eq_net.specs.Tree.{const as const_tree, negated, tree_of, trees_of};
ghost use Rattle.test_plans.specs.Cells as spec;
ghost use Rattle.test_series.specs.Lists.{listed};

use crate::crossing::binary;
use crate::designs::{none, push_port};
use crate::types::{Arg, Cell, Draft, Form};
use eq_base::Boxed;
use eq_net::laws::test_of_nets;
use eq_net::{Bits, Dir, Driver, Drivers, Name, Net, NetInfo, Word, WordOp, Words};
use std::alloc::Global;
use std::test::Fail;
use test_series::all_bits;

fn constant(alloc: Global, bits: &[bool]) -> Result<Word, Fail>
    ensures { IfOk result (λ word. tree_of word ≡ const_tree bits.now) }
{
    Ok(Word::Const(Bits::from_slice(alloc, bits)?))
}

fn not(alloc: Global, word: Word) -> Result<Word, Fail>
    ensures { IfOk result (λ no. tree_of no ≡ negated (tree_of word)) }
{
    Ok(Word::Not(Boxed::new(alloc, word)?))
}

fn arg(alloc: Global, arg: Arg) -> Result<Word, Fail>
    ensures { IfOk result (λ word. tree_of word ≡ spec.arg_of arg) }
{
    match arg {
        Arg::Bits(bits) => constant(alloc, bits),
        Arg::Net(net, width) => Ok(all_bits(alloc, width, net)?),
        Arg::Not(net, width) => not(alloc, all_bits(alloc, width, net)?),
        Arg::Sum(net, width, bits) => {
            let left = all_bits(alloc, width, net)?;
            binary(alloc, WordOp::Add, left, constant(alloc, bits)?)
        }
    }
}

fn two(alloc: Global, op: WordOp, a: Arg, b: Arg) -> Result<Word, Fail>
    ensures { IfOk result (λ word. tree_of word ≡ spec.word_of (Form.Two op a b)) }
{
    let left = arg(alloc, a)?;
    let right = arg(alloc, b)?;
    binary(alloc, op, left, right)
}

fn chosen(alloc: Global, c: Arg, a: Arg, b: Arg) -> Result<Word, Fail>
    ensures { IfOk result (λ word. tree_of word ≡ spec.word_of (Form.Choice c a b)) }
{
    let condition = Boxed::new(alloc, arg(alloc, c)?)?;
    let left = Boxed::new(alloc, arg(alloc, a)?)?;
    let right = Boxed::new(alloc, arg(alloc, b)?)?;
    Ok(Word::Mux(condition, left, right))
}

fn word(alloc: Global, form: Form) -> Result<Word, Fail>
    ensures { IfOk result (λ word. tree_of word ≡ spec.word_of form) }
{
    match form {
        Form::One(a) => arg(alloc, a),
        Form::Two(op, a, b) => two(alloc, op, a, b),
        Form::NotTwo(op, a, b) => not(alloc, two(alloc, op, a, b)?),
        Form::Choice(c, a, b) => chosen(alloc, c, a, b),
    }
}

fn words(alloc: Global, cells: &[Cell]) -> Result<Words, Fail>
    ensures { IfOk result (λ words. trees_of words ≡ spec.words_of cells.now) }
{
    let mut words = Words::new(alloc);
    for cell in cells {
        words.push(word(alloc, cell.word)?)?;
    }
    Ok(words)
}

fn driver(dir: Dir, register: bool, word: u32, bit: u32) -> Driver
    ensures { result ≡ spec.driver_of dir register word bit }
{
    let driven = if register {
        Driver::Reg {
            init: false,
            word,
            bit,
        }
    } else {
        Driver::Expr { word, bit }
    };
    match dir {
        Dir::Input => Driver::Input,
        Dir::Inner => driven,
        Dir::Output => driven,
    }
}

fn push_drivers(out: &mut Drivers, cell: &Cell, word: u32) -> Result<(), Fail>
    ensures { OnOk result (out.new ≡ out.old
        ++ listed (spec.driver_of cell.now.dir cell.now.register word) cell.now.width) }
{
    for bit in 0..cell.width {
        out.push(driver(cell.dir, cell.register, word, bit))?;
    }
    Ok(())
}

fn net_of(alloc: Global, cell: &Cell) -> Result<NetInfo, Fail>
    ensures { IfOk result (λ net. net ≡ spec.net_of cell.now) }
{
    Ok(NetInfo {
        name: Name::read(alloc, cell.name)?,
        left: cell.width.saturating_sub(1),
        right: 0,
        ranged: 1 < cell.width,
        dir: cell.dir,
        auto: cell.auto,
    })
}

fn push_cell(alloc: Global, draft: &mut Draft, cell: &Cell) -> Result<(), Fail>
    requires { length draft.old.nets < 2 ^ 31 }
    ensures { OnOk result (draft.new ≡ spec.with_cell draft.old cell.now) }
{
    let number = draft.nets.len() as u32;
    push_drivers(&mut draft.drivers, cell, number)?;
    push_port(&mut draft.ports, cell.dir, number)?;
    draft.nets.push(net_of(alloc, cell)?)?;
    Ok(())
}

fn drafted(alloc: Global, cells: &[Cell]) -> Result<Draft, Fail>
    requires { length cells.now < 2 ^ 31 }
    ensures { IfOk result (λ draft. draft ≡ spec.draft_of cells.now) }
{
    let mut draft = none(alloc);
    for cell in cells {
        push_cell(alloc, &mut draft, cell)?;
    }
    Ok(draft)
}

/// The netlist of cells.
pub fn celled(alloc: Global, cells: &[Cell]) -> Result<Net, Fail>
    requires few { length cells.now < 2 ^ 31 }
    requires good { spec.is_good cells.now ≡ true }
{
    test_of_nets();
    let words = words(alloc, cells)?;
    let Draft {
        nets,
        drivers,
        ports,
    } = drafted(alloc, cells)?;
    Ok(Net {
        nets,
        words,
        drivers,
        ports,
        clock: None,
        cost: 2_000_000,
    })
}
