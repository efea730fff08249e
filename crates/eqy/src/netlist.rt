//! The netlist of a design of the first form.

ghost use Rattle.std.specs.Prelude.{◌≡◌, ◌+◌, ◌*◌, ◌<◌, ◌≤◌, ◌^◌, [], ◌∷◌, IfOk, length, map, None, Some};
ghost use Rattle.eq_first.specs.Value.{operators_of};
ghost use Rattle.eq_first.specs.Well.{IsWellFormed};
ghost use Rattle.eq_net.specs.Meaning.{cost_of, width};
ghost use Rattle.eq_net.specs.Tree.{tree_of, trees_of, negated as negated_tree, binary as binary_tree};
ghost use Rattle.eqy.specs.NetlistOf.{IsNetlist};
ghost use Rattle.eqy.specs.Netlist.{dir_of, driver_of, net_of, numbers_from, reads_port, word_of};

use eq_base::{Boxed, Memory};
use eq_first::{Direction, Expr, Module, Port};
use eq_model::laws::ranked;
use eq_names::BitName;
use eq_net::laws::words_make_a_system;
use eq_net::{
    BitNames, Dir, Driver, Drivers, Net, NetInfo, NetInfos, NetNumbers, Word, WordOp, Words,
    is_automatic,
};
use std::alloc::Global;

/// The word of an expression.
fn word(alloc: Global, expr: &Expr) -> Result<Word, Memory>
    ensures { IfOk result (λ word. tree_of word ≡ word_of expr.now) }
{
    match expr {
        Expr::Port(port) => read(alloc, *port),
        Expr::Not(operand) => {
            let operand = word(alloc, operand.get())?;
            negated(alloc, operand)
        }
        Expr::And(left, right) => {
            let left = word(alloc, left.get())?;
            let right = word(alloc, right.get())?;
            binary(alloc, WordOp::And, left, right)
        }
        Expr::Xor(left, right) => {
            let left = word(alloc, left.get())?;
            let right = word(alloc, right.get())?;
            binary(alloc, WordOp::Xor, left, right)
        }
        Expr::Or(left, right) => {
            let left = word(alloc, left.get())?;
            let right = word(alloc, right.get())?;
            binary(alloc, WordOp::Or, left, right)
        }
    }
}

fn negated(alloc: Global, operand: Word) -> Result<Word, Memory>
    ensures { IfOk result (λ word. tree_of word ≡ negated_tree (tree_of operand)) }
{
    Ok(Word::Not(Boxed::new(alloc, operand)?))
}

fn binary(alloc: Global, op: WordOp, left: Word, right: Word) -> Result<Word, Memory>
    ensures { IfOk result (λ word. tree_of word ≡ binary_tree op (tree_of left) (tree_of right)) }
{
    let left = Boxed::new(alloc, left)?;
    let right = Boxed::new(alloc, right)?;
    Ok(Word::Binary(op, left, right))
}

/// The word that reads the one bit of a port's net.
fn read(alloc: Global, port: u32) -> Result<Word, Memory>
    ensures { IfOk result (λ word. tree_of word ≡ reads_port port) }
{
    let mut names = BitNames::new(alloc);
    names.push(BitName { net: port, bit: 0 })?;
    Ok(Word::Read(names))
}

/// The cost of an expression's word.
fn cost(expr: &Expr) -> u64
    requires { operators_of expr.now < 2 ^ 32 }
    ensures cost { result ≡ cost_of (word_of expr.now) }
    ensures width { width (word_of expr.now) ≡ 1 }
    ensures bound { result ≤ 4 * operators_of expr.now }
{
    match expr {
        Expr::Port(_) => 0,
        Expr::Not(operand) => cost(operand.get()) + 1,
        Expr::And(left, right) => cost(left.get()) + cost(right.get()) + 1,
        Expr::Xor(left, right) => cost(left.get()) + cost(right.get()) + 1,
        Expr::Or(left, right) => cost(left.get()) + cost(right.get()) + 4,
    }
}

/// The net of a port.
fn net(alloc: Global, port: &Port) -> Result<NetInfo, Memory>
    ensures { IfOk result (λ net. net ≡ net_of port.now) }
{
    Ok(NetInfo {
        name: port.name.copy(alloc)?,
        left: 0,
        right: 0,
        ranged: false,
        dir: match port.direction {
            Direction::Input => Dir::Input,
            Direction::Output => Dir::Output,
        },
        auto: is_automatic(port.name.bytes()),
    })
}

fn nets(alloc: Global, ports: &[Port]) -> Result<NetInfos, Memory>
    ensures { IfOk result (λ nets. nets ≡ map net_of ports.now) }
{
    let mut nets = NetInfos::new(alloc);
    for port in ports {
        nets.push(net(alloc, port)?)?;
    }
    Ok(nets)
}

/// What drives the bit of a port's net.
fn driver(port: &Port) -> Driver
    ensures { result ≡ driver_of port.now }
{
    match port.direction {
        Direction::Input => Driver::Input,
        Direction::Output => Driver::Expr { word: 0, bit: 0 },
    }
}

fn drivers(alloc: Global, ports: &[Port]) -> Result<Drivers, Memory>
    ensures { IfOk result (λ drivers. drivers ≡ map driver_of ports.now) }
{
    let mut drivers = Drivers::new(alloc);
    for port in ports {
        drivers.push(driver(port))?;
    }
    Ok(drivers)
}

/// The numbers below `count`.
fn numbers(alloc: Global, count: u32) -> Result<NetNumbers, Memory>
    ensures { IfOk result (λ numbers. numbers ≡ numbers_from 0 count) }
{
    let mut numbers = NetNumbers::new(alloc);
    for number in 0..count {
        numbers.push(number)?;
    }
    Ok(numbers)
}

/// The netlist of a design: each port is a net, in the order of the header, and the assignment is the one word.
pub fn netlist(alloc: Global, design: &Module) -> Result<Net, Memory>
    requires well { IsWellFormed design.now }
    requires few { length design.now.ports ≤ 13 }
    ensures { IfOk result (IsNetlist design.now) }
{
    ranked();
    words_make_a_system();
    let ports = design.ports.as_slice();
    let mut words = Words::new(alloc);
    words.push(word(alloc, &design.expr)?)?;
    let nets = nets(alloc, ports)?;
    let drivers = drivers(alloc, ports)?;
    let numbers = numbers(alloc, ports.len() as u32)?;
    let cost = 2 + ports.len() as u64 + cost(&design.expr);
    Ok(Net {
        nets,
        words,
        drivers,
        ports: numbers,
        clock: None,
        cost,
    })
}
