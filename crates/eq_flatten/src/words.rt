//! Expressions as words of a netlist. What a repeat repeats becomes one of the words, and is picked.

ghost use Rattle.std.specs.Prelude.{◌≡◌, ◌+◌, ◌++◌, ◌∷◌, [], ◌<◌, ◌≤◌, ◌^◌, IfOk, OnOk, length, map};
ghost use Rattle.eq_net.specs.Tree.{tree_of, trees_of};
ghost use Rattle.eq_verilog.specs.Trees as tree;
ghost use Rattle.eq_verilog.specs.Trees.{expr_tree, join_all};
ghost use Rattle.eq_verilog.specs.Sizes as sizes;
ghost use Rattle.eq_analysis.specs.Finding.{scope_of};
ghost use Rattle.eq_analysis.specs.Measuring.{AllSmall, IsFit, IsSmall};
ghost use Rattle.eq_flatten.specs.Rendering.{Makes, MakesAll};

use crate::forms::{binary, choice, constant, extended, pick, unary, word_op};
use crate::leaves::{bit_word, name_word, part_word};
use eq_analysis::{inner_size, operand_sizes, own, own_of_all};
use eq_base::Memory;
use eq_names::NameTable;
use eq_net::{NetInfo, Word, Words};
use eq_verilog::laws::expression_trees;
use eq_vparse::{Expr, UnOp};
use std::alloc::{AllocError, Global};

/// Makes a word one of the words, and tells its number.
pub fn add_word(word: Word, words: &mut Words) -> Result<u32, Memory>
    ensures number { IfOk result (λ number. number ≡ length words.old) }
    ensures added { OnOk result (words.new ≡ words.old ++ word ∷ []) }
{
    let number = words.len();
    if number < u32::MAX as usize {
        words.push(word)?;
        Ok(number as u32)
    } else {
        Err(AllocError)
    }
}

/// A count that a word can have.
pub fn narrow(count: usize) -> Result<u32, Memory>
    ensures { IfOk result (λ n. n ≡ count) }
{
    match u32::try_from(count) {
        Ok(narrow) => Ok(narrow),
        Err(_) => Err(AllocError),
    }
}

/// The word of an expression in a context of `size` bits.
#[cycle(words)]
pub fn word(
    alloc: Global,
    expr: &Expr,
    size: u32,
    nets: &[NetInfo],
    names: &NameTable,
    from: u32,
    words: &mut Words,
) -> Result<Word, Memory>
    requires room { from + length names.now < 2 ^ 32 }
    requires fit { IsFit nets.now names.now from (expr_tree expr.now) }
    requires small { IsSmall (scope_of nets.now names.now from) (expr_tree expr.now) }
    requires context { sizes.own (scope_of nets.now names.now from) (expr_tree expr.now) ≤ size }
    ensures { IfOk result (λ made.
        Makes nets.now (scope_of nets.now names.now from) (expr_tree expr.now) size
        (trees_of words.old) (trees_of words.new) (tree_of made)) }
{
    expression_trees();
    match expr {
        Expr::Const(value) => constant(alloc, *value, size),
        Expr::Net(name) => name_word(alloc, name, size, nets, names, from),
        Expr::Bit(name, index) => bit_word(alloc, name, *index, size, nets, names, from),
        Expr::Part(name, left, right) => {
            part_word(alloc, name, *left, *right, size, nets, names, from)
        }
        Expr::Concat(parts) => {
            concat_word(alloc, parts.as_slice(), size, nets, names, from, words)
        }
        Expr::Repeat(times, parts) => {
            repeat_word(
                alloc,
                *times,
                parts.as_slice(),
                size,
                nets,
                names,
                from,
                words,
            )
        }
        Expr::Unary(op, a) => unary_word(alloc, *op, a.get(), size, nets, names, from, words),
        Expr::Binary(op, a, b) => {
            let (left, right) = operand_sizes(*op, a.get(), b.get(), size, nets, names, from);
            let one = word(alloc, a.get(), left, nets, names, from, words)?;
            let other = word(alloc, b.get(), right, nets, names, from, words)?;
            binary(alloc, word_op(*op), one, other, size)
        }
        Expr::Cond(c, a, b) => {
            let width = own(c.get(), nets, names, from);
            let condition = word(alloc, c.get(), width, nets, names, from, words)?;
            let one = word(alloc, a.get(), size, nets, names, from, words)?;
            let other = word(alloc, b.get(), size, nets, names, from, words)?;
            choice(alloc, condition, one, other)
        }
    }
}

#[cycle(words)]
fn concat_word(
    alloc: Global,
    parts: &[Expr],
    size: u32,
    nets: &[NetInfo],
    names: &NameTable,
    from: u32,
    words: &mut Words,
) -> Result<Word, Memory>
    requires room { from + length names.now < 2 ^ 32 }
    requires fit { IsFit nets.now names.now from (join_all (map expr_tree parts.now)) }
    requires small { IsSmall (scope_of nets.now names.now from)
        (join_all (map expr_tree parts.now)) }
    requires context { sizes.own (scope_of nets.now names.now from)
        (join_all (map expr_tree parts.now)) ≤ size }
    ensures { IfOk result (λ made.
        Makes nets.now (scope_of nets.now names.now from) (join_all (map expr_tree parts.now)) size
        (trees_of words.old) (trees_of words.new) (tree_of made)) }
{
    let made = part_words(alloc, parts, nets, names, from, words)?;
    extended(alloc, Word::Concat(made), size)
}

/// The words of the parts of a concatenation, each by itself.
#[cycle(words)]
pub fn part_words(
    alloc: Global,
    parts: &[Expr],
    nets: &[NetInfo],
    names: &NameTable,
    from: u32,
    words: &mut Words,
) -> Result<Words, Memory>
    requires room { from + length names.now < 2 ^ 32 }
    requires fit { IsFit nets.now names.now from (join_all (map expr_tree parts.now)) }
    requires small { AllSmall (scope_of nets.now names.now from) (map expr_tree parts.now) }
    ensures { IfOk result (λ made.
        MakesAll nets.now (scope_of nets.now names.now from) (map expr_tree parts.now)
        (trees_of words.old) (trees_of words.new) (trees_of made)) }
{
    let mut made = Words::new(alloc);
    for part in parts {
        let size = own(part, nets, names, from);
        let next = word(alloc, part, size, nets, names, from, words)?;
        made.push(next)?;
    }
    Ok(made)
}

#[cycle(words)]
fn repeat_word(
    alloc: Global,
    times: u32,
    parts: &[Expr],
    size: u32,
    nets: &[NetInfo],
    names: &NameTable,
    from: u32,
    words: &mut Words,
) -> Result<Word, Memory>
    requires room { from + length names.now < 2 ^ 32 }
    requires fit { IsFit nets.now names.now from (join_all (map expr_tree parts.now)) }
    requires small { IsSmall (scope_of nets.now names.now from)
        (tree.repeated times (join_all (map expr_tree parts.now))) }
    requires context { sizes.own (scope_of nets.now names.now from)
        (tree.repeated times (join_all (map expr_tree parts.now))) ≤ size }
    ensures { IfOk result (λ made.
        Makes nets.now (scope_of nets.now names.now from)
        (tree.repeated times (join_all (map expr_tree parts.now))) size
        (trees_of words.old) (trees_of words.new) (tree_of made)) }
{
    if times == 1 {
        return concat_word(alloc, parts, size, nets, names, from, words);
    }
    let width = own_of_all(parts, nets, names, from);
    let once = concat_word(alloc, parts, width, nets, names, from, words)?;
    let number = add_word(once, words)?;
    pick(alloc, number, width, times * width, size)
}

#[cycle(words)]
fn unary_word(
    alloc: Global,
    op: UnOp,
    a: &Expr,
    size: u32,
    nets: &[NetInfo],
    names: &NameTable,
    from: u32,
    words: &mut Words,
) -> Result<Word, Memory>
    requires room { from + length names.now < 2 ^ 32 }
    requires fit { IsFit nets.now names.now from (expr_tree a.now) }
    requires small { IsSmall (scope_of nets.now names.now from) (expr_tree a.now) }
    requires context { sizes.own (scope_of nets.now names.now from)
        (tree.unary op (expr_tree a.now)) ≤ size }
    ensures { IfOk result (λ made.
        Makes nets.now (scope_of nets.now names.now from) (tree.unary op (expr_tree a.now)) size
        (trees_of words.old) (trees_of words.new) (tree_of made)) }
{
    let inner = inner_size(op, a, size, nets, names, from);
    let operand = word(alloc, a, inner, nets, names, from, words)?;
    unary(alloc, op, operand, size)
}
