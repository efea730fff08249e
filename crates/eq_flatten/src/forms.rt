//! The word of each form of an expression, from the words of its operands.

ghost use Rattle.std.specs.Prelude.{◌≡◌, ◌≤◌, ◌<◌, ◌+◌, ◌^◌, IfOk};
ghost use Rattle.eq_net.specs.Numbers.{digit};
ghost use Rattle.eq_net.specs.Tree as tree;
ghost use Rattle.eq_net.specs.Tree.{tree_of, trees_of};
ghost use Rattle.eq_verilog.specs.Expressions as expressions;
ghost use Rattle.eq_verilog.specs.Sizes.{unary_form};
ghost use Rattle.eq_flatten.specs.Forms as spec;

use eq_base::{Bits, Boxed, Memory};
use eq_net::{BitName, BitNames, RedOp, Word, WordBit, WordBits, WordOp};
use eq_vlex::Constant;
use eq_vparse::{BinOp, UnOp};
use std::alloc::Global;

/// A word with zeros above.
pub fn extended(alloc: Global, word: Word, size: u32) -> Result<Word, Memory>
    ensures { IfOk result (λ made. tree_of made ≡ tree.extended (tree_of word) size) }
{
    Ok(Word::Extend(Boxed::new(alloc, word)?, size))
}

fn digits(alloc: Global, constant: Constant) -> Result<Bits, Memory>
    ensures { IfOk result (λ bits. bits ≡ spec.numbered (digit constant.value) constant.size) }
{
    let mut bits = Bits::new(alloc);
    let mut rest = constant.value;
    for _ in 0..constant.size {
        bits.push(rest % 2 == 1)?;
        rest /= 2;
    }
    Ok(bits)
}

pub fn constant(alloc: Global, constant: Constant, size: u32) -> Result<Word, Memory>
    ensures { IfOk result (λ made. tree_of made ≡
        tree.extended (tree.const (spec.numbered (digit constant.value) constant.size)) size) }
{
    let bits = digits(alloc, constant)?;
    extended(alloc, Word::Const(bits), size)
}

/// The bits of a net from a position up.
pub fn net_bits(alloc: Global, net: u32, first: u32, count: u32) -> Result<BitNames, Memory>
    requires room { first + count ≤ 2 ^ 32 }
    ensures { IfOk result (λ names. names ≡ spec.net_bits net first count) }
{
    let mut names = BitNames::new(alloc);
    for bit in 0..count {
        names.push(BitName {
            net,
            bit: first + bit,
        })?;
    }
    Ok(names)
}

pub fn read(alloc: Global, net: u32, first: u32, count: u32, size: u32) -> Result<Word, Memory>
    requires room { first + count ≤ 2 ^ 32 }
    ensures { IfOk result (λ made. tree_of made ≡
        tree.extended (tree.read (spec.net_bits net first count)) size) }
{
    let names = net_bits(alloc, net, first, count)?;
    extended(alloc, Word::Read(names), size)
}

/// The bits of a word of so many bits, again and again.
fn word_bits(alloc: Global, word: u32, width: u32, count: u32) -> Result<WordBits, Memory>
    requires some { 0 < count → 0 < width }
    ensures { IfOk result (λ bits. bits ≡ spec.word_bits word width count) }
{
    let mut bits = WordBits::new(alloc);
    for bit in 0..count {
        bits.push(WordBit {
            word,
            bit: bit % width,
        })?;
    }
    Ok(bits)
}

pub fn pick(alloc: Global, word: u32, width: u32, count: u32, size: u32) -> Result<Word, Memory>
    requires some { 0 < count → 0 < width }
    ensures { IfOk result (λ made. tree_of made ≡
        tree.extended (tree.pick (spec.word_bits word width count)) size) }
{
    let bits = word_bits(alloc, word, width, count)?;
    extended(alloc, Word::Pick(bits), size)
}

fn reduced(alloc: Global, op: RedOp, word: Word, size: u32) -> Result<Word, Memory>
    ensures { IfOk result (λ made. tree_of made ≡
        tree.extended (tree.reduced op (tree_of word)) size) }
{
    let word = Boxed::new(alloc, word)?;
    extended(alloc, Word::Reduce(op, word), size)
}

pub fn unary(alloc: Global, op: UnOp, word: Word, size: u32) -> Result<Word, Memory>
    ensures { IfOk result (λ made. tree_of made ≡
        spec.formed (unary_form op) (tree_of word) size) }
{
    match op {
        UnOp::Not => Ok(Word::Not(Boxed::new(alloc, word)?)),
        UnOp::Neg => Ok(Word::Neg(Boxed::new(alloc, word)?)),
        UnOp::LogNot => reduced(alloc, RedOp::Zero, word, size),
        UnOp::RedAnd => reduced(alloc, RedOp::And, word, size),
        UnOp::RedNand => reduced(alloc, RedOp::Nand, word, size),
        UnOp::RedOr => reduced(alloc, RedOp::Or, word, size),
        UnOp::RedNor => reduced(alloc, RedOp::Nor, word, size),
        UnOp::RedXor => reduced(alloc, RedOp::Xor, word, size),
        UnOp::RedXnor => reduced(alloc, RedOp::Xnor, word, size),
    }
}

/// The operation of words that an operator is.
pub fn word_op(op: BinOp) -> WordOp
    ensures { result ≡ expressions.word_op op }
{
    match op {
        BinOp::Add => WordOp::Add,
        BinOp::Sub => WordOp::Sub,
        BinOp::Shl => WordOp::Shl,
        BinOp::Shr => WordOp::Shr,
        BinOp::Lt => WordOp::Lt,
        BinOp::Le => WordOp::Le,
        BinOp::Gt => WordOp::Gt,
        BinOp::Ge => WordOp::Ge,
        BinOp::Eq => WordOp::Eq,
        BinOp::Ne => WordOp::Ne,
        BinOp::And => WordOp::And,
        BinOp::Xor => WordOp::Xor,
        BinOp::Xnor => WordOp::Xnor,
        BinOp::Or => WordOp::Or,
        BinOp::LogAnd => WordOp::LogAnd,
        BinOp::LogOr => WordOp::LogOr,
    }
}

/// Whether the result has one bit, whatever the operands have.
fn has_one_bit(op: WordOp) -> bool
    ensures { result ≡ spec.has_one_bit op }
{
    match op {
        WordOp::Eq
        | WordOp::Ne
        | WordOp::Lt
        | WordOp::Le
        | WordOp::Gt
        | WordOp::Ge
        | WordOp::LogAnd
        | WordOp::LogOr => true,
        WordOp::And
        | WordOp::Or
        | WordOp::Xor
        | WordOp::Xnor
        | WordOp::Add
        | WordOp::Sub
        | WordOp::Shl
        | WordOp::Shr => false,
    }
}

fn operation(alloc: Global, op: WordOp, left: Word, right: Word) -> Result<Word, Memory>
    ensures { IfOk result (λ made. tree_of made ≡
        tree.binary op (tree_of left) (tree_of right)) }
{
    let left = Boxed::new(alloc, left)?;
    let right = Boxed::new(alloc, right)?;
    Ok(Word::Binary(op, left, right))
}

pub fn binary(alloc: Global, op: WordOp, left: Word, right: Word, size: u32) -> Result<Word, Memory>
    ensures { IfOk result (λ made. tree_of made ≡
        spec.operated op (tree_of left) (tree_of right) size) }
{
    let word = operation(alloc, op, left, right)?;
    if has_one_bit(op) {
        extended(alloc, word, size)
    } else {
        Ok(word)
    }
}

fn choice_of(alloc: Global, condition: Word, one: Boxed<Word>, other: Word) -> Result<Word, Memory>
    ensures { IfOk result (λ made. tree_of made ≡
        tree.choice (tree_of condition) (tree_of one) (tree_of other)) }
{
    let condition = Boxed::new(alloc, condition)?;
    let other = Boxed::new(alloc, other)?;
    Ok(Word::Mux(condition, one, other))
}

pub fn choice(alloc: Global, condition: Word, one: Word, other: Word) -> Result<Word, Memory>
    ensures { IfOk result (λ made. tree_of made ≡
        tree.choice (tree_of condition) (tree_of one) (tree_of other)) }
{
    let one = Boxed::new(alloc, one)?;
    choice_of(alloc, condition, one, other)
}
