//! The next values that an always item gives, from the bits themselves.

ghost use Rattle.std.specs.Prelude.{◌≡◌, ◌+◌, ◌++◌, ◌∷◌, [], ◌<◌, ◌^◌, IfOk, OnOk, length};
ghost use Rattle.eq_net.specs.Net.{AreWords, bits_of};
ghost use Rattle.eq_net.specs.Tree as tree;
ghost use Rattle.eq_net.specs.Tree.{tree_of, trees_of};
ghost use Rattle.eq_verilog.specs.Trees.{stmt_tree};
ghost use Rattle.eq_analysis.specs.Finding.{scope_of};
ghost use Rattle.eq_flatten.specs.Equating.{AreStarts};
ghost use Rattle.eq_registers.specs.Following.{HasNext};
ghost use Rattle.eq_registers.specs.Running.{IsStmtReady};
ghost use Rattle.eq_registers.specs.inner.Choosing.{IsWhole};

use crate::choosing::whole;
use crate::collecting::collect;
use crate::keys::Keys;
use crate::running::run_stmt;
use crate::setting::narrow;
use eq_base::Memory;
use eq_flatten::add_word;
use eq_names::NameTable;
use eq_net::{BitName, BitNames, NetInfo, Word, WordBits, Words};
use eq_vparse::Stmt;
use std::alloc::Global;

/// The bits that an always item sets, and the bit of a word that is the next value of each.
#[derive(Drop)]
pub struct Next {
    pub keys: Keys,
    pub table: WordBits,
}

/// The word that reads bits.
fn read(alloc: Global, names: &[BitName]) -> Result<Word, Memory>
    ensures { IfOk result (λ made. tree_of made ≡ tree.read names.now) }
{
    let names = BitNames::from_slice(alloc, names)?;
    Ok(Word::Read(names))
}

/// The bits of a word that reads bits, which becomes one of the words.
fn read_all(alloc: Global, names: &[BitName], words: &mut Words) -> Result<WordBits, Memory>
    ensures words { OnOk result (trees_of words.new ≡
        trees_of words.old ++ tree.read names.now ∷ []) }
    ensures bits { IfOk result (λ bits.
        IsWhole (length (trees_of words.old)) bits (length names.now)) }
{
    let count = narrow(names.len())?;
    let made = read(alloc, names)?;
    let number = add_word(made, words)?;
    let bits = whole(alloc, number, count)?;
    Ok(bits)
}

/// The next values of the bits that the body of an always item sets.
pub fn next_values(
    alloc: Global,
    body: &Stmt,
    nets: &[NetInfo],
    names: &NameTable,
    from: u32,
    starts: &[u32],
    words: &mut Words,
) -> Result<Next, Memory>
    requires room { from + length names.now < 2 ^ 32 }
    requires ready { IsStmtReady nets.now names.now from (stmt_tree body.now) }
    requires starts { AreStarts nets.now starts.now }
    requires few { bits_of nets.now < 2 ^ 32 }
    requires words { AreWords nets.now (trees_of words.old) }
    ensures { IfOk result (λ next. HasNext nets.now (scope_of nets.now names.now from)
        (stmt_tree body.now) (trees_of words.old) (trees_of words.new) next) }
{
    let keys = collect(alloc, body, nets, names, from, starts)?;
    let mut table = read_all(alloc, keys.names.as_slice(), words)?;
    run_stmt(
        alloc, body, nets, names, from, starts, &keys, &mut table, words,
    )?;
    Ok(Next { keys, table })
}
