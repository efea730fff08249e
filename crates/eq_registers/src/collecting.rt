//! The bits that a statement sets, each once.

ghost use Rattle.std.specs.Prelude.{◌≡◌, ◌+◌, ◌++◌, ◌∷◌, [], ◌<◌, ◌^◌, nat_eq, cond, ℕ, List, Option, All, IfOk, OnOk, None, Some, is_some, length, map};
ghost use Rattle.eq_net.specs.declared.types.NetInfo.{NetInfo};
ghost use Rattle.eq_net.specs.Net.{HasBit, bits_of, number_of};
ghost use Rattle.eq_verilog.specs.Expressions.{wire};
ghost use Rattle.eq_verilog.specs.Registers.{sets};
ghost use Rattle.eq_verilog.specs.Sizes as sizes;
ghost use Rattle.eq_verilog.specs.Trees.{in_sequence, stmt_tree, target_tree};
ghost use Rattle.eq_analysis.specs.Finding.{scope_of};
ghost use Rattle.eq_flatten.specs.Equating.{AreNumbered, AreStarts};
ghost use Rattle.eq_flatten.specs.Items.{IsTarget};
ghost use Rattle.eq_registers.specs.Collecting.{IsCollected, IsKeyed};
ghost use Rattle.eq_registers.specs.Running.{IsStmtReady, place_at};
ghost use Rattle.eq_registers.specs.inner.Adding.{AreInRow, IsAdded, just, stands};

use crate::keys::Keys;
use crate::running::{with_else, without_else};
use crate::setting::narrow;
use eq_base::{Items, Memory};
use eq_flatten::{add_target, number_in};
use eq_names::NameTable;
use eq_net::{BitName, BitNames, NetInfo};
use eq_verilog::laws::statement_trees;
use eq_vparse::{Stmt, Target};
use std::alloc::Global;
use std::collections::HashMap;

fn no_keys(alloc: Global) -> Keys
    ensures bits { result.bits ≡ [] }
    ensures names { result.names ≡ [] }
    ensures places { (b : ℕ) → place_at result.places b ≡ None }
{
    Keys {
        bits: Items::new(alloc),
        names: BitNames::new(alloc),
        places: HashMap::new(alloc),
    }
}

fn has_key(keys: &Keys, bit: u32) -> bool
    ensures { result ≡ is_some (place_at keys.now.places bit) }
{
    keys.places.contains_key(&bit)
}

fn put_place(places: &mut HashMap<u32, u32>, bit: u32, place: u32) -> Result<(), Memory>
    ensures { OnOk result ((b : ℕ) →
        place_at places.new b ≡ cond (nat_eq bit b) (Some place) (place_at places.old b)) }
{
    places.insert(bit, place)?;
    Ok(())
}

/// One bit more.
fn add_new(keys: &mut Keys, name: BitName, bit: u32) -> Result<(), Memory>
    ensures bits { OnOk result (keys.new.bits ≡ keys.old.bits ++ bit ∷ []) }
    ensures names { OnOk result (keys.new.names ≡ keys.old.names ++ name ∷ []) }
    ensures places { OnOk result ((b : ℕ) → place_at keys.new.places b ≡
        cond (nat_eq bit b) (Some (length keys.old.bits)) (place_at keys.old.places b)) }
{
    let place = narrow(keys.bits.len())?;
    put_place(&mut keys.places, bit, place)?;
    keys.names.push(name)?;
    keys.bits.push(bit)?;
    Ok(())
}

/// A bit, if it isn't there.
fn add_key(keys: &mut Keys, name: BitName, bit: u32) -> Result<(), Memory>
    ensures { OnOk result ((nets : List NetInfo) → HasBit nets name → bit ≡ number_of nets name →
        IsKeyed nets keys.old → IsAdded nets keys.old keys.new (just bit)) }
{
    if has_key(keys, bit) {
        Ok(())
    } else {
        add_new(keys, name, bit)?;
        Ok(())
    }
}

/// Bits, each if it isn't there.
fn add_bits(bits: &[BitName], starts: &[u32], keys: &mut Keys) -> Result<(), Memory>
    requires { AreInRow starts.now bits.now }
    ensures { OnOk result ((nets : List NetInfo) (f : ℕ → Option ℕ) → IsKeyed nets keys.old →
        All (HasBit nets) bits.now → AreStarts nets starts.now → AreNumbered nets bits.now f →
        IsAdded nets keys.old keys.new (stands f (length bits.now))) }
{
    for at in 0..bits.len() {
        let name = bits[at];
        let bit = number_in(starts, name);
        add_key(keys, name, bit)?;
    }
    Ok(())
}

/// The bits of a target.
fn add_set(
    alloc: Global,
    target: &Target,
    nets: &[NetInfo],
    names: &NameTable,
    from: u32,
    starts: &[u32],
    keys: &mut Keys,
) -> Result<(), Memory>
    requires room { from + length names.now < 2 ^ 32 }
    requires target { IsTarget nets.now names.now from (target_tree target.now) }
    requires starts { AreStarts nets.now starts.now }
    requires few { bits_of nets.now < 2 ^ 32 }
    requires keyed { IsKeyed nets.now keys.old }
    ensures { OnOk result (IsAdded nets.now keys.old keys.new
        (stands (wire (scope_of nets.now names.now from) (target_tree target.now))
        (sizes.own (scope_of nets.now names.now from) (target_tree target.now)))) }
{
    let mut bits = BitNames::new(alloc);
    add_target(alloc, &mut bits, target, nets, names, from)?;
    add_bits(bits.as_slice(), starts, keys)?;
    Ok(())
}

/// The bits that a statement sets.
#[cycle(collecting)]
fn add_stmt(
    alloc: Global,
    stmt: &Stmt,
    nets: &[NetInfo],
    names: &NameTable,
    from: u32,
    starts: &[u32],
    keys: &mut Keys,
) -> Result<(), Memory>
    requires room { from + length names.now < 2 ^ 32 }
    requires ready { IsStmtReady nets.now names.now from (stmt_tree stmt.now) }
    requires starts { AreStarts nets.now starts.now }
    requires few { bits_of nets.now < 2 ^ 32 }
    requires keyed { IsKeyed nets.now keys.old }
    ensures { OnOk result (IsAdded nets.now keys.old keys.new
        (sets (scope_of nets.now names.now from) (stmt_tree stmt.now))) }
{
    statement_trees();
    match stmt {
        Stmt::Empty => Ok(()),
        Stmt::Set(target, _) => {
            add_set(alloc, target, nets, names, from, starts, keys)?;
            Ok(())
        }
        Stmt::Block(all) => {
            add_all(alloc, all.as_slice(), nets, names, from, starts, keys)?;
            Ok(())
        }
        Stmt::If(condition, a, None) => {
            let inner = a.get();
            without_else(stmt, condition, inner);
            add_stmt(alloc, inner, nets, names, from, starts, keys)?;
            Ok(())
        }
        Stmt::If(condition, a, Some(b)) => {
            let first = a.get();
            let second = b.get();
            with_else(stmt, condition, first, second);
            add_stmt(alloc, first, nets, names, from, starts, keys)?;
            add_stmt(alloc, second, nets, names, from, starts, keys)?;
            Ok(())
        }
    }
}

/// The bits that statements in a row set.
#[cycle(collecting)]
fn add_all(
    alloc: Global,
    all: &[Stmt],
    nets: &[NetInfo],
    names: &NameTable,
    from: u32,
    starts: &[u32],
    keys: &mut Keys,
) -> Result<(), Memory>
    requires room { from + length names.now < 2 ^ 32 }
    requires ready { IsStmtReady nets.now names.now from (in_sequence (map stmt_tree all.now)) }
    requires starts { AreStarts nets.now starts.now }
    requires few { bits_of nets.now < 2 ^ 32 }
    requires keyed { IsKeyed nets.now keys.old }
    ensures { OnOk result (IsAdded nets.now keys.old keys.new
        (sets (scope_of nets.now names.now from) (in_sequence (map stmt_tree all.now)))) }
{
    for stmt in all {
        add_stmt(alloc, stmt, nets, names, from, starts, keys)?;
    }
    Ok(())
}

/// Exactly the bits that a statement sets.
pub fn collect(
    alloc: Global,
    stmt: &Stmt,
    nets: &[NetInfo],
    names: &NameTable,
    from: u32,
    starts: &[u32],
) -> Result<Keys, Memory>
    requires room { from + length names.now < 2 ^ 32 }
    requires ready { IsStmtReady nets.now names.now from (stmt_tree stmt.now) }
    requires starts { AreStarts nets.now starts.now }
    requires few { bits_of nets.now < 2 ^ 32 }
    ensures { IfOk result (λ keys. IsCollected nets.now (scope_of nets.now names.now from)
        (stmt_tree stmt.now) keys) }
{
    let mut keys = no_keys(alloc);
    add_stmt(alloc, stmt, nets, names, from, starts, &mut keys)?;
    Ok(keys)
}
