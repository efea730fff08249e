//! The tables of a plan: bits by their numbers, the pair of each bit, and the partition of each pair.

ghost use Rattle.std.specs.Prelude.{◌≡◌, ℕ, ◌<◌, ◌^◌, All, IfOk, None, length, map, replicate};
ghost use Rattle.eq_net.specs.Net.{HasBit, bits_of, number_of};
ghost use Rattle.eq_match.specs.Classes.{Together};
ghost use Rattle.eq_match.specs.Divided.{AreDivided};
ghost use Rattle.eq_match.specs.Groups.{is_held};
ghost use Rattle.eq_part.specs.Tables.{AreInverse, AreOwners};
ghost use Rattle.eq_reads.specs.Words.{BeginAt, number_at};
ghost use Rattle.eq_part.specs.inner.Tabling.{AreOnceBelow, AreOwned, AreOwnedBy, HoldOnce};

use crate::plan::{BitNumbers, PairedBits, Places};
use crate::types::Partition;
use eq_base::{Items, Memory};
use eq_match::Pair;
use eq_names::BitName;
use eq_net::laws::bits_stand_by_nets;
use eq_net::{Net, NetInfo};
use eq_reads::{named, starts};
use std::alloc::Global;

/// The bits of gold, pair by pair.
pub fn gold_names(alloc: Global, pairs: &[Pair]) -> Result<Items<BitName>, Memory>
    ensures { IfOk result (λ names. names ≡ map (λ p. p.gold) pairs.now) }
{
    let mut names = Items::new(alloc);
    for pair in pairs {
        names.push(pair.gold)?;
    }
    Ok(names)
}

/// The bits of gate, pair by pair.
pub fn gate_names(alloc: Global, pairs: &[Pair]) -> Result<Items<BitName>, Memory>
    ensures { IfOk result (λ names. names ≡ map (λ p. p.gate) pairs.now) }
{
    let mut names = Items::new(alloc);
    for pair in pairs {
        names.push(pair.gate)?;
    }
    Ok(names)
}

/// The number of a named bit.
fn number(name: BitName, nets: &[NetInfo], starts: &[usize]) -> u32
    requires named { HasBit nets.now name }
    requires starts { BeginAt nets.now starts.now }
    requires few { bits_of nets.now < 2 ^ 32 }
    ensures { result ≡ number_of nets.now name }
{
    bits_stand_by_nets();
    named(name, nets, starts) as u32
}

/// The numbers of named bits, where the list says where each net's bits begin.
fn numbers_by(
    alloc: Global,
    nets: &[NetInfo],
    starts: &[usize],
    names: &[BitName],
) -> Result<BitNumbers, Memory>
    requires names { All (HasBit nets.now) names.now }
    requires starts { BeginAt nets.now starts.now }
    requires few { bits_of nets.now < 2 ^ 32 }
    ensures { IfOk result (λ numbers. numbers ≡ map (number_of nets.now) names.now) }
{
    let mut numbers = BitNumbers::new(alloc);
    for name in names {
        numbers.push(number(*name, nets, starts))?;
    }
    Ok(numbers)
}

/// The numbers of named bits.
pub fn numbers(alloc: Global, net: &Net, names: &[BitName]) -> Result<BitNumbers, Memory>
    requires { All (HasBit net.now.nets) names.now }
    ensures { IfOk result (λ numbers. numbers ≡ map (number_of net.now.nets) names.now) }
{
    let nets = net.nets.as_slice();
    let starts = starts(alloc, nets)?;
    numbers_by(alloc, nets, &starts, names)
}

/// A table of this size without entries.
fn no_places(alloc: Global, size: usize) -> Result<Vec<Option<u32>>, Memory>
    ensures { IfOk result (λ table. table.items ≡ replicate size None) }
{
    vec![in alloc; None; size]
}

/// Writes the place of each number into an empty table.
fn write_places(table: &mut [Option<u32>], bits: &[u32])
    requires bits { AreOnceBelow (length table.old) bits.now }
    requires few { length bits.now < 2 ^ 32 }
    requires empty { table.old ≡ replicate (length table.old) None }
    ensures count { length table.new ≡ length table.old }
    ensures inverse { AreInverse bits.now table.new }
{
    for i in 0..bits.len() {
        table[bits[i] as usize] = Some(i as u32);
    }
}

/// Of each bit its pair, where the pairs have bits of these numbers.
fn pairs_of(alloc: Global, bits: &[u32], count: usize) -> Result<Places, Memory>
    requires bits { AreOnceBelow count bits.now }
    requires few { length bits.now < 2 ^ 32 }
    ensures count { IfOk result (λ places. length places ≡ count) }
    ensures inverse { IfOk result (λ places. AreInverse bits.now places) }
{
    let mut table = no_places(alloc, count)?;
    write_places(&mut table, bits);
    Ok(Places::from_vec(table))
}

/// The paired bits of a side that has `count` bits.
pub fn paired_bits(alloc: Global, bits: BitNumbers, count: usize) -> Result<PairedBits, Memory>
    requires bits { AreOnceBelow count bits }
    requires few { length bits < 2 ^ 32 }
    ensures { IfOk result (λ t. (t.bits ≡ bits) × (length t.pairs ≡ count)) }
{
    let pairs = pairs_of(alloc, bits.as_slice(), count)?;
    Ok(PairedBits { bits, pairs })
}

/// Writes a partition's place at each of its outputs.
fn own(table: &mut [Option<u32>], outputs: &[u32], part: u32)
    requires { (k : ℕ) → k < length outputs.now → number_at outputs.now k < length table.old }
    ensures { AreOwnedBy part outputs.now (length outputs.now) table.old table.new }
{
    for k in 0..outputs.len() {
        table[outputs[k] as usize] = Some(part);
    }
}

/// Writes the places of all partitions into an empty table.
fn own_all(table: &mut [Option<u32>], parts: &[Partition])
    requires parts { HoldOnce (length table.old) parts.now }
    requires few { length parts.now < 2 ^ 32 }
    requires empty { table.old ≡ replicate (length table.old) None }
    ensures { AreOwned parts.now (length table.old) (length parts.now) table.new }
{
    for q in 0..parts.len() {
        own(table, parts[q].outputs.as_slice(), q as u32);
    }
}

/// Of each pair its owner, into an empty table.
fn own_pairs(table: &mut [Option<u32>], pairs: &[Pair], parts: &[Partition])
    requires divided { (together : Together) × AreDivided (length pairs.now) (is_held pairs.now) together
        (map (λ p. p.outputs) parts.now) }
    requires few { length parts.now < 2 ^ 32 }
    requires empty { table.old ≡ replicate (length pairs.now) None }
    ensures { AreOwners pairs.now parts.now table.new }
{
    own_all(table, parts);
}

/// Of each pair the partition that holds it, none for inputs.
pub fn owners(alloc: Global, pairs: &[Pair], parts: &[Partition]) -> Result<Places, Memory>
    requires divided { (together : Together) × AreDivided (length pairs.now) (is_held pairs.now) together
        (map (λ p. p.outputs) parts.now) }
    requires few { length parts.now < 2 ^ 32 }
    ensures { IfOk result (AreOwners pairs.now parts.now) }
{
    let mut table = no_places(alloc, pairs.len())?;
    own_pairs(&mut table, pairs, parts);
    Ok(Places::from_vec(table))
}
