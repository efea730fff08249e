//! Where the bits of a module's nets begin, as if it stood alone. A module of more than 2 ^ 62 bits is want of memory.

ghost use Rattle.std.specs.Prelude.{◌≡◌, ◌≤◌, ◌<◌, ◌^◌, ◌+◌, ℕ, List, Some, length, slice_get, unwrap_or, IfOk};
ghost use Rattle.eq_model.specs.Nets.{range_width};
ghost use Rattle.eq_verilog.specs.Trees.{ModuleTree, module_tree};
ghost use Rattle.eq_verilog.specs.Nets.{alone, nets_at, offset};
ghost use Rattle.eq_analysis.specs.Placing.{bits_at, IsPlaced, ArePlaces};

use crate::naming::nets_in;
use crate::tables::Table;
use eq_base::Memory;
use eq_names::{Name, NameTable};
use std::alloc::Global;

/// The most that is counted.
const MOST: u64 = 1 << 62;

/// The numbers of the first bits of nets, and how many bits all have.
#[derive(Drop)]
pub struct Starts {
    pub firsts: Vec<u64>,
    pub total: u64,
}

/// The nets of a module, and where they begin.
#[derive(Drop)]
pub struct Places {
    pub names: NameTable,
    pub starts: Starts,
}

/// How many bits a range has.
pub fn bits_of(range: Option<(u32, u32)>) -> u64
    ensures bits { result ≡ range_width range }
    ensures small { result ≤ 2 ^ 32 }
{
    match range {
        Some((left, right)) => u64::from(left.abs_diff(right)) + 1,
        None => 1,
    }
}

/// How many bits the net at a place has.
fn bits_at_place(table: &Table, names: &NameTable, place: u32) -> u64
    requires { place < length names.now }
    ensures { (n : List ℕ) → slice_get names.now place ≡ Some n →
        result ≡ bits_at (module_tree table.now.within.now) n }
{
    match names.name(place) {
        Some(text) => bits_of(table.range_of_text(text)),
        None => 0,
    }
}

/// The sum, if it isn't too large to be counted.
fn sum_of(total: u64, bits: u64) -> Result<u64, Memory>
    requires { total ≤ 2 ^ 62 }
    ensures { IfOk result (λ sum. (sum ≡ total + bits) × (sum ≤ 2 ^ 62)) }
{
    if bits > MOST - total {
        return Err(Memory);
    }
    Ok(total + bits)
}

/// Where nets begin.
fn starts_of(alloc: Global, table: &Table, names: &NameTable) -> Result<Starts, Memory>
    ensures { IfOk result (λ starts. IsPlaced (bits_at (module_tree table.now.within.now))
        names.now (length names.now) starts.firsts.items starts.total) }
{
    let mut firsts = Vec::new(alloc);
    let mut total = 0;
    for place in 0..names.len() {
        firsts.push(total)?;
        total = sum_of(total, bits_at_place(table, names, place))?;
    }
    Ok(Starts { firsts, total })
}

/// Where the nets of a module begin.
pub fn places_of(alloc: Global, table: &Table) -> Result<Places, Memory>
    ensures { IfOk result (λ places. ArePlaces (module_tree table.now.within.now) places) }
{
    let found = nets_in(alloc, table.within)?;
    let starts = starts_of(alloc, table, &found.table)?;
    Ok(Places {
        names: found.table,
        starts,
    })
}

fn number_at(firsts: &[u64], place: u32, otherwise: u64) -> u64
    ensures { result ≡ unwrap_or (slice_get firsts.now place) otherwise }
{
    match firsts.get(place as usize).copied() {
        Some(first) => first,
        None => otherwise,
    }
}

/// The number of the first bit of a net.
pub fn first_bit(places: &Places, name: &Name) -> u64
    ensures { (m : ModuleTree) → ArePlaces m places.now →
        result ≡ offset (nets_at (alone m)) name.now }
{
    match places.names.find(name.bytes()) {
        Some(place) => number_at(&places.starts.firsts, place, places.starts.total),
        None => places.starts.total,
    }
}

/// The number of the bit at a position of a net.
pub fn low_of(places: &Places, name: &Name, position: u32) -> Result<u64, Memory>
    ensures low { IfOk result (λ low. low ≤ 2 ^ 62 + 2 ^ 32) }
    ensures is { IfOk result (λ low. (m : ModuleTree) → ArePlaces m places.now →
        low ≡ offset (nets_at (alone m)) name.now + position) }
{
    let first = first_bit(places, name);
    if first > MOST {
        return Err(Memory);
    }
    Ok(first + u64::from(position))
}
