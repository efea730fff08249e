//! The bits that the sweep has left, computed one by one as cells, and with them the bits of all words.

ghost use Rattle.std.specs.Prelude.{◌≡◌, ℕ, ◌<◌, IfOk, IfSome, OnOk, length, map, slice_index_or};
ghost use Rattle.eq_model.specs.Frames.{values};
ghost use Rattle.eq_model.specs.System.{Cycle, IsHeld, nothing};
ghost use Rattle.eq_net.specs.Net.{bits_of, driver_at, number_of, system_of};
ghost use Rattle.eq_net.specs.Tree.{trees_of};
ghost use Rattle.eq_net.specs.Whole.{parts_of};
ghost use Rattle.eq_net.specs.inner.Circuits.{IsSwept, cells_of, link_of};
ghost use Rattle.eq_net.specs.inner.Sized.{AreStarts, HasWords};

use super::circuit::all_cells;
use super::gates::{ONE, ZERO};
use super::walk::cell_values;
use super::words::{constant, picked_number};
use crate::net::Net;
use crate::readiness::is_marked;
use crate::types::{Driver, NetNumbers, WordBit};
use eq_base::{Bits, Memory};
use std::alloc::Global;

/// The number of the cell that gives a bit its value, which is `value` where the bit is marked or given.
fn link(driver: Driver, marked: bool, value: bool, rows: &[NetNumbers]) -> u32
    ensures { result ≡ link_of driver marked value rows.now }
{
    if marked {
        return constant(value);
    }
    match driver {
        Driver::Input => constant(value),
        Driver::Undriven => ZERO,
        Driver::Expr { word, bit } => picked_number(WordBit { word, bit }, rows),
        Driver::Reg { .. } => constant(value),
    }
}

/// The same for all bits.
fn links(
    alloc: Global,
    net: &Net,
    rows: &[NetNumbers],
    now: &[bool],
    done: &[bool],
) -> Result<Vec<u32>, Memory>
    requires { length now.now ≡ bits_of net.now.nets }
    ensures size { IfOk result (λ links. length links.items ≡ bits_of net.now.nets) }
    ensures each { IfOk result (λ links. (b : ℕ) → b < bits_of net.now.nets →
        slice_index_or links.items b 0 ≡ link_of (driver_at (parts_of net.now) b)
        (values done.now b) (values now.now b) rows.now) }
{
    let mut links = Vec::with_capacity(alloc, now.len())?;
    for (b, driver) in net.drivers.as_slice().iter().enumerate() {
        links.push(link(*driver, is_marked(done, b), now[b], rows))?;
    }
    Ok(links)
}

/// The value of a constant or a cell, by its number.
fn cell_value(number: u32, bits: &[bool]) -> bool
    ensures { result ≡ cells_of bits.now number }
{
    if number == ZERO {
        return false;
    }
    if number == ONE {
        return true;
    }
    is_marked(bits, (number - 2) as usize)
}

/// Gives each bit the value of the cell that it is linked to.
fn put_values(links: &[u32], bits: &[bool], now: &mut [bool])
    requires { length links.now ≡ length now.old }
    ensures { (b : ℕ) → b < length now.old → values now.new b ≡
        cells_of bits.now (slice_index_or links.now b 0) }
{
    for b in 0..now.len() {
        now[b] = cell_value(links[b], bits);
    }
}

/// The values of the cells of a word's bits.
fn read_row(alloc: Global, row: &NetNumbers, bits: &[bool]) -> Result<Bits, Memory>
    ensures { IfOk result (λ read. read ≡ map (cells_of bits.now) row.now) }
{
    let mut read = Bits::new(alloc);
    for number in row.as_slice() {
        read.push(cell_value(*number, bits))?;
    }
    Ok(read)
}

/// The same of all words.
fn read_rows(alloc: Global, rows: &[NetNumbers], bits: &[bool]) -> Result<Vec<Bits>, Memory>
    ensures { IfOk result (λ all. all.items ≡ map (map (cells_of bits.now)) rows.now) }
{
    let mut all = Vec::with_capacity(alloc, rows.len())?;
    for row in rows {
        let read = read_row(alloc, row, bits)?;
        all.push(read)?;
    }
    Ok(all)
}

/// Gives all bits their values in the cycle, and answers the bits of all words, where `now` has the values of marked bits and
/// `words` the bits of marked words. Each word that isn't marked is computed as cells, each behind those that it needs.
///
/// There is no answer where the walk through the cells doesn't reach all of them, and then `now` is as it was.
pub fn complete(
    alloc: Global,
    net: &Net,
    starts: &[u32],
    words: &[Bits],
    whole: &[bool],
    done: &[bool],
    now: &mut [bool],
) -> Result<Option<Vec<Bits>>, Memory>
    requires starts { AreStarts net.now.nets starts.now }
    requires bits { length now.old ≡ bits_of net.now.nets }
    requires marks { length done.now ≡ bits_of net.now.nets }
    requires swept { IsSwept (parts_of net.now) now.old done.now words.now whole.now }
    ensures held { OnOk result ((b : ℕ) → b < bits_of net.now.nets →
        IsHeld ((system_of (parts_of net.now)).driver b) → values now.new b ≡ values now.old b) }
    ensures cycle { IfOk result (λ found. IfSome found (λ words.
        Cycle (system_of (parts_of net.now)) nothing (values now.old) (values now.new))) }
    ensures words { IfOk result (λ found. IfSome found (λ words.
        HasWords (values now.new) (number_of net.now.nets) (trees_of net.now.words)
        (length net.now.words) words.items)) }
{
    let circuit = all_cells(alloc, net, starts, words, whole)?;
    let links = links(alloc, net, &circuit.rows, now, done)?;
    let found = cell_values(alloc, &links, &circuit.cells)?;
    match found {
        Some(bits) => {
            let all = read_rows(alloc, &circuit.rows, &bits)?;
            put_values(&links, &bits, now);
            Ok(Some(all))
        }
        None => Ok(None),
    }
}
