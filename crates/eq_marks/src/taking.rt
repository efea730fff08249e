//! Whether a design takes a port as data that is another design's clock.

ghost use Rattle.std.specs.Prelude.{◌≡◌, ◌<◌, ◌^◌, ◌++◌, All, IfOk, OnOk, length, replicate, slice_index_or};
ghost use Rattle.eq_net.specs.Net.{AreWords, NamesWord, bits_of, design_of, name_at, offset};
ghost use Rattle.eq_net.specs.Tree.{trees_of};
ghost use Rattle.eq_verilog.specs.Firsts.{first_below};
ghost use Rattle.eq_marks.specs.Answers.{meaning};
ghost use Rattle.eq_reads.specs.Graph.{bare};
ghost use Rattle.eq_marks.specs.Ports as ports;
ghost use Rattle.eq_marks.specs.Ports.{takes};
ghost use Rattle.eq_marks.specs.inner.Carrying.{BeginAt, rows_mark};
ghost use Rattle.eq_marks.specs.inner.Taking as spec;
ghost use Rattle.eq_marks.specs.inner.Taking.{AreCopies, AreOwn, IsClassOf};

use crate::carrying::{MarkRow, carry, net_starts, picked};
use crate::clocking::clock_class;
use crate::marks::Way;
use eq_base::Memory;
use eq_net::laws::{bits_stand_by_nets, words_make_a_system};
use eq_net::{Dir, Driver, Net, NetInfo, Word, WordBit};
use std::alloc::Global;

/// Each bit's own number as its mark.
fn own_marks(alloc: Global, count: u32) -> Result<Vec<Option<u32>>, Memory>
    ensures { IfOk result (λ marks. AreOwn count marks.items) }
{
    let mut marks = Vec::with_capacity(alloc, count as usize)?;
    for bit in 0..count {
        marks.push(Some(bit))?;
    }
    Ok(marks)
}

/// The mark of the bit of a word that drives a bit within the cycle.
fn driven_mark(driver: Driver, rows: &[MarkRow]) -> Option<u32>
    ensures { result ≡ spec.driven_mark (rows_mark rows.now) driver }
{
    match driver {
        Driver::Input => None,
        Driver::Undriven => None,
        Driver::Expr { word, bit } => picked(WordBit { word, bit }, rows),
        Driver::Reg { .. } => None,
    }
}

/// The mark of the bit of a word that drives a bit, within the cycle or at its end.
pub fn read_mark(driver: Driver, rows: &[MarkRow]) -> Option<u32>
    ensures { result ≡ spec.read_mark (rows_mark rows.now) driver }
{
    match driver {
        Driver::Input => None,
        Driver::Undriven => None,
        Driver::Expr { word, bit } => picked(WordBit { word, bit }, rows),
        Driver::Reg { word, bit, .. } => picked(WordBit { word, bit }, rows),
    }
}

/// The bit of which each bit is a plain copy.
pub fn bit_copies(
    alloc: Global,
    nets: &[NetInfo],
    words: &[Word],
    drivers: &[Driver],
    starts: &[u32],
) -> Result<Vec<Option<u32>>, Memory>
    requires words { AreWords nets.now (trees_of words.now) }
    requires drivers { All (NamesWord (trees_of words.now)) drivers.now }
    requires size { length drivers.now ≡ bits_of nets.now }
    requires few { bits_of nets.now < 2 ^ 32 }
    requires starts { BeginAt nets.now starts.now }
    ensures { IfOk result (λ copies.
        AreCopies (bare nets.now (trees_of words.now) drivers.now) copies.items) }
{
    bits_stand_by_nets();
    let count = drivers.len() as u32;
    let own = own_marks(alloc, count)?;
    let rows = carry(alloc, Way::Copies, words, nets, starts, &own)?;
    let mut copies = Vec::with_capacity(alloc, drivers.len())?;
    for driver in drivers {
        copies.push(driven_mark(*driver, &rows))?;
    }
    Ok(copies)
}

/// Marks the bits from which plain copies lead to a bit.
fn class_of(
    alloc: Global,
    nets: &[NetInfo],
    words: &[Word],
    drivers: &[Driver],
    starts: &[u32],
    clock: u32,
) -> Result<Vec<Option<u32>>, Memory>
    requires words { AreWords nets.now (trees_of words.now) }
    requires drivers { All (NamesWord (trees_of words.now)) drivers.now }
    requires size { length drivers.now ≡ bits_of nets.now }
    requires few { bits_of nets.now < 2 ^ 32 }
    requires starts { BeginAt nets.now starts.now }
    ensures { IfOk result (λ class.
        IsClassOf (bare nets.now (trees_of words.now) drivers.now) clock class.items) }
{
    let copies = bit_copies(alloc, nets, words, drivers, starts)?;
    clock_class(alloc, &copies, clock)
}

fn is_output(dir: Dir) -> bool
    ensures { result ≡ spec.is_output_net dir }
{
    match dir {
        Dir::Inner => false,
        Dir::Input => false,
        Dir::Output => true,
    }
}

/// Puts a flag at the end, so many times.
fn push_flags(flag: bool, count: usize, flags: &mut Vec<bool>) -> Result<(), Memory>
    ensures { OnOk result (flags.new.items ≡ flags.old.items ++ replicate count flag) }
{
    for _ in 0..count {
        flags.push(flag)?;
    }
    Ok(())
}

/// Of each bit whether it is one of an output.
pub fn output_flags(alloc: Global, nets: &[NetInfo]) -> Result<Vec<bool>, Memory>
    ensures { IfOk result (λ flags. flags.items ≡ spec.output_flags nets.now) }
{
    let mut flags = Vec::new(alloc);
    for net in nets {
        push_flags(is_output(net.dir), net.width() as usize, &mut flags)?;
    }
    Ok(flags)
}

/// Whether a bit takes the clock as data, whose class has the marks `class`.
fn takes_at(
    drivers: &[Driver],
    outputs: &[bool],
    class: &[Option<u32>],
    rows: &[MarkRow],
    bit: usize,
) -> bool
    requires driver { bit < length drivers.now }
    requires output { bit < length outputs.now }
    requires mark { bit < length class.now }
    ensures { result ≡ spec.takes_at drivers.now outputs.now class.now (rows_mark rows.now) bit }
{
    if class[bit].is_some() {
        outputs[bit]
    } else {
        read_mark(drivers[bit], rows).is_some()
    }
}

/// The first bit that takes the clock as data.
fn first_of_takers(
    drivers: &[Driver],
    outputs: &[bool],
    class: &[Option<u32>],
    rows: &[MarkRow],
) -> Option<u32>
    requires few { length drivers.now < 2 ^ 32 }
    requires outputs { length outputs.now ≡ length drivers.now }
    requires marks { length class.now ≡ length drivers.now }
    ensures { result ≡ first_below (length drivers.now)
        (spec.takes_at drivers.now outputs.now class.now (rows_mark rows.now)) }
{
    let mut first = None;
    for bit in 0..drivers.len() {
        let takes = takes_at(drivers, outputs, class, rows, bit);
        first = first.or(if takes { Some(bit as u32) } else { None });
    }
    first
}

/// The first bit that takes as data the clock of which `class` is the class.
fn first_of_class(
    alloc: Global,
    nets: &[NetInfo],
    words: &[Word],
    drivers: &[Driver],
    starts: &[u32],
    class: &[Option<u32>],
    clock: u32,
) -> Result<Option<u32>, Memory>
    requires words { AreWords nets.now (trees_of words.now) }
    requires drivers { All (NamesWord (trees_of words.now)) drivers.now }
    requires size { length drivers.now ≡ bits_of nets.now }
    requires few { bits_of nets.now < 2 ^ 32 }
    requires starts { BeginAt nets.now starts.now }
    requires class { IsClassOf (bare nets.now (trees_of words.now) drivers.now) clock
        class.now }
    ensures { IfOk result (λ found. found ≡ first_below (bits_of nets.now) (takes
        (design_of (bare nets.now (trees_of words.now) drivers.now)) clock)) }
{
    words_make_a_system();
    let rows = carry(alloc, Way::Reads, words, nets, starts, class)?;
    let outputs = output_flags(alloc, nets)?;
    Ok(first_of_takers(drivers, &outputs, class, &rows))
}

/// The first bit that takes a bit as data, as if that were a clock. Each word is walked over twice, and each bit.
pub fn first_taking(
    alloc: Global,
    nets: &[NetInfo],
    words: &[Word],
    drivers: &[Driver],
    clock: u32,
) -> Result<Option<u32>, Memory>
    requires words { AreWords nets.now (trees_of words.now) }
    requires drivers { All (NamesWord (trees_of words.now)) drivers.now }
    requires size { length drivers.now ≡ bits_of nets.now }
    requires few { bits_of nets.now < 2 ^ 32 }
    ensures ok { IfOk result (λ found. found ≡ first_below (bits_of nets.now) (takes
        (design_of (bare nets.now (trees_of words.now) drivers.now)) clock)) }
{
    let starts = net_starts(alloc, nets)?;
    let class = class_of(alloc, nets, words, drivers, &starts, clock)?;
    first_of_class(alloc, nets, words, drivers, &starts, &class, clock)
}

/// The number of a net's first bit.
fn start_of(starts: &[u32], net: u32) -> u32
    requires { net < length starts.now }
    ensures { result ≡ slice_index_or starts.now net 0 }
{
    starts[net as usize]
}

/// Whether some bit takes a net's first bit as data, as if it were a clock.
pub fn takes_port(alloc: Global, net: &Net, clock: u32) -> Result<bool, Memory>
    requires there { clock < length net.now.nets }
    ensures { IfOk result (λ taken. taken ≡
        ports.takes_port (meaning net.now) (name_at net.now.nets clock)) }
{
    let nets = net.nets.as_slice();
    let starts = net_starts(alloc, nets)?;
    let bit = start_of(&starts, clock);
    let found = first_taking(
        alloc,
        nets,
        net.words.as_slice(),
        net.drivers.as_slice(),
        bit,
    )?;
    Ok(found.is_some())
}
