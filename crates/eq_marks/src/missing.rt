//! The first bit without a driver that is read, or is one of an output.

ghost use Rattle.std.specs.Prelude.{◌≡◌, ◌<◌, ◌^◌, All, IfOk, length};
ghost use Rattle.eq_net.specs.Net.{AreWords, NamesWord, bits_of, design_of};
ghost use Rattle.eq_net.specs.Tree.{trees_of};
ghost use Rattle.eq_verilog.specs.Firsts.{first_below};
ghost use Rattle.eq_marks.specs.declared.marks.Way.TheVariants as way;
ghost use Rattle.eq_marks.specs.inner.Carrying.{rows_mark};
ghost use Rattle.eq_marks.specs.inner.Marks.{mixed_all};
ghost use Rattle.eq_marks.specs.inner.Missing as spec;
ghost use Rattle.eq_marks.specs.inner.Missing.{AreUndriven};
ghost use Rattle.eq_reads.specs.Graph.{bare};
ghost use Rattle.eq_marks.specs.Missing.{is_missed};

use crate::carrying::{MarkRow, carry, net_starts};
use crate::marks::{Way, least};
use crate::taking::{output_flags, read_mark};
use eq_base::Memory;
use eq_net::laws::words_make_a_system;
use eq_net::{Driver, NetInfo, Word};
use std::alloc::Global;

/// The mark of a bit with this driver: its number, where it has none.
fn own_mark(driver: Driver, bit: u32) -> Option<u32>
    ensures { result ≡ spec.own_mark driver bit }
{
    match driver {
        Driver::Input => None,
        Driver::Undriven => Some(bit),
        Driver::Expr { .. } => None,
        Driver::Reg { .. } => None,
    }
}

/// Marks the bits without drivers, each by its own number.
fn undriven_marks(alloc: Global, drivers: &[Driver]) -> Result<Vec<Option<u32>>, Memory>
    requires few { length drivers.now < 2 ^ 32 }
    ensures { IfOk result (λ marks. AreUndriven drivers.now (length drivers.now)
        marks.items) }
{
    let mut marks = Vec::with_capacity(alloc, drivers.len())?;
    for bit in 0..drivers.len() {
        marks.push(own_mark(drivers[bit], bit as u32))?;
    }
    Ok(marks)
}

/// The least bit without driver that a bit is, where it is one of an output, or that its driver reads.
fn missed_at(
    drivers: &[Driver],
    outputs: &[bool],
    marks: &[Option<u32>],
    rows: &[MarkRow],
    bit: usize,
) -> Option<u32>
    requires driver { bit < length drivers.now }
    requires output { bit < length outputs.now }
    requires mark { bit < length marks.now }
    ensures { result ≡ spec.missed_at drivers.now outputs.now marks.now (rows_mark rows.now) bit }
{
    let read = read_mark(drivers[bit], rows);
    if outputs[bit] {
        least(marks[bit], read)
    } else {
        read
    }
}

/// The least of these over all bits.
fn least_missed(
    drivers: &[Driver],
    outputs: &[bool],
    marks: &[Option<u32>],
    rows: &[MarkRow],
) -> Option<u32>
    requires outputs { length outputs.now ≡ length drivers.now }
    requires marks { length marks.now ≡ length drivers.now }
    ensures { result ≡ mixed_all way.Reads (length drivers.now)
        (spec.missed_at drivers.now outputs.now marks.now (rows_mark rows.now)) }
{
    let mut first = None;
    for bit in 0..drivers.len() {
        first = least(first, missed_at(drivers, outputs, marks, rows, bit));
    }
    first
}

/// The number of the first bit without driver that is read or is one of an output. Each word is walked over once.
pub fn first_missed(
    alloc: Global,
    nets: &[NetInfo],
    words: &[Word],
    drivers: &[Driver],
) -> Result<Option<u32>, Memory>
    requires words { AreWords nets.now (trees_of words.now) }
    requires drivers { All (NamesWord (trees_of words.now)) drivers.now }
    requires size { length drivers.now ≡ bits_of nets.now }
    requires few { bits_of nets.now < 2 ^ 32 }
    ensures ok { IfOk result (λ found. found ≡ first_below (bits_of nets.now)
        (is_missed (design_of (bare nets.now (trees_of words.now) drivers.now)))) }
{
    words_make_a_system();
    let starts = net_starts(alloc, nets)?;
    let marks = undriven_marks(alloc, drivers)?;
    let rows = carry(alloc, Way::Reads, words, nets, &starts, &marks)?;
    let outputs = output_flags(alloc, nets)?;
    Ok(least_missed(drivers, &outputs, &marks, &rows))
}
