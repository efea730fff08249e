//! Where the edges of always items come from: the clock, and the first event that is none of its.

ghost use Rattle.std.specs.Prelude.{◌≡◌, ◌<◌, ◌^◌, ◌&&◌, All, IfOk, None, Some, is_none, length, map, replicate};
ghost use Rattle.eq_net.specs.Net.{bits_of, design_of, AreWords, NamesWord};
ghost use Rattle.eq_net.specs.Nets.{net_of};
ghost use Rattle.eq_net.specs.Tree.{trees_of};
ghost use Rattle.eq_verilog.specs.Declarations.{comes_in};
ghost use Rattle.eq_marks.specs.Events as spec;
ghost use Rattle.eq_marks.specs.Events.{first_end, IsThere};
ghost use Rattle.eq_reads.specs.Graph.{bare};
ghost use Rattle.eq_marks.specs.inner.Carrying.{mark_of};
ghost use Rattle.eq_marks.specs.inner.Clocking.{AreWithin};
ghost use Rattle.eq_marks.specs.inner.Events.{clock_end, ends, first_unmarked, IsEventClass};

use crate::carrying::net_starts;
use crate::clocking::{clock_class, copy_at};
use crate::taking::bit_copies;
use eq_base::Memory;
use eq_net::{Dir, Driver, NetInfo, Word};
use std::alloc::Global;

/// Where events lead.
#[derive(Clone, Copy, Debug, PartialEq, Eq)]
pub struct Edges {
    /// The bit to which plain copies lead from the first event.
    pub clock: Option<u32>,
    /// The first event that leads to no clock, or to another one than the first.
    pub astray: Option<u32>,
}

/// Where plain copies lead from a bit: to a bit that is no copy, or nowhere in a ring of copies.
fn end_from(copies: &[Option<u32>], from: u32) -> Option<u32>
    requires within { AreWithin copies.now }
    requires there { from < length copies.now }
    ensures { result ≡ ends copies.now from }
{
    let mut at = from;
    for _ in 0..copies.len() {
        match copy_at(copies, at) {
            Some(next) => at = next,
            None => return Some(at),
        }
    }
    None
}

/// Where plain copies lead from the first event.
fn clock_of(copies: &[Option<u32>], events: &[Option<u32>]) -> Option<u32>
    requires within { AreWithin copies.now }
    requires there { All (IsThere (length copies.now)) events.now }
    ensures { result ≡ clock_end copies.now events.now }
{
    match events.first() {
        Some(Some(event)) => end_from(copies, *event),
        Some(None) => None,
        None => None,
    }
}

/// Whether a net is an input without a range.
fn is_clock_net(net: &NetInfo) -> bool
    ensures { result ≡ (comes_in (net_of net.now).dir && is_none (net_of net.now).range) }
{
    match net.dir {
        Dir::Inner => false,
        Dir::Input => !net.ranged,
        Dir::Output => false,
    }
}

/// Whether a bit is one of an input without a range.
fn may_be_clock(nets: &[NetInfo], bit: u32) -> bool
    ensures { result ≡ spec.may_be_clock (map net_of nets.now) bit }
{
    let mut left = u64::from(bit);
    for net in nets {
        if left < net.width() {
            return is_clock_net(net);
        }
        left -= net.width();
    }
    false
}

/// No bit marked.
fn no_class(alloc: Global, count: usize) -> Result<Vec<Option<u32>>, Memory>
    ensures { IfOk result (λ class. class.items ≡ replicate count None) }
{
    vec![in alloc; None; count]
}

/// Marks the bits from which plain copies lead to the clock, if it may be one.
fn events_class(
    alloc: Global,
    nets: &[NetInfo],
    copies: &[Option<u32>],
    clock: Option<u32>,
) -> Result<Vec<Option<u32>>, Memory>
    requires within { AreWithin copies.now }
    requires few { length copies.now < 2 ^ 32 }
    ensures { IfOk result (λ class. IsEventClass (map net_of nets.now) copies.now clock class.items) }
{
    match clock {
        Some(bit) => {
            if may_be_clock(nets, bit) {
                clock_class(alloc, copies, bit)
            } else {
                no_class(alloc, copies.len())
            }
        }
        None => no_class(alloc, copies.len()),
    }
}

/// The first event whose bit has no mark.
fn first_outside(events: &[Option<u32>], class: &[Option<u32>]) -> Option<u32>
    requires there { All (IsThere (length class.now)) events.now }
    ensures { result ≡ first_unmarked class.now events.now }
{
    for event in events {
        if let Some(bit) = event {
            if class[*bit as usize].is_none() {
                return Some(*bit);
            }
        }
    }
    None
}

/// Where the edges of always items come from, each of which runs at the edge of one of these bits. Plain copies are followed
/// once, whatever the number of events.
pub fn edges_of(
    alloc: Global,
    nets: &[NetInfo],
    words: &[Word],
    drivers: &[Driver],
    events: &[Option<u32>],
) -> Result<Edges, Memory>
    requires words { AreWords nets.now (trees_of words.now) }
    requires drivers { All (NamesWord (trees_of words.now)) drivers.now }
    requires size { length drivers.now ≡ bits_of nets.now }
    requires few { bits_of nets.now < 2 ^ 32 }
    requires there { All (IsThere (bits_of nets.now)) events.now }
    ensures clock { IfOk result (λ edges. edges.clock ≡
        first_end (design_of (bare nets.now (trees_of words.now) drivers.now)) events.now) }
    ensures astray { IfOk result (λ edges. edges.astray ≡ spec.first_astray
        (design_of (bare nets.now (trees_of words.now) drivers.now)) events.now) }
{
    let starts = net_starts(alloc, nets)?;
    let copies = bit_copies(alloc, nets, words, drivers, &starts)?;
    let clock = clock_of(&copies, events);
    let class = events_class(alloc, nets, &copies, clock)?;
    let astray = first_outside(events, &class);
    Ok(Edges { clock, astray })
}
