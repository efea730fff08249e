//! What matching asks of a netlist: the numbers of its names, and which nets it sees.

ghost use Rattle.std.specs.Prelude.{◌≡◌, ◌≢◌, ◌+◌, ◌-◌, ◌^◌, ◌<◌, ◌≤◌, ◌↔◌, AllPairs, IfOk, IsTrue, false, length, map, slice_index_or};
ghost use Rattle.eq_net.specs.Net.{bits_of, net_at};
ghost use Rattle.eq_net.specs.Nets.{width_of};
ghost use Rattle.eq_net.specs.Whole.{parts_of};
ghost use Rattle.eq_net.specs.declared.types.Driver.TheVariants.{Undriven};
ghost use Rattle.eq_match.specs.inner.Indexing.{AreDriven, IsIndex, IsSeenAt, TellsTo, part_of};

use eq_base::Memory;
use eq_names::NameTable;
use eq_net::laws::bits_stand_by_nets;
use eq_net::{Dir, Driver, Net, NetInfo};
use std::alloc::Global;

#[derive(Drop)]
pub struct Index {
    /// A name's number is that of its net.
    pub names: NameTable,
    /// For each net, whether the lines of a match section see it.
    pub seen: Vec<bool>,
}

impl Index {
    /// Whether the net of this number is seen.
    pub fn sees(&self, k: u32) -> bool
        requires { k < length self.now.seen.items }
        ensures { result ≡ slice_index_or self.now.seen.items k false }
    {
        self.seen[k as usize]
    }
}

/// The net of a number.
pub fn net_at(net: &Net, k: u32) -> &NetInfo
    requires { k < length net.now.nets }
    ensures { result.now ≡ net_at net.now.nets k }
{
    &net.nets.as_slice()[k as usize]
}

/// How many nets there are.
pub fn count(net: &Net) -> u32
    ensures { result ≡ length net.now.nets }
{
    net.nets.len() as u32
}

fn has_driver(driver: Driver) -> bool
    ensures { IsTrue result ↔ (driver ≢ Undriven) }
{
    match driver {
        Driver::Input => true,
        Driver::Undriven => false,
        Driver::Expr { .. } => true,
        Driver::Reg { .. } => true,
    }
}

/// Whether `width` bits from `first` on have drivers.
fn are_driven(drivers: &[Driver], first: usize, width: usize) -> bool
    requires { first + width ≤ length drivers.now }
    ensures { IsTrue result ↔ AreDriven drivers.now first width }
{
    for j in 0..width {
        if !has_driver(drivers[first + j]) {
            return false;
        }
    }
    true
}

pub fn is_inner(dir: Dir) -> bool
    ensures { IsTrue result ↔ (dir ≡ Dir.Inner) }
{
    match dir {
        Dir::Inner => true,
        Dir::Input => false,
        Dir::Output => false,
    }
}

/// Whether a net whose bits begin at `first` is seen.
fn is_seen(net: &NetInfo, drivers: &[Driver], first: usize) -> bool
    requires { first + width_of net.now ≤ length drivers.now }
    ensures { IsTrue result ↔ IsSeenAt net.now drivers.now first }
{
    is_inner(net.dir) && are_driven(drivers, first, net.width() as usize)
}

/// For each net whether it is seen.
fn seen_nets(alloc: Global, nets: &[NetInfo], drivers: &[Driver]) -> Result<Vec<bool>, Memory>
    requires drivers { length drivers.now ≡ bits_of nets.now }
    requires few { bits_of nets.now < 2 ^ 32 }
    ensures { IfOk result (λ seen. TellsTo (length nets.now) (part_of nets.now drivers.now)
        seen.items) }
{
    bits_stand_by_nets();
    let mut seen = Vec::with_capacity(alloc, nets.len())?;
    let mut first = 0;
    for net in nets {
        seen.push(is_seen(net, drivers, first))?;
        first += net.width() as usize;
    }
    Ok(seen)
}

/// A table of the names, each with its net's number.
fn numbered(alloc: Global, nets: &[NetInfo]) -> Result<NameTable, Memory>
    requires names { AllPairs (λ a b. a.name ≢ b.name) nets.now }
    requires few { length nets.now < 2 ^ 32 - 1 }
    ensures { IfOk result (λ names. names ≡ map (λ n. n.name) nets.now) }
{
    let mut names = NameTable::new(alloc)?;
    for net in nets {
        names.intern(&net.name)?;
    }
    Ok(names)
}

pub fn index_of(alloc: Global, net: &Net) -> Result<Index, Memory>
    ensures { IfOk result (λ index. IsIndex (parts_of net.now) index.names index.seen.items) }
{
    let names = numbered(alloc, net.nets.as_slice())?;
    let seen = seen_nets(alloc, net.nets.as_slice(), net.drivers.as_slice())?;
    Ok(Index { names, seen })
}
