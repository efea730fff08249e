//! The ports of two designs: by name, in any order of the headers.

ghost use Rattle.std.specs.Prelude.{◌≡◌, ◌<◌, [], IfOk, IfSome, None, true, length, option_copied, is_some, slice_index_or};
ghost use Rattle.std.specs.Option.{option_map};
ghost use Rattle.eq_net.specs.Net as spec_net;
ghost use Rattle.eq_net.specs.Net.{name_at};
ghost use Rattle.eq_net.specs.Nets.{net_of};
ghost use Rattle.eq_net.specs.Numbers.{differ as differ_of};
ghost use Rattle.eq_verilog.specs.Declarations.{has};
ghost use Rattle.eq_marks.specs.Answers.{meaning};
ghost use Rattle.eq_marks.specs.Ports.{first_port, net_named};
ghost use Rattle.eq_marks.specs.inner.Headers as spec;

use eq_analysis::has_name;
use eq_base::Memory;
use eq_names::{Name, NameTable};
use eq_net::{Dir, Net, NetInfo};
use eq_verilog::laws::names_by_number;
use std::alloc::Global;

/// How many ports there are.
fn port_count(net: &Net) -> u32
    ensures { result ≡ length (meaning net.now).ports }
{
    net.ports.len() as u32
}

/// The number of the net of the port at a place of the header.
fn port_at(net: &Net, place: u32) -> u32
    requires { place < length (meaning net.now).ports }
    ensures there { result < length net.now.nets }
    ensures named { name_at net.now.nets result ≡
        slice_index_or (meaning net.now).ports place [] }
{
    net.ports.as_slice()[place as usize]
}

/// The net of a number.
pub fn net_at(net: &Net, k: u32) -> &NetInfo
    requires { k < length net.now.nets }
    ensures { result.now ≡ spec_net.net_at net.now.nets k }
{
    &net.nets.as_slice()[k as usize]
}

/// The names of the ports, in the order of the header.
pub fn port_names(alloc: Global, net: &Net) -> Result<NameTable, Memory>
    ensures { IfOk result (λ names. names ≡ (meaning net.now).ports) }
{
    let mut names = NameTable::new(alloc)?;
    for place in 0..port_count(net) {
        names.intern(&net_at(net, port_at(net, place)).name)?;
    }
    Ok(names)
}

/// The number of the net of a port of this name.
pub fn port_number(net: &Net, names: &NameTable, name: &Name) -> Option<u32>
    requires names { names.now ≡ (meaning net.now).ports }
    ensures there { IfSome result (λ k. k < length net.now.nets) }
    ensures named { IfSome result (λ k. name_at net.now.nets k ≡ name.now) }
    ensures found { is_some result ≡ has (meaning net.now).ports name.now }
{
    names_by_number();
    match names.find(name.bytes()) {
        Some(place) => Some(port_at(net, place)),
        None => None,
    }
}

/// The net of a port of this name.
fn port_named<'a>(net: &'a Net, names: &NameTable, name: &Name) -> Option<&'a NetInfo>
    requires names { names.now ≡ (meaning net.now).ports }
    requires there { has (meaning net.now).ports name.now ≡ true }
    ensures { option_map net_of (option_copied result) ≡ net_named (meaning net.now) name.now }
{
    match port_number(net, names, name) {
        Some(k) => Some(net_at(net, k)),
        None => None,
    }
}

/// Exclusive or.
fn differ(x: bool, y: bool) -> bool
    ensures { result ≡ differ_of x y }
{
    if x { !y } else { y }
}

fn is_input(dir: Dir) -> bool
    ensures { result ≡ spec.is_input_net dir }
{
    match dir {
        Dir::Inner => false,
        Dir::Input => true,
        Dir::Output => false,
    }
}

/// Whether the other design's port of this net's name has another direction.
fn differs_in_direction(gold: &Net, gate: &Net, names: &NameTable, port: u32) -> bool
    requires names { names.now ≡ (meaning gate.now).ports }
    requires port { port < length gold.now.nets }
    requires there { has (meaning gate.now).ports (name_at gold.now.nets port) ≡ true }
    ensures { result ≡ spec.differs_in_direction (meaning gold.now) (meaning gate.now)
        (name_at gold.now.nets port) }
{
    let net = net_at(gold, port);
    match port_named(gate, names, &net.name) {
        Some(other) => differ(is_input(net.dir), is_input(other.dir)),
        None => is_input(net.dir),
    }
}

/// Whether the other design's port of this net's name has another width.
fn differs_in_width(gold: &Net, gate: &Net, names: &NameTable, port: u32) -> bool
    requires names { names.now ≡ (meaning gate.now).ports }
    requires port { port < length gold.now.nets }
    requires there { has (meaning gate.now).ports (name_at gold.now.nets port) ≡ true }
    ensures { result ≡ spec.differs_in_width (meaning gold.now) (meaning gate.now)
        (name_at gold.now.nets port) }
{
    let net = net_at(gold, port);
    match port_named(gate, names, &net.name) {
        Some(other) => net.width() != other.width(),
        None => net.width() != 0,
    }
}

/// Whether the others don't have the name of a port.
fn is_missing(net: &Net, others: &NameTable, port: u32) -> bool
    requires { port < length net.now.nets }
    ensures { result ≡ spec.is_missing others.now (name_at net.now.nets port) }
{
    !has_name(others, &net_at(net, port).name)
}

/// The number of the first port whose name the others don't have.
pub fn first_missing(net: &Net, others: &NameTable) -> Option<u32>
    ensures { result ≡ first_port (spec.is_missing others.now) (meaning net.now).ports }
{
    for place in 0..port_count(net) {
        if is_missing(net, others, port_at(net, place)) {
            return Some(place);
        }
    }
    None
}

/// The number of the first port that the other design has in another direction.
pub fn first_direction(gold: &Net, gate: &Net, names: &NameTable) -> Option<u32>
    requires names { names.now ≡ (meaning gate.now).ports }
    requires there { first_port (spec.is_missing (meaning gate.now).ports)
        (meaning gold.now).ports ≡ None }
    ensures { result ≡ first_port (spec.differs_in_direction (meaning gold.now) (meaning gate.now))
        (meaning gold.now).ports }
{
    for place in 0..port_count(gold) {
        if differs_in_direction(gold, gate, names, port_at(gold, place)) {
            return Some(place);
        }
    }
    None
}

/// The number of the first port that the other design has with another width.
pub fn first_width(gold: &Net, gate: &Net, names: &NameTable) -> Option<u32>
    requires names { names.now ≡ (meaning gate.now).ports }
    requires there { first_port (spec.is_missing (meaning gate.now).ports)
        (meaning gold.now).ports ≡ None }
    ensures { result ≡ first_port (spec.differs_in_width (meaning gold.now) (meaning gate.now))
        (meaning gold.now).ports }
{
    for place in 0..port_count(gold) {
        if differs_in_width(gold, gate, names, port_at(gold, place)) {
            return Some(place);
        }
    }
    None
}
