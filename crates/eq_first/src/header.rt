//! The ports of a header, one after the other.

ghost use Rattle.std.specs.Prelude.{◌≡◌, ◌<◌, ◌^◌, ◌∷◌, [], ◌++◌, length, slice_get, option_map, IfOk, IfSome, OnOk, Some, None, is_some};
ghost use Rattle.std.specs.BTreeMap.{get_by, UpdatesBy};
ghost use Rattle.std.specs.Cmp.Lexicographic.{slice_cmp};
ghost use Rattle.std.specs.Ordering.{nat_cmp};
ghost use Rattle.eq_first.specs.Header.{Knows, input_of, direction_of as direction_of_lem, is_plain as is_plain_lem, new_name, output_with as output_with_lem, next_at, add_at};
ghost use Rattle.eq_first.specs.Headers.{head_of};

use crate::job::owned;
use crate::lines::is_name;
use crate::module::{Direction, Port, Ports};
use crate::words::is_reserved;
use eq_base::Memory;
use eq_names::Name;
use std::alloc::{AllocError, Global};
use std::collections::BTreeMap;

/// The places of the names of a header.
pub type Places<'a> = BTreeMap<&'a [u8], u32>;

/// The ports read so far, where their names are, and which is the output.
#[derive(Drop)]
pub struct Header<'a> {
    pub ports: Ports,
    pub places: Places<'a>,
    pub output: Option<u32>,
}

pub(crate) fn place(places: &Places<'_>, name: &[u8]) -> Option<u32>
    ensures { result ≡ get_by (λ k. slice_cmp nat_cmp name.now k.now) places.now }
{
    places.get(name).copied()
}

fn insert<'a>(places: &mut Places<'a>, name: &'a [u8], at: u32) -> Result<(), Memory>
    ensures { OnOk result (UpdatesBy (λ x y. slice_cmp nat_cmp x.now y.now) (λ k. slice_cmp nat_cmp name.now k.now) places.old places.new (Some at)) }
{
    places.insert(name, at)?;
    Ok(())
}

impl<'a> Header<'a> {
    /// No port, before the first was read.
    pub fn new(alloc: Global) -> Header<'a>
        ensures ports { result.ports ≡ [] }
        ensures output { result.output ≡ None }
        ensures known { Knows result.places result.ports }
    {
        Header {
            ports: Ports::new(alloc),
            places: BTreeMap::new(alloc),
            output: None,
        }
    }
}

/// The place of the input with this name.
#[tactic(auto, unfolding(crate::specs::Header::input_of))]
pub(crate) fn input(ports: &Ports, places: &Places<'_>, name: &[u8]) -> Option<u32>
    requires { Knows places.now ports.now }
    ensures { result ≡ input_of ports.now name.now }
{
    let at = place(places, name)?;
    let port = ports.get(at as usize)?;
    match port.direction {
        Direction::Input => Some(at),
        Direction::Output => None,
    }
}

#[tactic(auto, unfolding(crate::specs::Header::direction_of))]
fn direction_of(word: &[u8]) -> Option<Direction>
    ensures { result ≡ direction_of_lem word.now }
{
    if word == b"input".as_slice() {
        return Some(Direction::Input);
    }
    if word == b"output".as_slice() {
        return Some(Direction::Output);
    }
    None
}

/// Whether a net or a module may be called so, where this is a word.
#[tactic(auto, unfolding(crate::specs::Header::is_plain))]
pub(crate) fn is_plain(name: &[u8]) -> bool
    ensures { result ≡ is_plain_lem name.now }
{
    is_name(name) && !is_reserved(name)
}

/// Whether the name may come next.
#[tactic(auto, unfolding(crate::specs::Header::new_name))]
fn is_new(header: &Header<'_>, name: &[u8]) -> bool
    requires { Knows header.now.places header.now.ports }
    ensures { result ≡ is_some (new_name header.now.ports name.now) }
{
    if !is_plain(name) {
        return false;
    }
    if header.ports.len() >= u32::MAX as usize {
        return false;
    }
    place(&header.places, name).is_none()
}

/// Where the output is once the next port goes this way.
fn output_with(header: &Header<'_>, direction: Direction) -> Option<Option<u32>>
    requires { length header.now.ports < 2 ^ 32 }
    ensures { result ≡ output_with_lem (head_of header.now) direction }
{
    match direction {
        Direction::Input => Some(header.output),
        Direction::Output if header.output.is_none() => Some(Some(header.ports.len() as u32)),
        Direction::Output => None,
    }
}

/// Which way a port goes that may come next, and where the output then is.
#[tactic(auto, unfolding(crate::specs::Header::next_at))]
fn next(header: &Header<'_>, keyword: &[u8], name: &[u8]) -> Option<(Direction, Option<u32>)>
    requires known { Knows header.now.places header.now.ports }
    requires few { length header.now.ports < 2 ^ 32 }
    ensures { result ≡ next_at (head_of header.now) keyword.now name.now }
{
    let direction = direction_of(keyword)?;
    let output = output_with(header, direction)?;
    if !is_new(header, name) {
        return None;
    }
    Some((direction, output))
}

/// The header with one port more, where that port may come next.
#[tactic(auto, unfolding(crate::specs::Header::add_at))]
pub(crate) fn add<'a>(
    alloc: Global,
    header: Header<'a>,
    keyword: &[u8],
    name: &'a [u8],
) -> Result<Option<Header<'a>>, Memory>
    requires known { Knows header.places header.ports }
    requires few { length header.ports < 2 ^ 32 }
    ensures known { IfOk result (λ o. IfSome o (λ h. Knows h.places h.ports)) }
    ensures few { IfOk result (λ o. IfSome o (λ h. length h.ports < 2 ^ 32)) }
    ensures added { IfOk result (λ o. option_map head_of o ≡ add_at (head_of header.entry) keyword.now name.now) }
{
    let Some((direction, output)) = next(&header, keyword, name) else {
        return Ok(None);
    };
    let Header {
        mut ports,
        mut places,
        output: _,
    } = header;
    insert(&mut places, name, ports.len() as u32)?;
    ports.push(Port {
        direction,
        name: owned(alloc, name)?,
    })?;
    Ok(Some(Header {
        ports,
        places,
        output,
    }))
}
