//! The nets of a whole design, by instance: those of its module, with the instance's path before their names.

ghost use Rattle.std.specs.Prelude.{◌≡◌, ◌++◌, ◌∷◌, ◌<◌, [], List, All, length, map, IfOk, OnOk};
ghost use Rattle.eq_names.specs.Name.{IsNameByte};
ghost use Rattle.eq_net.specs.Nets.{net_of, side_of};
ghost use Rattle.eq_verilog.specs.Trees.{ModuleTree};
ghost use Rattle.eq_verilog.specs.Nets.{alone, dir_at, nets_at};
ghost use Rattle.eq_flatten.specs.Flat.{within, IsFlat};
ghost use Rattle.eq_flatten.specs.Owning.{nets_in as own};
ghost use Rattle.eq_flatten.specs.Paths.{path_of, IsPath};

use crate::owning::{Owned, owned_at};
use crate::paths::Path;
use crate::words::narrow;
use eq_base::Memory;
use eq_names::{Name, NameErr};
use eq_net::{Dir, NetInfo};
use std::alloc::Global;

/// The full name of a net: the path before its own name.
fn full_name(alloc: Global, prefix: &[u8], own: &Name) -> Result<Name, Memory>
    requires { All IsNameByte prefix.now }
    ensures { IfOk result (λ name. name ≡ prefix.now ++ own.now) }
{
    let mut text = Vec::new(alloc);
    text.extend_from_slice(prefix)?;
    text.extend_from_slice(own.bytes())?;
    match Name::read(alloc, text.as_slice()) {
        Ok(name) => Ok(name),
        Err(NameErr::Memory) => Err(Memory),
        Err(NameErr::Empty) => unreachable!(),
        Err(NameErr::BadByte { .. }) => unreachable!(),
    }
}

/// The direction of a net as seen from the whole design: inside an instance there is none.
fn full_dir(prefix: &[u8], own: Dir) -> Dir
    ensures { side_of result ≡ dir_at prefix.now (side_of own) }
{
    if prefix.is_empty() { own } else { Dir::Inner }
}

/// A net of a module in the instance of a path.
fn full_net(alloc: Global, prefix: &[u8], own: &NetInfo) -> Result<NetInfo, Memory>
    requires { All IsNameByte prefix.now }
    ensures { IfOk result (λ net. net_of net ≡ within prefix.now (net_of own.now)) }
{
    Ok(NetInfo {
        name: full_name(alloc, prefix, &own.name)?,
        left: own.left,
        right: own.right,
        ranged: own.ranged,
        dir: full_dir(prefix, own.dir),
        auto: own.auto,
    })
}

/// Puts the nets of the instance of a path behind others.
pub fn add_nets(
    alloc: Global,
    nets: &mut Vec<NetInfo>,
    prefix: &[u8],
    own: &[NetInfo],
) -> Result<(), Memory>
    requires { All IsNameByte prefix.now }
    ensures { OnOk result (map net_of nets.new.items ≡
        map net_of nets.old.items ++ map (within prefix.now) (map net_of own.now)) }
{
    for net in own {
        nets.push(full_net(alloc, prefix, net)?)?;
    }
    Ok(())
}

/// The nets of a design, and of each instance the number of its first net.
#[derive(Drop)]
pub struct FlatNets {
    pub nets: Vec<NetInfo>,
    pub firsts: Vec<u32>,
}

/// Puts the nets of an instance behind the others.
fn add_path(
    alloc: Global,
    nets: &mut Vec<NetInfo>,
    path: &Path,
    owned: &[Owned],
) -> Result<(), Memory>
    requires { All IsNameByte path.now.prefix.items }
    ensures { OnOk result ((all : List ModuleTree) → IsPath all path.now →
        map own owned.now ≡ map (λ m. nets_at (alone m)) all →
        map net_of nets.new.items ≡ map net_of nets.old.items ++ nets_at (path_of path.now)) }
{
    match owned_at(owned, path.of.place) {
        Some(of) => add_nets(alloc, nets, path.prefix.as_slice(), of.nets.as_slice()),
        None => Ok(()),
    }
}

/// The nets of all instances.
pub fn flat_nets(alloc: Global, paths: &[Path], owned: &[Owned]) -> Result<FlatNets, Memory>
    requires { All (λ p. All IsNameByte p.prefix.items) paths.now }
    ensures { IfOk result (λ flat. (all : List ModuleTree) → All (IsPath all) paths.now →
        map own owned.now ≡ map (λ m. nets_at (alone m)) all →
        IsFlat paths.now (length paths.now) flat.nets.items flat.firsts.items) }
{
    let mut nets = Vec::new(alloc);
    let mut firsts = Vec::new(alloc);
    for path in paths {
        firsts.push(narrow(nets.len())?)?;
        add_path(alloc, &mut nets, path, owned)?;
    }
    Ok(FlatNets { nets, firsts })
}
