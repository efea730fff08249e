//! The nets of a module as if it stood alone: what each of its instances has, but for the path before the names.

ghost use Rattle.std.specs.Prelude.{◌≡◌, List, Option, map, option_map, slice_get, IfOk, OnOk};
ghost use Rattle.eq_net.specs.Automatic.{is_automatic as is_automatic_of};
ghost use Rattle.eq_net.specs.Nets.{net_of, side_of};
ghost use Rattle.eq_verilog.specs.Trees.{ModuleTree, module_tree};
ghost use Rattle.eq_verilog.specs.Declarations.{nets_in as names_of};
ghost use Rattle.eq_verilog.specs.Nets.{alone, net_at, nets_at};
ghost use Rattle.eq_analysis.specs.Tabling.{tree_at, trees_at};
ghost use Rattle.eq_flatten.specs.Owning.{info, names_in, nets_in as own};

use eq_analysis::{Table, nets_in};
use eq_base::Memory;
use eq_names::{Name, NameTable};
use eq_net::{Dir, NetInfo, is_automatic};
use std::alloc::Global;

/// The nets of a module, and their names, each at its net's number.
#[derive(Drop)]
pub struct Owned {
    pub names: NameTable,
    pub nets: Vec<NetInfo>,
}

/// A net of a name, with its declared range if it has one.
fn net_info(
    alloc: Global,
    name: &Name,
    range: Option<(u32, u32)>,
    dir: Dir,
) -> Result<NetInfo, Memory>
    ensures { IfOk result (λ net. net_of net ≡ info name.now range (side_of dir)) }
{
    let auto = is_automatic(name.bytes());
    let name = name.copy(alloc)?;
    match range {
        Some((left, right)) => Ok(NetInfo {
            name,
            left,
            right,
            ranged: true,
            dir,
            auto,
        }),
        None => Ok(NetInfo {
            name,
            left: 0,
            right: 0,
            ranged: false,
            dir,
            auto,
        }),
    }
}

/// The net of a name of a module.
fn own_net(alloc: Global, table: &Table, name: &Name) -> Result<NetInfo, Memory>
    ensures { IfOk result (λ net. net_of net ≡
        net_at (alone (module_tree table.now.within.now)) name.now) }
{
    net_info(alloc, name, table.range(name), table.dir(name))
}

/// The nets of names of a module.
fn own_nets(alloc: Global, table: &Table, names: &[&Name]) -> Result<Vec<NetInfo>, Memory>
    ensures { IfOk result (λ nets. map net_of nets.items ≡
        map (net_at (alone (module_tree table.now.within.now))) (map (λ n. n.now) names.now)) }
{
    let mut nets = Vec::new(alloc);
    for name in names {
        let net = own_net(alloc, table, name)?;
        nets.push(net)?;
    }
    Ok(nets)
}

/// The nets of a module.
fn owned_by(alloc: Global, table: &Table) -> Result<Owned, Memory>
    ensures names { IfOk result (λ found. found.names ≡
        names_of (module_tree table.now.within.now)) }
    ensures nets { IfOk result (λ found. map net_of found.nets.items ≡
        nets_at (alone (module_tree table.now.within.now))) }
{
    let found = nets_in(alloc, table.within)?;
    let nets = own_nets(alloc, table, found.names.as_slice())?;
    Ok(Owned {
        names: found.table,
        nets,
    })
}

/// The nets of each module.
pub fn all_owned(alloc: Global, tables: &[Table]) -> Result<Vec<Owned>, Memory>
    ensures names { IfOk result (λ found. map names_in found.items ≡
        map names_of (trees_at tables.now)) }
    ensures nets { IfOk result (λ found. map own found.items ≡
        map (λ m. nets_at (alone m)) (trees_at tables.now)) }
{
    let mut found = Vec::new(alloc);
    for table in tables {
        let next = owned_by(alloc, table)?;
        found.push(next)?;
    }
    Ok(found)
}

/// The nets of the module at a place.
pub fn owned_at<'t>(owned: &'t [Owned], place: u32) -> Option<&'t Owned>
    ensures names { option_map (λ o. names_in o.now) result ≡
        slice_get (map names_in owned.now) place }
    ensures nets { option_map (λ o. own o.now) result ≡ slice_get (map own owned.now) place }
{
    owned.get(place as usize)
}
