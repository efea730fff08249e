//! The nets of the ports, by the table of the top's names: the nets of the top stand first, in the order of its names.

ghost use Rattle.std.specs.Prelude.{◌≡◌, All, IfOk, Some, true, map, option_map, slice_get};
ghost use Rattle.eq_verilog.specs.Trees.{ModuleTree, module_tree};
ghost use Rattle.eq_verilog.specs.Declarations.{has, nets_in};
ghost use Rattle.eq_verilog.specs.Hierarchy.{module_named};
ghost use Rattle.eq_flatten.specs.Owning.{names_in};
ghost use Rattle.eq_layout.specs.Layout.{trees_of, IsLaidOut};
ghost use Rattle.eq_assembly.specs.inner.Numbers.{AreNumbers};

use eq_base::Memory;
use eq_flatten::Owned;
use eq_layout::Layout;
use eq_names::{Name, NameTable};
use eq_net::NetNumbers;
use eq_verilog::laws::names_by_number;
use eq_vparse::Module;
use std::alloc::Global;

/// The number of a name that the table has.
fn number_of(names: &NameTable, name: &Name) -> u32
    requires there { has names.now name.now ≡ true }
    ensures { slice_get names.now result ≡ Some name.now }
{
    names_by_number();
    match names.find(name.bytes()) {
        Some(number) => number,
        None => unreachable!(),
    }
}

/// The numbers of names that the table has.
fn numbers_of(alloc: Global, names: &NameTable, ports: &[Name]) -> Result<NetNumbers, Memory>
    requires there { All (λ n. has names.now n ≡ true) ports.now }
    ensures { IfOk result (λ found. AreNumbers names.now found ports.now) }
{
    let mut found = NetNumbers::new(alloc);
    for port in ports {
        found.push(number_of(names, port))?;
    }
    Ok(found)
}

/// The module of the top.
fn top_module<'a>(layout: &Layout<'a>, top: &Name) -> &'a Module
    requires laid { IsLaidOut top.now layout.now }
    ensures { module_named (trees_of layout.now) top.now ≡ Some (module_tree result.now) }
{
    match layout.found.paths.first() {
        Some(path) => path.of.module,
        None => unreachable!(),
    }
}

/// The nets of the module at a place.
fn owned_at<'t>(owned: &'t [Owned], place: u32) -> Option<&'t Owned>
    ensures { option_map (λ o. names_in o.now) result ≡ slice_get (map names_in owned.now) place }
{
    owned.get(place as usize)
}

/// The names of the top's nets.
fn top_names<'t>(layout: &'t Layout, top: &Name) -> &'t NameTable
    requires laid { IsLaidOut top.now layout.now }
    ensures { (m : ModuleTree) → module_named (trees_of layout.now) top.now ≡ Some m →
        result.now ≡ nets_in m }
{
    let Some(path) = layout.found.paths.first() else {
        unreachable!()
    };
    match owned_at(layout.owned.as_slice(), path.of.place) {
        Some(owned) => &owned.names,
        None => unreachable!(),
    }
}

/// The numbers of the nets of the ports, in the order of the header.
pub fn port_numbers(alloc: Global, layout: &Layout, top: &Name) -> Result<NetNumbers, Memory>
    requires laid { IsLaidOut top.now layout.now }
    ensures { IfOk result (λ found. (m : ModuleTree) →
        module_named (trees_of layout.now) top.now ≡ Some m → AreNumbers (nets_in m) found m.ports) }
{
    let module = top_module(layout, top);
    numbers_of(alloc, top_names(layout, top), module.ports.as_slice())
}
