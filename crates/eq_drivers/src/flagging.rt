//! Which bits are those of regs.

ghost use Rattle.std.specs.Prelude.{◌≡◌, ◌++◌, List, All, IfOk, OnOk, flat_map, length, map, replicate};
ghost use Rattle.eq_net.specs.Nets.{net_of};
ghost use Rattle.eq_verilog.specs.Declarations.{is_reg};
ghost use Rattle.eq_verilog.specs.Trees.{ModuleTree, module_tree};
ghost use Rattle.eq_analysis.specs.Tabling.{trees_at};
ghost use Rattle.eq_flatten.specs.Paths.{path_of, IsPath};
ghost use Rattle.eq_layout.specs.Layout.{design_in, AreSound, IsLaidOut};
ghost use Rattle.eq_drivers.specs.Telling.{AreRegs};
ghost use Rattle.eq_drivers.specs.inner.Flagging as spec;

use eq_analysis::{Table, nets_in};
use eq_base::{Bits, Memory};
use eq_flatten::Path;
use eq_layout::Layout;
use eq_names::Name;
use eq_net::NetInfo;
use std::alloc::Global;

/// Of names of a module whether they are regs.
fn name_flags(alloc: Global, table: &Table, names: &[&Name]) -> Result<Bits, Memory>
    ensures { IfOk result (λ flags. flags ≡
        map (is_reg (module_tree table.now.within.now)) (map (λ n. n.now) names.now)) }
{
    let mut flags = Bits::new(alloc);
    for name in names {
        flags.push(table.is_reg(name))?;
    }
    Ok(flags)
}

/// Of each net of a module whether it is a reg.
fn module_flags(alloc: Global, table: &Table) -> Result<Bits, Memory>
    ensures { IfOk result (λ flags. flags ≡
        spec.module_flags (module_tree table.now.within.now)) }
{
    let found = nets_in(alloc, table.within)?;
    name_flags(alloc, table, found.names.as_slice())
}

/// The same of each module.
fn all_flags(alloc: Global, tables: &[Table]) -> Result<Vec<Bits>, Memory>
    ensures { IfOk result (λ all. all.items ≡ map spec.module_flags (trees_at tables.now)) }
{
    let mut all = Vec::new(alloc);
    for table in tables {
        let flags = module_flags(alloc, table)?;
        all.push(flags)?;
    }
    Ok(all)
}

/// Puts the flags of an instance's nets behind the others.
fn add_path(path: &Path, all: &[Bits], flags: &mut Vec<bool>) -> Result<(), Memory>
    ensures { OnOk result ((trees : List ModuleTree) → IsPath trees path.now →
        all.now ≡ map spec.module_flags trees →
        flags.new.items ≡ flags.old.items ++ spec.path_flags (path_of path.now)) }
{
    match all.get(path.of.place as usize) {
        Some(of) => Ok(flags.extend_from_slice(of.as_slice())?),
        None => Ok(()),
    }
}

/// Of each net of the design whether it is a reg.
fn net_flags(alloc: Global, paths: &[Path], all: &[Bits]) -> Result<Vec<bool>, Memory>
    ensures { IfOk result (λ flags. (trees : List ModuleTree) → All (IsPath trees) paths.now →
        all.now ≡ map spec.module_flags trees →
        flags.items ≡ flat_map spec.path_flags (map path_of paths.now)) }
{
    let mut flags = Vec::new(alloc);
    for path in paths {
        add_path(path, all, &mut flags)?;
    }
    Ok(flags)
}

/// Puts a flag at the end, so many times.
fn push_flags(flag: bool, count: u64, flags: &mut Vec<bool>) -> Result<(), Memory>
    ensures { OnOk result (flags.new.items ≡ flags.old.items ++ replicate count flag) }
{
    for _ in 0..count {
        flags.push(flag)?;
    }
    Ok(())
}

/// Of each bit the flag of its net.
fn bit_flags(alloc: Global, nets: &[NetInfo], by_net: &[bool]) -> Result<Vec<bool>, Memory>
    requires { length by_net.now ≡ length nets.now }
    ensures { IfOk result (λ flags. flags.items ≡ spec.spread (map net_of nets.now) by_net.now) }
{
    let mut flags = Vec::new(alloc);
    for net in 0..nets.len() {
        push_flags(by_net[net], nets[net].width(), &mut flags)?;
    }
    Ok(flags)
}

/// Whether each bit is one of a reg.
pub fn reg_flags(alloc: Global, layout: &Layout, top: &Name) -> Result<Vec<bool>, Memory>
    requires laid { IsLaidOut top.now layout.now }
    requires sound { AreSound top.now layout.now }
    ensures ok { IfOk result (λ flags. AreRegs (design_in layout.now top.now) flags.items) }
{
    let all = all_flags(alloc, layout.tables.as_slice())?;
    let by_net = net_flags(alloc, layout.found.paths.as_slice(), &all)?;
    let flags = bit_flags(alloc, layout.flat.nets.as_slice(), &by_net)?;
    Ok(flags)
}
