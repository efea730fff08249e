//! The table of a module: what it says of each name, by look-ups.

ghost use Rattle.std.specs.Prelude.{◌≡◌, [], List, ℕ, map, IfOk};
ghost use Rattle.eq_net.specs.Nets.{side_of};
ghost use Rattle.eq_verilog.specs.Trees.{item_tree, module_tree};
ghost use Rattle.eq_verilog.specs.Declarations as spec;
ghost use Rattle.eq_analysis.specs.declared.declaring.Class.TheVariants.{All, Direction, Variable};
ghost use Rattle.eq_analysis.specs.Declaring.{AreFirsts};
ghost use Rattle.eq_analysis.specs.Naming.{with_names};

use crate::again::has_name;
use crate::declaring::{Class, Firsts, first_declarations, first_declared, first_declared_text};
use crate::naming::{add_all, nothing};
use eq_base::Memory;
use eq_names::{Name, NameTable};
use eq_net::Dir;
use eq_vparse::{DeclKind, Module, Names};
use std::alloc::Global;

/// A module, with its ports and what it declares by name.
#[derive(Drop)]
pub struct Table<'a> {
    pub within: &'a Module,
    pub ports: NameTable,
    pub all: Firsts,
    pub directions: Firsts,
    pub variables: Firsts,
    ghost ports_are: { ports ≡ with_names [] within.now.ports },
    ghost all_are: { AreFirsts All (map item_tree within.now.items) all.names all.found.items },
    ghost directions_are: { AreFirsts Direction (map item_tree within.now.items)
        directions.names directions.found.items },
    ghost variables_are: { AreFirsts Variable (map item_tree within.now.items)
        variables.names variables.found.items },
}

impl Table<'_> {
    /// Whether the name stands in the header.
    pub fn is_port(&self, name: &Name) -> bool
        ensures { result ≡ spec.is_port (module_tree self.now.within.now) name.now }
    {
        has_name(&self.ports, name)
    }

    pub fn is_declared(&self, name: &Name) -> bool
        ensures { result ≡ spec.is_declared (module_tree self.now.within.now) name.now }
    {
        first_declared(&self.all, name).is_some()
    }

    /// Whether the name is declared as an input or an output.
    pub fn has_direction(&self, name: &Name) -> bool
        ensures { result ≡ spec.has_direction (module_tree self.now.within.now) name.now }
    {
        first_declared(&self.directions, name).is_some()
    }

    pub fn is_reg(&self, name: &Name) -> bool
        ensures { result ≡ spec.is_reg (module_tree self.now.within.now) name.now }
    {
        first_declared(&self.variables, name).is_some()
    }

    /// The range of the first declaration of a name that is known by its bytes.
    pub fn range_of_text(&self, text: &[u8]) -> Option<(u32, u32)>
        ensures { result ≡ spec.range_of (module_tree self.now.within.now) text.now }
    {
        match first_declared_text(&self.all, text) {
            Some(declared) => declared.range,
            None => None,
        }
    }

    /// The range of the name's first declaration.
    pub fn range(&self, name: &Name) -> Option<(u32, u32)>
        ensures { result ≡ spec.range_of (module_tree self.now.within.now) name.now }
    {
        match first_declared(&self.all, name) {
            Some(declared) => declared.range,
            None => None,
        }
    }

    pub fn dir(&self, name: &Name) -> Dir
        ensures { side_of result ≡ spec.dir_of (module_tree self.now.within.now) name.now }
    {
        match first_declared(&self.directions, name) {
            Some(declared) => dir_of_kind(declared.kind),
            None => Dir::Inner,
        }
    }
}

fn dir_of_kind(kind: DeclKind) -> Dir
    ensures { side_of result ≡ spec.side_of kind }
{
    match kind {
        DeclKind::Input => Dir::Input,
        DeclKind::Output => Dir::Output,
        DeclKind::Wire | DeclKind::Reg => Dir::Inner,
    }
}

/// The names of a module's header.
fn port_names(alloc: Global, ports: &Names) -> Result<NameTable, Memory>
    ensures { IfOk result (λ names. names ≡ with_names [] ports.now) }
{
    let mut found = nothing(alloc)?;
    add_all(&mut found, ports.as_slice())?;
    Ok(found.table)
}

/// The table of a module.
pub fn table_of(alloc: Global, within: &Module) -> Result<Table<'_>, Memory>
    ensures { IfOk result (λ table. table.within.now ≡ within.now) }
{
    let items = within.items.as_slice();
    let ports = port_names(alloc, &within.ports)?;
    let all = first_declarations(alloc, Class::All, items)?;
    let directions = first_declarations(alloc, Class::Direction, items)?;
    let variables = first_declarations(alloc, Class::Variable, items)?;
    Ok(Table {
        within,
        ports,
        all,
        directions,
        variables,
    })
}
