//! What one entry of a declaration or of an assignment says.

ghost use Rattle.std.specs.Prelude.{◌≡◌, OnOk};
ghost use Rattle.eq_vparse.specs.Limits.{limits};
ghost use Rattle.eq_vparse.specs.Reading.{Reads, Fills};
ghost use Rattle.eq_vparse.specs.DeclarationReading.{maybe_value_at, maybe_driver_at, with_decl, with_init, with_reg as with_reg_lem, with_assign, port_at, reg_at, output_reg_at, wire_at, assignment_at};

use crate::cursor::Cursor;
use crate::stop::Stop;
use crate::tree::{DeclKind, Expr, Item, ModuleItems, Range, Target};
use eq_base::Memory;
use eq_names::Name;
use eq_vlex::{Constant, Mark};
use std::alloc::Global;

/// Puts a declaration behind the items.
pub(crate) fn declare(
    alloc: Global,
    items: &mut ModuleItems,
    kind: DeclKind,
    range: Option<Range>,
    name: &Name,
) -> Result<(), Memory>
    ensures { OnOk result (items.new ≡ with_decl items.old kind range name.now) }
{
    let name = name.copy(alloc)?;
    items.push(Item::Decl { kind, range, name })
}

/// Puts a register's first value behind the items, if it has one.
fn initialise(
    alloc: Global,
    items: &mut ModuleItems,
    name: &Name,
    value: Option<Constant>,
) -> Result<(), Memory>
    ensures { OnOk result (items.new ≡ with_init items.old name.now value) }
{
    match value {
        Some(value) => {
            let target = Target::Net(name.copy(alloc)?);
            items.push(Item::Init { target, value })
        }
        None => Ok(()),
    }
}

/// Puts a register with its first value behind the items.
#[tactic(auto, unfolding(crate::specs::DeclarationReading::with_reg))]
pub(crate) fn register(
    alloc: Global,
    items: &mut ModuleItems,
    range: Option<Range>,
    name: &Name,
    value: Option<Constant>,
) -> Result<(), Memory>
    ensures { OnOk result (items.new ≡ with_reg_lem items.old range name.now value) }
{
    declare(alloc, items, DeclKind::Reg, range, name)?;
    initialise(alloc, items, name, value)
}

/// Puts the assignment that drives a net behind the items, if there is one.
fn drive(
    alloc: Global,
    items: &mut ModuleItems,
    name: &Name,
    expr: Option<Expr>,
) -> Result<(), Memory>
    ensures { OnOk result (items.new ≡ with_assign items.old name.now expr) }
{
    match expr {
        Some(expr) => {
            let target = Target::Net(name.copy(alloc)?);
            items.push(Item::Assign { target, expr })
        }
        None => Ok(()),
    }
}

impl<'t> Cursor<'t> {
    /// `[ "=" constant ]`
    #[tactic(auto, unfolding(crate::specs::DeclarationReading::maybe_value_at))]
    pub fn maybe_value(&mut self) -> Result<Option<Constant>, Stop>
        ensures { Reads result self.new (maybe_value_at self.old) }
    {
        if !self.takes(Mark::Assign) {
            return Ok(None);
        }
        let value = self.sized()?;
        Ok(Some(value))
    }

    /// `[ "=" expression ]`
    #[tactic(auto, unfolding(crate::specs::DeclarationReading::maybe_driver_at))]
    fn maybe_driver(&mut self, alloc: Global) -> Result<Option<Expr>, Stop>
        ensures { Reads result self.new (maybe_driver_at limits self.old) }
    {
        if !self.takes(Mark::Assign) {
            return Ok(None);
        }
        let expr = self.expr(alloc)?;
        Ok(Some(expr))
    }

    #[tactic(auto, unfolding(crate::specs::DeclarationReading::port_at))]
    pub fn port(
        &mut self,
        alloc: Global,
        kind: DeclKind,
        range: Option<Range>,
        items: &mut ModuleItems,
    ) -> Result<(), Stop>
        ensures { Fills result self.new items.new (port_at kind range items.old self.old) }
    {
        let name = self.name(alloc)?;
        declare(alloc, items, kind, range, &name)?;
        Ok(())
    }

    #[tactic(auto, unfolding(crate::specs::DeclarationReading::reg_at))]
    pub fn reg(
        &mut self,
        alloc: Global,
        range: Option<Range>,
        items: &mut ModuleItems,
    ) -> Result<(), Stop>
        ensures { Fills result self.new items.new (reg_at range items.old self.old) }
    {
        let name = self.name(alloc)?;
        let value = self.maybe_value()?;
        register(alloc, items, range, &name, value)?;
        Ok(())
    }

    #[tactic(auto, unfolding(crate::specs::DeclarationReading::output_reg_at))]
    pub fn output_reg(
        &mut self,
        alloc: Global,
        range: Option<Range>,
        items: &mut ModuleItems,
    ) -> Result<(), Stop>
        ensures { Fills result self.new items.new (output_reg_at range items.old self.old) }
    {
        let name = self.name(alloc)?;
        let value = self.maybe_value()?;
        declare(alloc, items, DeclKind::Output, range, &name)?;
        register(alloc, items, range, &name, value)?;
        Ok(())
    }

    #[tactic(auto, unfolding(crate::specs::DeclarationReading::wire_at))]
    pub fn wire(
        &mut self,
        alloc: Global,
        range: Option<Range>,
        items: &mut ModuleItems,
    ) -> Result<(), Stop>
        ensures { Fills result self.new items.new (wire_at limits range items.old self.old) }
    {
        let name = self.name(alloc)?;
        let expr = self.maybe_driver(alloc)?;
        declare(alloc, items, DeclKind::Wire, range, &name)?;
        drive(alloc, items, &name, expr)?;
        Ok(())
    }

    #[tactic(auto, unfolding(crate::specs::DeclarationReading::assignment_at))]
    pub fn assignment(&mut self, alloc: Global, items: &mut ModuleItems) -> Result<(), Stop>
        ensures { Fills result self.new items.new (assignment_at limits items.old self.old) }
    {
        let target = self.target(alloc)?;
        self.expect(Mark::Assign)?;
        let expr = self.expr(alloc)?;
        items.push(Item::Assign { target, expr })?;
        Ok(())
    }
}
