//! The items of a module.

ghost use Rattle.std.specs.Prelude.{◌≡◌};
ghost use Rattle.eq_vparse.specs.Limits.{limits};
ghost use Rattle.eq_vparse.specs.Reading.{Reads, Fills};
ghost use Rattle.eq_vparse.specs.ItemReading.{entry_at, entries_at, listed_at, inputs_at, outputs_if, outputs_at, regs_at, wires_at, instances_at, clock_at, always_at, init_at, inits_at, initial_at, keyed_at, item_at};

use crate::cursor::Cursor;
use crate::depth::STATEMENTS;
use crate::stop::Stop;
use crate::tree::{DeclKind, GateKind, Item, ModuleItems, Range, Target};
use eq_names::Name;
use eq_vlex::{Key, Mark, TokenKind};
use std::alloc::Global;

/// What an item says before its entries, which have commas between them.
#[derive(Drop)]
pub(crate) enum Head {
    Port(DeclKind, Option<Range>),
    Reg(Option<Range>),
    OutputReg(Option<Range>),
    Wire(Option<Range>),
    Assign,
    Gate(GateKind),
    /// Of this module.
    Instance(Name),
}

impl<'t> Cursor<'t> {
    /// Puts the items of one entry behind the others.
    fn entry(&mut self, alloc: Global, head: &Head, items: &mut ModuleItems) -> Result<(), Stop>
        ensures { Fills result self.new items.new (entry_at limits head.now items.old self.old) }
    {
        match head {
            Head::Port(kind, range) => self.port(alloc, *kind, *range, items),
            Head::Reg(range) => self.reg(alloc, *range, items),
            Head::OutputReg(range) => self.output_reg(alloc, *range, items),
            Head::Wire(range) => self.wire(alloc, *range, items),
            Head::Assign => self.assignment(alloc, items),
            Head::Gate(kind) => self.gate(alloc, *kind, items),
            Head::Instance(design) => self.instance(alloc, design, items),
        }
    }

    fn entries(&mut self, alloc: Global, head: &Head, items: &mut ModuleItems) -> Result<(), Stop>
        ensures { Fills result self.new items.new (entries_at limits head.now items.old self.old) }
    {
        loop {
            self.entry(alloc, head, items)?;
            if !self.takes(Mark::Comma) {
                return Ok(());
            }
        }
    }

    /// Entries up to their `;`.
    #[tactic(auto, unfolding(crate::specs::ItemReading::listed_at))]
    fn listed(&mut self, alloc: Global, head: &Head, items: &mut ModuleItems) -> Result<(), Stop>
        ensures { Fills result self.new items.new (listed_at limits head.now items.old self.old) }
    {
        self.entries(alloc, head, items)?;
        self.expect(Mark::Semicolon)?;
        Ok(())
    }

    #[tactic(auto, unfolding(crate::specs::ItemReading::inputs_at))]
    fn inputs(&mut self, alloc: Global, items: &mut ModuleItems) -> Result<(), Stop>
        ensures { Fills result self.new items.new (inputs_at limits items.old self.old) }
    {
        self.takes_key(Key::Wire);
        let range = self.maybe_range()?;
        self.listed(alloc, &Head::Port(DeclKind::Input, range), items)
    }

    #[tactic(auto, unfolding(crate::specs::ItemReading::outputs_at, crate::specs::ItemReading::outputs_if))]
    fn outputs(&mut self, alloc: Global, items: &mut ModuleItems) -> Result<(), Stop>
        ensures { Fills result self.new items.new (outputs_at limits items.old self.old) }
    {
        if self.takes_key(Key::Reg) {
            let range = self.maybe_range()?;
            return self.listed(alloc, &Head::OutputReg(range), items);
        }
        self.takes_key(Key::Wire);
        let range = self.maybe_range()?;
        self.listed(alloc, &Head::Port(DeclKind::Output, range), items)
    }

    #[tactic(auto, unfolding(crate::specs::ItemReading::regs_at))]
    fn regs(&mut self, alloc: Global, items: &mut ModuleItems) -> Result<(), Stop>
        ensures { Fills result self.new items.new (regs_at limits items.old self.old) }
    {
        let range = self.maybe_range()?;
        self.listed(alloc, &Head::Reg(range), items)
    }

    #[tactic(auto, unfolding(crate::specs::ItemReading::wires_at))]
    fn wires(&mut self, alloc: Global, items: &mut ModuleItems) -> Result<(), Stop>
        ensures { Fills result self.new items.new (wires_at limits items.old self.old) }
    {
        let range = self.maybe_range()?;
        self.listed(alloc, &Head::Wire(range), items)
    }

    #[tactic(auto, unfolding(crate::specs::ItemReading::instances_at))]
    fn instances(&mut self, alloc: Global, items: &mut ModuleItems) -> Result<(), Stop>
        ensures { Fills result self.new items.new (instances_at limits items.old self.old) }
    {
        let design = self.name(alloc)?;
        self.listed(alloc, &Head::Instance(design), items)
    }

    /// What the event of an always item names.
    #[tactic(auto, unfolding(crate::specs::ItemReading::clock_at))]
    fn clock(&mut self, alloc: Global) -> Result<Target, Stop>
        ensures { Reads result self.new (clock_at self.old) }
    {
        let name = self.name(alloc)?;
        Ok(match self.maybe_index()? {
            Some(bit) => Target::Bit(name, bit),
            None => Target::Net(name),
        })
    }

    #[tactic(auto, unfolding(crate::specs::ItemReading::always_at))]
    fn always(&mut self, alloc: Global, items: &mut ModuleItems) -> Result<(), Stop>
        ensures { Fills result self.new items.new (always_at limits items.old self.old) }
    {
        self.expect(Mark::At)?;
        self.expect(Mark::LeftParen)?;
        self.expect_key(Key::Posedge)?;
        let clock = self.clock(alloc)?;
        self.expect(Mark::RightParen)?;
        let body = self.stmt(alloc, STATEMENTS)?;
        items.push(Item::Always { clock, body })?;
        Ok(())
    }

    /// `target = constant;`
    #[tactic(auto, unfolding(crate::specs::ItemReading::init_at))]
    fn init(&mut self, alloc: Global, items: &mut ModuleItems) -> Result<(), Stop>
        ensures { Fills result self.new items.new (init_at limits items.old self.old) }
    {
        let target = self.target(alloc)?;
        self.expect(Mark::Assign)?;
        let value = self.sized()?;
        self.expect(Mark::Semicolon)?;
        items.push(Item::Init { target, value })?;
        Ok(())
    }

    /// Initial values up to `end`.
    fn inits(&mut self, alloc: Global, items: &mut ModuleItems) -> Result<(), Stop>
        ensures { Fills result self.new items.new (inits_at limits items.old self.old) }
    {
        while !self.is_key(Key::End) {
            self.init(alloc, items)?;
        }
        Ok(())
    }

    #[tactic(auto, unfolding(crate::specs::ItemReading::initial_at, crate::specs::ItemReading::initial_if))]
    fn initial(&mut self, alloc: Global, items: &mut ModuleItems) -> Result<(), Stop>
        ensures { Fills result self.new items.new (initial_at limits items.old self.old) }
    {
        if !self.takes_key(Key::Begin) {
            return self.init(alloc, items);
        }
        self.inits(alloc, items)?;
        self.expect_key(Key::End)?;
        Ok(())
    }

    /// An item that begins with this key, which comes next.
    #[tactic(auto, unfolding(crate::specs::ItemReading::keyed_at))]
    fn keyed(&mut self, alloc: Global, key: Key, items: &mut ModuleItems) -> Result<(), Stop>
        ensures { Fills result self.new items.new (keyed_at limits key items.old self.old) }
    {
        let wrong = self.wrong();
        self.advance();
        match key {
            Key::Input => self.inputs(alloc, items),
            Key::Output => self.outputs(alloc, items),
            Key::Reg => self.regs(alloc, items),
            Key::Wire => self.wires(alloc, items),
            Key::Assign => self.listed(alloc, &Head::Assign, items),
            Key::And => self.listed(alloc, &Head::Gate(GateKind::And), items),
            Key::Nand => self.listed(alloc, &Head::Gate(GateKind::Nand), items),
            Key::Or => self.listed(alloc, &Head::Gate(GateKind::Or), items),
            Key::Nor => self.listed(alloc, &Head::Gate(GateKind::Nor), items),
            Key::Xor => self.listed(alloc, &Head::Gate(GateKind::Xor), items),
            Key::Xnor => self.listed(alloc, &Head::Gate(GateKind::Xnor), items),
            Key::Buf => self.listed(alloc, &Head::Gate(GateKind::Buf), items),
            Key::Not => self.listed(alloc, &Head::Gate(GateKind::Not), items),
            Key::Always => self.always(alloc, items),
            Key::Initial => self.initial(alloc, items),
            _ => Err(wrong),
        }
    }

    /// Puts the items of the tree that the next item of the text gives behind the others.
    #[tactic(auto, unfolding(crate::specs::ItemReading::item_at))]
    pub fn item(&mut self, alloc: Global, items: &mut ModuleItems) -> Result<(), Stop>
        ensures { Fills result self.new items.new (item_at limits items.old self.old) }
    {
        match self.peek() {
            Some(TokenKind::Key(key)) => self.keyed(alloc, *key, items),
            _ => self.instances(alloc, items),
        }
    }
}
