//! Modules, and a whole source.

ghost use Rattle.std.specs.Prelude.{◌≡◌};
ghost use Rattle.eq_vparse.specs.Limits.{limits};
ghost use Rattle.eq_vparse.specs.Reading.{Reads, Fills};
ghost use Rattle.eq_vparse.specs.SourceReading.{items_at, design_at, more_designs_at, designs_at, source_at};

use crate::cursor::Cursor;
use crate::header::Header;
use crate::stop::Stop;
use crate::tree::{Module, ModuleItems, Modules, Source};
use eq_vlex::{Key, Mark};
use std::alloc::Global;

impl<'t> Cursor<'t> {
    /// Items up to `endmodule`.
    fn items(&mut self, alloc: Global, items: &mut ModuleItems) -> Result<(), Stop>
        ensures { Fills result self.new items.new (items_at limits items.old self.old) }
    {
        while !self.is_key(Key::Endmodule) {
            self.item(alloc, items)?;
        }
        Ok(())
    }

    #[tactic(auto, unfolding(crate::specs::SourceReading::design_at))]
    fn design(&mut self, alloc: Global) -> Result<Module, Stop>
        ensures { Reads result self.new (design_at limits self.old) }
    {
        self.expect_key(Key::Module)?;
        let name = self.name(alloc)?;
        let Header { ports, mut items } = self.header(alloc)?;
        self.expect(Mark::Semicolon)?;
        self.items(alloc, &mut items)?;
        self.expect_key(Key::Endmodule)?;
        Ok(Module { name, ports, items })
    }

    #[tactic(auto, unfolding(crate::specs::SourceReading::more_designs_at))]
    fn more_designs(&mut self, alloc: Global, modules: &mut Modules) -> Result<(), Stop>
        ensures { Fills result self.new modules.new (more_designs_at limits modules.old self.old) }
    {
        let design = self.design(alloc)?;
        modules.push(design)?;
        Ok(())
    }

    /// Modules up to the end.
    fn designs(&mut self, alloc: Global, modules: &mut Modules) -> Result<(), Stop>
        ensures { Fills result self.new modules.new (designs_at limits modules.old self.old) }
    {
        while !self.is_end() {
            self.more_designs(alloc, modules)?;
        }
        Ok(())
    }

    #[tactic(auto, unfolding(crate::specs::SourceReading::source_at))]
    pub fn source(&mut self, alloc: Global) -> Result<Source, Stop>
        ensures { Reads result self.new (source_at limits self.old) }
    {
        let mut modules = Modules::new(alloc);
        self.designs(alloc, &mut modules)?;
        Ok(Source { modules })
    }
}
