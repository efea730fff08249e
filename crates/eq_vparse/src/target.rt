//! Targets, and what selects a part of a name.

ghost use Rattle.std.specs.Prelude.{◌≡◌, ◌∷◌, [], ◌++◌, reverse, List};
ghost use Rattle.eq_vparse.specs.Limits.{limits};
ghost use Rattle.eq_vparse.specs.Reading.{Reads};
ghost use Rattle.eq_vparse.specs.TargetReading.{range_at, index_at, maybe_range_at, maybe_index_at, part_to as part_to_lem, selected as selected_lem, part_at, braced, place as place_lem, wanted as wanted_lem, Turns, target_at};

use crate::cursor::Cursor;
use crate::depth::MARKS;
use crate::stop::Stop;
use crate::tree::{Range, Target, Targets};
use eq_base::Items;
use eq_names::Name;
use eq_vlex::Mark;
use std::alloc::Global;

/// The `{` that are open.
#[derive(Drop)]
struct Braces {
    /// How many more there may be.
    room: u32,
    /// The parts so far of each, those of the innermost last.
    parts: Items<Targets>,
}

impl Cursor<'_> {
    #[tactic(auto, unfolding(crate::specs::TargetReading::range_at))]
    pub fn range(&mut self) -> Result<Range, Stop>
        ensures { Reads result self.new (range_at self.old) }
    {
        self.expect(Mark::LeftBracket)?;
        let left = self.decimal()?;
        self.expect(Mark::Colon)?;
        let right = self.decimal()?;
        self.expect(Mark::RightBracket)?;
        Ok(Range { left, right })
    }

    #[tactic(auto, unfolding(crate::specs::TargetReading::index_at))]
    pub fn index(&mut self) -> Result<u32, Stop>
        ensures { Reads result self.new (index_at self.old) }
    {
        self.expect(Mark::LeftBracket)?;
        let index = self.decimal()?;
        self.expect(Mark::RightBracket)?;
        Ok(index)
    }

    /// The range, where `[` stands here.
    #[tactic(auto, unfolding(crate::specs::TargetReading::maybe_range_at))]
    pub fn maybe_range(&mut self) -> Result<Option<Range>, Stop>
        ensures { Reads result self.new (maybe_range_at self.old) }
    {
        if !self.is_mark(Mark::LeftBracket) {
            return Ok(None);
        }
        let range = self.range()?;
        Ok(Some(range))
    }

    /// The index, where `[` stands here.
    #[tactic(auto, unfolding(crate::specs::TargetReading::maybe_index_at))]
    pub fn maybe_index(&mut self) -> Result<Option<u32>, Stop>
        ensures { Reads result self.new (maybe_index_at self.old) }
    {
        if !self.is_mark(Mark::LeftBracket) {
            return Ok(None);
        }
        let index = self.index()?;
        Ok(Some(index))
    }

    #[tactic(auto, unfolding(crate::specs::TargetReading::part_to))]
    fn part_to(&mut self, name: Name, left: u32) -> Result<Target, Stop>
        ensures { Reads result self.new (part_to_lem name left self.old) }
    {
        self.expect(Mark::Colon)?;
        let right = self.decimal()?;
        self.expect(Mark::RightBracket)?;
        Ok(Target::Part(name, left, right))
    }

    /// What `[` selects of a name, read behind it.
    #[tactic(auto, unfolding(crate::specs::TargetReading::selected))]
    fn selected(&mut self, name: Name) -> Result<Target, Stop>
        ensures { Reads result self.new (selected_lem name self.old) }
    {
        let first = self.decimal()?;
        if self.takes(Mark::RightBracket) {
            return Ok(Target::Bit(name, first));
        }
        self.part_to(name, first)
    }

    /// A target that is no concatenation.
    #[tactic(auto, unfolding(crate::specs::TargetReading::part_at))]
    fn part(&mut self, alloc: Global) -> Result<Target, Stop>
        ensures { Reads result self.new (part_at self.old) }
    {
        let name = self.name(alloc)?;
        if self.takes(Mark::LeftBracket) {
            return self.selected(name);
        }
        Ok(Target::Net(name))
    }

    /// Puts a part where it belongs, and answers the whole target where no `{` is open.
    fn place(&mut self, part: Target, braces: &mut Braces) -> Result<Option<Target>, Stop>
        ensures { Turns result (braced braces.new) self.new (place_lem braces.old.room part (reverse braces.old.parts) self.old) }
    {
        let mut part = part;
        while let Some(mut parts) = braces.parts.pop() {
            parts.push(part)?;
            if self.takes(Mark::Comma) {
                braces.parts.push(parts)?;
                return Ok(None);
            }
            self.expect(Mark::RightBrace)?;
            part = Target::Concat(parts);
        }
        Ok(Some(part))
    }

    /// Reads `{` or a part.
    #[tactic(auto, unfolding(crate::specs::TargetReading::wanted))]
    fn wanted(&mut self, alloc: Global, braces: &mut Braces) -> Result<Option<Target>, Stop>
        ensures { Turns result (braced braces.new) self.new (wanted_lem (braced braces.old) self.old) }
    {
        if self.is_mark(Mark::LeftBrace) {
            if braces.room == 0 {
                return Err(self.too_deep());
            }
            braces.room -= 1;
            self.advance();
            braces.parts.push(Items::new(alloc))?;
            return Ok(None);
        }
        let part = self.part(alloc)?;
        self.place(part, braces)
    }

    #[tactic(auto, unfolding(crate::specs::TargetReading::target_at))]
    pub fn target(&mut self, alloc: Global) -> Result<Target, Stop>
        ensures { Reads result self.new (target_at limits.marks self.old) }
    {
        let mut braces = Braces {
            room: MARKS,
            parts: Items::new(alloc),
        };
        loop {
            if let Some(target) = self.wanted(alloc, &mut braces)? {
                return Ok(target);
            }
        }
    }
}
