//! What the lines so far say together, and what the next one may not say.

ghost use Rattle.std.specs.Prelude.{◌≡◌, [], false, OnOk};
ghost use Rattle.eq_config.specs.inner.Drafts as spec;

use crate::config::{
    CollectSection, CollectSections, MatchSection, MatchSections, Names, PartSection, PartSections,
};
use crate::limits::{MOST_FILES, MOST_RULES, MOST_STRATEGIES};
use crate::said::{Entry, Heading, Role, Said, SectionKind};
use crate::section::{
    SideSection, StrategySection, StrategySections, add_apply, add_collect, add_match, add_part,
    has_last_conflicts, has_last_depth, is_last_used, is_named, set_conflicts, set_depth, set_used,
};
use eq_base::{Items, Memory};
use eq_names::{Name, Pattern};
use std::alloc::Global;

/// What the lines so far say together.
#[derive(Drop)]
pub struct Draft {
    /// The kind of the section that the next line stands in.
    pub section: Option<SectionKind>,
    /// The line of `[options]`.
    pub options: Option<u32>,
    pub gold: SideSection,
    pub gate: SideSection,
    pub matches: MatchSections,
    pub collects: CollectSections,
    pub partitions: PartSections,
    pub strategies: StrategySections,
    /// How many rules there are.
    pub rules: u32,
}

fn no_side(alloc: Global) -> SideSection
    ensures { result ≡ spec.no_side }
{
    SideSection {
        line: None,
        files: Names::new(alloc),
        top: None,
    }
}

impl Draft {
    /// What no lines say.
    #[tactic(auto, unfolding(crate::specs::inner::Drafts::draft_of))]
    pub fn new(alloc: Global) -> Draft
        ensures { result ≡ spec.draft_of [] }
    {
        Draft {
            section: None,
            options: None,
            gold: no_side(alloc),
            gate: no_side(alloc),
            matches: MatchSections::new(alloc),
            collects: CollectSections::new(alloc),
            partitions: PartSections::new(alloc),
            strategies: StrategySections::new(alloc),
            rules: 0,
        }
    }

    /// Whether a heading may not come again.
    fn repeats_heading(&self, heading: &Heading) -> bool
        ensures { result ≡ spec.repeats_heading self.now heading.now }
    {
        match heading {
            Heading::Options => self.options.is_some(),
            Heading::Design(Role::Gold) => self.gold.line.is_some(),
            Heading::Design(Role::Gate) => self.gate.line.is_some(),
            Heading::Match(_) => false,
            Heading::Collect(_) => false,
            Heading::Partition(_) => false,
            Heading::Strategy(name) => is_named(self.strategies.as_slice(), name.bytes()),
        }
    }

    /// Whether a line of a section may not come again.
    fn repeats_entry(&self, entry: &Entry) -> bool
        ensures { result ≡ spec.repeats_entry self.now entry.now }
    {
        match entry {
            Entry::Files(_, _) => false,
            Entry::Top(Role::Gold, _) => self.gold.top.is_some(),
            Entry::Top(Role::Gate, _) => self.gate.top.is_some(),
            Entry::Match(_) => false,
            Entry::Collect(_) => false,
            Entry::Partition(_) => false,
            Entry::Use => is_last_used(self.strategies.as_slice()),
            Entry::Depth(_) => has_last_depth(self.strategies.as_slice()),
            Entry::Conflicts(_) => has_last_conflicts(self.strategies.as_slice()),
            Entry::Apply(_) => false,
        }
    }

    /// Whether a line says again what may not be said again.
    pub fn is_twice(&self, said: &Said) -> bool
        ensures { result ≡ spec.is_twice self.now said.now }
    {
        match said {
            Said::Nothing => false,
            Said::Heading { heading, .. } => self.repeats_heading(heading),
            Said::Entry(entry) => self.repeats_entry(entry),
        }
    }

    /// Whether a side has no room for so many files more.
    fn is_full(files: &Names, more: &Names) -> bool
        ensures { result ≡ spec.is_full files.now more.now }
    {
        let count = files.len();
        count > MOST_FILES || more.len() > MOST_FILES - count
    }

    /// Whether a line of a section is one too many.
    fn exceeds(&self, entry: &Entry) -> bool
        ensures { result ≡ spec.exceeds self.now entry.now }
    {
        match entry {
            Entry::Files(Role::Gold, files) => Self::is_full(&self.gold.files, files),
            Entry::Files(Role::Gate, files) => Self::is_full(&self.gate.files, files),
            Entry::Top(_, _) => false,
            Entry::Match(_) => self.rules >= MOST_RULES,
            Entry::Collect(_) => self.rules >= MOST_RULES,
            Entry::Partition(_) => self.rules >= MOST_RULES,
            Entry::Use => false,
            Entry::Depth(_) => false,
            Entry::Conflicts(_) => false,
            Entry::Apply(_) => self.rules >= MOST_RULES,
        }
    }

    /// Whether a line is one too many.
    pub fn is_too_many(&self, said: &Said) -> bool
        ensures { result ≡ spec.is_too_many self.now said.now }
    {
        match said {
            Said::Nothing => false,
            Said::Heading {
                heading: Heading::Strategy(_),
                ..
            } => self.strategies.len() >= MOST_STRATEGIES,
            Said::Heading { .. } => false,
            Said::Entry(entry) => self.exceeds(entry),
        }
    }

    /// A heading more.
    fn add_heading(&mut self, alloc: Global, line: u32, heading: Heading) -> Result<(), Memory>
        ensures { OnOk result (self.new ≡ spec.with_heading self.old line heading) }
    {
        match heading {
            Heading::Options => {
                self.section = Some(SectionKind::Options);
                self.options = Some(line);
            }
            Heading::Design(Role::Gold) => {
                self.section = Some(SectionKind::Design(Role::Gold));
                self.gold.line = Some(line);
            }
            Heading::Design(Role::Gate) => {
                self.section = Some(SectionKind::Design(Role::Gate));
                self.gate.line = Some(line);
            }
            Heading::Match(top) => {
                self.section = Some(SectionKind::Match);
                self.matches.push(MatchSection {
                    top,
                    rules: Items::new(alloc),
                })?;
            }
            Heading::Collect(top) => {
                self.section = Some(SectionKind::Collect);
                self.collects.push(CollectSection {
                    top,
                    rules: Items::new(alloc),
                })?;
            }
            Heading::Partition(top) => {
                self.section = Some(SectionKind::Partition);
                self.partitions.push(PartSection {
                    top,
                    rules: Items::new(alloc),
                })?;
            }
            Heading::Strategy(name) => {
                self.section = Some(SectionKind::Strategy);
                self.strategies.push(StrategySection {
                    line,
                    name,
                    used: false,
                    depth: None,
                    conflicts: None,
                    apply: Items::new(alloc),
                })?;
            }
        }
        Ok(())
    }

    /// A line of a section more.
    fn add_entry(&mut self, entry: Entry) -> Result<(), Memory>
        requires { spec.exceeds self.old entry ≡ false }
        ensures { OnOk result (self.new ≡ spec.with_entry self.old entry) }
    {
        match entry {
            Entry::Files(Role::Gold, files) => self.gold.files.append(files),
            Entry::Files(Role::Gate, files) => self.gate.files.append(files),
            Entry::Top(Role::Gold, name) => {
                self.gold.top = Some(name);
                Ok(())
            }
            Entry::Top(Role::Gate, name) => {
                self.gate.top = Some(name);
                Ok(())
            }
            Entry::Match(rule) => {
                self.rules += 1;
                add_match(&mut self.matches, rule)
            }
            Entry::Collect(rule) => {
                self.rules += 1;
                add_collect(&mut self.collects, rule)
            }
            Entry::Partition(rule) => {
                self.rules += 1;
                add_part(&mut self.partitions, rule)
            }
            Entry::Use => set_used(&mut self.strategies),
            Entry::Depth(depth) => set_depth(&mut self.strategies, depth),
            Entry::Conflicts(conflicts) => set_conflicts(&mut self.strategies, conflicts),
            Entry::Apply(pattern) => {
                self.rules += 1;
                add_apply(&mut self.strategies, pattern)
            }
        }
    }

    /// What a line says, more.
    pub fn add(&mut self, alloc: Global, said: Said) -> Result<(), Memory>
        requires { spec.is_too_many self.old said ≡ false }
        ensures { OnOk result (self.new ≡ spec.draft_after self.old said) }
    {
        match said {
            Said::Nothing => Ok(()),
            Said::Heading { line, heading } => self.add_heading(alloc, line, heading),
            Said::Entry(entry) => self.add_entry(entry),
        }
    }
}
