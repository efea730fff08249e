//! The first words of headings and of the lines in a section.

ghost use Rattle.std.specs.Prelude.{◌≡◌, map};
ghost use Rattle.eq_config.specs.Keywords as spec;

use crate::said::{Role, SectionKind};

/// What a line in a section gives, by its first word.
#[derive(Clone, Copy)]
pub enum Keyword {
    Files(Role),
    Top(Role),
    Match(MatchKeyword),
    Collect(CollectKeyword),
    Partition(PartKeyword),
    Use,
    Depth,
    Conflicts,
    Apply,
}

#[derive(Clone, Copy)]
pub enum MatchKeyword {
    GoldMatch,
    GateMatch,
    GoldNo,
    GateNo,
}

#[derive(Clone, Copy)]
pub enum CollectKeyword {
    Solo,
    Group,
    Join,
}

#[derive(Clone, Copy)]
pub enum PartKeyword {
    Merge,
    Path,
    Rename,
}

/// The first words of headings.
const TITLES: [(&[u8], SectionKind); 7] = [
    (b"options", SectionKind::Options),
    (b"gold", SectionKind::Design(Role::Gold)),
    (b"gate", SectionKind::Design(Role::Gate)),
    (b"match", SectionKind::Match),
    (b"collect", SectionKind::Collect),
    (b"partition", SectionKind::Partition),
    (b"strategy", SectionKind::Strategy),
];

const GOLD: [(&[u8], Keyword); 2] = [
    (b"read_verilog", Keyword::Files(Role::Gold)),
    (b"prep", Keyword::Top(Role::Gold)),
];

const GATE: [(&[u8], Keyword); 2] = [
    (b"read_verilog", Keyword::Files(Role::Gate)),
    (b"prep", Keyword::Top(Role::Gate)),
];

const MATCH: [(&[u8], Keyword); 4] = [
    (b"gold-match", Keyword::Match(MatchKeyword::GoldMatch)),
    (b"gate-match", Keyword::Match(MatchKeyword::GateMatch)),
    (b"gold-nomatch", Keyword::Match(MatchKeyword::GoldNo)),
    (b"gate-nomatch", Keyword::Match(MatchKeyword::GateNo)),
];

const COLLECT: [(&[u8], Keyword); 3] = [
    (b"group", Keyword::Collect(CollectKeyword::Group)),
    (b"join", Keyword::Collect(CollectKeyword::Join)),
    (b"solo", Keyword::Collect(CollectKeyword::Solo)),
];

const PARTITION: [(&[u8], Keyword); 3] = [
    (b"merge", Keyword::Partition(PartKeyword::Merge)),
    (b"path", Keyword::Partition(PartKeyword::Path)),
    (b"name", Keyword::Partition(PartKeyword::Rename)),
];

const STRATEGY: [(&[u8], Keyword); 4] = [
    (b"use", Keyword::Use),
    (b"depth", Keyword::Depth),
    (b"conflicts", Keyword::Conflicts),
    (b"apply", Keyword::Apply),
];

/// What stands beside a word in a table.
fn looked_up<T: Copy>(mut table: &[(&[u8], T)], word: &[u8]) -> Option<T>
    ensures { result ≡ spec.looked_up (map (λ row. (row.0.now, row.1)) table.entry.now) word.now }
{
    while let [row, rest @ ..] = table {
        if row.0 == word {
            return Some(row.1);
        }
        table = rest;
    }
    None
}

/// The kind of section that a heading with this first word begins.
#[tactic(auto, unfolding(crate::specs::Keywords::title_of))]
pub fn title_of(word: &[u8]) -> Option<SectionKind>
    ensures { result ≡ spec.title_of word.now }
{
    looked_up(&TITLES, word)
}

/// What a line with this first word gives in a section.
#[tactic(auto, unfolding(crate::specs::Keywords::keyword_of))]
pub fn keyword_of(section: SectionKind, word: &[u8]) -> Option<Keyword>
    ensures { result ≡ spec.keyword_of section word.now }
{
    match section {
        SectionKind::Options => None,
        SectionKind::Design(Role::Gold) => looked_up(&GOLD, word),
        SectionKind::Design(Role::Gate) => looked_up(&GATE, word),
        SectionKind::Match => looked_up(&MATCH, word),
        SectionKind::Collect => looked_up(&COLLECT, word),
        SectionKind::Partition => looked_up(&PARTITION, word),
        SectionKind::Strategy => looked_up(&STRATEGY, word),
    }
}
