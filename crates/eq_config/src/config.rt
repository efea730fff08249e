//! What a configuration says.

use eq_base::Items;
use eq_names::{Name, Pattern, Template};

/// The designs, the rules by which they are matched and cut, and the strategies by which each part is proved.
#[derive(Drop)]
pub struct Config {
    pub gold: Side,
    pub gate: Side,
    pub matches: MatchSections,
    pub collects: CollectSections,
    pub partitions: PartSections,
    pub strategies: Strategies,
}

/// The files of a design, in the order in which they are read, and its top module.
#[derive(Drop)]
pub struct Side {
    pub files: Names,
    pub top: Name,
}

/// Rules for designs whose top has such a name. Of a heading without a pattern it is `*`.
#[derive(Drop)]
pub struct MatchSection {
    pub top: Pattern,
    pub rules: MatchRules,
}

#[derive(Drop)]
pub enum MatchRule {
    /// `gold-match P T`, inverted where `~` stands before the template.
    GoldMatch(Pattern, Template, bool),
    /// `gate-match P T`
    GateMatch(Pattern, Template, bool),
    /// `gold-nomatch P`
    GoldNo(Pattern),
    /// `gate-nomatch P`
    GateNo(Pattern),
}

#[derive(Drop)]
pub struct CollectSection {
    pub top: Pattern,
    pub rules: CollectRules,
}

#[derive(Drop)]
pub enum CollectRule {
    /// `solo P`
    Solo(Pattern),
    /// `group P`
    Group(Pattern),
    /// `join P`
    Join(Pattern),
}

#[derive(Drop)]
pub struct PartSection {
    pub top: Pattern,
    pub rules: PartRules,
}

#[derive(Drop)]
pub enum PartRule {
    /// `merge P`
    Merge(Pattern),
    /// `path P P`
    Path(Pattern, Pattern),
    /// `name P T`
    Rename(Pattern, Template),
}

/// How parts are proved: by induction up to a depth, with so many conflicts in all. Without patterns in `apply` it is
/// for every part.
#[derive(Drop)]
pub struct Strategy {
    pub name: Name,
    pub depth: u32,
    pub conflicts: u64,
    pub apply: Patterns,
}

pub type Names = Items<Name>;

pub type Patterns = Items<Pattern>;

pub type MatchSections = Items<MatchSection>;

pub type MatchRules = Items<MatchRule>;

pub type CollectSections = Items<CollectSection>;

pub type CollectRules = Items<CollectRule>;

pub type PartSections = Items<PartSection>;

pub type PartRules = Items<PartRule>;

pub type Strategies = Items<Strategy>;
