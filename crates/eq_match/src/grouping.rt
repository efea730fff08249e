//! The groups of pairs: one for each net of gold, and then what the lines make of them.

ghost use Rattle.std.specs.Prelude.{◌≡◌, ◌<◌, ◌^◌, ℕ, All, IfOk, length, slice_index_or};
ghost use Rattle.eq_net.specs.Whole.{parts_of};
ghost use Rattle.eq_match.specs.Classes.{SameClasses};
ghost use Rattle.eq_match.specs.Divided.{AreApart};
ghost use Rattle.eq_match.specs.Groups.{AreGroups, LineMakes, LinesMake, SectionCollects, SectionsCollect, by_net};
ghost use Rattle.eq_match.specs.Leaders.{one_leader};
ghost use Rattle.eq_match.specs.Pairs.{gold_net};

use crate::classes::Classes;
use crate::hitting::hit_pairs;
use crate::laws::classes_divide;
use crate::listing::classes_of;
use crate::types::{Groups, Pair, Pairs};
use eq_base::Memory;
use eq_config::{CollectRule, CollectSection, Config};
use eq_names::{Name, Pattern};
use eq_net::Net;
use std::alloc::Global;

fn net_keys(alloc: Global, pairs: &[Pair]) -> Result<Vec<u32>, Memory>
    ensures count { IfOk result (λ keys. length keys.items ≡ length pairs.now) }
    ensures each { IfOk result (λ keys. (i : ℕ) → i < length pairs.now →
        slice_index_or keys.items i 0 ≡ gold_net pairs.now i) }
{
    let mut keys = Vec::new(alloc);
    for pair in pairs {
        keys.push(pair.gold.net)?;
    }
    Ok(keys)
}

/// A class for each net of gold, of which there are so many.
fn net_classes(alloc: Global, nets: usize, pairs: &[Pair]) -> Result<Classes, Memory>
    requires there { All (λ p. p.gold.net < nets) pairs.now }
    requires few { length pairs.now < 2 ^ 31 }
    ensures count { IfOk result (λ classes. length classes ≡ length pairs.now) }
    ensures classes { IfOk result (λ classes.
        SameClasses (length pairs.now) (one_leader classes) (by_net pairs.now)) }
{
    let keys = net_keys(alloc, pairs)?;
    Classes::by_keys(alloc, nets, keys.as_slice())
}

/// `solo`
fn solo(
    alloc: Global,
    gold: &Net,
    pairs: &[Pair],
    pattern: &Pattern,
    before: &Classes,
) -> Result<Classes, Memory>
    requires there { All (λ p. p.gold.net < length gold.now.nets) pairs.now }
    requires few { length pairs.now < 2 ^ 31 }
    requires count { length before.now ≡ length pairs.now }
    ensures count { IfOk result (λ after. length after ≡ length pairs.now) }
    ensures line { IfOk result (λ after. LineMakes (parts_of gold.now) pairs.now
        (CollectRule.Solo pattern.now) (one_leader before.now) (one_leader after)) }
{
    let hits = hit_pairs(alloc, gold, pairs, pattern)?;
    before.alone(alloc, hits.as_slice())
}

/// `group`
fn group(
    alloc: Global,
    gold: &Net,
    pairs: &[Pair],
    pattern: &Pattern,
    before: &Classes,
) -> Result<Classes, Memory>
    requires there { All (λ p. p.gold.net < length gold.now.nets) pairs.now }
    requires count { length before.now ≡ length pairs.now }
    ensures count { IfOk result (λ after. length after ≡ length pairs.now) }
    ensures line { IfOk result (λ after. LineMakes (parts_of gold.now) pairs.now
        (CollectRule.Group pattern.now) (one_leader before.now) (one_leader after)) }
{
    let hits = hit_pairs(alloc, gold, pairs, pattern)?;
    before.gathered(alloc, hits.as_slice())
}

/// `join`
fn join(
    alloc: Global,
    gold: &Net,
    pairs: &[Pair],
    pattern: &Pattern,
    before: &Classes,
) -> Result<Classes, Memory>
    requires there { All (λ p. p.gold.net < length gold.now.nets) pairs.now }
    requires count { length before.now ≡ length pairs.now }
    ensures count { IfOk result (λ after. length after ≡ length pairs.now) }
    ensures line { IfOk result (λ after. LineMakes (parts_of gold.now) pairs.now
        (CollectRule.Join pattern.now) (one_leader before.now) (one_leader after)) }
{
    let hits = hit_pairs(alloc, gold, pairs, pattern)?;
    let marks = before.touched(alloc, pairs, hits.as_slice())?;
    before.gathered(alloc, marks.as_slice())
}

/// One line of a section.
fn line(
    alloc: Global,
    gold: &Net,
    pairs: &[Pair],
    rule: &CollectRule,
    before: &Classes,
) -> Result<Classes, Memory>
    requires there { All (λ p. p.gold.net < length gold.now.nets) pairs.now }
    requires few { length pairs.now < 2 ^ 31 }
    requires count { length before.now ≡ length pairs.now }
    ensures count { IfOk result (λ after. length after ≡ length pairs.now) }
    ensures line { IfOk result (λ after. LineMakes (parts_of gold.now) pairs.now rule.now
        (one_leader before.now) (one_leader after)) }
{
    match rule {
        CollectRule::Solo(pattern) => solo(alloc, gold, pairs, pattern, before),
        CollectRule::Group(pattern) => group(alloc, gold, pairs, pattern, before),
        CollectRule::Join(pattern) => join(alloc, gold, pairs, pattern, before),
    }
}

/// The lines of a section.
fn lines(
    alloc: Global,
    gold: &Net,
    pairs: &[Pair],
    rules: &[CollectRule],
    start: Classes,
) -> Result<Classes, Memory>
    requires there { All (λ p. p.gold.net < length gold.now.nets) pairs.now }
    requires few { length pairs.now < 2 ^ 31 }
    requires count { length start ≡ length pairs.now }
    ensures count { IfOk result (λ after. length after ≡ length pairs.now) }
    ensures lines { IfOk result (λ after. LinesMake (parts_of gold.now) pairs.now rules.now
        (one_leader start) (one_leader after)) }
{
    let mut classes = start;
    for rule in rules {
        classes = line(alloc, gold, pairs, rule, &classes)?;
    }
    Ok(classes)
}

/// A section, which counts where its heading is for gold's top.
fn section(
    alloc: Global,
    gold: &Net,
    pairs: &[Pair],
    top: &Name,
    section: &CollectSection,
    start: Classes,
) -> Result<Classes, Memory>
    requires there { All (λ p. p.gold.net < length gold.now.nets) pairs.now }
    requires few { length pairs.now < 2 ^ 31 }
    requires count { length start ≡ length pairs.now }
    ensures count { IfOk result (λ after. length after ≡ length pairs.now) }
    ensures section { IfOk result (λ after. SectionCollects (parts_of gold.now) pairs.now top.now
        section.now (one_leader start) (one_leader after)) }
{
    if section.top.matches(top.bytes()) {
        lines(alloc, gold, pairs, section.rules.as_slice(), start)
    } else {
        Ok(start)
    }
}

/// All sections in order.
fn sections(
    alloc: Global,
    gold: &Net,
    pairs: &[Pair],
    top: &Name,
    list: &[CollectSection],
    start: Classes,
) -> Result<Classes, Memory>
    requires there { All (λ p. p.gold.net < length gold.now.nets) pairs.now }
    requires few { length pairs.now < 2 ^ 31 }
    requires count { length start ≡ length pairs.now }
    ensures count { IfOk result (λ after. length after ≡ length pairs.now) }
    ensures sections { IfOk result (λ after. SectionsCollect (parts_of gold.now) pairs.now top.now
        list.now (one_leader start) (one_leader after)) }
{
    let mut classes = start;
    for one in list {
        classes = section(alloc, gold, pairs, top, one, classes)?;
    }
    Ok(classes)
}

/// The groups that a configuration says, of pairs whose gold nets are there.
pub fn groups(alloc: Global, gold: &Net, p: &Pairs, c: &Config) -> Result<Groups, Memory>
    requires there { All (λ p. p.gold.net < length gold.now.nets) p.now }
    requires few { length p.now < 2 ^ 31 }
    ensures ok { IfOk result (AreGroups (parts_of gold.now) p.now c.now) }
    ensures apart { IfOk result (AreApart p.now) }
{
    classes_divide();
    let pairs = p.as_slice();
    let start = net_classes(alloc, gold.nets.len(), pairs)?;
    let classes = sections(
        alloc,
        gold,
        pairs,
        &c.gold.top,
        c.collects.as_slice(),
        start,
    )?;
    classes_of(alloc, pairs, &classes)
}
