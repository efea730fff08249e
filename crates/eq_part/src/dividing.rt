//! The partitions that a configuration makes of groups.

ghost use Rattle.std.specs.Prelude.{◌≡◌, ℕ, List, None, All, IfOk, length, map, replicate};
ghost use Rattle.eq_net.specs.Whole.{parts_of};
ghost use Rattle.eq_match.specs.Classes.{classes};
ghost use Rattle.eq_match.specs.Divided.{AreApart};
ghost use Rattle.eq_match.specs.Groups.{is_held};
ghost use Rattle.eq_match.specs.Leaders.{one_leader};
ghost use Rattle.eq_part.specs.Partitions.{ArePartitions, HaveGoldBits, SectionFits};

use crate::finishing::finish;
use crate::lines::sections;
use crate::starting::start;
use crate::state::{GivenNames, State};
use crate::types::Partitions;
use eq_base::Memory;
use eq_config::Config;
use eq_match::{Groups, Pairs};
use eq_net::Net;
use std::alloc::Global;

/// No line has given a name.
fn no_names(alloc: Global, count: usize) -> Result<GivenNames, Memory>
    ensures { IfOk result (λ names. names ≡ replicate count None) }
{
    let mut names = GivenNames::new(alloc);
    for index in 0..count {
        names.push(None)?;
    }
    Ok(names)
}

/// The partitions that a configuration makes of groups that stand apart. The pairs have bits of gold, no two the same.
pub fn divide(
    alloc: Global,
    gold: &Net,
    p: &Pairs,
    g: &Groups,
    c: &Config,
) -> Result<Partitions, Memory>
    requires bits { HaveGoldBits (parts_of gold.now) p.now }
    requires apart { AreApart p.now g.now }
    requires fits { All SectionFits c.now.partitions }
    ensures ok { IfOk result (ArePartitions (parts_of gold.now) p.now g.now c.now) }
    ensures divided { IfOk result (λ parts. (leaders : List ℕ) × (map (λ q. q.outputs) parts ≡
        classes (length p.now) (is_held p.now) (one_leader leaders))) }
{
    let pairs = p.as_slice();
    let classes = start(alloc, pairs, g.as_slice())?;
    let names = no_names(alloc, pairs.len())?;
    let state = State { classes, names };
    let state = sections(
        alloc,
        gold,
        pairs,
        &c.gold.top,
        c.partitions.as_slice(),
        state,
    )?;
    finish(alloc, gold, pairs, &state)
}
