//! All lines of the match sections, in their order.

ghost use Rattle.std.specs.Prelude.{◌≡◌, ◌<◌, All, OnOk, length};
ghost use Rattle.eq_config.specs.declared.config.MatchSection.{MatchSection};
ghost use Rattle.eq_net.specs.Whole.{parts_of};
ghost use Rattle.eq_match.specs.Fitting.{RuleFits};
ghost use Rattle.eq_match.specs.NetPairs.{RuleMakes, RulesMake, SectionMakes, SectionsMake};
ghost use Rattle.eq_match.specs.inner.Indexing.{IsIndex};
ghost use Rattle.eq_match.specs.inner.Tables.{IsTable, pairing_of};

use crate::index::Index;
use crate::line::{gate_match, gold_match};
use crate::losing::{gate_no, gold_no};
use crate::table::Table;
use eq_base::Memory;
use eq_config::{MatchRule, MatchSection};
use eq_net::Net;
use std::alloc::Global;

/// One line.
fn apply_rule(
    alloc: Global,
    gold: &Net,
    gold_index: &Index,
    gate: &Net,
    gate_index: &Index,
    table: &mut Table,
    rule: &MatchRule,
) -> Result<(), Memory>
    requires gold { IsIndex (parts_of gold.now) gold_index.now.names gold_index.now.seen.items }
    requires gate { IsIndex (parts_of gate.now) gate_index.now.names gate_index.now.seen.items }
    requires table { IsTable (length gold.now.nets) (length gate.now.nets) table.old.partners.items
        table.old.owners.items }
    requires fits { RuleFits rule.now }
    ensures table { OnOk result (IsTable (length gold.now.nets) (length gate.now.nets)
        table.new.partners.items table.new.owners.items) }
    ensures ok { OnOk result (RuleMakes (parts_of gold.now) (parts_of gate.now) rule.now
        (pairing_of table.old.partners.items) (pairing_of table.new.partners.items)) }
{
    match rule {
        MatchRule::GoldMatch(pattern, template, inverted) => {
            gold_match(
                alloc, gold, gold_index, gate, gate_index, table, pattern, template, *inverted,
            )
        }
        MatchRule::GateMatch(pattern, template, inverted) => {
            gate_match(
                alloc, gold, gold_index, gate, gate_index, table, pattern, template, *inverted,
            )
        }
        MatchRule::GoldNo(pattern) => {
            gold_no(gold, gold_index, table, pattern);
            Ok(())
        }
        MatchRule::GateNo(pattern) => {
            gate_no(gold, gate, gate_index, table, pattern);
            Ok(())
        }
    }
}

/// The lines of one section.
fn apply_rules(
    alloc: Global,
    gold: &Net,
    gold_index: &Index,
    gate: &Net,
    gate_index: &Index,
    table: &mut Table,
    rules: &[MatchRule],
) -> Result<(), Memory>
    requires gold { IsIndex (parts_of gold.now) gold_index.now.names gold_index.now.seen.items }
    requires gate { IsIndex (parts_of gate.now) gate_index.now.names gate_index.now.seen.items }
    requires table { IsTable (length gold.now.nets) (length gate.now.nets) table.old.partners.items
        table.old.owners.items }
    requires fit { All RuleFits rules.now }
    ensures table { OnOk result (IsTable (length gold.now.nets) (length gate.now.nets)
        table.new.partners.items table.new.owners.items) }
    ensures ok { OnOk result (RulesMake (parts_of gold.now) (parts_of gate.now) rules.now
        (pairing_of table.old.partners.items) (pairing_of table.new.partners.items)) }
{
    for rule in rules {
        apply_rule(alloc, gold, gold_index, gate, gate_index, table, rule)?;
    }
    Ok(())
}

/// One section, where its pattern matches the name of gold's top.
fn apply_section(
    alloc: Global,
    gold: &Net,
    gold_index: &Index,
    gate: &Net,
    gate_index: &Index,
    table: &mut Table,
    top: &[u8],
    section: &MatchSection,
) -> Result<(), Memory>
    requires gold { IsIndex (parts_of gold.now) gold_index.now.names gold_index.now.seen.items }
    requires gate { IsIndex (parts_of gate.now) gate_index.now.names gate_index.now.seen.items }
    requires table { IsTable (length gold.now.nets) (length gate.now.nets) table.old.partners.items
        table.old.owners.items }
    requires fit { All RuleFits section.now.rules }
    ensures table { OnOk result (IsTable (length gold.now.nets) (length gate.now.nets)
        table.new.partners.items table.new.owners.items) }
    ensures ok { OnOk result (SectionMakes (parts_of gold.now) (parts_of gate.now) top.now
        section.now
        (pairing_of table.old.partners.items) (pairing_of table.new.partners.items)) }
{
    if !section.top.matches(top) {
        return Ok(());
    }
    apply_rules(
        alloc,
        gold,
        gold_index,
        gate,
        gate_index,
        table,
        section.rules.as_slice(),
    )
}

/// All sections.
pub fn apply_sections(
    alloc: Global,
    gold: &Net,
    gold_index: &Index,
    gate: &Net,
    gate_index: &Index,
    table: &mut Table,
    top: &[u8],
    sections: &[MatchSection],
) -> Result<(), Memory>
    requires gold { IsIndex (parts_of gold.now) gold_index.now.names gold_index.now.seen.items }
    requires gate { IsIndex (parts_of gate.now) gate_index.now.names gate_index.now.seen.items }
    requires table { IsTable (length gold.now.nets) (length gate.now.nets) table.old.partners.items
        table.old.owners.items }
    requires fit { All (λ s. All RuleFits s.rules) sections.now }
    ensures table { OnOk result (IsTable (length gold.now.nets) (length gate.now.nets)
        table.new.partners.items table.new.owners.items) }
    ensures ok { OnOk result (SectionsMake (parts_of gold.now) (parts_of gate.now) top.now
        sections.now
        (pairing_of table.old.partners.items) (pairing_of table.new.partners.items)) }
{
    for section in sections {
        apply_section(
            alloc, gold, gold_index, gate, gate_index, table, top, section,
        )?;
    }
    Ok(())
}
