//! One line of a match section.

ghost use Rattle.std.specs.Prelude.{◌≡◌, ◌<◌, ◌↔◌, ◌⊎◌, ℕ, OnOk, IsTrue, None, length, true};
ghost use Rattle.eq_net.specs.Whole.{parts_of};
ghost use Rattle.eq_match.specs.Fitting.{FitsPattern};
ghost use Rattle.eq_match.specs.NetPairs.{AtEach, GateMatchAt, GoldMatchAt, IsNamed, IsPartnerNamed, Loses, RuleMakes};
ghost use Rattle.eq_match.specs.inner.Indexing.{IsIndex};
ghost use Rattle.eq_match.specs.inner.Tables.{IsTable, pairing_of};

use crate::index::{Index, count, net_at};
use crate::leading::lead;
use crate::table::Table;
use crate::types::Partner;
use eq_base::Memory;
use eq_config::MatchRule;
use eq_names::{Pattern, Template};
use eq_net::Net;
use std::alloc::Global;

/// `gold-match` at net k of gold.
fn gold_match_at(
    alloc: Global,
    gold: &Net,
    gold_index: &Index,
    gate: &Net,
    gate_index: &Index,
    table: &mut Table,
    pattern: &Pattern,
    template: &Template,
    inverted: bool,
    k: u32,
) -> Result<(), Memory>
    requires gold { IsIndex (parts_of gold.now) gold_index.now.names gold_index.now.seen.items }
    requires gate { IsIndex (parts_of gate.now) gate_index.now.names gate_index.now.seen.items }
    requires table { IsTable (length gold.now.nets) (length gate.now.nets) table.old.partners.items
        table.old.owners.items }
    requires fits { FitsPattern pattern.now template.now }
    requires within { k < length gold.now.nets }
    ensures table { OnOk result (IsTable (length gold.now.nets) (length gate.now.nets)
        table.new.partners.items table.new.owners.items) }
    ensures ok { OnOk result (GoldMatchAt (parts_of gold.now) (parts_of gate.now) pattern.now
        template.now inverted k
        (pairing_of table.old.partners.items) (pairing_of table.new.partners.items)) }
{
    match lead(
        alloc, gold, gold_index, gate, gate_index, pattern, template, k,
    )? {
        Some(net) => table.pair(k, Partner { net, inverted }),
        None => {}
    }
    Ok(())
}

/// `gold-match` at each net of gold.
pub fn gold_match(
    alloc: Global,
    gold: &Net,
    gold_index: &Index,
    gate: &Net,
    gate_index: &Index,
    table: &mut Table,
    pattern: &Pattern,
    template: &Template,
    inverted: bool,
) -> Result<(), Memory>
    requires gold { IsIndex (parts_of gold.now) gold_index.now.names gold_index.now.seen.items }
    requires gate { IsIndex (parts_of gate.now) gate_index.now.names gate_index.now.seen.items }
    requires table { IsTable (length gold.now.nets) (length gate.now.nets) table.old.partners.items
        table.old.owners.items }
    requires fits { FitsPattern pattern.now template.now }
    ensures table { OnOk result (IsTable (length gold.now.nets) (length gate.now.nets)
        table.new.partners.items table.new.owners.items) }
    ensures ok { OnOk result (AtEach (GoldMatchAt (parts_of gold.now) (parts_of gate.now)
        pattern.now template.now inverted) (length gold.now.nets)
        (pairing_of table.old.partners.items) (pairing_of table.new.partners.items)) }
{
    for k in 0..count(gold) {
        gold_match_at(
            alloc, gold, gold_index, gate, gate_index, table, pattern, template, inverted, k,
        )?;
    }
    Ok(())
}

/// `gate-match` at net h of gate.
fn gate_match_at(
    alloc: Global,
    gold: &Net,
    gold_index: &Index,
    gate: &Net,
    gate_index: &Index,
    table: &mut Table,
    pattern: &Pattern,
    template: &Template,
    inverted: bool,
    h: u32,
) -> Result<(), Memory>
    requires gold { IsIndex (parts_of gold.now) gold_index.now.names gold_index.now.seen.items }
    requires gate { IsIndex (parts_of gate.now) gate_index.now.names gate_index.now.seen.items }
    requires table { IsTable (length gold.now.nets) (length gate.now.nets) table.old.partners.items
        table.old.owners.items }
    requires fits { FitsPattern pattern.now template.now }
    requires within { h < length gate.now.nets }
    ensures table { OnOk result (IsTable (length gold.now.nets) (length gate.now.nets)
        table.new.partners.items table.new.owners.items) }
    ensures ok { OnOk result (GateMatchAt (parts_of gold.now) (parts_of gate.now) pattern.now
        template.now inverted h
        (pairing_of table.old.partners.items) (pairing_of table.new.partners.items)) }
{
    match lead(
        alloc, gate, gate_index, gold, gold_index, pattern, template, h,
    )? {
        Some(k) => table.pair(k, Partner { net: h, inverted }),
        None => {}
    }
    Ok(())
}

/// `gate-match` at each net of gate.
pub fn gate_match(
    alloc: Global,
    gold: &Net,
    gold_index: &Index,
    gate: &Net,
    gate_index: &Index,
    table: &mut Table,
    pattern: &Pattern,
    template: &Template,
    inverted: bool,
) -> Result<(), Memory>
    requires gold { IsIndex (parts_of gold.now) gold_index.now.names gold_index.now.seen.items }
    requires gate { IsIndex (parts_of gate.now) gate_index.now.names gate_index.now.seen.items }
    requires table { IsTable (length gold.now.nets) (length gate.now.nets) table.old.partners.items
        table.old.owners.items }
    requires fits { FitsPattern pattern.now template.now }
    ensures table { OnOk result (IsTable (length gold.now.nets) (length gate.now.nets)
        table.new.partners.items table.new.owners.items) }
    ensures ok { OnOk result (AtEach (GateMatchAt (parts_of gold.now) (parts_of gate.now)
        pattern.now template.now inverted) (length gate.now.nets)
        (pairing_of table.old.partners.items) (pairing_of table.new.partners.items)) }
{
    for h in 0..count(gate) {
        gate_match_at(
            alloc, gold, gold_index, gate, gate_index, table, pattern, template, inverted, h,
        )?;
    }
    Ok(())
}
