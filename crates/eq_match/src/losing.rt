//! Lines by which pairs go.

ghost use Rattle.std.specs.Prelude.{◌≡◌, ◌<◌, ◌↔◌, ◌⊎◌, ℕ, OnOk, IsTrue, None, length, true};
ghost use Rattle.std.specs.Option.{ForSome};
ghost use Rattle.eq_net.specs.Whole.{parts_of};
ghost use Rattle.eq_match.specs.NetPairs.{IsNamed, IsPartnerNamed, Loses, SamePairs};
ghost use Rattle.eq_match.specs.inner.Indexing.{IsIndex};
ghost use Rattle.eq_match.specs.inner.Tables.{IsTable, ReleasesIf, pairing_of, released};

use crate::index::{Index, count, net_at};
use crate::table::Table;
use crate::types::Partner;
use eq_names::Pattern;
use eq_net::Net;

/// Whether a net is seen and a pattern matches its name.
fn is_named(net: &Net, index: &Index, pattern: &Pattern, k: u32) -> bool
    requires index { IsIndex (parts_of net.now) index.now.names index.now.seen.items }
    requires within { k < length net.now.nets }
    ensures { IsTrue result ↔ IsNamed (parts_of net.now) pattern.now k }
{
    index.sees(k) && pattern.matches(net_at(net, k).name.bytes())
}

/// Whether there is a partner, and it is named.
fn is_partner_named(
    gate: &Net,
    gate_index: &Index,
    pattern: &Pattern,
    partner: Option<Partner>,
) -> bool
    requires index { IsIndex (parts_of gate.now) gate_index.now.names gate_index.now.seen.items }
    requires within { ForSome partner (λ p. p.net < length gate.now.nets) }
    ensures { IsTrue result ↔ IsPartnerNamed (parts_of gate.now) pattern.now partner }
{
    match partner {
        Some(partner) => is_named(gate, gate_index, pattern, partner.net),
        None => false,
    }
}

/// `gold-nomatch` at net k of gold.
fn gold_no_at(gold: &Net, gold_index: &Index, table: &mut Table, pattern: &Pattern, k: u32)
    requires gold { IsIndex (parts_of gold.now) gold_index.now.names gold_index.now.seen.items }
    requires table { IsTable (length gold.now.nets) (length table.old.owners.items)
        table.old.partners.items table.old.owners.items }
    requires within { k < length gold.now.nets }
    ensures table { IsTable (length gold.now.nets) (length table.old.owners.items)
        table.new.partners.items table.new.owners.items }
    ensures pairs { ReleasesIf (IsNamed (parts_of gold.now) pattern.now k) k
        (pairing_of table.old.partners.items) (pairing_of table.new.partners.items) }
{
    if is_named(gold, gold_index, pattern, k) {
        table.release(k);
    }
}

/// `gold-nomatch` at each net of gold.
pub fn gold_no(gold: &Net, gold_index: &Index, table: &mut Table, pattern: &Pattern)
    requires gold { IsIndex (parts_of gold.now) gold_index.now.names gold_index.now.seen.items }
    requires table { IsTable (length gold.now.nets) (length table.old.owners.items)
        table.old.partners.items table.old.owners.items }
    ensures table { IsTable (length gold.now.nets) (length table.old.owners.items)
        table.new.partners.items table.new.owners.items }
    ensures pairs { Loses (IsNamed (parts_of gold.now) pattern.now)
        (pairing_of table.old.partners.items) (pairing_of table.new.partners.items) }
{
    for k in 0..count(gold) {
        gold_no_at(gold, gold_index, table, pattern, k);
    }
}

/// `gate-nomatch` at net k of gold.
fn gate_no_at(gate: &Net, gate_index: &Index, table: &mut Table, pattern: &Pattern, k: u32)
    requires gate { IsIndex (parts_of gate.now) gate_index.now.names gate_index.now.seen.items }
    requires table { IsTable (length table.old.partners.items) (length gate.now.nets)
        table.old.partners.items table.old.owners.items }
    requires within { k < length table.old.partners.items }
    ensures table { IsTable (length table.old.partners.items) (length gate.now.nets)
        table.new.partners.items table.new.owners.items }
    ensures pairs { ReleasesIf (IsPartnerNamed (parts_of gate.now) pattern.now (pairing_of
        table.old.partners.items k)) k
        (pairing_of table.old.partners.items) (pairing_of table.new.partners.items) }
{
    if is_partner_named(gate, gate_index, pattern, table.partner(k)) {
        table.release(k);
    }
}

/// `gate-nomatch` at each net of gold.
pub fn gate_no(gold: &Net, gate: &Net, gate_index: &Index, table: &mut Table, pattern: &Pattern)
    requires gate { IsIndex (parts_of gate.now) gate_index.now.names gate_index.now.seen.items }
    requires table { IsTable (length gold.now.nets) (length gate.now.nets) table.old.partners.items
        table.old.owners.items }
    ensures table { IsTable (length gold.now.nets) (length gate.now.nets) table.new.partners.items
        table.new.owners.items }
    ensures pairs { Loses (λ k. IsPartnerNamed (parts_of gate.now) pattern.now (pairing_of
        table.old.partners.items k))
        (pairing_of table.old.partners.items) (pairing_of table.new.partners.items) }
{
    for k in 0..count(gold) {
        gate_no_at(gate, gate_index, table, pattern, k);
    }
}
