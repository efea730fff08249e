//! The pairs of nets before any line is read.

ghost use Rattle.std.specs.Prelude.{◌≡◌, ◌≢◌, ◌<◌, ◌↔◌, ℕ, IfOk, IfSome, IfNone, IsTrue, length, true, false};
ghost use Rattle.eq_net.specs.Net.{name_at, net_at};
ghost use Rattle.eq_net.specs.Nets.{width_of};
ghost use Rattle.eq_net.specs.Whole.{parts_of};
ghost use Rattle.eq_match.specs.NetPairs.{AreTwins, IsFirstPairing};
ghost use Rattle.eq_match.specs.inner.Finding.{AreTwinNets};
ghost use Rattle.eq_match.specs.inner.Indexing.{IsIndex};
ghost use Rattle.eq_match.specs.inner.Tables.{IsTable, pairing_of};

use crate::index::{Index, count, is_inner, net_at};
use crate::table::{Table, no_pairs};
use crate::types::Partner;
use eq_base::Memory;
use eq_net::{Net, NetInfo};
use std::alloc::Global;

/// Whether two nets of one name are paired before any line is read.
fn are_twins(gold: &NetInfo, gold_seen: bool, gate: &NetInfo, gate_seen: bool) -> bool
    ensures { IsTrue result ↔ AreTwinNets gold.now gold_seen gate.now gate_seen }
{
    let ports = !is_inner(gold.dir) && !is_inner(gate.dir);
    let chosen = !gold.auto && !gate.auto;
    ports || gold_seen && gate_seen && chosen && gold.width() == gate.width()
}

/// The net of gate that a net of gold is paired with before any line is read.
fn twin(gold: &Net, gold_index: &Index, gate: &Net, gate_index: &Index, k: u32) -> Option<u32>
    requires gold { IsIndex (parts_of gold.now) gold_index.now.names gold_index.now.seen.items }
    requires gate { IsIndex (parts_of gate.now) gate_index.now.names gate_index.now.seen.items }
    requires there { k < length gold.now.nets }
    ensures some { IfSome result (AreTwins (parts_of gold.now) (parts_of gate.now) k) }
    ensures none { IfNone result ((h : ℕ) → ¬ AreTwins (parts_of gold.now) (parts_of gate.now) k h) }
{
    let net = net_at(gold, k);
    match gate_index.names.find(net.name.bytes()) {
        Some(h) => {
            if are_twins(net, gold_index.sees(k), net_at(gate, h), gate_index.sees(h)) {
                Some(h)
            } else {
                None
            }
        }
        None => None,
    }
}

/// The pairs before any line is read.
pub fn first_pairs(
    alloc: Global,
    gold: &Net,
    gold_index: &Index,
    gate: &Net,
    gate_index: &Index,
) -> Result<Table, Memory>
    requires gold { IsIndex (parts_of gold.now) gold_index.now.names gold_index.now.seen.items }
    requires gate { IsIndex (parts_of gate.now) gate_index.now.names gate_index.now.seen.items }
    ensures table { IfOk result (λ t. IsTable (length gold.now.nets) (length gate.now.nets)
        t.partners.items t.owners.items) }
    ensures first { IfOk result (λ t. IsFirstPairing (parts_of gold.now) (parts_of gate.now)
        (pairing_of t.partners.items)) }
{
    let mut table = no_pairs(alloc, gold.nets.len(), gate.nets.len())?;
    for k in 0..count(gold) {
        if let Some(net) = twin(gold, gold_index, gate, gate_index, k) {
            table.pair(
                k,
                Partner {
                    net,
                    inverted: false,
                },
            );
        }
    }
    Ok(table)
}
