//! The pairs of bits of two netlists.

ghost use Rattle.std.specs.Prelude.{IfOk, length};
ghost use Rattle.eq_config.specs.Configs.{IsConfig};
ghost use Rattle.eq_net.specs.Whole.{parts_of};
ghost use Rattle.eq_match.specs.Fitting.{HasFittingTemplates};
ghost use Rattle.eq_match.specs.NetPairs.{IsPairing};
ghost use Rattle.eq_match.specs.Pairs.{ArePairs};
ghost use Rattle.eq_match.specs.Seen.{HaveSamePorts};
ghost use Rattle.eq_match.specs.inner.Tables.{IsTable, pairing_of};

use crate::first::first_pairs;
use crate::index::index_of;
use crate::laws::templates_fit;
use crate::lines::apply_sections;
use crate::spelling::spell;
use crate::table::Table;
use crate::types::Pairs;
use eq_base::Memory;
use eq_config::Config;
use eq_net::Net;
use std::alloc::Global;

/// The pairs of nets.
fn net_pairs(alloc: Global, gold: &Net, gate: &Net, c: &Config) -> Result<Table, Memory>
    requires fitting { HasFittingTemplates c.now }
    ensures table { IfOk result (λ t. IsTable (length gold.now.nets) (length gate.now.nets)
        t.partners.items t.owners.items) }
    ensures ok { IfOk result (λ t. IsPairing (parts_of gold.now) (parts_of gate.now) c.now
        (pairing_of t.partners.items)) }
{
    let gold_index = index_of(alloc, gold)?;
    let gate_index = index_of(alloc, gate)?;
    let mut table = first_pairs(alloc, gold, &gold_index, gate, &gate_index)?;
    apply_sections(
        alloc,
        gold,
        &gold_index,
        gate,
        &gate_index,
        &mut table,
        c.gold.top.bytes(),
        c.matches.as_slice(),
    )?;
    Ok(table)
}

/// The pairs of bits of two netlists with the same ports: first the ports, then the other nets of one name, and then what
/// the lines of the match sections say. In the order of gold's bits.
pub fn pairs(alloc: Global, gold: &Net, gate: &Net, c: &Config) -> Result<Pairs, Memory>
    requires ports { HaveSamePorts (parts_of gold.now) (parts_of gate.now) }
    requires config { IsConfig c.now }
    ensures ok { IfOk result (ArePairs (parts_of gold.now) (parts_of gate.now) c.now) }
{
    templates_fit();
    let table = net_pairs(alloc, gold, gate, c)?;
    spell(alloc, gold, &table.partners)
}
