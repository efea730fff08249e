//! Which bits are paired, before any line and by each line.

ghost use Rattle.std.specs.Prelude.{IfOk, IfSome};
ghost use Rattle.eq_config.specs.Configs.{IsConfig};
ghost use Rattle.eq_net.specs.Whole.{parts_of};
ghost use Rattle.eq_part.specs.Partitions.{HaveGoldBits};

use crate::cases::pairs::{NetPair, ROWS, Row};
use crate::configs::config;
use crate::designs::design;
use crate::ports::have_same_ports;
use eq_config::Config;
use eq_match::laws::pairs_are_matched;
use eq_match::{Pair, Pairs, pairs};
use eq_names::BitName;
use eq_net::Net;
use eq_part::laws::matched_pairs_are_few;
use std::alloc::Global;
use std::test::Fail;

/// The pairs of two netlists, if they have the same ports.
pub fn paired(alloc: Global, gold: &Net, gate: &Net, config: &Config) -> Result<Option<Pairs>, Fail>
    requires config { IsConfig config.now }
    ensures bits { IfOk result (λ found. IfSome found (HaveGoldBits (parts_of gold.now))) }
{
    pairs_are_matched();
    matched_pairs_are_few();
    if !have_same_ports(gold, gate) {
        return Ok(None);
    }
    Ok(Some(pairs(alloc, gold, gate, config)?))
}

/// Whether the pairs from a place on are those of two nets.
fn are_bits(pairs: &[Pair], from: usize, nets: &NetPair) -> bool {
    let (gold, gate, width, input, inverted) = *nets;
    for bit in 0..width {
        let wanted = Pair {
            gold: BitName { net: gold, bit },
            gate: BitName { net: gate, bit },
            input,
            inverted,
        };
        if pairs.get(from.saturating_add(bit as usize)) != Some(&wanted) {
            return false;
        }
    }
    true
}

/// Whether these are the pairs of the nets, and no others.
fn are_pairs(pairs: &[Pair], wanted: &[NetPair]) -> bool {
    let mut from: usize = 0;
    for nets in wanted {
        if !are_bits(pairs, from, nets) {
            return false;
        }
        from = from.saturating_add(nets.2 as usize);
    }
    from == pairs.len()
}

fn is_right(alloc: Global, row: &Row) -> Result<bool, Fail> {
    let (gold, gate, lines, wanted) = *row;
    let gold = design(alloc, gold)?;
    let gate = design(alloc, gate)?;
    let Some(config) = config(alloc, lines)? else {
        return Ok(false);
    };
    match paired(alloc, &gold, &gate, &config)? {
        Some(pairs) => Ok(are_pairs(pairs.as_slice(), wanted)),
        None => Ok(false),
    }
}

/// The first row with other pairs.
fn first_wrong(alloc: Global) -> Result<Option<usize>, Fail> {
    for (number, row) in ROWS.iter().enumerate() {
        if !is_right(alloc, row)? {
            return Ok(Some(number));
        }
    }
    Ok(None)
}

#[test]
fn pairs_ports_nets_of_one_name_and_what_lines_say(rt: HostRuntime) -> Result<(), Fail> {
    assert_eq!(rt; first_wrong(rt.alloc())?, None);
    Ok(())
}
