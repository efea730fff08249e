//! Which partitions groups make, before any line and by each line.

ghost use Rattle.std.specs.Prelude.{◌≡◌, All, IfOk};
ghost use Rattle.eq_config.specs.Configs.{IsConfig};
ghost use Rattle.eq_net.specs.Whole.{parts_of};
ghost use Rattle.eq_part.specs.Partitions.{HaveGoldBits};

use crate::cases::partitions::{Part, ROWS, Row};
use crate::chains::netlist;
use crate::configs::config;
use crate::pairing::paired;
use eq_config::Config;
use eq_match::laws::templates_fit;
use eq_match::{Pairs, groups};
use eq_net::Net;
use eq_part::{Partition, Partitions, divide};
use std::alloc::Global;
use std::test::Fail;

/// The partitions of pairs.
fn divided(alloc: Global, net: &Net, config: &Config, pairs: &Pairs) -> Result<Partitions, Fail>
    requires config { IsConfig config.now }
    requires bits { HaveGoldBits (parts_of net.now) pairs.now }
{
    templates_fit();
    let groups = groups(alloc, net, pairs, config)?;
    Ok(divide(alloc, net, pairs, &groups, config)?)
}

/// The partitions of a netlist and itself.
fn partitioned(alloc: Global, net: &Net, config: &Config) -> Result<Option<Partitions>, Fail>
    requires config { IsConfig config.now }
{
    match paired(alloc, net, net, config)? {
        Some(pairs) => Ok(Some(divided(alloc, net, config, &pairs)?)),
        None => Ok(None),
    }
}

fn is_part(part: &Partition, wanted: &Part) -> bool {
    part.name.bytes() == wanted.0 && part.outputs.as_slice() == wanted.1
}

/// Whether these are the partitions, and no others.
fn are_parts(parts: &[Partition], wanted: &[Part]) -> bool {
    if parts.len() != wanted.len() {
        return false;
    }
    for q in 0..parts.len() {
        if !is_part(&parts[q], &wanted[q]) {
            return false;
        }
    }
    true
}

fn is_right(alloc: Global, row: &Row) -> Result<bool, Fail> {
    let (number, lines, wanted) = *row;
    let net = netlist(alloc, number)?;
    let Some(config) = config(alloc, lines)? else {
        return Ok(false);
    };
    match partitioned(alloc, &net, &config)? {
        Some(parts) => Ok(are_parts(parts.as_slice(), wanted)),
        None => Ok(false),
    }
}

/// The first row with other partitions.
fn first_wrong(alloc: Global) -> Result<Option<usize>, Fail> {
    for (number, row) in ROWS.iter().enumerate() {
        if !is_right(alloc, row)? {
            return Ok(Some(number));
        }
    }
    Ok(None)
}

#[test]
fn partitions_begin_as_groups_and_lines_unite_and_name_them(rt: HostRuntime) -> Result<(), Fail> {
    assert_eq!(rt; first_wrong(rt.alloc())?, None);
    Ok(())
}
