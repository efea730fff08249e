//! Which pairs stand in groups, before any line and by each line.

ghost use Rattle.std.specs.Prelude.{◌≡◌, ◌<◌, ◌^◌, All, IfOk, length};
ghost use Rattle.eq_config.specs.Configs.{IsConfig};

use crate::cases::groups::{ROWS, Row};
use crate::configs::config;
use crate::designs::design;
use crate::pairing::paired;
use eq_config::Config;
use eq_match::{Groups, Positions, groups};
use eq_net::Net;
use std::alloc::Global;
use std::test::Fail;

/// The groups of a netlist and itself.
fn grouped(alloc: Global, net: &Net, config: &Config) -> Result<Option<Groups>, Fail>
    requires config { IsConfig config.now }
{
    match paired(alloc, net, net, config)? {
        Some(pairs) => Ok(Some(groups(alloc, net, &pairs, config)?)),
        None => Ok(None),
    }
}

/// Whether these are the lists, and no others.
fn are_lists(groups: &[Positions], wanted: &[&'static [u32]]) -> bool {
    if groups.len() != wanted.len() {
        return false;
    }
    for g in 0..groups.len() {
        if groups[g].as_slice() != wanted[g] {
            return false;
        }
    }
    true
}

fn is_right(alloc: Global, row: &Row) -> Result<bool, Fail> {
    let (number, lines, wanted) = *row;
    let net = design(alloc, number)?;
    let Some(config) = config(alloc, lines)? else {
        return Ok(false);
    };
    match grouped(alloc, &net, &config)? {
        Some(groups) => Ok(are_lists(groups.as_slice(), wanted)),
        None => Ok(false),
    }
}

/// The first row with other groups.
fn first_wrong(alloc: Global) -> Result<Option<usize>, Fail> {
    for (number, row) in ROWS.iter().enumerate() {
        if !is_right(alloc, row)? {
            return Ok(Some(number));
        }
    }
    Ok(None)
}

#[test]
fn groups_begin_as_nets_and_lines_change_them(rt: HostRuntime) -> Result<(), Fail> {
    assert_eq!(rt; first_wrong(rt.alloc())?, None);
    Ok(())
}
