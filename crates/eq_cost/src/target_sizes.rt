//! How many bits targets have.

ghost use Rattle.std.specs.Prelude.{◌≡◌, map};
ghost use Rattle.eq_verilog.specs.Trees.{target_tree, join_all};
ghost use Rattle.eq_verilog.specs.Sizes.{own};
ghost use Rattle.eq_verilog.specs.Nets.{module_scope};
ghost use Rattle.eq_analysis.specs.Tabling.{tree_at};
ghost use Rattle.eq_cost.specs.Counts.{told};

use crate::counting::sum;
use eq_analysis::{Table, bits_of};
use eq_vparse::Target;

/// The size of a target.
#[cycle(targets)]
pub fn target_size(table: &Table, target: &Target) -> u64
    ensures { told result ≡
        told (own (module_scope (tree_at table.now)) (target_tree target.now)) }
{
    match target {
        Target::Net(name) => bits_of(table.range(name)),
        Target::Bit(_, _) => 1,
        Target::Part(_, left, right) => bits_of(Some((*left, *right))),
        Target::Concat(parts) => targets_size(table, parts.as_slice()),
    }
}

/// The size of a concatenation.
#[cycle(targets)]
fn targets_size(table: &Table, parts: &[Target]) -> u64
    ensures { told result ≡
        told (own (module_scope (tree_at table.now)) (join_all (map target_tree parts.now))) }
{
    let mut total = 0;
    for part in parts {
        total = sum(total, target_size(table, part));
    }
    total
}
