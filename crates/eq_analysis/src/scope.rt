//! What the names of an instance mean: its nets stand one behind the other among all, in the order of its module's names.

ghost use Rattle.std.specs.Prelude.{◌≡◌, ◌+◌, ◌<◌, ◌≤◌, ◌^◌, length};
ghost use Rattle.eq_net.specs.Net.{net_at};
ghost use Rattle.eq_net.specs.Nets.{range_of};
ghost use Rattle.eq_verilog.specs.Scopes as spec;
ghost use Rattle.eq_verilog.specs.ModuleRefusals.{most_size};
ghost use Rattle.eq_analysis.specs.Finding.{net_in, scope_of};

use eq_names::{Name, NameTable};
use eq_net::NetInfo;

/// The number of a name's net, where the instance's first net has the number `from`.
#[tactic(auto, unfolding(crate::specs::Finding::net_in))]
pub fn net_number(names: &NameTable, from: u32, name: &Name) -> u32
    requires room { from + length names.now < 2 ^ 32 }
    ensures { result ≡ net_in names.now from name.now }
{
    match names.find(name.bytes()) {
        Some(id) => from + id,
        None => from,
    }
}

/// The range that a net is declared with, its left index first.
fn range_at(nets: &[NetInfo], at: u32) -> Option<(u32, u32)>
    ensures { result ≡ range_of (net_at nets.now at) }
{
    match nets.get(at as usize) {
        Some(net) => {
            if net.ranged {
                Some((net.left, net.right))
            } else {
                None
            }
        }
        None => None,
    }
}

/// The range that a name is declared with.
pub fn range(nets: &[NetInfo], names: &NameTable, from: u32, name: &Name) -> Option<(u32, u32)>
    requires room { from + length names.now < 2 ^ 32 }
    ensures { result ≡ (scope_of nets.now names.now from).range name.now }
{
    range_at(nets, net_number(names, from, name))
}

/// How many bits `[left:right]` selects.
pub fn span(left: u32, right: u32) -> u32
    requires small { spec.span left right ≤ most_size }
    ensures { result ≡ spec.span left right }
{
    left.abs_diff(right) + 1
}

/// How many bits a name has.
pub fn width(nets: &[NetInfo], names: &NameTable, from: u32, name: &Name) -> u32
    requires room { from + length names.now < 2 ^ 32 }
    requires small { spec.width (scope_of nets.now names.now from) name.now ≤ most_size }
    ensures { result ≡ spec.width (scope_of nets.now names.now from) name.now }
{
    match range(nets, names, from, name) {
        Some((left, right)) => span(left, right),
        None => 1,
    }
}

/// The position of the bit with an index.
pub fn position(range: Option<(u32, u32)>, index: u32) -> u32
    ensures { result ≡ spec.position range index }
{
    match range {
        Some((left, right)) => {
            if right <= left {
                index.saturating_sub(right)
            } else {
                right.saturating_sub(index)
            }
        }
        None => 0,
    }
}
