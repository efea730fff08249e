//! What can be compared can be paired: the premise of `pairs` is what the law of ports says where `same_ports` answers Ok.

ghost use Rattle.std.specs.Prelude.{IfOk, IfSome};
ghost use Rattle.eq_config.specs.Configs.{IsConfig};
ghost use Rattle.eq_match.specs.Matched.{AreMatched};
ghost use Rattle.eq_net.specs.Whole.{parts_of};

use eq_base::Memory;
use eq_config::Config;
use eq_marks::laws::ports_that_fit;
use eq_marks::same_ports;
use eq_match::laws::pairs_are_matched;
use eq_match::{Pairs, pairs};
use eq_net::Net;
use std::alloc::Global;

/// The pairs of two netlists, where they can be compared.
pub fn paired(
    alloc: Global,
    gold: &Net,
    gate: &Net,
    config: &Config,
) -> Result<Option<Pairs>, Memory>
    requires config { IsConfig config.now }
    ensures { IfOk result (λ found. IfSome found
        (AreMatched (parts_of gold.now) (parts_of gate.now))) }
{
    ports_that_fit();
    pairs_are_matched();
    match same_ports(alloc, gold, gate) {
        Ok(()) => Ok(Some(pairs(alloc, gold, gate, config)?)),
        Err(_) => Ok(None),
    }
}
