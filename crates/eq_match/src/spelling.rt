//! Pairs of nets bit by bit.

ghost use Rattle.std.specs.Prelude.{◌≡◌, ◌++◌, ◌<◌, ◌≤◌, ◌^◌, IfOk, OnOk, length};
ghost use Rattle.eq_net.specs.Net.{bits_of};
ghost use Rattle.eq_net.specs.Nets.{width_of};
ghost use Rattle.eq_net.specs.Whole.{parts_of};
ghost use Rattle.eq_match.specs.Pairs.{bits_of_net, bits_of_nets, bits_of_pair, is_input};
ghost use Rattle.eq_match.specs.inner.Tables.{pairing_of};

use crate::index::{count, net_at};
use crate::types::{Pair, Pairs, Partner};
use eq_base::Memory;
use eq_names::BitName;
use eq_net::{Dir, Net};
use std::alloc::Global;

fn is_input(dir: Dir) -> bool
    ensures { result ≡ is_input dir }
{
    match dir {
        Dir::Inner => false,
        Dir::Input => true,
        Dir::Output => false,
    }
}

/// The pairs of the bits of net k and its partner, `width` of them.
fn push_bits(
    pairs: &mut Pairs,
    k: u32,
    partner: Partner,
    input: bool,
    width: u32,
) -> Result<(), Memory>
    ensures { OnOk result (pairs.new ≡ pairs.old ++ bits_of_pair input k partner width) }
{
    for bit in 0..width {
        pairs.push(Pair {
            gold: BitName { net: k, bit },
            gate: BitName {
                net: partner.net,
                bit,
            },
            input,
            inverted: partner.inverted,
        })?;
    }
    Ok(())
}

/// The pairs of the bits of net k of gold.
fn push_net(pairs: &mut Pairs, gold: &Net, k: u32, partner: Option<Partner>) -> Result<(), Memory>
    requires { k < length gold.now.nets }
    ensures { OnOk result (pairs.new ≡ pairs.old ++ bits_of_net (parts_of gold.now) k partner) }
{
    match partner {
        Some(partner) => {
            let net = net_at(gold, k);
            push_bits(pairs, k, partner, is_input(net.dir), net.width() as u32)
        }
        None => Ok(()),
    }
}

/// The pairs of the bits of all nets of gold.
pub fn spell(alloc: Global, gold: &Net, partners: &[Option<Partner>]) -> Result<Pairs, Memory>
    requires { length partners.now ≡ length gold.now.nets }
    ensures { IfOk result (λ pairs. pairs ≡ bits_of_nets (parts_of gold.now) (pairing_of
        partners.now) (length gold.now.nets)) }
{
    let mut pairs = Pairs::new(alloc);
    for k in 0..count(gold) {
        push_net(&mut pairs, gold, k, partners[k as usize])?;
    }
    Ok(pairs)
}
