//! Which pairs a pattern hits, by the names of their gold nets.

ghost use Rattle.std.specs.Prelude.{◌≡◌, ◌<◌, ◌↔◌, ℕ, true, All, IfOk, length};
ghost use Rattle.eq_model.specs.Frames.{values};
ghost use Rattle.eq_names.specs.Patterns.{Matches};
ghost use Rattle.eq_net.specs.Net.{name_at};
ghost use Rattle.eq_net.specs.Whole.{parts_of};
ghost use Rattle.eq_match.specs.Groups.{TellsHits};
ghost use Rattle.eq_match.specs.Pairs.{gold_net};

use crate::types::Pair;
use eq_base::{Bits, Memory};
use eq_names::Pattern;
use eq_net::{Net, NetInfo};
use std::alloc::Global;

/// Of each net whether the pattern matches its name.
fn net_hits(alloc: Global, nets: &[NetInfo], pattern: &Pattern) -> Result<Bits, Memory>
    ensures count { IfOk result (λ bits. length bits ≡ length nets.now) }
    ensures each { IfOk result (λ bits. (k : ℕ) → k < length nets.now →
        (values bits k ≡ true) ↔ Matches pattern.now (name_at nets.now k)) }
{
    let mut bits = Bits::new(alloc);
    for net in nets {
        bits.push(pattern.matches(net.name.bytes()))?;
    }
    Ok(bits)
}

/// Of each pair the bit of its gold net.
fn of_pairs(alloc: Global, pairs: &[Pair], nets: &[bool]) -> Result<Bits, Memory>
    requires { All (λ p. p.gold.net < length nets.now) pairs.now }
    ensures count { IfOk result (λ bits. length bits ≡ length pairs.now) }
    ensures each { IfOk result (λ bits. (i : ℕ) → i < length pairs.now →
        values bits i ≡ values nets.now (gold_net pairs.now i)) }
{
    let mut bits = Bits::new(alloc);
    for pair in pairs {
        bits.push(nets[pair.gold.net as usize])?;
    }
    Ok(bits)
}

/// Of each pair whether the pattern matches the name of its gold net.
pub fn hit_pairs(
    alloc: Global,
    gold: &Net,
    pairs: &[Pair],
    pattern: &Pattern,
) -> Result<Bits, Memory>
    requires { All (λ p. p.gold.net < length gold.now.nets) pairs.now }
    ensures count { IfOk result (λ bits. length bits ≡ length pairs.now) }
    ensures hits { IfOk result (λ bits.
        TellsHits (parts_of gold.now) pairs.now pattern.now (values bits)) }
{
    let nets = net_hits(alloc, gold.nets.as_slice(), pattern)?;
    of_pairs(alloc, pairs, nets.as_slice())
}
