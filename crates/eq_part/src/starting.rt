//! The partitions before any line is read: each is a group.

ghost use Rattle.std.specs.Prelude.{◌≡◌, ◌<◌, ◌≤◌, ◌^◌, ℕ, All, IfOk, length, slice_index_or};
ghost use Rattle.eq_match.specs.Classes.{SameClasses};
ghost use Rattle.eq_match.specs.Divided.{AreApart};
ghost use Rattle.eq_match.specs.Leaders.{AreLeaders, one_leader};
ghost use Rattle.eq_part.specs.Partitions.{from_groups};
ghost use Rattle.eq_part.specs.inner.Starting.{AreGroupKeys, ArePut};

use eq_base::Memory;
use eq_match::{Classes, Pair, Positions};
use std::alloc::Global;

/// Each position has itself as its key.
fn own_keys(alloc: Global, count: u32) -> Result<Vec<u32>, Memory>
    ensures count { IfOk result (λ keys. length keys.items ≡ count) }
    ensures own { IfOk result (λ keys. (i : ℕ) → i < count → slice_index_or keys.items i 0 ≡ i) }
{
    let mut keys = Vec::new(alloc);
    for position in 0..count {
        keys.push(position)?;
    }
    Ok(keys)
}

/// The positions of a list get a key.
fn put_all(keys: &mut Vec<u32>, list: &[u32], key: u32)
    requires { All (λ i. i < length keys.old.items) list.now }
    ensures { ArePut keys.old.items list.now key keys.new.items }
{
    for position in list {
        keys[*position as usize] = key;
    }
}

/// The positions of a group get the first of them as their key.
fn put_group(keys: &mut Vec<u32>, list: &[u32])
    requires { All (λ i. i < length keys.old.items) list.now }
    ensures { ArePut keys.old.items list.now (slice_index_or list.now 0 0) keys.new.items }
{
    match list.first() {
        Some(first) => put_all(keys, list, *first),
        None => {}
    }
}

/// Of each position the first of its group, and the position itself where it is in none.
fn group_keys(alloc: Global, pairs: &[Pair], groups: &[Positions]) -> Result<Vec<u32>, Memory>
    requires apart { AreApart pairs.now groups.now }
    requires few { length pairs.now < 2 ^ 32 }
    ensures { IfOk result (λ keys.
        AreGroupKeys groups.now (length pairs.now) (length groups.now) keys.items) }
{
    let mut keys = own_keys(alloc, pairs.len() as u32)?;
    for group in groups {
        put_group(&mut keys, group.as_slice());
    }
    Ok(keys)
}

/// Each partition is a group.
pub fn start(alloc: Global, pairs: &[Pair], groups: &[Positions]) -> Result<Classes, Memory>
    requires apart { AreApart pairs.now groups.now }
    requires few { length pairs.now < 2 ^ 32 }
    ensures count { IfOk result (λ classes. length classes ≡ length pairs.now) }
    ensures leaders { IfOk result AreLeaders }
    ensures groups { IfOk result (λ classes. SameClasses (length pairs.now) (one_leader classes)
        (from_groups groups.now).together) }
{
    let keys = group_keys(alloc, pairs, groups)?;
    Classes::by_keys(alloc, pairs.len(), keys.as_slice())
}
