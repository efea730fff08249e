//! The classes of a division as lists, in order.

ghost use Rattle.std.specs.Prelude.{◌≡◌, ◌<◌, ◌∷◌, ◌++◌, ◌^◌, [], IfOk, OnOk, length};
ghost use Rattle.eq_match.specs.Classes.{classes};
ghost use Rattle.eq_match.specs.Groups.{is_held};
ghost use Rattle.eq_match.specs.Leaders.{one_leader};
ghost use Rattle.eq_match.specs.inner.Begun.{added};

use crate::classes::{Classes, first_of, no_firsts};
use crate::types::{Groups, Pair, Positions};
use eq_base::Memory;
use std::alloc::Global;

/// A list of one position.
fn single(alloc: Global, position: u32) -> Result<Positions, Memory>
    ensures { IfOk result (λ list. list ≡ position ∷ []) }
{
    let mut list = Positions::new(alloc);
    list.push(position)?;
    Ok(list)
}

/// One position more in a list, or in a list of its own behind the others.
fn add(alloc: Global, lists: &mut Vec<Positions>, slot: u32, position: u32) -> Result<(), Memory>
    ensures { OnOk result (lists.new.items ≡ added lists.old.items slot position) }
{
    if (slot as usize) < lists.len() {
        let list = &mut lists[slot as usize];
        list.push(position)?;
    } else {
        lists.push(single(alloc, position)?)?;
    }
    Ok(())
}

/// The classes of the pairs that are no inputs.
pub fn classes_of(alloc: Global, pairs: &[Pair], division: &Classes) -> Result<Groups, Memory>
    requires { length division.now ≡ length pairs.now }
    ensures { IfOk result (λ groups.
        groups ≡ classes (length pairs.now) (is_held pairs.now) (one_leader division.now)) }
{
    let leaders = division.leaders();
    let mut slots = no_firsts(alloc, pairs.len())?;
    let mut lists = Vec::new(alloc);
    for (position, pair) in pairs.iter().enumerate() {
        if !pair.input {
            let slot = first_of(&mut slots, leaders[position], lists.len() as u32);
            add(alloc, &mut lists, slot, position as u32)?;
        }
    }
    Ok(Groups::from_vec(lists))
}
