//! Divisions of positions into classes, each known by its first position, its leader.

ghost use Rattle.std.specs.Prelude.{◌≡◌, ◌<◌, ◌≤◌, ◌^◌, None, Some, All, IfOk, length, replicate, slice_set};
ghost use Rattle.eq_match.specs.Leaders.{AreByKeys, AreLeaders, leader_at};
ghost use Rattle.eq_match.specs.inner.Leading.{first_at, first_or};

use eq_base::{Items, Memory};
use std::alloc::Global;
use std::marker::Model;

/// Positions in classes. Contracts see of each position its leader.
#[derive(Debug, Drop)]
pub struct Classes {
    leaders: Items<u32>,
}

impl Model for Classes {
    ghost use Rattle.std.specs.Prelude.{List, ℕ};
    ghost use Rattle.eq_match.specs.Leaders.{AreLeaders};

    ghost Value = { List ℕ };

    ghost view = { λ c. c.leaders };

    ghost invariant = { λ c. AreLeaders c.leaders };
}

/// No key has a first position.
pub fn no_firsts(alloc: Global, bound: usize) -> Result<Vec<Option<u32>>, Memory>
    ensures { IfOk result (λ firsts. firsts.items ≡ replicate bound None) }
{
    vec![in alloc; None; bound]
}

/// The first position of a key, which is this one where there was none.
pub fn first_of(firsts: &mut Vec<Option<u32>>, key: u32, position: u32) -> u32
    requires { key < length firsts.old.items }
    ensures found { result ≡ first_or (first_at firsts.old.items key) position }
    ensures kept { firsts.new.items ≡ slice_set firsts.old.items key (Some result) }
{
    let first = match firsts[key as usize] {
        Some(first) => first,
        None => position,
    };
    firsts[key as usize] = Some(first);
    first
}

impl Classes {
    /// Positions that have one key stand in one class. Each key is below `bound`.
    pub fn by_keys(alloc: Global, bound: usize, keys: &[u32]) -> Result<Classes, Memory>
        requires few { length keys.now < 2 ^ 32 }
        requires within { All (λ key. key < bound) keys.now }
        ensures keys { IfOk result (λ leaders. AreByKeys keys.now leaders) }
        ensures leaders { IfOk result AreLeaders }
    {
        let mut firsts = no_firsts(alloc, bound)?;
        let mut leaders = Items::new(alloc);
        for (position, key) in keys.iter().enumerate() {
            leaders.push(first_of(&mut firsts, *key, position as u32))?;
        }
        Ok(Classes { leaders })
    }

    /// Of each position the leader.
    pub fn leaders(&self) -> &[u32]
        ensures value { result.now ≡ self.now }
        ensures leaders { AreLeaders self.now }
    {
        self.leaders.as_slice()
    }

    /// The leader of a position.
    pub fn leader(&self, position: usize) -> u32
        requires { position < length self.now }
        ensures value { result ≡ leader_at self.now position }
        ensures before { result ≤ position }
    {
        self.leaders.as_slice()[position]
    }
}
