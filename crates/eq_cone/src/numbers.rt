//! Distinct numbers in an order.

ghost use Rattle.std.specs.Prelude.{◌≡◌, ℕ, ◌<◌, ◌↔◌, ◌^◌, [], ◌∷◌, Contains, IfSome, IfNone, OnOk, length};
ghost use Rattle.eq_cone.specs.inner.Cones.{AreAscending, AreApart, IsPlace, Reached, number_at};

use eq_base::Memory;
use indexmap::IndexSet;
use std::alloc::Global;
use std::marker::Model;

/// Contracts see the list.
#[derive(Drop)]
pub struct Numbers {
    keys: IndexSet<u32>,
}

impl Model for Numbers {
    ghost use Rattle.std.specs.Prelude.{List, ℕ};
    ghost use Rattle.eq_cone.specs.inner.Cones.{AreApart};

    ghost Value = { List ℕ };

    ghost view = { λ n. n.keys.keys };

    ghost invariant = { λ n. AreApart n.keys.keys };
}

impl Numbers {
    pub fn new(alloc: Global) -> Numbers
        ensures { result ≡ [] }
    {
        Numbers {
            keys: IndexSet::new(alloc),
        }
    }

    pub fn len(&self) -> usize
        ensures value { result ≡ length self.now }
        ensures distinct { AreApart self.now }
    {
        self.keys.len()
    }

    /// The number at a place.
    pub fn at(&self, place: usize) -> u32
        requires { place < length self.now }
        ensures { result ≡ number_at self.now place }
    {
        self.keys.as_slice()[place]
    }

    /// The place of a number.
    pub fn find(&self, number: u32) -> Option<usize>
        ensures found { IfSome result (λ k. IsPlace self.now number k) }
        ensures none { IfNone result (¬ Contains self.now number) }
    {
        self.keys.get_index_of(&number)
    }

    /// Appends a number, unless it is there.
    pub fn insert(&mut self, number: u32) -> Result<(), Memory>
        ensures { OnOk result (Reached self.old self.new (number ∷ [])) }
    {
        self.keys.insert(number)?;
        Ok(())
    }

    /// The same numbers in ascending order.
    pub fn sort(&mut self) -> Result<(), Memory>
        ensures ascending { OnOk result (AreAscending self.new) }
        ensures same { (m : ℕ) → Contains self.old m ↔ Contains self.new m }
        ensures count { length self.new ≡ length self.old }
    {
        self.keys.sort()
    }
}
