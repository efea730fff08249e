//! Names and their numbers.

ghost use Rattle.std.specs.Prelude.{◌≡◌, ◌<◌, ◌≤◌, ◌+◌, ◌-◌, ◌^◌, [], All, length, slice_get, IfOk, OnOk, OnErr, Some};
ghost use Rattle.std.specs.Option.{option_copied};
ghost use Rattle.eq_names.specs.Name.{IsName};
ghost use Rattle.eq_names.specs.Tables as spec;

use crate::name::Name;
use eq_base::Memory;
use indexmap::IndexSet;
use std::alloc::Global;
use std::marker::Model;

/// Distinct names, each with its number: 0 for the first, and then 1 more for each. Contracts see the list of the names.
#[derive(Drop)]
pub struct NameTable {
    alloc: Global,
    names: IndexSet<Vec<u8>>,
}

impl Model for NameTable {
    ghost use Rattle.std.specs.Prelude.{List, ℕ, ◌<◌, ◌^◌, length, map};
    ghost use Rattle.eq_names.specs.Tables.{AreDistinct};

    ghost Value = { List (List ℕ) };

    ghost view = { λ t. map (λ name. name.items) t.names.keys };

    ghost invariant = { λ t. (length t.names.keys < 2 ^ 32) × AreDistinct (map (λ name. name.items) t.names.keys) };
}

impl NameTable {
    /// A table without names.
    pub fn new(alloc: Global) -> Result<NameTable, Memory>
        ensures { IfOk result (λ table. table ≡ []) }
    {
        Ok(NameTable {
            alloc,
            names: IndexSet::new(alloc),
        })
    }

    /// The number of a text, where it is a name of the table.
    pub fn find(&self, text: &[u8]) -> Option<u32>
        ensures { result ≡ spec.number_of self.now text.now }
    {
        match self.names.get_index_of(text) {
            Some(id) => Some(id as u32),
            None => None,
        }
    }

    /// How many names it has.
    pub fn len(&self) -> u32
        ensures { result ≡ length self.now }
    {
        self.names.len() as u32
    }

    /// The name of a number. No other number has the same name.
    pub fn name(&self, id: u32) -> Option<&[u8]>
        ensures name { option_copied result ≡ slice_get self.now id }
        ensures distinct { spec.AreDistinct self.now }
    {
        match self.names.get_index(id as usize) {
            Some(name) => Some(name.as_slice()),
            None => None,
        }
    }

    /// The number of a name. A name that the table doesn't have comes behind the others.
    pub fn intern(&mut self, name: &Name) -> Result<u32, Memory>
        requires { length self.old < 2 ^ 32 - 1 }
        ensures names { OnOk result (self.new ≡ spec.with_name self.old name.now) }
        ensures number { IfOk result (λ id. spec.number_of self.new name.now ≡ Some id) }
        ensures kept { OnErr result (self.new ≡ self.old) }
    {
        if let Some(id) = self.find(name.bytes()) {
            return Ok(id);
        }
        let copy = Vec::from_slice(self.alloc, name.bytes())?;
        let (id, _) = self.names.insert_full(copy)?;
        Ok(id as u32)
    }
}
