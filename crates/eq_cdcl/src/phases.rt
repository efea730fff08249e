//! The value that a variable had last (Pipatsrisawat, Darwiche, 'A Lightweight Component Caching Scheme', 2007).
use eq_base::Memory;
use eq_proof::Lit;
use std::alloc::Global;

/// For each variable the sign of its last literal on the trail.
#[derive(Debug, Drop)]
pub struct Phases {
    signs: Vec<bool>,
}

impl Phases {
    /// All variables below `size` are decided negative at first.
    pub fn new(alloc: Global, size: usize) -> Result<Phases, Memory> {
        Ok(Phases {
            signs: vec![in alloc; false; size]?,
        })
    }

    pub fn sign(&self, var: u32) -> bool {
        self.signs.get(var as usize).copied().unwrap_or(false)
    }

    pub fn save(&mut self, l: Lit) {
        if let Some(sign) = self.signs.get_mut(l.var() as usize) {
            *sign = l.positive();
        }
    }
}
