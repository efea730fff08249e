//! The bits that each word drives, as chains through the bits. Nothing is promised of them: whoever follows a chain looks at
//! each bit's driver.

use crate::types::Driver;
use eq_base::Memory;
use std::alloc::Global;

/// The bits that each word drives, as a chain for each word.
#[derive(Debug, Drop)]
pub struct Chains {
    /// For each word one more than the number of its first bit, 0 where it drives none.
    pub first: Vec<u32>,
    /// For each bit the same of the next bit of its word.
    pub next: Vec<u32>,
}

/// The chains of all words.
pub fn driven_chains(alloc: Global, drivers: &[Driver], words: usize) -> Result<Chains, Memory> {
    let mut first = vec![in alloc; 0_u32; words]?;
    let mut next = Vec::with_capacity(alloc, drivers.len())?;
    let mut link: u32 = 0;
    for driver in drivers {
        link = link.saturating_add(1);
        match driver {
            Driver::Expr { word, .. } => {
                let word = *word as usize;
                if word < first.len() {
                    next.push(first[word])?;
                    first[word] = link;
                } else {
                    next.push(0)?;
                }
            }
            Driver::Input => next.push(0)?,
            Driver::Undriven => next.push(0)?,
            Driver::Reg { .. } => next.push(0)?,
        }
    }
    Ok(Chains { first, next })
}

/// The link at a place.
pub fn link_at(links: &Vec<u32>, at: usize) -> u32 {
    match links.get(at) {
        Some(link) => *link,
        None => 0,
    }
}
