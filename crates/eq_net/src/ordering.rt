//! An order of the words in which each stands behind those that it reads. Nothing is promised of it: a word is evaluated only
//! where all that it reads has its value, and what is left is computed bit by bit.

use crate::net::Net;
use crate::types::{Driver, Word};
use eq_base::Memory;
use eq_names::BitName;
use std::alloc::Global;

/// For each word the words whose bits it reads or picks, all in one row.
#[derive(Debug, Drop)]
struct Needs {
    words: Vec<u32>,
    /// Where the needs of each word end in the row.
    ends: Vec<usize>,
}

/// The word that drives a named bit.
fn driving(name: BitName, drivers: &[Driver], starts: &[u32]) -> Option<u32> {
    let start = starts.get(name.net as usize)?;
    match drivers.get(*start as usize + name.bit as usize)? {
        Driver::Expr { word, .. } => Some(*word),
        Driver::Input => None,
        Driver::Undriven => None,
        Driver::Reg { .. } => None,
    }
}

/// Puts a word at the end of a row, unless it stands there.
fn need(word: u32, row: &mut Vec<u32>) -> Result<(), Memory> {
    if row.last() != Some(&word) {
        row.push(word)?;
    }
    Ok(())
}

/// Puts the words that a word needs at the end of a row.
#[cycle(collecting)]
fn collect(
    word: &Word,
    drivers: &[Driver],
    starts: &[u32],
    row: &mut Vec<u32>,
) -> Result<(), Memory> {
    match word {
        Word::Const(_) => Ok(()),
        Word::Read(names) => {
            for name in names.as_slice() {
                if let Some(driving) = driving(*name, drivers, starts) {
                    need(driving, row)?;
                }
            }
            Ok(())
        }
        Word::Pick(bits) => {
            for bit in bits.as_slice() {
                need(bit.word, row)?;
            }
            Ok(())
        }
        Word::Not(a) => collect(a.get(), drivers, starts, row),
        Word::Neg(a) => collect(a.get(), drivers, starts, row),
        Word::Binary(_, a, b) => {
            collect(a.get(), drivers, starts, row)?;
            collect(b.get(), drivers, starts, row)
        }
        Word::Reduce(_, a) => collect(a.get(), drivers, starts, row),
        Word::Mux(c, a, b) => {
            collect(c.get(), drivers, starts, row)?;
            collect(a.get(), drivers, starts, row)?;
            collect(b.get(), drivers, starts, row)
        }
        Word::Concat(parts) => collect_all(parts.as_slice(), drivers, starts, row),
        Word::Extend(a, _) => collect(a.get(), drivers, starts, row),
    }
}

/// Puts the words that a list of words needs at the end of a row.
#[cycle(collecting)]
fn collect_all(
    parts: &[Word],
    drivers: &[Driver],
    starts: &[u32],
    row: &mut Vec<u32>,
) -> Result<(), Memory> {
    for part in parts {
        collect(part, drivers, starts, row)?;
    }
    Ok(())
}

fn all_needs(alloc: Global, net: &Net, starts: &[u32]) -> Result<Needs, Memory> {
    let mut words = Vec::new(alloc);
    let mut ends = Vec::new(alloc);
    for word in net.words.as_slice() {
        collect(word, net.drivers.as_slice(), starts, &mut words)?;
        ends.push(words.len())?;
    }
    Ok(Needs { words, ends })
}

impl Needs {
    fn begin(&self, word: u32) -> usize {
        if word == 0 {
            return 0;
        }
        self.end(word - 1)
    }

    fn end(&self, word: u32) -> usize {
        match self.ends.get(word as usize) {
            Some(end) => *end,
            None => 0,
        }
    }
}

/// A walk in depth through the needs of words.
#[derive(Debug, Drop)]
struct Walk {
    /// The words that are entered and not left, each with the place of its next need.
    entered: Vec<(u32, usize)>,
    seen: Vec<bool>,
    /// The words that are left.
    order: Vec<u32>,
    /// The next word that the walk may begin at.
    root: u32,
}

impl Walk {
    /// Enters a word for the first time.
    fn enter(&mut self, needs: &Needs, word: u32) -> Result<(), Memory> {
        let place = word as usize;
        if place < self.seen.len() && !self.seen[place] {
            self.seen[place] = true;
            self.entered.push((word, needs.begin(word)))?;
        }
        Ok(())
    }

    /// Looks at one need, leaves a word, or begins anew.
    fn turn(&mut self, needs: &Needs) -> Result<(), Memory> {
        match self.entered.pop() {
            Some((word, at)) => {
                if at < needs.end(word) && at < needs.words.len() {
                    self.entered.push((word, at + 1))?;
                    return self.enter(needs, needs.words[at]);
                }
                self.order.push(word)?;
                Ok(())
            }
            None => {
                let root = self.root;
                self.root = root.saturating_add(1);
                self.enter(needs, root)
            }
        }
    }
}

/// The order in which a walk in depth leaves the words. Each need is looked at once, each word is left once, and each may
/// begin the walk.
pub fn word_order(alloc: Global, net: &Net, starts: &[u32]) -> Result<Vec<u32>, Memory> {
    let count = net.words.len();
    let needs = all_needs(alloc, net, starts)?;
    let mut walk = Walk {
        entered: Vec::new(alloc),
        seen: vec![in alloc; false; count]?,
        order: Vec::with_capacity(alloc, count)?,
        root: 0,
    };
    let turns = needs
        .words
        .len()
        .saturating_add(count)
        .saturating_add(count);
    for _ in 0..turns {
        walk.turn(&needs)?;
    }
    Ok(walk.order)
}
