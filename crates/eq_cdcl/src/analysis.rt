//! Conflict analysis: which literals are resolved away and which are kept.
ghost use Rattle.std.specs.Prelude.{◌≡◌, ◌<◌, ◌≤◌, ◌+◌, ◌^◌, ◌↔◌, suc, true, false, ℕ, [], length, slice_get, slice_set, Some, IsTrue, IfOk, OnOk};
ghost use Rattle.eq_cdcl.specs.inner.Sound.{IsSound};
ghost use Rattle.eq_cdcl.specs.inner.Found.{IsConflict};
ghost use Rattle.eq_cdcl.specs.inner.Resolved.{marked, opens, IsResolved};
ghost use Rattle.eq_cdcl.specs.inner.Asserting.{IsLastDecision, HasNoDecision, Keeps, Settles, Asserts};

use crate::heuristics::Heuristics;
use crate::known::Known;
use crate::levels::root_len;
use crate::marking::{is_marked, mark_all};
use crate::trail::{Reason, Trail};
use eq_base::{Bits, Items, Memory};
use eq_proof::Lit;
use std::alloc::Global;

/// The analysis of a conflict, which goes down the trail.
#[derive(Debug, Drop)]
pub struct Analysis {
    /// The places on the trail whose literals are still to be resolved away or kept.
    pub marks: Bits,
    /// The learned clause's literals so far.
    pub kept: Items<Lit>,
    /// The antecedents so far, the last first.
    pub ants: Vec<u64>,
}

impl Analysis {
    /// Nothing is done yet.
    pub fn new(alloc: Global, marks: Bits) -> Analysis
        ensures marks { result.marks ≡ marks }
        ensures kept { result.kept ≡ [] }
        ensures ants { result.ants.items ≡ [] }
    {
        Analysis {
            marks,
            kept: Items::new(alloc),
            ants: Vec::new(alloc),
        }
    }

    /// Begins with the clause that is falsified, and answers how many of its literals are from the place `start` on.
    pub fn begin(
        &mut self,
        trail: &Trail,
        known: &Known<'_>,
        heuristics: &mut Heuristics,
        conflict: u64,
        start: usize,
    ) -> Result<usize, Memory>
        requires sound { IsSound known.now trail.now }
        requires conflict { IsConflict known.now trail.now.lits conflict }
        requires clear { (p : ℕ) → marked self.old.marks p ≡ false }
        requires room { length trail.now.lits ≤ length self.old.marks }
        requires kept { self.old.kept ≡ [] }
        requires ants { self.old.ants.items ≡ [] }
        ensures resolved { OnOk result (IsResolved known.now trail.now.lits
            (length trail.now.lits) self.new.marks [] self.new.ants.items) }
        ensures counted { IfOk result
            (λ more. opens self.new.marks start (length trail.now.lits) ≡ more) }
        ensures some { IfOk result
            (λ more. slice_get trail.now.reasons start ≡ Some Reason.Decision → 1 ≤ more) }
        ensures kept { OnOk result (self.new.kept ≡ []) }
        ensures room { OnOk result (length self.new.marks ≡ length self.old.marks) }
    {
        let more = mark_all(
            &mut self.marks,
            trail,
            known.numbered(conflict),
            start,
            trail.len(),
            heuristics,
        );
        self.ants.push(conflict)?;
        Ok(more)
    }

    /// Resolves literals of the last level away, of which `count` are marked, until one is left, and answers its place.
    pub fn find_uip(
        &mut self,
        trail: &Trail,
        known: &Known<'_>,
        heuristics: &mut Heuristics,
        count: usize,
        start: usize,
    ) -> Result<usize, Memory>
        requires sound { IsSound known.now trail.now }
        requires start { IsLastDecision trail.now.reasons start }
        requires some { 1 ≤ count }
        requires counted { opens self.old.marks start (length trail.now.lits) ≡ count }
        requires resolved { IsResolved known.now trail.now.lits
            (length trail.now.lits) self.old.marks [] self.old.ants.items }
        requires kept { self.old.kept ≡ [] }
        ensures resolved { IfOk result
            (λ uip. IsResolved known.now trail.now.lits
            (suc uip) self.new.marks [] self.new.ants.items) }
        ensures last { IfOk result (λ uip. opens self.new.marks start uip ≡ 0) }
        ensures from { IfOk result (λ uip. start ≤ uip) }
        ensures within { IfOk result (λ uip. uip < length trail.now.lits) }
        ensures kept { OnOk result (self.new.kept ≡ []) }
        ensures room { OnOk result (length self.new.marks ≡ length self.old.marks) }
    {
        let mut count = count;
        for place in (start..trail.len()).rev() {
            if !is_marked(&self.marks, place) {
                continue;
            }
            if count == 1 {
                return Ok(place);
            }
            match trail.reason(place) {
                Reason::Implied(number) => {
                    let more = self.resolve(trail, known, heuristics, place, number, start)?;
                    count = count - 1 + more;
                }
                Reason::Decision => unreachable!(),
            }
        }
        unreachable!()
    }

    /// Keeps the literals below the unique implication point, and answers where the level above theirs begins.
    ///
    /// Literals of level 0 are resolved away.
    pub fn collect(
        &mut self,
        trail: &Trail,
        known: &Known<'_>,
        heuristics: &mut Heuristics,
        uip: usize,
        start: usize,
    ) -> Result<usize, Memory>
        requires sound { IsSound known.now trail.now }
        requires within { uip < length trail.now.lits }
        requires resolved { IsResolved known.now trail.now.lits uip self.old.marks self.old.kept self.old.ants.items }
        requires asserts { Asserts trail.now.lits trail.now.reasons uip uip self.old.marks self.old.kept start }
        ensures resolved { OnOk result
            (IsResolved known.now trail.now.lits 0 self.new.marks self.new.kept self.new.ants.items) }
        ensures asserts { IfOk result
            (λ cut. Asserts trail.now.lits trail.now.reasons uip 0 self.new.marks self.new.kept cut) }
        ensures room { OnOk result (length self.new.marks ≡ length self.old.marks) }
    {
        let root = root_len(trail);
        let mut cut = start;
        for place in (0..uip).rev() {
            self.settle(trail, known, heuristics, place, root)?;
            if self.begins_level(trail, place) {
                cut = place;
            }
        }
        Ok(cut)
    }

    /// Resolves all literals away.
    pub fn refute(
        &mut self,
        trail: &Trail,
        known: &Known<'_>,
        heuristics: &mut Heuristics,
    ) -> Result<(), Memory>
        requires sound { IsSound known.now trail.now }
        requires root { HasNoDecision trail.now.reasons }
        requires resolved { IsResolved known.now trail.now.lits
            (length trail.now.lits) self.old.marks [] self.old.ants.items }
        requires kept { self.old.kept ≡ [] }
        ensures resolved { OnOk result
            (IsResolved known.now trail.now.lits 0 self.new.marks [] self.new.ants.items) }
    {
        for place in (0..trail.len()).rev() {
            if !is_marked(&self.marks, place) {
                continue;
            }
            match trail.reason(place) {
                Reason::Implied(number) => {
                    let _ = self.resolve(trail, known, heuristics, place, number, place)?;
                }
                Reason::Decision => unreachable!(),
            }
        }
        Ok(())
    }

    /// Keeps the negation of the literal at a place.
    pub fn keep(&mut self, trail: &Trail, place: usize) -> Result<(), Memory>
        requires within { place < length trail.now.lits }
        requires room { place < length self.old.marks }
        ensures kept { OnOk result (Keeps trail.now.lits place self.old.kept self.new.kept) }
        ensures marks { OnOk result (self.new.marks ≡ slice_set self.old.marks place false) }
        ensures ants { self.new.ants ≡ self.old.ants }
    {
        self.marks.set(place, false);
        self.kept.push(trail.lit(place).negation())
    }

    // Whether a level begins at a place where no other literal of it or of a lower one has been kept yet.
    fn begins_level(&self, trail: &Trail, place: usize) -> bool
        requires { place < length trail.now.reasons }
        ensures { IsTrue result ↔ ((length self.now.kept ≡ 1) ×
            (slice_get trail.now.reasons place ≡ Some Reason.Decision)) }
    {
        match trail.reason(place) {
            Reason::Decision => self.kept.len() == 1,
            Reason::Implied(_) => false,
        }
    }

    // Resolves a marked literal of level 0 away, and keeps any other.
    fn settle(
        &mut self,
        trail: &Trail,
        known: &Known<'_>,
        heuristics: &mut Heuristics,
        place: usize,
        root: usize,
    ) -> Result<(), Memory>
        requires sound { IsSound known.now trail.now }
        requires within { place < length trail.now.lits }
        requires resolved { IsResolved known.now trail.now.lits
            (suc place) self.old.marks self.old.kept self.old.ants.items }
        ensures resolved { OnOk result
            (IsResolved known.now trail.now.lits place self.new.marks self.new.kept self.new.ants.items) }
        ensures settles { OnOk result
            (Settles trail.now.lits place self.old.marks self.new.marks self.old.kept self.new.kept) }
        ensures room { OnOk result (length self.new.marks ≡ length self.old.marks) }
    {
        if !is_marked(&self.marks, place) {
            return Ok(());
        }
        match trail.reason(place) {
            Reason::Decision => self.keep(trail, place),
            Reason::Implied(number) => {
                if root <= place {
                    self.keep(trail, place)
                } else {
                    let _ = self.resolve(trail, known, heuristics, place, number, place)?;
                    Ok(())
                }
            }
        }
    }

    // Resolves the literal at a place away by its reason, and answers how many more places from `start` on are marked.
    fn resolve(
        &mut self,
        trail: &Trail,
        known: &Known<'_>,
        heuristics: &mut Heuristics,
        place: usize,
        number: u32,
        start: usize,
    ) -> Result<usize, Memory>
        requires sound { IsSound known.now trail.now }
        requires within { place < length trail.now.lits }
        requires few { place + 1 < 2 ^ 64 }
        requires reason { slice_get trail.now.reasons place ≡ Some (Reason.Implied number) }
        requires marked { marked self.old.marks place ≡ true }
        requires resolved { IsResolved known.now trail.now.lits
            (suc place) self.old.marks self.old.kept self.old.ants.items }
        ensures resolved { OnOk result
            (IsResolved known.now trail.now.lits place self.new.marks self.old.kept self.new.ants.items) }
        ensures counted { IfOk result (λ more. start ≤ place →
            opens self.new.marks start place + 1 ≡ opens self.old.marks start (suc place) + more) }
        ensures kept { self.new.kept ≡ self.old.kept }
        ensures room { OnOk result (length self.new.marks ≡ length self.old.marks) }
    {
        let clause = u64::from(number);
        let more = mark_all(
            &mut self.marks,
            trail,
            known.numbered(clause),
            start,
            place + 1,
            heuristics,
        );
        self.marks.set(place, false);
        self.ants.push(clause)?;
        Ok(more)
    }
}
