//! Marks of places on the trail.
ghost use Rattle.std.specs.Prelude.{◌≡◌, ◌<◌, ◌≤◌, ◌+◌, ◌∷◌, [], length, take, replicate, false, All, IfOk};
ghost use Rattle.eq_cdcl.specs.inner.Slots.{HasVariable};
ghost use Rattle.eq_cdcl.specs.inner.Sound.{AreApart};
ghost use Rattle.eq_cdcl.specs.inner.Resolved.{marked, opens, MarksToo};

use crate::heuristics::Heuristics;
use crate::trail::Trail;
use eq_base::{Bits, Memory};
use eq_proof::Lit;
use std::alloc::Global;

/// Marks for `size` places, all unset.
pub fn unmarked(alloc: Global, size: usize) -> Result<Bits, Memory>
    ensures { IfOk result (λ marks. marks ≡ replicate size false) }
{
    let marks = vec![in alloc; false; size]?;
    Ok(Bits::from_vec(marks))
}

pub fn is_marked(marks: &Bits, place: usize) -> bool
    requires { place < length marks.now }
    ensures { result ≡ marked marks.now place }
{
    marks.as_slice()[place]
}

/// Marks the places of a clause's literals, which are below `end`, and answers how many of those from `start` on are new.
///
/// The scores of the variables that are marked rise.
pub fn mark_all(
    marks: &mut Bits,
    trail: &Trail,
    clause: &[Lit],
    start: usize,
    end: usize,
    heuristics: &mut Heuristics,
) -> usize
    requires apart { AreApart trail.now.lits }
    requires variables { All (λ l. HasVariable (take end trail.now.lits) l.var) clause.now }
    requires room { length trail.now.lits ≤ length marks.old }
    ensures marks { MarksToo trail.now.lits clause.now end marks.old marks.new }
    ensures counted { opens marks.new start end ≡ opens marks.old start end + result }
{
    let mut more = 0;
    for l in clause {
        more += mark(marks, trail, *l, start, end, heuristics);
    }
    more
}

fn mark(
    marks: &mut Bits,
    trail: &Trail,
    l: Lit,
    start: usize,
    end: usize,
    heuristics: &mut Heuristics,
) -> usize
    requires apart { AreApart trail.now.lits }
    requires variable { HasVariable (take end trail.now.lits) l.var }
    requires room { length trail.now.lits ≤ length marks.old }
    ensures marks { MarksToo trail.now.lits (l ∷ []) end marks.old marks.new }
    ensures counted { opens marks.new start end ≡ opens marks.old start end + result }
{
    let place = trail.place(l);
    if is_marked(marks, place) {
        return 0;
    }
    marks.set(place, true);
    heuristics.bump(l);
    if start <= place { 1 } else { 0 }
}
