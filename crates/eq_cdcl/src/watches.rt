//! Which literals a clause watches, and which clauses watch a literal.
ghost use Rattle.std.specs.Prelude.{◌≡◌, ◌<◌, [], ◌∷◌, ◌++◌, Some, All, length, slice_get, slice_index_or, IfOk, OnOk, MatchOption, min};
ghost use Rattle.eq_proof.specs.Literal.{code_of};
ghost use Rattle.eq_cdcl.specs.inner.Slots.{IsProper};
ghost use Rattle.eq_cdcl.specs.inner.Watched.{HasLiteral, IsAttached, IsMoved, IsOther, list_of};
ghost use Rattle.eq_cdcl.specs.inner.Listing.{IsAdded, IsOneLess, IsTakenOut};

use crate::short::short;
use eq_base::{Items, Memory};
use eq_proof::Lit;
use std::alloc::Global;

/// A clause that watches a literal, and another literal of it: where that is true, nothing has to be done.
#[derive(Clone, Copy, Debug)]
pub struct Watch {
    /// The clause's place from 0.
    pub clause: u32,
    pub blocker: Lit,
}

/// The two literals that a clause watches. A clause that is true for good may have one twice.
#[derive(Clone, Copy, Debug)]
pub struct Pair {
    pub first: Lit,
    pub second: Lit,
}

impl Pair {
    /// The literal beside a literal of the pair.
    pub fn other(&self, l: Lit) -> Option<Lit>
        ensures { MatchOption result (¬ HasLiteral self.now l) (λ other. IsOther self.now l other) }
    {
        if self.first == l {
            Some(self.second)
        } else if self.second == l {
            Some(self.first)
        } else {
            None
        }
    }
}

/// The pair of each clause, and for each literal the clauses that watch it.
#[derive(Debug, Drop)]
pub struct Watches {
    pub pairs: Vec<Pair>,
    /// The list of a literal stands at twice its variable, and one more where it is negative.
    pub lists: Vec<Items<Watch>>,
    /// How many literals of the trail have been visited.
    pub head: usize,
}

impl Watches {
    /// No clause watches one of this many literals.
    pub fn new(alloc: Global, literals: usize) -> Result<Watches, Memory>
        ensures pairs { IfOk result (λ watches. watches.pairs.items ≡ []) }
        ensures len { IfOk result (λ watches. length watches.lists.items ≡ literals) }
        ensures lists { IfOk result (λ watches. All (λ list. list ≡ []) watches.lists.items) }
        ensures head { IfOk result (λ watches. watches.head ≡ 0) }
    {
        let mut lists = Vec::with_capacity(alloc, literals)?;
        for _ in 0..literals {
            lists.push(Items::new(alloc))?;
        }
        Ok(Watches {
            pairs: Vec::new(alloc),
            lists,
            head: 0,
        })
    }
}

impl Watches {
    /// The pair of the clause at a place.
    pub fn pair(&self, clause: u32) -> Pair
        requires { clause < length self.now.pairs.items }
        ensures { slice_get self.now.pairs.items clause ≡ Some result }
    {
        self.pairs[clause as usize]
    }

    /// How many entries a literal's list has.
    pub fn entries(&self, l: Lit) -> usize
        requires { code_of l < length self.now.lists.items }
        ensures { result ≡ length (list_of self.now.lists.items l) }
    {
        self.lists[number_of(l)].len()
    }

    /// An entry of a literal's list.
    pub fn entry(&self, l: Lit, i: usize) -> Watch
        requires list { code_of l < length self.now.lists.items }
        requires within { i < length (list_of self.now.lists.items l) }
        ensures { slice_get (list_of self.now.lists.items l) i ≡ Some result }
    {
        entry_at(self.lists[number_of(l)].as_slice(), i)
    }

    /// Appends a clause that watches two of its literals.
    pub fn attach(&mut self, first: Lit, second: Lit) -> Result<(), Memory>
        requires first { code_of first < length self.old.lists.items }
        requires second { code_of second < length self.old.lists.items }
        ensures ok { OnOk result (IsAttached self.old.pairs.items self.old.lists.items
            self.new.pairs.items self.new.lists.items first second) }
        ensures head { self.new.head ≡ self.old.head }
    {
        let clause = short(self.pairs.len() as u64)?;
        add(
            &mut self.lists,
            number_of(first),
            Watch {
                clause,
                blocker: second,
            },
        )?;
        add(
            &mut self.lists,
            number_of(second),
            Watch {
                clause,
                blocker: first,
            },
        )?;
        self.pairs.push(Pair { first, second })?;
        Ok(())
    }

    /// Appends a clause that is true for good, by this literal, and watches none.
    pub fn attach_root(&mut self, l: Lit) -> Result<(), Memory>
        ensures pairs { OnOk result (self.new.pairs.items ≡
            self.old.pairs.items ++ (record { first = l; second = l }) ∷ []) }
        ensures lists { self.new.lists ≡ self.old.lists }
        ensures head { self.new.head ≡ self.old.head }
    {
        self.pairs.push(Pair {
            first: l,
            second: l,
        })?;
        Ok(())
    }

    /// The clause at a place watches `next` in place of the literal l, whose entry at the place i goes.
    pub fn shift(
        &mut self,
        l: Lit,
        i: usize,
        clause: u32,
        other: Lit,
        next: Lit,
    ) -> Result<(), Memory>
        requires l { code_of l < length self.old.lists.items }
        requires next { code_of next < length self.old.lists.items }
        requires i { i < length (list_of self.old.lists.items l) }
        requires clause { clause < length self.old.pairs.items }
        ensures ok { OnOk result (IsMoved self.old.pairs.items self.old.lists.items
            self.new.pairs.items self.new.lists.items l i clause other next) }
        ensures head { self.new.head ≡ self.old.head }
    {
        take_out(&mut self.lists, number_of(l), i);
        self.pairs[clause as usize] = Pair {
            first: other,
            second: next,
        };
        add(
            &mut self.lists,
            number_of(next),
            Watch {
                clause,
                blocker: other,
            },
        )
    }

    /// Forgets visits of literals that are taken back.
    pub fn go_back(&mut self, len: usize)
        ensures head { self.new.head ≡ min self.old.head len }
        ensures pairs { self.new.pairs ≡ self.old.pairs }
        ensures lists { self.new.lists ≡ self.old.lists }
    {
        if len < self.head {
            self.head = len;
        }
    }
}

// Where a literal's list stands.
fn number_of(l: Lit) -> usize
    ensures value { result ≡ code_of l }
    ensures proper { IsProper l }
{
    2 * l.var() as usize + if l.positive() { 0 } else { 1 }
}

// An entry of a list.
fn entry_at(list: &[Watch], i: usize) -> Watch
    requires { i < length list.now }
    ensures { slice_get list.now i ≡ Some result }
{
    list[i]
}

// Appends an entry to a list.
fn add(lists: &mut Vec<Items<Watch>>, at: usize, watch: Watch) -> Result<(), Memory>
    requires { at < length lists.old.items }
    ensures { OnOk result (IsAdded lists.old.items lists.new.items at watch) }
{
    let list = &mut lists[at];
    list.push(watch)
}

// Takes an entry out of a list. The last one comes into its place.
fn take_out(lists: &mut Vec<Items<Watch>>, at: usize, i: usize)
    requires at { at < length lists.old.items }
    requires i { i < length (slice_index_or lists.old.items at []) }
    ensures { IsTakenOut lists.old.items lists.new.items at i }
{
    let list = &mut lists[at];
    one_less(list, i);
}

fn one_less(list: &mut Items<Watch>, i: usize)
    requires { i < length list.old }
    ensures { IsOneLess list.old list.new i }
{
    if let Some(last) = list.pop() {
        if i < list.len() {
            list.set(i, last);
        }
    }
}
