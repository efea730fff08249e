//! Attempts: the queries of one strategy in order, up to an answer that ends it.

ghost use Rattle.std.specs.Prelude.{◌≡◌, ◌↔◌, ℕ, ◌+◌, ◌*◌, ◌≤◌, [], All, IfOk, IsTrue, length};
ghost use Rattle.eq_unroll.specs.Query.{IsUnrollable};
ghost use Rattle.eq_config.specs.declared.limits.TheConstants.{MOST_CONFLICTS};
ghost use Rattle.eq_induct.specs.Attempts.{IsAttempt, IsUsable, Says};
ghost use Rattle.eq_induct.specs.inner.Courses.{ComesNext, ComesTo, IsOpen};

use crate::asking::{ask, end_of, learned_for};
use crate::laws::an_attempt_is_induction;
use crate::types::{Asked, AskedList, Attempt, End};
use eq_base::Memory;
use eq_bits::Part;
use eq_config::Strategy;
use eq_unroll::{Query, is_unrollable};
use std::alloc::Global;

/// Whether a strategy may be tried on a part.
pub fn is_usable(part: &Part, s: &Strategy) -> bool
    ensures { IsTrue result ↔ IsUsable part.now s.now }
{
    s.conflicts <= 200_000 && is_unrollable(part, s.depth)
}

/// Whether each of these strategies may be tried on a part.
pub fn are_usable(part: &Part, s: &[Strategy]) -> bool
    ensures { IsTrue result ↔ All (IsUsable part.now) s.now }
{
    s.iter().all(|strategy| is_usable(part, strategy))
}

/// The queries asked so far, each with its answer, and how many clauses may still be learned.
#[derive(Drop)]
struct Course {
    asked: AskedList,
    left: u64,
}

impl Course {
    /// Asks one query, and answers how the attempt ends with it, or that it goes on.
    fn ask(
        &mut self,
        alloc: Global,
        part: &Part,
        query: Query,
        k: u32,
    ) -> Result<Option<End>, Memory>
        requires unrollable { IsUnrollable part.now k }
        requires few { self.old.left ≤ MOST_CONFLICTS }
        ensures asks { (depth conflicts : ℕ) → IsOpen part.now depth conflicts self.old →
            ComesNext depth self.old query k →
            IfOk result (ComesTo part.now depth conflicts (length self.old.asked + 1) self.new) }
        ensures less { self.new.left ≤ self.old.left }
    {
        let answer = ask(alloc, part, query, k, self.left)?;
        self.left -= learned_for(&answer);
        let end = end_of(query, k, &answer);
        self.asked.push(Asked { query, k, answer })?;
        Ok(end)
    }

    /// Asks Base and, where that goes on, Step at k cycles.
    fn round(&mut self, alloc: Global, part: &Part, k: u32) -> Result<Option<End>, Memory>
        requires unrollable { IsUnrollable part.now k }
        requires few { self.old.left ≤ MOST_CONFLICTS }
        ensures asks { (depth conflicts : ℕ) → IsOpen part.now depth conflicts self.old →
            k ≤ depth → length self.old.asked + 2 ≡ 2 * k →
            IfOk result (ComesTo part.now depth conflicts (2 * k) self.new) }
        ensures less { self.new.left ≤ self.old.left }
    {
        match self.ask(alloc, part, Query::Base, k)? {
            Some(end) => Ok(Some(end)),
            None => self.ask(alloc, part, Query::Step, k),
        }
    }

    /// Asks at 1 cycle, 2 cycles and so on up to the depth.
    fn run(&mut self, alloc: Global, part: &Part, depth: u32) -> Result<End, Memory>
        requires unrollable { IsUnrollable part.now depth }
        requires few { self.old.left ≤ MOST_CONFLICTS }
        requires first { self.old.asked ≡ [] }
        ensures { IfOk result (λ end. IsAttempt part.now depth self.old.left
            (record { asked = self.new.asked; end = end })) }
    {
        for k in 1..depth + 1 {
            if let Some(end) = self.round(alloc, part, k)? {
                return Ok(end);
            }
        }
        Ok(End::Deep)
    }
}

/// Tries to prove a part by a strategy, whose name and patterns don't matter here.
///
/// The formula of each query is let go of before that of the next is made.
pub fn attempt(alloc: Global, part: &Part, s: &Strategy) -> Result<Attempt, Memory>
    requires { IsUsable part.now s.now }
    ensures ok { IfOk result (IsAttempt part.now s.now.depth s.now.conflicts) }
    ensures says { IfOk result (λ t. Says part.now s.now.depth t.end) }
{
    an_attempt_is_induction();
    let mut course = Course {
        asked: AskedList::new(alloc),
        left: s.conflicts,
    };
    let end = course.run(alloc, part, s.depth)?;
    Ok(Attempt {
        asked: course.asked,
        end,
    })
}
