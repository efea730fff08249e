//! A plan's nodes made again, each behind those that it reads within a cycle: a walk in depth, of whose order nothing
//! is promised, and then passes over all nodes until none is left.

ghost use Rattle.std.specs.Prelude.{◌≡◌, ℕ, ◌+◌, ◌<◌, ◌≤◌, ◌^◌, None, All, OnOk, IfOk, length, replicate};
ghost use Rattle.eq_blast.specs.inner.Sorting.{IsGrounded, IsWithin};
ghost use Rattle.eq_blast.specs.inner.Underway.{AreComplete, AreMade, IsDone, IsUnderway, WerePassed};

use crate::placing::{Placing, new_of};
use eq_base::Memory;
use eq_bits::{Builder, Node};
use std::alloc::Global;

/// A place for each node, none of which is made.
fn no_places(alloc: Global, size: usize) -> Result<Vec<Option<u32>>, Memory>
    ensures { IfOk result (λ places. places.items ≡ replicate size None) }
{
    vec![in alloc; None; size]
}

impl Placing {
    /// Nothing is made.
    fn new(alloc: Global, plan: &[Node]) -> Result<Placing, Memory>
        requires { length plan.now < 2 ^ 32 }
        ensures { IfOk result (λ p. IsUnderway plan.now p) }
    {
        let places = no_places(alloc, plan.len())?;
        Ok(Placing {
            builder: Builder::new(alloc)?,
            places,
            left: plan.len() as u32,
        })
    }

    /// Makes the node on top of the stack, or puts on top a node that it waits for.
    fn turn(&mut self, plan: &[Node], stack: &mut Vec<u32>) -> Result<(), Memory>
        requires placing { IsUnderway plan.now self.old }
        requires within { IsWithin plan.now }
        requires few { length plan.now < 2 ^ 32 }
        requires stack { All (λ m. m < length plan.now) stack.old.items }
        ensures ok { OnOk result (IsUnderway plan.now self.new) }
        ensures stack { OnOk result (All (λ m. m < length plan.now) stack.new.items) }
    {
        if let Some(top) = stack.pop() {
            if let Some(operand) = self.advance(plan, top)? {
                stack.push(top)?;
                stack.push(operand)?;
            }
        }
        Ok(())
    }

    /// Makes a node behind all that it reads. Each turn makes a node or puts one more on the stack, and each node comes
    /// there once, so two turns a node are enough.
    fn descend(&mut self, plan: &[Node], stack: &mut Vec<u32>, root: u32) -> Result<(), Memory>
        requires placing { IsUnderway plan.now self.old }
        requires within { IsWithin plan.now }
        requires few { length plan.now < 2 ^ 32 }
        requires root { root < length plan.now }
        requires stack { All (λ m. m < length plan.now) stack.old.items }
        ensures ok { OnOk result (IsUnderway plan.now self.new) }
        ensures stack { OnOk result (All (λ m. m < length plan.now) stack.new.items) }
    {
        stack.push(root)?;
        for _ in 0..2 * plan.len() {
            if stack.is_empty() {
                break;
            }
            self.turn(plan, stack)?;
        }
        Ok(())
    }

    /// Makes inputs and registers, in order.
    fn hold(&mut self, plan: &[Node]) -> Result<(), Memory>
        requires placing { IsUnderway plan.now self.old }
        requires within { IsWithin plan.now }
        requires few { length plan.now < 2 ^ 32 }
        ensures { OnOk result (IsUnderway plan.now self.new) }
    {
        for (m, node) in plan.iter().enumerate() {
            if matches!(node, Node::Input(_) | Node::Reg { .. }) {
                self.advance(plan, m as u32)?;
            }
        }
        Ok(())
    }

    /// Makes all nodes by a walk in depth.
    fn walk(&mut self, alloc: Global, plan: &[Node]) -> Result<(), Memory>
        requires placing { IsUnderway plan.now self.old }
        requires within { IsWithin plan.now }
        requires few { length plan.now < 2 ^ 32 }
        ensures { OnOk result (IsUnderway plan.now self.new) }
    {
        let mut stack = Vec::new(alloc);
        for m in 0..plan.len() as u32 {
            self.descend(plan, &mut stack, m)?;
        }
        Ok(())
    }

    /// Tries each node once.
    fn pass(&mut self, plan: &[Node]) -> Result<(), Memory>
        requires placing { IsUnderway plan.now self.old }
        requires within { IsWithin plan.now }
        requires few { length plan.now < 2 ^ 32 }
        ensures ok { OnOk result (IsUnderway plan.now self.new) }
        ensures passed { OnOk result (WerePassed plan.now self.old self.new (length plan.now)) }
    {
        for m in 0..plan.len() as u32 {
            self.advance(plan, m)?;
        }
        Ok(())
    }

    /// Makes what is left.
    fn settle(&mut self, plan: &[Node]) -> Result<(), Memory>
        requires placing { IsUnderway plan.now self.old }
        requires within { IsWithin plan.now }
        requires grounded { IsGrounded plan.now }
        requires few { length plan.now < 2 ^ 32 }
        ensures { OnOk result (AreMade plan.now self.new) }
    {
        while self.left > 0 {
            self.pass(plan)?;
        }
        Ok(())
    }

    /// Gives a register its next node.
    fn link(&mut self, plan: &[Node], m: u32)
        requires placing { AreMade plan.now self.old }
        requires within { IsWithin plan.now }
        requires node { m < length plan.now }
        requires linked { AreComplete plan.now self.old m }
        ensures placing { AreMade plan.now self.new }
        ensures linked { AreComplete plan.now self.new (m + 1) }
    {
        if let Node::Reg { next, .. } = plan[m as usize] {
            let register = new_of(&self.places, m);
            let next = new_of(&self.places, next);
            self.builder.set_next(register, next);
        }
    }

    /// Gives each register its next node.
    fn link_all(&mut self, plan: &[Node])
        requires placing { AreMade plan.now self.old }
        requires within { IsWithin plan.now }
        requires few { length plan.now < 2 ^ 32 }
        ensures { IsDone plan.now self.new }
    {
        for m in 0..plan.len() as u32 {
            self.link(plan, m);
        }
    }
}

/// Makes the plan's nodes again, each behind those that it reads within a cycle.
pub fn sort(alloc: Global, plan: &[Node]) -> Result<Placing, Memory>
    requires within { IsWithin plan.now }
    requires grounded { IsGrounded plan.now }
    requires few { length plan.now < 2 ^ 32 }
    ensures { IfOk result (λ p. IsDone plan.now p) }
{
    let mut placing = Placing::new(alloc, plan)?;
    placing.hold(plan)?;
    placing.walk(alloc, plan)?;
    placing.settle(plan)?;
    placing.link_all(plan);
    Ok(placing)
}
