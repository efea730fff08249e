//! The variables to decide, that of the highest score first: a binary heap.
//!
//! No clause says that it is one. What is read of it is checked where it is used.
ghost use Rattle.std.specs.Prelude.{◌≡◌, ◌<◌, ◌≤◌, ◌+◌, length, IfSome};

use crate::activity::Activity;
use eq_base::Memory;
use std::alloc::Global;

/// Variables in a heap, and where each stands.
#[derive(Debug, Drop)]
pub struct Order {
    /// No variable has a higher score than that at half its place.
    heap: Vec<u32>,
    /// For each variable one more than its place in the heap, 0 where it isn't there.
    places: Vec<u32>,
}

impl Order {
    /// All variables from 1 to `vars`, whose scores are equal.
    pub fn new(alloc: Global, vars: u32) -> Result<Order, Memory> {
        let mut order = Order {
            heap: Vec::with_capacity(alloc, vars as usize)?,
            places: vec![in alloc; 0; vars as usize + 1]?,
        };
        for before in 0..vars {
            order.append(before + 1)?;
        }
        Ok(order)
    }

    /// Takes out the variable of the highest score.
    pub fn pop(&mut self, activity: &Activity) -> Option<u32>
        ensures { IfSome result (λ var. length self.new.heap.items < length self.old.heap.items) }
    {
        let last = self.heap.pop()?;
        self.set_place(last, 0);
        let Some(&first) = self.heap.first() else {
            return Some(last);
        };
        self.set_place(first, 0);
        self.put(0, last);
        self.sink(activity);
        Some(first)
    }

    /// Puts a variable in, unless it is there.
    pub fn insert(&mut self, activity: &Activity, var: u32) -> Result<(), Memory> {
        if self.place(var) == 0 {
            self.append(var)?;
            self.rise(activity, var);
        }
        Ok(())
    }

    /// The score of a variable rose.
    pub fn rise(&mut self, activity: &Activity, var: u32) {
        let mut at = self.place(var) as usize;
        while 1 < at {
            let parent = at / 2;
            if !self.is_before(activity, at - 1, parent - 1) {
                return;
            }
            self.exchange(at - 1, parent - 1);
            at = parent;
        }
    }

    // The first variable goes down to where its score belongs.
    fn sink(&mut self, activity: &Activity)
        ensures { length self.new.heap.items ≡ length self.old.heap.items }
    {
        let mut at = 0;
        while at < self.heap.len() {
            let child = self.larger_child(activity, at);
            if !self.is_before(activity, child, at) {
                return;
            }
            self.exchange(at, child);
            at = child;
        }
    }

    // The child of the higher score. One that isn't in the heap is below all that are.
    fn larger_child(&self, activity: &Activity, at: usize) -> usize
        requires { at < length self.now.heap.items }
        ensures { at < result }
    {
        let child = at.saturating_mul(2).saturating_add(1);
        let other = child.saturating_add(1);
        if self.is_before(activity, other, child) {
            other
        } else {
            child
        }
    }

    // Whether the variable at a place has a higher score than that at another.
    fn is_before(&self, activity: &Activity, at: usize, other: usize) -> bool {
        match (self.heap.get(at), self.heap.get(other)) {
            (Some(a), Some(b)) => activity.score(*b) < activity.score(*a),
            _ => false,
        }
    }

    // Exchanges the variables at two places.
    fn exchange(&mut self, at: usize, other: usize)
        ensures { length self.new.heap.items ≡ length self.old.heap.items }
    {
        let (Some(&a), Some(&b)) = (self.heap.get(at), self.heap.get(other)) else {
            return;
        };
        self.put(at, b);
        self.put(other, a);
    }

    // Puts a variable at a place.
    fn put(&mut self, at: usize, var: u32)
        ensures { length self.new.heap.items ≡ length self.old.heap.items }
    {
        if let Some(item) = self.heap.get_mut(at) {
            *item = var;
        }
        self.set_place(var, short(at).saturating_add(1));
    }

    // Puts a variable at the end.
    fn append(&mut self, var: u32) -> Result<(), Memory> {
        self.heap.push(var)?;
        let place = short(self.heap.len());
        self.set_place(var, place);
        Ok(())
    }

    fn place(&self, var: u32) -> u32 {
        self.places.get(var as usize).copied().unwrap_or(0)
    }

    fn set_place(&mut self, var: u32, place: u32)
        ensures { self.new.heap ≡ self.old.heap }
    {
        if let Some(item) = self.places.get_mut(var as usize) {
            *item = place;
        }
    }
}

// A place as it is kept. There are fewer than 2^32 variables.
fn short(at: usize) -> u32 {
    u32::try_from(at).unwrap_or(u32::MAX)
}
