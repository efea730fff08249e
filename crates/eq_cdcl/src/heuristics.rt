//! What guides the search. No clause speaks of what is decided, and each part can be taken out.
ghost use Rattle.std.specs.Prelude.{◌<◌, length, IfSome};

use crate::activity::Activity;
use crate::order::Order;
use crate::phases::Phases;
use crate::restarts::Restarts;
use eq_base::Memory;
use eq_proof::Lit;
use std::alloc::Global;

/// Scores of the variables, their order, their last values, and when to go back to level 0.
#[derive(Debug, Drop)]
pub struct Heuristics {
    activity: Activity,
    /// Each variable without value is here, as long as memory is ample.
    pub order: Order,
    phases: Phases,
    restarts: Restarts,
}

impl Heuristics {
    /// For the variables from 1 to `vars`.
    pub fn new(alloc: Global, vars: u32) -> Result<Heuristics, Memory> {
        let size = vars as usize + 1;
        Ok(Heuristics {
            activity: Activity::new(alloc, size)?,
            order: Order::new(alloc, vars)?,
            phases: Phases::new(alloc, size)?,
            restarts: Restarts::new(),
        })
    }

    /// The analysis of a conflict marks a variable.
    pub fn bump(&mut self, l: Lit) {
        self.activity.bump(l);
        self.order.rise(&self.activity, l.var());
    }

    /// The analysis of a conflict ends.
    pub fn decay(&mut self) {
        self.activity.decay();
    }

    /// Counts a conflict, and answers whether the search is to go back to level 0.
    pub fn restarts(&mut self) -> bool {
        self.restarts.are_due()
    }

    /// A literal of the trail is taken back.
    pub fn release(&mut self, l: Lit) -> Result<(), Memory> {
        self.phases.save(l);
        self.order.insert(&self.activity, l.var())
    }

    /// The variable of the highest score, and the sign that it had last.
    pub fn next(&mut self) -> Option<(u32, bool)>
        ensures { IfSome result (λ next.
            length self.new.order.heap.items < length self.old.order.heap.items) }
    {
        let var = self.order.pop(&self.activity)?;
        Some((var, self.phases.sign(var)))
    }
}
