//! Which calls of a fake are to fail.
ghost use Rattle.std.specs.Prelude.{◌≡◌, IfOk};
ghost use Rattle.eq_io.specs.Fakes.{no_calls, next_call, next_fails};

use eq_base::Memory;
use std::alloc::Global;
use std::marker::Model;

/// Counts calls, and knows the numbers of those that are to fail.
#[derive(Drop)]
pub(crate) struct CallPlan {
    made: u64,
    failing: Vec<u64>,
}

impl Model for CallPlan {
    ghost use Rattle.eq_io.specs.Fakes.{Calls, calls_code};

    ghost Value = { Calls };

    ghost coded = { calls_code };

    ghost view = { λ p. record { made = p.made; failing = p.failing.items } };
}

impl CallPlan {
    pub(crate) fn new(alloc: Global, failing: &[u64]) -> Result<CallPlan, Memory>
        ensures { IfOk result (λ plan. plan ≡ no_calls failing.now) }
    {
        let failing = Vec::from_slice(alloc, failing)?;
        Ok(CallPlan { made: 0, failing })
    }

    /// Counts one more call, and says whether it is to fail.
    pub(crate) fn next(&mut self) -> bool
        ensures fails { result ≡ next_fails self.old }
        ensures counted { self.new ≡ next_call self.old }
    {
        self.made = self.made.saturating_add(1);
        self.failing.contains(&self.made)
    }
}
