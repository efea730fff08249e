//! The checker of logs.
ghost use Rattle.std.specs.Prelude.{◌≡◌, ◌↔◌, ◌≤◌, ◌<◌, ◌+◌, ◌^◌, ℕ, if◌then◌else◌, IsTrue, All, IfOk, IsErrOf};
ghost use Rattle.eq_proof.specs.Derivation.{AllDerive, IsFirstBad, EndsEmpty, nonempty_of};
ghost use Rattle.eq_proof.specs.Satisfying.{Unsatisfiable};

use crate::derivation::derives;
use crate::earlier::Earlier;
use crate::formula::Formula;
use crate::log::Log;
use crate::trail::Trail;
use crate::variables::highest;
use eq_base::Memory;
use std::alloc::Global;

/// What a log of derivations holds: how many steps have a literal, and whether the last is empty.
#[derive(Clone, Copy, Debug, PartialEq, Eq)]
pub struct Checked {
    pub nonempty: u64,
    pub ends: bool,
}

/// Why a log isn't accepted.
#[derive(Clone, Copy, Debug, PartialEq, Eq)]
pub enum CheckErr {
    /// The first step that isn't a derivation, counted from 0.
    BadStep { index: u32 },
    Memory,
}

impl From<Memory> for CheckErr {
    ghost use Rattle.std.specs.Prelude.{◌≡◌};
    ghost use Rattle.eq_proof.specs.declared.checker.CheckErr.TheVariants.{Memory};

    ghost from_gives = { λ _ e. e ≡ Memory };

    fn from(_: Memory) -> CheckErr {
        CheckErr::Memory
    }
}

/// Whether each step of a log is a derivation from the formula's clauses and those of the steps before it.
///
/// The cost is linear in the literals of the steps and of the antecedents that they visit, and in the
/// highest variable, of which each has a mark of one byte.
pub fn check(alloc: Global, f: &Formula, log: &Log) -> Result<Checked, CheckErr>
    ensures bad { (index : ℕ) → IsErrOf result (CheckErr.BadStep index) → IsFirstBad f.now.clauses log.now index }
    ensures good { IfOk result (λ _. AllDerive f.now.clauses log.now) }
    ensures nonempty { IfOk result (λ checked. checked.nonempty ≡ nonempty_of log.now) }
    ensures ends { IfOk result (λ checked. IsTrue checked.ends ↔ EndsEmpty log.now) }
    ensures refuted { IfOk result (λ checked. IsTrue checked.ends → Unsatisfiable f.now.clauses) }
{
    let most = f.vars.max(highest(log));
    let mut trail = Trail::new(alloc, most as usize + 1)?;
    let mut checked = Checked {
        nonempty: 0,
        ends: false,
    };
    for index in 0..log.len() {
        let step = log.at(index);
        let before = Earlier::new(f, log, index);
        if !derives(&mut trail, &before, step.clause, step.ants)? {
            return Err(CheckErr::BadStep { index });
        }
        checked = counted(checked, step.clause.is_empty());
    }
    Ok(checked)
}

// The count with one step more, which is empty or not.
fn counted(checked: Checked, empty: bool) -> Checked
    requires { checked.nonempty + 1 < 2 ^ 64 }
    ensures nonempty { result.nonempty ≡ checked.nonempty + (if empty then 0 else 1) }
    ensures ends { result.ends ≡ empty }
{
    Checked {
        nonempty: if empty {
            checked.nonempty
        } else {
            checked.nonempty + 1
        },
        ends: empty,
    }
}
