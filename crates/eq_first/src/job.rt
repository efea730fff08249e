//! The configuration of the first form.

ghost use Rattle.std.specs.Prelude.{◌≡◌, IfOk, IfSome, IfNone};
ghost use Rattle.eq_names.specs.Name.{IsName};
ghost use Rattle.eq_first.specs.declared.job.Job.{Job as JobValue};
ghost use Rattle.eq_first.specs.Configuration.{IsJob, IsSide};
ghost use Rattle.eq_first.specs.JobWords.{side_of, job_of, HasNames};

use crate::lines::{JobWords, SideWords, words};
use eq_base::Memory;
use eq_names::{Name, NameErr};
use std::alloc::{AllocError, Global};

/// One design of the two: the file it stands in, and its top module.
#[derive(Debug, Drop)]
pub struct Side {
    pub file: Name,
    pub top: Name,
}

/// What a configuration of the first form asks for.
#[derive(Debug, Drop)]
pub struct Job {
    pub gold: Side,
    pub gate: Side,
    pub strategy: Name,
    pub depth: u32,
}

/// A name of its own, where the text is one.
pub(crate) fn owned(alloc: Global, text: &[u8]) -> Result<Name, Memory>
    requires { IsName text.now }
    ensures { IfOk result (λ name. name ≡ text.now) }
{
    match Name::read(alloc, text) {
        Ok(name) => Ok(name),
        Err(NameErr::Memory) => Err(AllocError),
        Err(NameErr::Empty) => unreachable!(),
        Err(NameErr::BadByte { .. }) => unreachable!(),
    }
}

fn owned_side(alloc: Global, words: SideWords) -> Result<Side, Memory>
    requires { IsSide (side_of words) }
    ensures { IfOk result (λ side. side ≡ side_of words.entry) }
{
    Ok(Side {
        file: owned(alloc, words.file)?,
        top: owned(alloc, words.top)?,
    })
}

fn owned_job(alloc: Global, words: JobWords) -> Result<Job, Memory>
    requires { HasNames (job_of words) }
    ensures { IfOk result (λ job. job ≡ job_of words.entry) }
{
    Ok(Job {
        gold: owned_side(alloc, words.gold)?,
        gate: owned_side(alloc, words.gate)?,
        strategy: owned(alloc, words.strategy)?,
        depth: words.depth,
    })
}

/// The job that a whole text asks for. `None` exactly where the text isn't a configuration of the first form.
pub fn read_job(alloc: Global, text: &[u8]) -> Result<Option<Job>, Memory>
    ensures some { IfOk result (λ r. IfSome r (IsJob text.now)) }
    ensures none { IfOk result (λ r. IfNone r ((job : JobValue) → IsJob text.now job → ⊥)) }
{
    match words(text) {
        None => Ok(None),
        Some(words) => Ok(Some(owned_job(alloc, words)?)),
    }
}
