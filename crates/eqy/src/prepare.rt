//! From the words to two designs that can be compared, or to the first refusal.

ghost use Rattle.std.specs.Prelude.{◌≡◌, ◌≤◌, Some, IfOk, IfErr, IsErrOf};
ghost use Rattle.eq_io.specs.Faults.{Rose};
ghost use Rattle.eq_io.specs.Files.{Files};
ghost use Rattle.eq_first.specs.Well.{IsWellFormed};
ghost use Rattle.eqy.specs.Command.{GateRefused, GoldRefused, IsRefused, IsTask};
ghost use Rattle.eqy.specs.Stops.{IfRefused};
ghost use Rattle.eqy.specs.Tasks.{HasGate, HasGold, IsReady};

use crate::load::{load_job, load_module};
use crate::pair::check_pair;
use crate::refusal::Refusal;
use crate::stop::Stop;
use crate::words::file_word;
use eq_base::Bytes;
use eq_first::{Job, Module};
use eq_io::Store;
use std::alloc::Global;

/// Two designs that a job asks to compare, with the same ports and few inputs.
#[derive(Debug, Drop)]
pub struct Task {
    pub job: Job,
    pub gold: Module,
    pub gate: Module,
}

/// The task of a job whose gold is read.
fn with_gold<S: Store>(alloc: Global, store: &mut S, job: Job, gold: Module) -> Result<Task, Stop>
    requires { IsWellFormed gold }
    ensures ok { IfOk result (λ task. (files : Files) → S.map store.old ≡ Some files → HasGate files job gold task) }
    ensures ready { IfOk result IsReady }
    ensures refused { IfErr result (λ stop. IfRefused stop (λ r. (files : Files) → S.map store.old ≡ Some files → GateRefused files job gold r)) }
    ensures kept { S.map store.new ≡ S.map store.old }
    ensures later { S.faults store.old ≤ S.faults store.new }
    ensures cause { IsErrOf result Stop.Fault → Rose (S.faults store.old) (S.faults store.new) }
{
    let gate = match load_module(alloc, store, &job.gate) {
        Ok(gate) => gate,
        Err(stop) => return Err(stop),
    };
    match check_pair(gold.ports.as_slice(), gate.ports.as_slice()) {
        Ok(()) => Ok(Task { job, gold, gate }),
        Err(stop) => Err(stop),
    }
}

/// The task of a job.
fn with_job<S: Store>(alloc: Global, store: &mut S, job: Job) -> Result<Task, Stop>
    ensures ok { IfOk result (λ task. (files : Files) → S.map store.old ≡ Some files → HasGold files job task) }
    ensures ready { IfOk result IsReady }
    ensures refused { IfErr result (λ stop. IfRefused stop (λ r. (files : Files) → S.map store.old ≡ Some files → GoldRefused files job r)) }
    ensures kept { S.map store.new ≡ S.map store.old }
    ensures later { S.faults store.old ≤ S.faults store.new }
    ensures cause { IsErrOf result Stop.Fault → Rose (S.faults store.old) (S.faults store.new) }
{
    match load_module(alloc, store, &job.gold) {
        Ok(gold) => with_gold(alloc, store, job, gold),
        Err(stop) => Err(stop),
    }
}

/// The task that the words ask for, or the first refusal.
pub fn prepare<S: Store>(alloc: Global, words: &[Bytes], store: &mut S) -> Result<Task, Stop>
    ensures ok { IfOk result (λ task. (files : Files) → S.map store.old ≡ Some files → IsTask words.now files task.job task.gold task.gate) }
    ensures ready { IfOk result IsReady }
    ensures refused { IfErr result (λ stop. IfRefused stop (λ r. (files : Files) → S.map store.old ≡ Some files → IsRefused words.now files r)) }
    ensures kept { S.map store.new ≡ S.map store.old }
    ensures later { S.faults store.old ≤ S.faults store.new }
    ensures cause { IsErrOf result Stop.Fault → Rose (S.faults store.old) (S.faults store.new) }
{
    let Some(file) = file_word(words) else {
        return Err(Stop::Refused(Refusal::Usage));
    };
    match load_job(alloc, store, file) {
        Ok(job) => with_job(alloc, store, job),
        Err(stop) => Err(stop),
    }
}
