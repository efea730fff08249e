//! The whole run, from the words to the status.

ghost use Rattle.std.specs.Prelude.{◌≡◌, ◌≤◌, ◌⊎◌, ℕ, Some, IfOk};
ghost use Rattle.eq_io.specs.Faults.{Rose};
ghost use Rattle.eq_io.specs.Files.{Files};
ghost use Rattle.eq_first.specs.Well.{IsWellFormed};
ghost use Rattle.eq_first.specs.declared.job.Job.{Job as JobValue};
ghost use Rattle.eq_first.specs.declared.module.Module.{Module as ModuleValue};
ghost use Rattle.eqy.specs.Command.{IsRefused, IsTask};
ghost use Rattle.eqy.specs.Designs.{DesignsAre};
ghost use Rattle.eqy.specs.Lines.{refusal_line, report};
ghost use Rattle.eqy.specs.Output.{Adds, AddsFront};
ghost use Rattle.eqy.specs.Tasks.{IsReady};
ghost use Rattle.eqy.specs.Verdicts.{AreEqual, Differ, IsVerdict, output_name, status_of};
ghost use Rattle.eqy.specs.declared.refusal.Refusal.{Refusal as RefusalValue};
ghost use Rattle.eqy.specs.declared.report.Verdict.{Verdict as VerdictValue};

use crate::listing::differ;
use crate::prepare::{Task, prepare};
use crate::refusal::Refusal;
use crate::report::{Verdict, tell, tell_report};
use crate::stop::Stop;
use eq_base::{Bytes, Memory};
use eq_first::Module;
use eq_first::laws::{one_job, one_module};
use eq_io::{Gate, Sink, SinkErr, Store};
use eq_model::laws::{combinational, one_cycle, ranked};
use eq_net::laws::{net_is_design, words_make_a_system};
use std::alloc::Global;
use std::thread::Threads;

/// All outputs are proved equal.
const PASS: u8 = 0;
/// An output differs.
const FAIL: u8 = 2;
/// An input is refused.
const REFUSED: u8 = 16;
/// The store or the sink failed.
const FAULT: u8 = 17;
/// Memory ran out.
const NO_MEMORY: u8 = 18;

fn failed(e: SinkErr) -> u8
    ensures fault { result ≡ 17 → e ≡ SinkErr.Failed }
    ensures status { (result ≡ 17) ⊎ (result ≡ 18) }
{
    match e {
        SinkErr::Failed => FAULT,
        SinkErr::Memory => NO_MEMORY,
    }
}

/// Puts the line of a refusal.
fn refuse<O: Sink>(alloc: Global, out: &mut O, refusal: &Refusal) -> u8
    ensures status { (result ≡ 16) ⊎ ((result ≡ 17) ⊎ (result ≡ 18)) }
    ensures line { result ≡ 16 → Adds (O.written out.old) (O.written out.new) (refusal_line refusal.now) }
    ensures front { AddsFront (O.written out.old) (O.written out.new) (refusal_line refusal.now) }
    ensures fault { result ≡ 17 → Rose (O.faults out.old) (O.faults out.new) }
{
    let Ok(line) = refusal.line(alloc) else {
        return NO_MEMORY;
    };
    match tell(alloc, out, &line) {
        Ok(()) => REFUSED,
        Err(e) => failed(e),
    }
}

/// What is found of a task's output.
fn verdict(alloc: Global, task: &Task) -> Result<Verdict, Memory>
    requires { IsReady task.now }
    ensures { IfOk result (λ verdict. IsVerdict verdict task.now.gold task.now.gate) }
{
    if differ(alloc, &task.gold, &task.gate)? {
        Ok(Verdict::Fail)
    } else {
        Ok(Verdict::Proved)
    }
}

/// The name of a design's output.
fn name_of_output(design: &Module) -> &[u8]
    requires { IsWellFormed design.now }
    ensures { result.now ≡ output_name design.now }
{
    design.ports.as_slice()[design.output as usize].name.bytes()
}

fn ended(verdict: Verdict) -> u8
    ensures { result ≡ status_of verdict }
{
    match verdict {
        Verdict::Proved => PASS,
        Verdict::Fail => FAIL,
    }
}

/// Compares the designs of a task and puts the report.
fn compare<O: Sink>(alloc: Global, out: &mut O, task: &Task) -> u8
    requires { IsReady task.now }
    ensures status { ((result ≡ 0) ⊎ (result ≡ 2)) ⊎ ((result ≡ 17) ⊎ (result ≡ 18)) }
    ensures told { (verdict : VerdictValue) → result ≡ status_of verdict → IsVerdict verdict task.now.gold task.now.gate ×
        Adds (O.written out.old) (O.written out.new) (report verdict (output_name task.now.gold) task.now.job.strategy) }
    ensures front { (verdict : VerdictValue) → IsVerdict verdict task.now.gold task.now.gate → ((result ≡ status_of verdict) ⊎ ((result ≡ 17) ⊎ (result ≡ 18))) ×
        AddsFront (O.written out.old) (O.written out.new) (report verdict (output_name task.now.gold) task.now.job.strategy) }
    ensures fault { result ≡ 17 → Rose (O.faults out.old) (O.faults out.new) }
{
    let Ok(verdict) = verdict(alloc, task) else {
        return NO_MEMORY;
    };
    match tell_report(
        alloc,
        out,
        verdict,
        name_of_output(&task.gold),
        task.job.strategy.bytes(),
    ) {
        Ok(()) => ended(verdict),
        Err(e) => failed(e),
    }
}

/// Reads the configuration that the words name and its two designs from the store, compares the designs by all values
/// of their inputs, and puts the report, or the line of the first refusal. Answers the status.
///
/// 0: equal. 2: they differ. 16: an input is refused. 17: the store or the sink failed. 18: memory ran out.
pub fn eqy<R: Threads + Sync, S: Store, O: Sink, G: Gate + Sync>(
    rt: &R,
    alloc: Global,
    words: &[Bytes],
    store: &mut S,
    out: &mut O,
    gate: &G,
) -> u8
    ensures status { ((result ≡ 0) ⊎ (result ≡ 2)) ⊎ ((result ≡ 16) ⊎ ((result ≡ 17) ⊎ (result ≡ 18))) }
    ensures kept { S.map store.new ≡ S.map store.old }

    // 0 and 2 come only of a task that the files hold, with the report of the right verdict.
    ensures decided { (verdict : VerdictValue) → result ≡ status_of verdict → (files : Files) → S.map store.old ≡ Some files →
        (job : JobValue) × (gold : ModuleValue) × (gate : ModuleValue) × IsTask words.now files job gold gate × IsVerdict verdict gold gate ×
        Adds (O.written out.old) (O.written out.new) (report verdict (output_name gold) job.strategy) }

    // So 0 says that the two designs are equivalent, in all cycles of all inputs, and 2 that they are not.
    ensures designs { (verdict : VerdictValue) → result ≡ status_of verdict → (files : Files) → S.map store.old ≡ Some files →
        (job : JobValue) × (gold : ModuleValue) × (gate : ModuleValue) × IsTask words.now files job gold gate × DesignsAre verdict gold gate }

    // 16 comes only of the first refusal that holds, with its line.
    ensures refused { result ≡ 16 → (r : RefusalValue) × Adds (O.written out.old) (O.written out.new) (refusal_line r) ×
        ((files : Files) → S.map store.old ≡ Some files → IsRefused words.now files r) }

    // Where the files hold a task, its verdict is answered, unless a fault or want of memory comes. The report is put, or a front of it.
    ensures task { (files : Files) → S.map store.old ≡ Some files → (job : JobValue) (gold gate : ModuleValue) → IsTask words.now files job gold gate →
        (verdict : VerdictValue) → IsVerdict verdict gold gate → ((result ≡ status_of verdict) ⊎ ((result ≡ 17) ⊎ (result ≡ 18))) ×
        AddsFront (O.written out.old) (O.written out.new) (report verdict (output_name gold) job.strategy) }

    // Where a refusal holds first, 16 is answered, unless a fault or want of memory comes. Its line is put, or a front of it.
    ensures refusal { (files : Files) → S.map store.old ≡ Some files → (r : RefusalValue) → IsRefused words.now files r →
        ((result ≡ 16) ⊎ ((result ≡ 17) ⊎ (result ≡ 18))) × AddsFront (O.written out.old) (O.written out.new) (refusal_line r) }

    // 17 comes only where a count of faults rose.
    ensures fault { result ≡ 17 → Rose (S.faults store.old) (S.faults store.new) ⊎ Rose (O.faults out.old) (O.faults out.new) }
{
    let _ = rt;
    let _ = gate;
    one_job();
    one_module();
    ranked();
    one_cycle();
    combinational();
    words_make_a_system();
    net_is_design();
    match prepare(alloc, words, store) {
        Ok(task) => compare(alloc, out, &task),
        Err(Stop::Refused(refusal)) => refuse(alloc, out, &refusal),
        Err(Stop::Fault) => FAULT,
        Err(Stop::Memory) => NO_MEMORY,
    }
}
