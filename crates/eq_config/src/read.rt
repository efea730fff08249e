//! The configuration of a text, line by line.

ghost use Rattle.std.specs.Prelude.{◌≡◌, ◌≤◌, ◌<◌, ◌+◌, ◌∷◌, ◌++◌, [], ℕ, List, length, OnOk, IfOk, IfErr, Ok, Err};
ghost use Rattle.eq_config.specs.declared.config.Config.{Config};
ghost use Rattle.eq_config.specs.declared.fault.ConfigErr.{ConfigErr};
ghost use Rattle.eq_config.specs.declared.fault.ConfigKind.{ConfigKind};
ghost use Rattle.eq_config.specs.declared.limits.TheConstants.{MOST_BYTES};
ghost use Rattle.eq_config.specs.declared.said.Said.{Said};
ghost use Rattle.std.specs.Str.Lines.{lines};
ghost use Rattle.eq_config.specs.Configs as spec;
ghost use Rattle.eq_config.specs.inner.Drafts.{draft_of};
ghost use Rattle.eq_config.specs.inner.Stopping.{Stops, located, IsAtLine};

use crate::config::Config;
use crate::draft::Draft;
use crate::fault::{ConfigErr, ConfigKind, Stop};
use crate::finish::{finish, missing};
use crate::line::line;
use crate::lines::{is_text, next_line};
use crate::said::Said;
use std::alloc::Global;

/// Lets go of what a line says, which has a fault.
fn refused(said: Said, kind: ConfigKind) -> Stop
    ensures { result ≡ Stop.Fault kind }
{
    drop(said);
    Stop::Fault(kind)
}

/// What a line says more than the lines before it, if it has no fault.
fn take_line(draft: &mut Draft, alloc: Global, number: u32, text: &[u8]) -> Result<(), Stop>
    ensures ok { OnOk result ((before : List Said) → draft.old ≡ draft_of before →
        number ≡ length before + 1
        → draft.new ≡ draft_of (before ++ spec.said_at before text.now ∷ [])) }
    ensures fine { OnOk result ((before : List Said) → draft.old ≡ draft_of before →
        number ≡ length before + 1
        → spec.IsFine before text.now) }
    ensures fault { IfErr result (Stops (λ kind. (before : List Said) →
        draft.old ≡ draft_of before → number ≡ length before + 1
        → spec.IsFirstKind before text.now kind)) }
{
    if !is_text(text) {
        return Err(Stop::Fault(ConfigKind::NotAscii));
    }
    let said = line(alloc, draft.section, number, text)?;
    if draft.is_twice(&said) {
        return Err(refused(said, ConfigKind::Twice));
    }
    if draft.is_too_many(&said) {
        return Err(refused(said, ConfigKind::TooMany));
    }
    draft.add(alloc, said)?;
    Ok(())
}

/// The error of what stopped the reading of a line; what was read before is let go of.
fn stopped(draft: Draft, stop: Stop, line: u32) -> ConfigErr
    ensures { result ≡ located stop line }
{
    drop(draft);
    match stop {
        Stop::Fault(kind) => ConfigErr::At { line, kind },
        Stop::Memory => ConfigErr::Memory,
    }
}

/// What all lines say together, and how many they are.
#[derive(Drop)]
struct Whole {
    draft: Draft,
    lines: u32,
}

/// What the lines of a text say, if none is faulty.
fn read_lines(alloc: Global, text: &[u8]) -> Result<Whole, ConfigErr>
    requires { length text.now ≤ MOST_BYTES }
    ensures draft { IfOk result (λ whole. whole.draft ≡ draft_of (spec.saids_of (lines text.now))) }
    ensures count { IfOk result (λ whole. whole.lines ≡ length (lines text.now)) }
    ensures room { IfOk result (λ whole. whole.lines ≤ length text.now) }
    ensures fine { IfOk result (λ _. spec.AreFine (lines text.now) (length (lines text.now))) }
    ensures fault { IfErr result (IsAtLine (spec.HasFaultyLine text.now)) }
{
    let mut draft = Draft::new(alloc);
    let mut rest = text;
    let mut number = 0;
    while !rest.is_empty() {
        let (line, after) = next_line(rest);
        number += 1;
        match take_line(&mut draft, alloc, number, line) {
            Ok(()) => rest = after,
            Err(stop) => return Err(stopped(draft, stop, number)),
        }
    }
    Ok(Whole {
        draft,
        lines: number,
    })
}

/// The error of what is missing; what was read is let go of.
fn missed(draft: Draft, line: u32) -> ConfigErr
    ensures { result ≡ ConfigErr.At line ConfigKind.Missing }
{
    drop(draft);
    ConfigErr::At {
        line,
        kind: ConfigKind::Missing,
    }
}

/// The configuration of a text, or its first fault.
fn read_whole(alloc: Global, text: &[u8]) -> Result<Config, ConfigErr>
    requires { length text.now ≤ MOST_BYTES }
    ensures ok { IfOk result (spec.HasConfig text.now) }
    ensures fault { IfErr result (spec.Explains text.now) }
{
    let Whole { draft, lines } = read_lines(alloc, text)?;
    match missing(&draft, lines + 1) {
        Some(line) => Err(missed(draft, line)),
        None => Ok(finish(alloc, draft, lines + 1)?),
    }
}

/// The configuration of a text, or the first faulty line, with the first kind of the table that holds in it, or what is
/// missing where no line is faulty.
pub fn read_config(alloc: Global, text: &[u8]) -> Result<Config, ConfigErr>
    requires { length text.now ≤ MOST_BYTES }

    // What is answered is so,
    ensures ok { IfOk result (spec.HasConfig text.now) }
    ensures fault { IfErr result (spec.Explains text.now) }

    // and what is so is answered.
    ensures only_ok { (config : Config) → spec.HasConfig text.now config →
        spec.IsOrNoMemory result (Ok config) }
    ensures only_fault { (line : ℕ) (kind : ConfigKind) → spec.HasFault text.now line kind →
        spec.IsOrNoMemory result (Err (ConfigErr.At line kind)) }
{
    read_whole(alloc, text)
}
