//! The tree of a list of tokens.

ghost use Rattle.std.specs.Prelude.{◌≡◌, ◌<◌, ◌-◌, ◌^◌, length, IfOk, IfErr, Ok};
ghost use Rattle.eq_vparse.specs.declared.tree.Source.{Source as SourceTree};
ghost use Rattle.eq_vparse.specs.Limits.{limits};
ghost use Rattle.eq_vparse.specs.Reading.{kinds};
ghost use Rattle.eq_vparse.specs.Grammar.{HasTreeWithin};
ghost use Rattle.eq_vparse.specs.Parsing.{Refuses, Stopped, IsOrNoMemory, located as located_lem};

use crate::cursor::Cursor;
use crate::stop::{ParseErr, Stop};
use crate::tree::Source;
use eq_vlex::Tokens;
use std::alloc::Global;

/// How many tokens stand before a place from which so many stand to the end.
fn place(count: u32, left: usize) -> u32
    ensures { result ≡ count - left }
{
    match u32::try_from(left) {
        Ok(left) => count.saturating_sub(left),
        Err(_) => 0,
    }
}

/// Why a list of so many tokens has no tree.
fn located(stop: Stop, count: u32) -> ParseErr
    ensures { located_lem stop count result }
{
    match stop {
        Stop::Syntax { left } => ParseErr::Syntax {
            token: place(count, left),
        },
        Stop::TooDeep { left } => ParseErr::TooDeep {
            token: place(count, left),
        },
        Stop::Memory => ParseErr::Memory,
    }
}

/// The tree of a list of tokens, in which an expression or a target has at most 1,000 counted marks and at most 200
/// statements hold another. Counted are the `(`, `{` and `?` and the operators of an outermost expression, and the `{` of
/// an outermost target.
pub fn parse(alloc: Global, tokens: &Tokens) -> Result<Source, ParseErr>
    requires { length tokens.now < 2 ^ 32 }

    // What is answered is so,
    ensures ok { IfOk result (HasTreeWithin limits (kinds tokens.now)) }
    ensures refused { IfErr result (Refuses limits (kinds tokens.now)) }

    // the token that is named is the one at which the reading stops,
    ensures stopped { IfErr result (Stopped limits (kinds tokens.now)) }

    // and what is so is answered.
    ensures only_tree { (s : SourceTree) → HasTreeWithin limits (kinds tokens.now) s → IsOrNoMemory result (Ok s) }
{
    let mut cursor = Cursor::new(tokens.as_slice());
    match cursor.source(alloc) {
        Ok(source) => Ok(source),
        Err(stop) => Err(located(stop, tokens.len() as u32)),
    }
}
