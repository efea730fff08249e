//! The line of a refusal.

ghost use Rattle.std.specs.Prelude.{◌≡◌, ◌++◌, IfOk, OnOk, decimal};
ghost use Rattle.eq_report.specs.Refusals as spec;

use crate::put::{put, put_number};
use crate::refusal::{DesignFault, PlanFault, Refusal, TextFault};
use crate::words::{kind_word, port_word, side_word, text_word};
use eq_base::Memory;
use std::alloc::Global;

const USAGE: &[u8] = b"usage: eqy [-j N] [-d DIR] [-r] [-x] [--json NAME] FILE | eqy gen SEED SIZE";

/// Writes what is wrong in a line of a file.
fn put_text(
    alloc: Global,
    out: &mut Vec<u8>,
    name: &[u8],
    line: u32,
    fault: TextFault,
) -> Result<(), Memory>
    ensures { OnOk result (out.new.items ≡ out.old.items ++ spec.place_text name.now line fault) }
{
    put(out, name)?;
    put(out, b":")?;
    put_number(alloc, out, u64::from(line))?;
    put(out, b": ")?;
    put(out, text_word(fault))
}

/// Writes two pieces.
fn put_two(out: &mut Vec<u8>, first: &[u8], second: &[u8]) -> Result<(), Memory>
    ensures { OnOk result (out.new.items ≡ out.old.items ++ (first.now ++ second.now)) }
{
    put(out, first)?;
    put(out, second)
}

/// Writes three pieces.
fn put_three(out: &mut Vec<u8>, first: &[u8], second: &[u8], third: &[u8]) -> Result<(), Memory>
    ensures { OnOk result (out.new.items ≡ out.old.items
        ++ (first.now ++ second.now ++ third.now)) }
{
    put(out, first)?;
    put(out, second)?;
    put(out, third)
}

/// Writes a word and a number.
fn put_counted(alloc: Global, out: &mut Vec<u8>, word: &[u8], number: u64) -> Result<(), Memory>
    ensures { OnOk result (out.new.items ≡ out.old.items ++ (word.now ++ decimal number)) }
{
    put(out, word)?;
    put_number(alloc, out, number)
}

/// Writes why a design has no netlist.
fn put_design(alloc: Global, out: &mut Vec<u8>, fault: &DesignFault) -> Result<(), Memory>
    ensures { OnOk result (out.new.items ≡ out.old.items ++ spec.design_text fault.now) }
{
    match fault {
        DesignFault::At { kind, name } => put_three(out, kind_word(*kind), b" ", name.bytes()),
        DesignFault::Loop { name } => put_three(out, b"Loop", b" ", name.bytes()),
        DesignFault::TooLarge { number } => put_counted(alloc, out, b"TooLarge ", *number),
    }
}

/// Writes why there is no plan.
fn put_plan(alloc: Global, out: &mut Vec<u8>, fault: &PlanFault) -> Result<(), Memory>
    ensures { OnOk result (out.new.items ≡ out.old.items ++ spec.plan_text fault.now) }
{
    match fault {
        PlanFault::TooMany { number } => put_counted(alloc, out, b"TooMany ", u64::from(*number)),
        PlanFault::SameName { first, second } => {
            put(out, b"SameName ")?;
            put_three(out, first.bytes(), b" ", second.bytes())
        }
    }
}

/// Writes what is refused, and why.
fn put_refusal(alloc: Global, out: &mut Vec<u8>, refusal: &Refusal) -> Result<(), Memory>
    ensures { OnOk result (out.new.items ≡ out.old.items ++ spec.refusal_text refusal.now) }
{
    match refusal {
        Refusal::Words => put(out, USAGE),
        Refusal::Absent { name } => put_two(out, name.as_slice(), b": no such file"),
        Refusal::TooLong { name } => put_two(out, name.as_slice(), b": longer than 67108864 bytes"),
        Refusal::Text { name, line, fault } => put_text(alloc, out, name.as_slice(), *line, *fault),
        Refusal::Elaboration { side, fault } => {
            put_two(out, side_word(*side), b": ")?;
            put_design(alloc, out, fault)
        }
        Refusal::Ports { fault, name } => {
            put(out, b"ports: ")?;
            put_three(out, port_word(*fault), b" ", name.bytes())
        }
        Refusal::Plan(fault) => {
            put(out, b"plan: ")?;
            put_plan(alloc, out, fault)
        }
        Refusal::Size { number } => put_counted(alloc, out, b"size: TooLarge ", *number),
    }
}

/// The line of a refusal, with its line feed.
pub fn refusal_line(alloc: Global, refusal: &Refusal) -> Result<Vec<u8>, Memory>
    ensures { IfOk result (λ line. line.items ≡ spec.refusal_line refusal.now) }
{
    let mut line = Vec::new(alloc);
    put(&mut line, b"eqy: ")?;
    put_refusal(alloc, &mut line, refusal)?;
    put(&mut line, b"\n")?;
    Ok(line)
}
