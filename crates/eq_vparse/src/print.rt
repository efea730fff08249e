//! Writes a tree as a text.

ghost use Rattle.std.specs.Prelude.{◌≡◌, OnOk, IfOk};
ghost use Rattle.eq_vparse.specs.Depths.{IsWithin};
ghost use Rattle.eq_vparse.specs.Layout.{bytes_of, spaced};
ghost use Rattle.eq_vparse.specs.Limits.{Limits};
ghost use Rattle.eq_vparse.specs.Printing as spec;
ghost use Rattle.eq_vparse.specs.ReadBack.{IsTree, IsTextOf};
ghost use Rattle.eq_vparse.specs.Text.{put_all, put_written};

use crate::print_expression::comma;
use crate::print_item::item;
use crate::text::Text;
use crate::tree::{Item, Module, Source};
use eq_base::{Bytes, Memory};
use eq_names::Name;
use eq_vlex::{Key, Mark};
use std::alloc::Global;

/// Writes names with commas between them.
fn names(out: &mut Text, all: &[Name]) -> Result<(), Memory>
    ensures { OnOk result (out.new ≡ put_all out.old (spec.names_tokens all.now)) }
{
    for at in 0..all.len() {
        comma(out, at)?;
        out.name(&all[at])?;
    }
    Ok(())
}

/// Writes `module NAME(PORTS);`.
#[tactic(auto, using(crate::proofs::Texts::put_append))]
fn header(out: &mut Text, name: &Name, ports: &[Name]) -> Result<(), Memory>
    ensures { OnOk result (out.new ≡ put_all out.old (spec.header_tokens name.now ports.now)) }
{
    out.key(Key::Module)?;
    out.name(name)?;
    out.mark(Mark::LeftParen)?;
    names(out, ports)?;
    out.mark(Mark::RightParen)?;
    out.mark(Mark::Semicolon)
}

/// Writes the first line of a module.
#[tactic(auto, using(crate::proofs::Texts::put_line_of))]
fn header_line(out: &mut Text, name: &Name, ports: &[Name]) -> Result<(), Memory>
    ensures { OnOk result (out.new ≡ put_written out.old (spec.line_of (spec.header_tokens name.now ports.now))) }
{
    header(out, name, ports)?;
    out.line()
}

/// Writes an item on a line of its own.
#[tactic(auto, using(crate::proofs::Texts::put_line_of))]
fn item_line(out: &mut Text, i: &Item) -> Result<(), Memory>
    ensures { OnOk result (out.new ≡ put_written out.old (spec.item_written i.now)) }
{
    item(out, i)?;
    out.line()
}

/// Writes items, each on a line of its own.
fn items(out: &mut Text, all: &[Item]) -> Result<(), Memory>
    ensures { OnOk result (out.new ≡ put_written out.old (spec.items_written all.now)) }
{
    for at in 0..all.len() {
        item_line(out, &all[at])?;
    }
    Ok(())
}

/// Writes a module.
#[tactic(auto, using(crate::proofs::Texts::written_append))]
fn module(out: &mut Text, m: &Module) -> Result<(), Memory>
    ensures { OnOk result (out.new ≡ put_written out.old (spec.module_written m.now)) }
{
    header_line(out, &m.name, m.ports.as_slice())?;
    items(out, m.items.as_slice())?;
    out.key(Key::Endmodule)?;
    out.line()
}

fn modules(out: &mut Text, all: &[Module]) -> Result<(), Memory>
    ensures { OnOk result (out.new ≡ put_written out.old (spec.modules_written all.now)) }
{
    for at in 0..all.len() {
        module(out, &all[at])?;
    }
    Ok(())
}

/// The text of a tree: `module NAME(PORTS);`, each item on a line of its own, `endmodule`, without spaces but between two
/// words. An operand that has an operator stands in parentheses, and so does a constant before `?`. What is written of the
/// tree of a text is read as this tree again.
#[tactic(auto, using(crate::proofs::Texts::text_is, crate::proofs::SourceAgain::reads_back))]
pub fn print_source(alloc: Global, s: &Source) -> Result<Bytes, Memory>
    ensures text { IfOk result (λ b. b ≡ bytes_of (spaced (spec.written s.now))) }
    ensures back { IfOk result (λ b. (l : Limits) → IsTree s.now → IsWithin l s.now → IsTextOf l s.now b) }
{
    let mut out = Text::new(alloc);
    modules(&mut out, s.modules.as_slice())?;
    Ok(out.bytes)
}
