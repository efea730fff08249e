//! One line: what it says, or what is wrong in it by itself.

ghost use Rattle.std.specs.Prelude.{◌≡◌, IfOk, IfErr, Option, None};
ghost use Rattle.eq_config.specs.Lines.{IsText, words};
ghost use Rattle.eq_config.specs.Forms as spec;
ghost use Rattle.eq_config.specs.inner.Stopping.{Stops, IsFine};

use crate::entry::entry;
use crate::fault::{ConfigKind, Stop};
use crate::heading::heading;
use crate::keyword::{keyword_of, title_of};
use crate::lines::{heading_text, is_text, next_word};
use crate::said::{Said, SectionKind};
use crate::words::begins_with;
use std::alloc::Global;

/// What a heading says, by the text between its brackets.
fn heading_line(alloc: Global, number: u32, inner: &[u8]) -> Result<Said, Stop>
    requires { IsText inner.now }
    ensures says { IfOk result
        (λ said. said ≡ spec.form_says number None (spec.heading (words inner.now))) }
    ensures ok { IfOk result (λ _. IsFine None (spec.heading (words inner.now))) }
    ensures fault { IfErr result (Stops (spec.FormFault None (spec.heading (words inner.now)))) }
{
    let Some((word, rest)) = next_word(inner) else {
        return Err(Stop::Fault(ConfigKind::UnknownSection));
    };
    let Some(kind) = title_of(word) else {
        return Err(Stop::Fault(ConfigKind::UnknownSection));
    };
    Ok(Said::Heading {
        line: number,
        heading: heading(alloc, kind, rest)?,
    })
}

/// What a line in a section says, by its first word and what follows it.
fn plain_line(
    alloc: Global,
    section: Option<SectionKind>,
    word: &[u8],
    rest: &[u8],
) -> Result<Said, Stop>
    requires { IsText rest.now }
    ensures says { IfOk result (λ said. said ≡ spec.plain_said section word.now (words rest.now)) }
    ensures ok { IfOk result (λ _. IsFine section (spec.plain word.now (words rest.now))) }
    ensures fault { IfErr result (Stops (spec.FormFault section (spec.plain word.now
        (words rest.now)))) }
{
    let Some(kind) = section else {
        return Err(Stop::Fault(ConfigKind::NoSection));
    };
    let Some(keyword) = keyword_of(kind, word) else {
        return Err(Stop::Fault(ConfigKind::UnknownLine));
    };
    Ok(Said::Entry(entry(alloc, keyword, rest)?))
}

/// What a line says, by the section in which it stands, and its number.
pub fn line(
    alloc: Global,
    section: Option<SectionKind>,
    number: u32,
    line: &[u8],
) -> Result<Said, Stop>
    requires { IsText line.now }
    ensures says { IfOk result
        (λ said. said ≡ spec.form_says number section (spec.form_of line.now)) }
    ensures ok { IfOk result (λ _. IsFine section (spec.form_of line.now)) }
    ensures fault { IfErr result (Stops (spec.FormFault section (spec.form_of line.now))) }
{
    let Some((word, rest)) = next_word(line) else {
        return Ok(Said::Nothing);
    };
    if begins_with(word, b'#') {
        return Ok(Said::Nothing);
    }
    match heading_text(line) {
        Some(inner) => heading_line(alloc, number, inner),
        None => plain_line(alloc, section, word, rest),
    }
}
