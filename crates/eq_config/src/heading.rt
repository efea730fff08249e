//! The words of headings.

ghost use Rattle.std.specs.Prelude.{◌≡◌, ◌↔◌, [], IsTrue, IfOk, IfErr};
ghost use Rattle.eq_config.specs.Lines.{IsText, words};
ghost use Rattle.eq_config.specs.Words.{IsStrategyWord, word_at, OneWord};
ghost use Rattle.eq_config.specs.Entries.{IsPatternLine};
ghost use Rattle.eq_config.specs.Headings as spec;
ghost use Rattle.eq_config.specs.inner.Stopping.{Refuses};

use crate::entry::pattern_line;
use crate::fault::Stop;
use crate::lines::next_word;
use crate::said::{Heading, SectionKind};
use crate::words::{REFUSED, one_word, pattern, strategy_name};
use eq_names::{Name, Pattern};
use std::alloc::Global;

/// Whether a line has no word.
fn is_empty(line: &[u8]) -> bool
    requires { IsText line.now }
    ensures { IsTrue result ↔ (words line.now ≡ []) }
{
    next_word(line).is_none()
}

/// The pattern of a heading, `*` where it has none.
fn top_pattern(alloc: Global, line: &[u8]) -> Result<Pattern, Stop>
    requires { IsText line.now }
    ensures pattern { IfOk result
        (λ pattern. pattern ≡ word_at (spec.top_words (words line.now)) 0) }
    ensures ok { IfOk result (λ _. IsPatternLine (spec.top_words (words line.now))) }
    ensures fault { IfErr result (Refuses (IsPatternLine (spec.top_words (words line.now)))) }
{
    if is_empty(line) {
        return pattern(alloc, b"*");
    }
    pattern_line(alloc, line)
}

/// The name of a strategy's heading.
fn strategy_line(alloc: Global, line: &[u8]) -> Result<Name, Stop>
    requires { IsText line.now }
    ensures name { IfOk result (λ name. name ≡ word_at (words line.now) 0) }
    ensures ok { IfOk result (λ _. OneWord IsStrategyWord (words line.now)) }
    ensures fault { IfErr result (Refuses (OneWord IsStrategyWord (words line.now))) }
{
    let Some(word) = one_word(line) else {
        return Err(REFUSED);
    };
    strategy_name(alloc, word)
}

/// A heading without words behind its first.
fn bare(line: &[u8], heading: Heading) -> Result<Heading, Stop>
    requires { IsText line.now }
    ensures heading { IfOk result (λ h. h ≡ heading) }
    ensures ok { IfOk result (λ _. words line.now ≡ []) }
    ensures fault { IfErr result (Refuses (words line.now ≡ [])) }
{
    if is_empty(line) {
        Ok(heading)
    } else {
        Err(REFUSED)
    }
}

/// What a heading says, by the section that its first word begins and the words behind it.
pub fn heading(alloc: Global, kind: SectionKind, line: &[u8]) -> Result<Heading, Stop>
    requires { IsText line.now }
    ensures heading { IfOk result (λ heading. heading ≡ spec.heading_of kind (words line.now)) }
    ensures ok { IfOk result (λ _. spec.HeadingFits kind (words line.now)) }
    ensures fault { IfErr result (Refuses (spec.HeadingFits kind (words line.now))) }
{
    match kind {
        SectionKind::Options => bare(line, Heading::Options),
        SectionKind::Design(role) => bare(line, Heading::Design(role)),
        SectionKind::Match => Ok(Heading::Match(top_pattern(alloc, line)?)),
        SectionKind::Collect => Ok(Heading::Collect(top_pattern(alloc, line)?)),
        SectionKind::Partition => Ok(Heading::Partition(top_pattern(alloc, line)?)),
        SectionKind::Strategy => Ok(Heading::Strategy(strategy_line(alloc, line)?)),
    }
}
