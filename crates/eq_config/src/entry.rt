//! The lines of a section, by their first words.

ghost use Rattle.std.specs.Prelude.{◌≡◌, ◌≤◌, IfOk, IfErr, OnOk};
ghost use Rattle.eq_config.specs.Lines.{IsText, words};
ghost use Rattle.eq_config.specs.Words.{word_at, unsigned, is_inverted};
ghost use Rattle.eq_config.specs.Entries as spec;
ghost use Rattle.eq_config.specs.inner.Stopping.{Stops, Refuses};

use crate::config::{CollectRule, MatchRule, Names, PartRule};
use crate::fault::{ConfigKind, Stop};
use crate::keyword::{CollectKeyword, Keyword, MatchKeyword, PartKeyword};
use crate::limits::{MOST_CONFLICTS, MOST_DEPTH};
use crate::lines::next_word;
use crate::number::number_line;
use crate::said::Entry;
use crate::words::{
    REFUSED, file, one_word, pattern, short_name, signed_template, template, two_words,
};
use eq_names::{Name, Pattern, Template};
use std::alloc::Global;

/// The files of a line.
fn file_line(alloc: Global, line: &[u8]) -> Result<Names, Stop>
    requires { IsText line.now }
    ensures files { IfOk result (λ files. files ≡ words line.now) }
    ensures ok { IfOk result (λ _. spec.IsFileLine (words line.now)) }
    ensures fault { IfErr result (Refuses (spec.IsFileLine (words line.now))) }
{
    let mut files = Names::new(alloc);
    let mut rest = line;
    while let Some((word, after)) = next_word(rest) {
        files.push(file(alloc, word)?)?;
        rest = after;
    }
    if files.is_empty() {
        return Err(REFUSED);
    }
    Ok(files)
}

/// The module of a line `-top MODULE`.
fn top_line(alloc: Global, line: &[u8]) -> Result<Name, Stop>
    requires { IsText line.now }
    ensures name { IfOk result (λ name. name ≡ word_at (words line.now) 1) }
    ensures ok { IfOk result (λ _. spec.IsTopLine (words line.now)) }
    ensures fault { IfErr result (Refuses (spec.IsTopLine (words line.now))) }
{
    let Some((fixed, name)) = two_words(line) else {
        return Err(REFUSED);
    };
    if fixed != b"-top".as_slice() {
        return Err(REFUSED);
    }
    short_name(alloc, name)
}

/// The pattern of a line `P`.
pub fn pattern_line(alloc: Global, line: &[u8]) -> Result<Pattern, Stop>
    requires { IsText line.now }
    ensures pattern { IfOk result (λ pattern. pattern ≡ word_at (words line.now) 0) }
    ensures ok { IfOk result (λ _. spec.IsPatternLine (words line.now)) }
    ensures fault { IfErr result (Refuses (spec.IsPatternLine (words line.now))) }
{
    let Some(word) = one_word(line) else {
        return Err(REFUSED);
    };
    pattern(alloc, word)
}

/// The patterns of a line `P P`.
fn path_line(alloc: Global, line: &[u8]) -> Result<(Pattern, Pattern), Stop>
    requires { IsText line.now }
    ensures from { IfOk result (λ found. found.0 ≡ word_at (words line.now) 0) }
    ensures to { IfOk result (λ found. found.1 ≡ word_at (words line.now) 1) }
    ensures ok { IfOk result (λ _. spec.IsPathLine (words line.now)) }
    ensures fault { IfErr result (Refuses (spec.IsPathLine (words line.now))) }
{
    let Some((from, to)) = two_words(line) else {
        return Err(REFUSED);
    };
    let from = pattern(alloc, from)?;
    let to = pattern(alloc, to)?;
    Ok((from, to))
}

/// The pattern and the template of a line `P T`.
fn rename_line(alloc: Global, line: &[u8]) -> Result<(Pattern, Template), Stop>
    requires { IsText line.now }
    ensures pattern { IfOk result (λ found. found.0 ≡ word_at (words line.now) 0) }
    ensures template { IfOk result (λ found. found.1 ≡ word_at (words line.now) 1) }
    ensures ok { IfOk result (λ _. spec.IsRenameLine (words line.now)) }
    ensures fault { IfErr result (Refuses (spec.IsRenameLine (words line.now))) }
{
    let Some((first, second)) = two_words(line) else {
        return Err(REFUSED);
    };
    let wilds = pattern(alloc, first)?;
    let filled = template(alloc, &wilds, second)?;
    Ok((wilds, filled))
}

/// The pattern and the template of a line `P T` or `P ~T`, and whether there is a `~`.
fn signed_line(alloc: Global, line: &[u8]) -> Result<(Pattern, Template, bool), Stop>
    requires { IsText line.now }
    ensures pattern { IfOk result (λ found. found.0 ≡ word_at (words line.now) 0) }
    ensures template { IfOk result (λ found. found.1 ≡ unsigned (word_at (words line.now) 1)) }
    ensures inverted { IfOk result (λ found. found.2 ≡ is_inverted (word_at (words line.now) 1)) }
    ensures ok { IfOk result (λ _. spec.IsSignedLine (words line.now)) }
    ensures fault { IfErr result (Refuses (spec.IsSignedLine (words line.now))) }
{
    let Some((first, second)) = two_words(line) else {
        return Err(REFUSED);
    };
    let wilds = pattern(alloc, first)?;
    let (filled, inverted) = signed_template(alloc, &wilds, second)?;
    Ok((wilds, filled, inverted))
}

fn match_rule(alloc: Global, keyword: MatchKeyword, line: &[u8]) -> Result<MatchRule, Stop>
    requires { IsText line.now }
    ensures rule { IfOk result (λ rule. rule ≡ spec.match_rule_of keyword (words line.now)) }
    ensures ok { IfOk result (λ _. spec.MatchFits keyword (words line.now)) }
    ensures fault { IfErr result (Refuses (spec.MatchFits keyword (words line.now))) }
{
    match keyword {
        MatchKeyword::GoldMatch => {
            let (wilds, filled, inverted) = signed_line(alloc, line)?;
            Ok(MatchRule::GoldMatch(wilds, filled, inverted))
        }
        MatchKeyword::GateMatch => {
            let (wilds, filled, inverted) = signed_line(alloc, line)?;
            Ok(MatchRule::GateMatch(wilds, filled, inverted))
        }
        MatchKeyword::GoldNo => Ok(MatchRule::GoldNo(pattern_line(alloc, line)?)),
        MatchKeyword::GateNo => Ok(MatchRule::GateNo(pattern_line(alloc, line)?)),
    }
}

fn collect_rule(alloc: Global, keyword: CollectKeyword, line: &[u8]) -> Result<CollectRule, Stop>
    requires { IsText line.now }
    ensures rule { IfOk result (λ rule. rule ≡ spec.collect_rule_of keyword (words line.now)) }
    ensures ok { IfOk result (λ _. spec.IsPatternLine (words line.now)) }
    ensures fault { IfErr result (Refuses (spec.IsPatternLine (words line.now))) }
{
    let nets = pattern_line(alloc, line)?;
    Ok(match keyword {
        CollectKeyword::Solo => CollectRule::Solo(nets),
        CollectKeyword::Group => CollectRule::Group(nets),
        CollectKeyword::Join => CollectRule::Join(nets),
    })
}

fn part_rule(alloc: Global, keyword: PartKeyword, line: &[u8]) -> Result<PartRule, Stop>
    requires { IsText line.now }
    ensures rule { IfOk result (λ rule. rule ≡ spec.part_rule_of keyword (words line.now)) }
    ensures ok { IfOk result (λ _. spec.PartFits keyword (words line.now)) }
    ensures fault { IfErr result (Refuses (spec.PartFits keyword (words line.now))) }
{
    match keyword {
        PartKeyword::Merge => Ok(PartRule::Merge(pattern_line(alloc, line)?)),
        PartKeyword::Path => {
            let (from, to) = path_line(alloc, line)?;
            Ok(PartRule::Path(from, to))
        }
        PartKeyword::Rename => {
            let (wilds, filled) = rename_line(alloc, line)?;
            Ok(PartRule::Rename(wilds, filled))
        }
    }
}

/// A line `sat`.
fn use_line(line: &[u8]) -> Result<(), Stop>
    requires { IsText line.now }
    ensures ok { OnOk result (spec.Fits Keyword.Use (words line.now)) }
    ensures fault { IfErr result (Refuses (spec.Fits Keyword.Use (words line.now))) }
{
    match one_word(line) {
        Some(b"sat") => Ok(()),
        Some(_) => Err(REFUSED),
        None => Err(REFUSED),
    }
}

/// What a line says, by what its first word means and the words behind it.
pub fn entry(alloc: Global, keyword: Keyword, line: &[u8]) -> Result<Entry, Stop>
    requires { IsText line.now }
    ensures entry { IfOk result (λ entry. entry ≡ spec.entry_of keyword (words line.now)) }
    ensures ok { IfOk result (λ _. spec.Fits keyword (words line.now)) }
    ensures fault { IfErr result (Stops (spec.EntryFault keyword (words line.now))) }
{
    match keyword {
        Keyword::Files(role) => Ok(Entry::Files(role, file_line(alloc, line)?)),
        Keyword::Top(role) => Ok(Entry::Top(role, top_line(alloc, line)?)),
        Keyword::Match(key) => Ok(Entry::Match(match_rule(alloc, key, line)?)),
        Keyword::Collect(key) => Ok(Entry::Collect(collect_rule(alloc, key, line)?)),
        Keyword::Partition(key) => Ok(Entry::Partition(part_rule(alloc, key, line)?)),
        Keyword::Use => {
            use_line(line)?;
            Ok(Entry::Use)
        }
        Keyword::Depth => Ok(Entry::Depth(number_line(line, MOST_DEPTH)?)),
        Keyword::Conflicts => {
            let number = number_line(line, MOST_CONFLICTS)?;
            Ok(Entry::Conflicts(u64::from(number)))
        }
        Keyword::Apply => Ok(Entry::Apply(pattern_line(alloc, line)?)),
    }
}
