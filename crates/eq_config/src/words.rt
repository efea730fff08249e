//! Words read as names, files, patterns and templates.

ghost use Rattle.std.specs.Prelude.{◌≡◌, ◌≢◌, ◌≤◌, ◌∷◌, ◌↔◌, [], IsTrue, IfOk, IfErr, IfSome, IfNone, length, slice_index, ◌<◌, All};
ghost use Rattle.std.specs.List.{AllPass};
ghost use Rattle.eq_names.specs.Name.{IsName, IsNameByte};
ghost use Rattle.eq_config.specs.Lines.{IsText, words};
ghost use Rattle.eq_config.specs.Words as spec;
ghost use Rattle.eq_config.specs.inner.Stopping.{Refuses};

use crate::fault::{ConfigKind, Stop};
use crate::limits::MOST_IN_WORD;
use crate::lines::next_word;
use eq_base::Memory;
use eq_names::laws::one_number_of_wilds;
use eq_names::{Name, NameErr, PatErr, Pattern, Template, TplErr};
use std::alloc::Global;

pub const REFUSED: Stop = Stop::Fault(ConfigKind::BadWord);

/// The word of a line that has no other.
pub fn one_word(line: &[u8]) -> Option<&[u8]>
    requires { IsText line.now }
    ensures word { IfSome result (λ word. words line.now ≡ word.now ∷ []) }
    ensures name { IfSome result (λ word. IsName word.now) }
    ensures none { IfNone result (length (words line.now) ≢ 1) }
{
    let (word, rest) = next_word(line)?;
    match next_word(rest) {
        None => Some(word),
        Some(_) => None,
    }
}

/// The words of a line that has two.
pub fn two_words(line: &[u8]) -> Option<(&[u8], &[u8])>
    requires { IsText line.now }
    ensures words { IfSome result (λ found. words line.now ≡ found.0.now ∷ found.1.now ∷ []) }
    ensures names { IfSome result (λ found. IsName found.0.now × IsName found.1.now) }
    ensures none { IfNone result (length (words line.now) ≢ 2) }
{
    let (first, rest) = next_word(line)?;
    let (second, rest) = next_word(rest)?;
    match next_word(rest) {
        None => Some((first, second)),
        Some(_) => None,
    }
}

/// Whether a word is not too long.
pub fn is_short(word: &[u8]) -> bool
    ensures { IsTrue result ↔ spec.IsShort word.now }
{
    word.len() <= MOST_IN_WORD
}

/// Whether a word begins with a byte.
pub fn begins_with(word: &[u8], byte: u8) -> bool
    requires { 0 < byte }
    ensures { IsTrue result ↔ (slice_index word.now 0 ≡ byte) }
{
    match word {
        [] => false,
        [first, ..] => *first == byte,
    }
}

/// The name of bytes that are one.
fn name_of(alloc: Global, word: &[u8]) -> Result<Name, Memory>
    requires { IsName word.now }
    ensures { IfOk result (λ name. name ≡ word.now) }
{
    match Name::read(alloc, word) {
        Ok(name) => Ok(name),
        Err(NameErr::Memory) => Err(Memory),
        Err(NameErr::Empty) => unreachable!(),
        Err(NameErr::BadByte { .. }) => unreachable!(),
    }
}

/// A word as a name, if it isn't too long.
pub fn short_name(alloc: Global, word: &[u8]) -> Result<Name, Stop>
    requires { IsName word.now }
    ensures name { IfOk result (λ name. name ≡ word.now) }
    ensures short { IfOk result (λ _. spec.IsShort word.now) }
    ensures fault { IfErr result (Refuses (spec.IsShort word.now)) }
{
    if !is_short(word) {
        return Err(REFUSED);
    }
    Ok(name_of(alloc, word)?)
}

/// A word as the name of a file.
pub fn file(alloc: Global, word: &[u8]) -> Result<Name, Stop>
    requires { IsName word.now }
    ensures name { IfOk result (λ name. name ≡ word.now) }
    ensures file { IfOk result (λ _. spec.IsFileWord word.now) }
    ensures fault { IfErr result (Refuses (spec.IsFileWord word.now)) }
{
    if begins_with(word, b'-') {
        return Err(REFUSED);
    }
    short_name(alloc, word)
}

/// Whether a byte may stand in a strategy's name.
fn is_strategy_byte(byte: u8) -> bool
    ensures { result ≡ spec.is_strategy_byte byte }
{
    byte.is_ascii_lowercase()
        || byte.is_ascii_uppercase()
        || byte.is_ascii_digit()
        || byte == b'_'
        || byte == b'-'
}

fn are_strategy_bytes(word: &[u8]) -> bool
    ensures { IsTrue result ↔ AllPass spec.is_strategy_byte word.now }
{
    word.iter().all(|byte| is_strategy_byte(*byte))
}

/// A word as the name of a strategy.
pub fn strategy_name(alloc: Global, word: &[u8]) -> Result<Name, Stop>
    requires { IsName word.now }
    ensures name { IfOk result (λ name. name ≡ word.now) }
    ensures strategy { IfOk result (λ _. spec.IsStrategyWord word.now) }
    ensures fault { IfErr result (Refuses (spec.IsStrategyWord word.now)) }
{
    if !are_strategy_bytes(word) {
        return Err(REFUSED);
    }
    short_name(alloc, word)
}

/// A word as a pattern.
pub fn pattern(alloc: Global, word: &[u8]) -> Result<Pattern, Stop>
    requires { IsName word.now }
    ensures pattern { IfOk result (λ pattern. pattern ≡ word.now) }
    ensures ok { IfOk result (λ _. spec.IsPatternWord word.now) }
    ensures fault { IfErr result (Refuses (spec.IsPatternWord word.now)) }
{
    if !is_short(word) {
        return Err(REFUSED);
    }
    match Pattern::read(alloc, word) {
        Ok(pattern) => Ok(pattern),
        Err(PatErr::Memory) => Err(Stop::Memory),
        Err(PatErr::Empty) => Err(REFUSED),
        Err(PatErr::OpenBracket) => Err(REFUSED),
        Err(PatErr::EmptyRange) => Err(REFUSED),
    }
}

/// A text as a template for a pattern's wilds.
fn filling(alloc: Global, pattern: &Pattern, text: &[u8]) -> Result<Template, Stop>
    requires { All IsNameByte text.now }
    ensures template { IfOk result (λ template. template ≡ text.now) }
    ensures ok { IfOk result (λ _. spec.Fills pattern.now text.now) }
    ensures fault { IfErr result (Refuses (spec.Fills pattern.now text.now)) }
{
    one_number_of_wilds();
    match Template::read(alloc, text, pattern.wilds()) {
        Ok(template) => Ok(template),
        Err(TplErr::Memory) => Err(Stop::Memory),
        Err(TplErr::Empty) => Err(REFUSED),
        Err(TplErr::BadPercent) => Err(REFUSED),
        Err(TplErr::NoCapture { .. }) => Err(REFUSED),
    }
}

/// A word as a template for a pattern's wilds.
pub fn template(alloc: Global, pattern: &Pattern, word: &[u8]) -> Result<Template, Stop>
    requires { IsName word.now }
    ensures template { IfOk result (λ template. template ≡ word.now) }
    ensures ok { IfOk result (λ _. spec.IsTemplateWord pattern.now word.now) }
    ensures fault { IfErr result (Refuses (spec.IsTemplateWord pattern.now word.now)) }
{
    if !is_short(word) {
        return Err(REFUSED);
    }
    filling(alloc, pattern, word)
}

fn is_inverted(word: &[u8]) -> bool
    ensures { result ≡ spec.is_inverted word.now }
{
    begins_with(word, b'~')
}

/// A word as a template for a pattern's wilds, and whether `~` stands before it.
pub fn signed_template(
    alloc: Global,
    pattern: &Pattern,
    word: &[u8],
) -> Result<(Template, bool), Stop>
    requires { IsName word.now }
    ensures template { IfOk result (λ found. found.0 ≡ spec.unsigned word.now) }
    ensures inverted { IfOk result (λ found. found.1 ≡ spec.is_inverted word.now) }
    ensures ok { IfOk result (λ _. spec.IsSignedWord pattern.now word.now) }
    ensures fault { IfErr result (Refuses (spec.IsSignedWord pattern.now word.now)) }
{
    if !is_short(word) {
        return Err(REFUSED);
    }
    let inverted = is_inverted(word);
    let text = if inverted { &word[1..] } else { word };
    Ok((filling(alloc, pattern, text)?, inverted))
}
