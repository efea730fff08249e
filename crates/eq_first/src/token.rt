//! Words and marks, and how a text is cut into them.

ghost use Rattle.std.specs.Prelude.{◌≡◌, ◌≤◌, List, length, option_map, IfOk, IfSome, IfNone};
ghost use Rattle.std.specs.List.{prefix_len};
ghost use Rattle.eq_first.specs.Tokens.{Token, HasTokens};
ghost use Rattle.eq_first.specs.Lexing.{token_of, tokens_in, is_space as is_space_lem, begins_word as begins_word_lem, is_word_byte as is_word_byte_lem, mark_at, skip, is_split as is_split_lem, word_at, token_at};

use eq_base::Memory;
use std::alloc::Global;

/// A mark of one byte.
#[derive(Clone, Copy, Debug, PartialEq, Eq)]
pub enum Mark {
    Open,
    Close,
    Comma,
    Semicolon,
    Equals,
    Not,
    And,
    Xor,
    Or,
}

/// A token as it stands in a text.
#[derive(Clone, Copy)]
pub enum Lexeme<'a> {
    Word(&'a [u8]),
    Mark(Mark),
}

/// An operator with two operands.
#[derive(Clone, Copy, Debug, PartialEq, Eq)]
pub enum Operator {
    And,
    Xor,
    Or,
}

fn is_space(byte: u8) -> bool
    ensures { result ≡ is_space_lem byte }
{
    matches!(byte, b' ' | b'\t' | b'\n' | 12 | b'\r')
}

fn begins_word(byte: u8) -> bool
    ensures { result ≡ begins_word_lem byte }
{
    matches!(byte, b'A'..=b'Z' | b'a'..=b'z' | b'_')
}

fn is_word_byte(byte: u8) -> bool
    ensures { result ≡ is_word_byte_lem byte }
{
    begins_word(byte) || matches!(byte, b'0'..=b'9' | b'$')
}

#[tactic(auto, unfolding(crate::specs::Lexing::mark_at))]
fn mark_of(byte: u8) -> Option<Mark>
    ensures { result ≡ mark_at byte }
{
    match byte {
        b'(' => Some(Mark::Open),
        b')' => Some(Mark::Close),
        b',' => Some(Mark::Comma),
        b';' => Some(Mark::Semicolon),
        b'=' => Some(Mark::Equals),
        b'~' => Some(Mark::Not),
        b'&' => Some(Mark::And),
        b'^' => Some(Mark::Xor),
        b'|' => Some(Mark::Or),
        _ => None,
    }
}

/// How many bytes of white space the text begins with.
fn space_len(text: &[u8]) -> usize
    ensures count { result ≡ prefix_len is_space_lem text.now }
    ensures within { result ≤ length text.now }
{
    text.iter().take_while(|byte| is_space(**byte)).count()
}

/// How many bytes the word at the front has.
fn word_len(text: &[u8]) -> usize
    ensures count { result ≡ prefix_len is_word_byte_lem text.now }
    ensures within { result ≤ length text.now }
{
    text.iter().take_while(|byte| is_word_byte(**byte)).count()
}

/// What the text has behind white space.
#[tactic(auto, unfolding(crate::specs::Lexing::skip))]
fn without_space(text: &[u8]) -> &[u8]
    ensures { result.now ≡ skip text.now }
{
    let (_, rest) = text.split_at(space_len(text));
    rest
}

/// Whether the mark and what follows it begin with `^~`, which is another token.
fn is_split(mark: Mark, rest: &[u8]) -> bool
    ensures { result ≡ is_split_lem mark rest.now }
{
    match (mark, rest) {
        (Mark::Xor, [next, ..]) => *next == b'~',
        _ => false,
    }
}

#[tactic(auto, unfolding(crate::specs::Lexing::word_at))]
fn word(text: &[u8]) -> (Lexeme<'_>, &[u8])
    ensures { (token_of result.0, result.1.now) ≡ word_at text.now }
{
    let (word, rest) = text.split_at(word_len(text));
    (Lexeme::Word(word), rest)
}

/// The token at the front, and what follows it.
#[tactic(auto, unfolding(crate::specs::Lexing::token_at))]
fn token(text: &[u8]) -> Option<(Lexeme<'_>, &[u8])>
    ensures { option_map (λ r. (token_of r.0, r.1.now)) result ≡ token_at text.now }
{
    let (first, rest) = text.split_first()?;
    if begins_word(*first) {
        return Some(word(text));
    }
    let mark = mark_of(*first)?;
    if is_split(mark, rest) {
        return None;
    }
    Some((Lexeme::Mark(mark), rest))
}

/// The tokens of a whole text. `None` exactly where it has none.
pub fn tokens(alloc: Global, text: &[u8]) -> Result<Option<Vec<Lexeme<'_>>>, Memory>
    ensures some { IfOk result (λ o. IfSome o (λ v. HasTokens text.now (tokens_in v.items))) }
    ensures none { IfOk result (λ o. IfNone o ((ts : List Token) → HasTokens text.now ts → ⊥)) }
{
    let mut found = Vec::new(alloc);
    let mut rest = without_space(text);
    while !rest.is_empty() {
        let Some((lexeme, after)) = token(rest) else {
            return Ok(None);
        };
        found.push(lexeme)?;
        rest = without_space(after);
    }
    Ok(Some(found))
}
