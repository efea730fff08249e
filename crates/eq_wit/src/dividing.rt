//! The words of a line.

ghost use Rattle.std.specs.Prelude.{◌≡◌, ◌≢◌, ◌<◌, ◌≤◌, ◌↔◌, ◌==◌, List, ℕ, [], ◌∷◌, ◌++◌, IfNone, IfSome, IsTrue, MatchOption, OnOk, length};
ghost use Rattle.std.specs.List.{position_or_len};
ghost use Rattle.eq_names.specs.Name.{IsName};
ghost use Rattle.eq_wit.specs.inner.Judging.{HasNoFeed, words_in};

use eq_base::Memory;
use eq_names::are_name_bytes;
use eq_proof::rows::Rows;

/// Words in order, kept flat.
pub type Words = Rows<u8>;

/// How many bytes stand before the first of this value.
fn len_before(text: &[u8], byte: u8) -> usize
    ensures value { result ≡ position_or_len (λ b. b == byte) text.now }
    ensures within { result ≤ length text.now }
{
    let mut len = 0;
    while len < text.len() && text[len] != byte {
        len += 1;
    }
    len
}

/// The first line of a text, without its line feed, and what follows that; None where there is no line feed.
pub fn next_line(text: &[u8]) -> Option<(&[u8], &[u8])>
    ensures { MatchOption result (HasNoFeed text.now) (λ found.
        (text.now ≡ found.0.now ++ 10 ∷ found.1.now) × HasNoFeed found.0.now) }
{
    let len = len_before(text, b'\n');
    if len == text.len() {
        return None;
    }
    Some((&text[..len], &text[len + 1..]))
}

/// The first word of a line, and what follows the blank behind it, if there is one.
fn cut(line: &[u8]) -> (&[u8], Option<&[u8]>)
    ensures some { IfSome result.1 (λ rest. words_in line.now ≡ result.0.now ∷ words_in rest.now) }
    ensures none { IfNone result.1 (words_in line.now ≡ result.0.now ∷ []) }
    ensures shorter { IfSome result.1 (λ rest. length rest.now < length line.now) }
{
    let len = len_before(line, b' ');
    if len == line.len() {
        return (line, None);
    }
    (&line[..len], Some(&line[len + 1..]))
}

/// Divides a line at its blanks, in place of the words that were there.
pub fn divide(line: &[u8], words: &mut Words) -> Result<(), Memory>
    ensures { OnOk result (words.new ≡ words_in line.now) }
{
    words.truncate(0);
    let mut rest = line;
    loop {
        let (word, behind) = cut(rest);
        words.push(word)?;
        match behind {
            None => return Ok(()),
            Some(after) => rest = after,
        }
    }
}

/// Whether a word may stand for a name or a number.
pub fn is_name(word: &[u8]) -> bool
    ensures { IsTrue result ↔ IsName word.now }
{
    !word.is_empty() && are_name_bytes(word)
}

/// The one word.
pub fn one(words: &Words) -> Option<&[u8]>
    ensures { MatchOption result ((a : List ℕ) → words.now ≢ a ∷ [])
        (λ found. words.now ≡ found.now ∷ []) }
{
    if words.len() != 1 {
        return None;
    }
    Some(words.at(0))
}

/// The two words.
pub fn two(words: &Words) -> Option<(&[u8], &[u8])>
    ensures { MatchOption result ((a b : List ℕ) → words.now ≢ a ∷ b ∷ [])
        (λ found. words.now ≡ found.0.now ∷ found.1.now ∷ []) }
{
    if words.len() != 2 {
        return None;
    }
    Some((words.at(0), words.at(1)))
}

/// The three words.
pub fn three(words: &Words) -> Option<(&[u8], &[u8], &[u8])>
    ensures { MatchOption result ((a b d : List ℕ) → words.now ≢ a ∷ b ∷ d ∷ [])
        (λ found. words.now ≡ found.0.now ∷ found.1.now ∷ found.2.now ∷ []) }
{
    if words.len() != 3 {
        return None;
    }
    Some((words.at(0), words.at(1), words.at(2)))
}

/// Whether there is one word, and it is this.
pub fn is_one(words: &Words, key: &[u8]) -> bool
    ensures { IsTrue result ↔ (words.now ≡ key.now ∷ []) }
{
    match one(words) {
        Some(word) => word == key,
        None => false,
    }
}

/// The four words.
pub fn four(words: &Words) -> Option<(&[u8], &[u8], &[u8], &[u8])>
    ensures { MatchOption result ((a b d e : List ℕ) → words.now ≢ a ∷ b ∷ d ∷ e ∷ [])
        (λ found. words.now ≡
        found.0.now ∷ found.1.now ∷ found.2.now ∷ found.3.now ∷ []) }
{
    if words.len() != 4 {
        return None;
    }
    Some((words.at(0), words.at(1), words.at(2), words.at(3)))
}

/// The two words behind a key that has no other.
pub fn two_behind<'a>(words: &'a Words, key: &[u8]) -> Option<(&'a [u8], &'a [u8])>
    ensures { MatchOption result ((a b : List ℕ) → words.now ≢ key.now ∷ a ∷ b ∷ [])
        (λ found. words.now ≡ key.now ∷ found.0.now ∷ found.1.now ∷ []) }
{
    let (first, second, third) = three(words)?;
    if first == key {
        Some((second, third))
    } else {
        None
    }
}

/// The three words behind a key that has no other.
pub fn three_behind<'a>(words: &'a Words, key: &[u8]) -> Option<(&'a [u8], &'a [u8], &'a [u8])>
    ensures { MatchOption result ((a b d : List ℕ) → words.now ≢ key.now ∷ a ∷ b ∷ d ∷ [])
        (λ found. words.now ≡ key.now ∷ found.0.now ∷ found.1.now ∷ found.2.now ∷ []) }
{
    let (first, second, third, fourth) = four(words)?;
    if first == key {
        Some((second, third, fourth))
    } else {
        None
    }
}

/// The four words behind a key that has no other.
pub fn four_behind<'a>(
    words: &'a Words,
    key: &[u8],
) -> Option<(&'a [u8], &'a [u8], &'a [u8], &'a [u8])>
    ensures { MatchOption result ((a b d e : List ℕ) → words.now ≢ key.now ∷ a ∷ b ∷ d ∷ e ∷ [])
        (λ found. words.now ≡
        key.now ∷ found.0.now ∷ found.1.now ∷ found.2.now ∷ found.3.now ∷ []) }
{
    if words.len() != 5 || words.at(0) != key {
        return None;
    }
    Some((words.at(1), words.at(2), words.at(3), words.at(4)))
}

/// The word behind a key that has no other.
pub fn keyed<'a>(words: &'a Words, key: &[u8]) -> Option<&'a [u8]>
    ensures { MatchOption result ((a : List ℕ) → words.now ≢ key.now ∷ a ∷ [])
        (λ found. words.now ≡ key.now ∷ found.now ∷ []) }
{
    let (first, second) = two(words)?;
    if first == key { Some(second) } else { None }
}
