//! Patterns: read, printed, and matched with names.

ghost use Rattle.std.specs.Prelude.{◌≡◌, ◌<◌, ◌≤◌, ◌+◌, ◌↔◌, ◌^◌, [], ℕ, All, length, drop, IsTrue, IfOk, IfErr, IfSome, IfNone, Ok, Err, count_by};
ghost use Rattle.eq_names.specs.Name.{IsNameByte, IsName};
ghost use Rattle.eq_names.specs.Pieces.{is_wild};
ghost use Rattle.eq_names.specs.Reading.{IsFront, ArePiecesOf};
ghost use Rattle.eq_names.specs.Patterns as spec;
ghost use Rattle.eq_names.specs.Templates.{IsSpanOf};
ghost use Rattle.eq_names.specs.declared.fault.PatErr.{PatErr};

use crate::bracket::{are_ranges, closing, inside, is_negated, members};
use crate::fault::PatErr;
use crate::name::Name;
use crate::piece::{ByteSet, Piece, Pieces};
use crate::span::Captures;
use crate::walk::{is_divided, spans};
use eq_base::{Bytes, Memory};
use std::alloc::Global;
use std::marker::Model;

/// A text with wilds, for the names that it matches. Contracts see the text.
#[derive(Debug, Drop)]
pub struct Pattern {
    text: Bytes,
    pieces: Pieces,
}

impl Model for Pattern {
    ghost use Rattle.std.specs.Prelude.{List, ℕ, ◌<◌, ◌^◌, length};
    ghost use Rattle.eq_names.specs.Name.{IsName};
    ghost use Rattle.eq_names.specs.Patterns.{piece_at};
    ghost use Rattle.eq_names.specs.Reading.{ArePiecesOf};

    ghost Value = { List ℕ };

    ghost view = { λ p. p.text };

    ghost invariant = { λ p.
        IsName p.text × ArePiecesOf piece_at p.text p.pieces × (length p.pieces < 2 ^ 32) };
}

/// The set behind a `[`, and how many bytes it has with its brackets.
fn set_at(alloc: Global, behind: &[u8]) -> Result<(Piece, usize), PatErr>
    requires { length behind.now < 2 ^ 32 }
    ensures ok { IfOk result (λ found. spec.set_at behind.now ≡ Ok found) }
    ensures within { IfOk result (λ found. (0 < found.1) × (found.1 ≤ length behind.now + 1)) }
    ensures fault { IfErr result (spec.IsRuleFault (spec.set_at behind.now)) }
{
    let negated = is_negated(behind);
    let text = inside(behind);
    let close = match closing(text) {
        Some(close) => close,
        None => return Err(PatErr::OpenBracket),
    };
    let ranges = members(alloc, &text[..close])?;
    if !are_ranges(ranges.as_slice()) {
        return Err(PatErr::EmptyRange);
    }
    let brackets = if negated { 3 } else { 2 };
    Ok((Piece::OneOf(ByteSet { negated, ranges }), close + brackets))
}

/// The piece at the front of a text, and how many bytes it has.
fn piece_at(alloc: Global, text: &[u8]) -> Result<(Piece, usize), PatErr>
    requires some { 0 < length text.now }
    requires short { length text.now < 2 ^ 32 }
    ensures ok { IfOk result (λ found. spec.piece_at text.now ≡ Ok found) }
    ensures within { IfOk result (λ found. (0 < found.1) × (found.1 ≤ length text.now)) }
    ensures fault { IfErr result (spec.IsRuleFault (spec.piece_at text.now)) }
{
    match text[0] {
        b'*' => Ok((Piece::AnyRun, 1)),
        b'?' => Ok((Piece::AnyByte, 1)),
        b'[' => set_at(alloc, &text[1..]),
        byte => Ok((Piece::Byte(byte), 1)),
    }
}

/// The pieces of a text.
fn read_pieces(alloc: Global, text: &[u8]) -> Result<Pieces, PatErr>
    requires { length text.now < 2 ^ 32 }
    ensures ok { IfOk result (λ pieces. IsFront spec.piece_at pieces text.now []) }
    ensures count { IfOk result (λ pieces. length pieces ≤ length text.now) }
    ensures fault { IfErr result (spec.Explains text.now) }
{
    let mut pieces = Pieces::new(alloc);
    let mut at = 0;
    while at < text.len() {
        let (piece, len) = match piece_at(alloc, &text[at..]) {
            Ok(found) => found,
            Err(fault) => return Err(fault),
        };
        pieces.push(piece)?;
        at += len;
    }
    Ok(pieces)
}

/// Reads a whole text that isn't empty.
fn read_text(alloc: Global, text: &[u8]) -> Result<Pattern, PatErr>
    requires bytes { All IsNameByte text.now }
    requires short { length text.now < 2 ^ 32 }
    ensures ok { IfOk result (λ pattern. (pattern ≡ text.now) × spec.IsPattern text.now) }
    ensures fault { IfErr result (spec.Explains text.now) }
{
    if text.is_empty() {
        return Err(PatErr::Empty);
    }
    let pieces = read_pieces(alloc, text)?;
    let text = Bytes::from_slice(alloc, text)?;
    Ok(Pattern { text, pieces })
}

/// How many of the pieces are wilds.
fn count_wilds(pieces: &[Piece]) -> usize
    ensures count { result ≡ count_by is_wild pieces.now }
    ensures within { result ≤ length pieces.now }
{
    pieces.iter().filter(|piece| piece.is_wild()).count()
}

impl Pattern {
    /// Reads a whole text as one pattern.
    pub fn read(alloc: Global, text: &[u8]) -> Result<Pattern, PatErr>
        requires bytes { All IsNameByte text.now }
        requires short { length text.now < 2 ^ 32 }

        // What is answered is so,
        ensures ok { IfOk result (λ pattern. (pattern ≡ text.now) × spec.IsPattern text.now) }
        ensures fault { IfErr result (spec.Explains text.now) }

        // and what is so is answered.
        ensures only_ok { spec.IsPattern text.now → spec.IsOrNoMemory result (Ok text.now) }
        ensures only_fault { (fault : PatErr) →
            spec.HasPatternFault text.now fault → spec.IsOrNoMemory result (Err fault) }
    {
        read_text(alloc, text)
    }

    /// Whether the whole name matches, in at most (bytes of the pattern) x (bytes of the name) steps.
    pub fn matches(&self, name: &[u8]) -> bool
        ensures { IsTrue result ↔ spec.Matches self.now name.now }
    {
        is_divided(self.pieces.as_slice(), name)
    }

    /// Where the wilds stand in a name that matches.
    pub fn captures(&self, alloc: Global, name: &[u8]) -> Result<Option<Captures>, Memory>
        ensures some { IfOk result (λ found. IfSome found (spec.AreCaptures self.now name.now)) }
        ensures none { IfOk result (λ found. IfNone found (¬ spec.Matches self.now name.now)) }
        ensures within { IfOk result (λ found. IfSome found (All (IsSpanOf name.now))) }
        ensures count { IfOk result (λ found. IfSome found (λ spans.
            (wilds : ℕ) → spec.HasWilds self.now wilds → length spans ≡ wilds)) }
    {
        spans(alloc, self.pieces.as_slice(), name)
    }

    /// How many wilds it has: each `*`, `?` and set is one.
    pub fn wilds(&self) -> u32
        ensures { spec.HasWilds self.now result }
    {
        count_wilds(self.pieces.as_slice()) as u32
    }

    /// The text that it was read from.
    pub fn print(&self, alloc: Global) -> Result<Name, Memory>
        ensures { IfOk result (λ name. name ≡ self.now) }
    {
        Name::of(alloc, self.text.as_slice())
    }
}
