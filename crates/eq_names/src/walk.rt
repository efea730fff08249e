//! A walk along a name: each `*` takes the first place where the pieces up to the next `*` fit.

ghost use Rattle.std.specs.Prelude.{◌≡◌, ◌<◌, ◌≤◌, ◌+◌, ◌↔◌, ◌^◌, ℕ, true, false, length, drop, take, IsTrue, IfOk, IfSome, IfNone, OnOk, ◌++◌};
ghost use Rattle.eq_names.specs.Divisions.{IsDivided, AreSpans, span_of};
ghost use Rattle.eq_names.specs.inner.Segments as spec;

use crate::piece::Piece;
use crate::span::{Captures, Span};
use eq_base::Memory;
use std::alloc::Global;

/// How many pieces stand before the first `*`.
fn segment_len(pieces: &[Piece]) -> usize
    ensures value { result ≡ spec.segment_len pieces.now }
    ensures within { result ≤ length pieces.now }
{
    let mut len = 0;
    while len < pieces.len() && !pieces[len].is_run() {
        len += 1;
    }
    len
}

/// Whether the pieces take the first bytes of the name, one each.
fn fits(segment: &[Piece], name: &[u8]) -> bool
    ensures { result ≡ spec.fits segment.now name.now }
{
    if name.len() < segment.len() {
        return false;
    }
    for i in 0..segment.len() {
        if !segment[i].takes(name[i]) {
            return false;
        }
    }
    true
}

/// The first place where the pieces fit.
fn first_place(segment: &[Piece], name: &[u8]) -> Option<usize>
    ensures some { IfSome result (spec.IsFirstPlace segment.now name.now) }
    ensures none { IfNone result (spec.IsNowhere segment.now name.now) }
{
    if name.len() < segment.len() {
        return None;
    }
    for at in 0..name.len() - segment.len() + 1 {
        if fits(segment, &name[at..]) {
            return Some(at);
        }
    }
    None
}

/// The place where the pieces fit, and the name ends behind them.
fn last_place(segment: &[Piece], name: &[u8]) -> Option<usize>
    ensures some { IfSome result (spec.IsLastPlace segment.now name.now) }
    ensures none { IfNone result ((n : ℕ) → ¬ spec.IsLastPlace segment.now name.now n) }
{
    if name.len() < segment.len() {
        return None;
    }
    let at = name.len() - segment.len();
    if fits(segment, &name[at..]) {
        Some(at)
    } else {
        None
    }
}

/// The shortest run of a `*` that leaves the rest of the name to the pieces behind it.
fn run_before(after: &[Piece], name: &[u8]) -> Option<usize>
    ensures some { IfSome result (spec.IsRunBefore after.now name.now) }
    ensures none { IfNone result (spec.HasNoRunBefore after.now name.now) }
{
    let len = segment_len(after);
    if len < after.len() {
        first_place(&after[..len], name)
    } else {
        last_place(after, name)
    }
}

/// The run of a piece that takes one byte.
fn byte_run(piece: &Piece, name: &[u8]) -> Option<usize>
    ensures { result ≡ spec.byte_run piece.now name.now }
{
    match name.first() {
        Some(byte) => { if piece.takes(*byte) { Some(1) } else { None } }
        None => None,
    }
}

/// The run of the first piece, where the name may be divided among it and the pieces behind it.
fn first_run(piece: &Piece, after: &[Piece], name: &[u8]) -> Option<usize>
    ensures some { IfSome result (spec.IsFirstRun piece.now after.now name.now) }
    ensures none { IfNone result (spec.HasNoRun piece.now after.now name.now) }
{
    if piece.is_run() {
        run_before(after, name)
    } else {
        byte_run(piece, name)
    }
}

/// Whether the name may be divided among the pieces.
pub fn is_divided(pieces: &[Piece], name: &[u8]) -> bool
    ensures { IsTrue result ↔ IsDivided pieces.now name.now }
{
    let mut at = 0;
    for i in 0..pieces.len() {
        match first_run(&pieces[i], &pieces[i + 1..], &name[at..]) {
            Some(len) => at += len,
            None => return false,
        }
    }
    at == name.len()
}

/// Puts the run of a piece behind the others, where the piece is a wild.
fn put_span(spans: &mut Captures, piece: &Piece, at: usize, len: usize) -> Result<(), Memory>
    requires { at + len < 2 ^ 64 }
    ensures { OnOk result (spans.new ≡ spans.old ++ span_of piece.now at len) }
{
    if piece.is_wild() {
        spans.push(Span {
            start: at as u64,
            end: (at + len) as u64,
        })
    } else {
        Ok(())
    }
}

/// Where the wilds stand in the name, where the name may be divided among the pieces.
pub fn spans(alloc: Global, pieces: &[Piece], name: &[u8]) -> Result<Option<Captures>, Memory>
    ensures some { IfOk result (λ found. IfSome found (AreSpans pieces.now name.now 0)) }
    ensures none { IfOk result (λ found. IfNone found (¬ IsDivided pieces.now name.now)) }
{
    let mut spans = Captures::new(alloc);
    let mut at = 0;
    for i in 0..pieces.len() {
        let piece = &pieces[i];
        let len = match first_run(piece, &pieces[i + 1..], &name[at..]) {
            Some(len) => len,
            None => return Ok(None),
        };
        put_span(&mut spans, piece, at, len)?;
        at += len;
    }
    if at == name.len() {
        Ok(Some(spans))
    } else {
        Ok(None)
    }
}
