//! The separator or token at the front of a text.

ghost use Rattle.std.specs.Prelude.{◌≡◌, ◌<◌, ◌≤◌, length, IfOk, IfErr, drop};
ghost use Rattle.eq_vlex.specs.Bytes.{begins};
ghost use Rattle.eq_vlex.specs.declared.bytes.Start.{Start};
ghost use Rattle.eq_vlex.specs.Pieces as spec;

use crate::bytes::{Class, Start, begins, run};
use crate::fault::{LexKind, Stop};
use crate::mark::mark_at;
use crate::number::number;
use crate::separator::{attribute_close, comment_close};
use crate::token::TokenKind;
use crate::word::{escaped_name, simple_name};
use std::alloc::Global;

/// A separator or a token.
#[derive(Debug, Drop)]
pub struct Piece {
    /// How many bytes it has.
    pub len: usize,
    /// What token it is; a separator has none.
    pub kind: Option<TokenKind>,
}

fn separator(len: usize) -> Piece
    ensures { result ≡ record { len = len; kind = None } }
{
    Piece { len, kind: None }
}

/// The comment at the front of a text that begins with `/*`.
fn block_comment(text: &[u8]) -> Result<Piece, LexKind>
    requires { 2 ≤ length text.now }
    ensures ok { IfOk result (λ piece. spec.IsKind Start.BlockComment text.now piece.len piece.kind) }
    ensures fault { IfErr result (spec.IsFault Start.BlockComment text.now) }
{
    let close = comment_close(&text[2..]).ok_or(LexKind::OpenComment)?;
    Ok(separator(close + 4))
}

/// The attribute at the front of a text that begins with `(*`.
fn attribute(text: &[u8]) -> Result<Piece, LexKind>
    requires { 2 ≤ length text.now }
    ensures ok { IfOk result (λ piece. spec.IsKind Start.Attribute text.now piece.len piece.kind) }
    ensures fault { IfErr result (spec.IsFault Start.Attribute text.now) }
{
    let close = attribute_close(&text[2..]).ok_or(LexKind::OpenAttribute)?;
    Ok(separator(close + 4))
}

/// The mark at the front of a text.
fn mark(text: &[u8]) -> Result<Piece, LexKind>
    ensures ok { IfOk result (λ piece. spec.IsKind Start.Other text.now piece.len piece.kind) }
    ensures fault { IfErr result (spec.IsFault Start.Other text.now) }
{
    let (mark, len) = mark_at(text).ok_or(LexKind::BadByte)?;
    Ok(Piece {
        len,
        kind: Some(TokenKind::Mark(mark)),
    })
}

/// The separator or token at the front of a text.
pub fn front_piece(alloc: Global, text: &[u8]) -> Result<Piece, Stop>
    requires some { 0 < length text.now }
    requires within { length text.now ≤ 67_108_864 }
    ensures ok { IfOk result (spec.IsPiece text.now) }
    ensures fault { IfErr result (spec.Stops (spec.IsFault (begins text.now) text.now)) }
{
    match begins(text) {
        Start::White => Ok(separator(run(Class::White, text).len())),
        Start::LineComment => Ok(separator(run(Class::Line, text).len())),
        Start::BlockComment => block_comment(text).map_err(Stop::Fault),
        Start::Attribute => attribute(text).map_err(Stop::Fault),
        Start::SimpleName => Ok(simple_name(alloc, text)?),
        Start::EscapedName => escaped_name(alloc, text),
        Start::Number => number(text).map_err(Stop::Fault),
        Start::Other => mark(text).map_err(Stop::Fault),
    }
}
