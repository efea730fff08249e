//! The tokens of a whole text.

ghost use Rattle.std.specs.Prelude.{◌≡◌, ◌<◌, ◌≤◌, ◌+◌, ◌^◌, ◌++◌, length, IfOk, IfErr, OnOk, ℕ, List, Ok, Err};
ghost use Rattle.eq_vlex.specs.declared.token.Token.{Token};
ghost use Rattle.eq_vlex.specs.declared.fault.LexKind.{LexKind};
ghost use Rattle.eq_vlex.specs.Tokens as spec;

use crate::fault::{LexErr, Stop};
use crate::piece::{Piece, front_piece};
use crate::token::{Token, Tokens};
use eq_base::Memory;
use std::alloc::Global;

/// Why a text has no tokens, where reading stopped at a place.
fn located(stop: Stop, at: u32) -> LexErr
    ensures { result ≡ spec.located stop at }
{
    match stop {
        Stop::Fault(kind) => LexErr::At { at, kind },
        Stop::Memory => LexErr::Memory,
    }
}

/// Puts the token of a piece that begins at a place behind the others; a separator is none.
fn put_token(tokens: &mut Tokens, at: u32, piece: Piece) -> Result<(), Memory>
    requires { at + piece.len < 2 ^ 32 }
    ensures { OnOk result (tokens.new ≡ tokens.old ++ spec.token_of piece.kind at piece.len) }
{
    let Piece { len, kind } = piece;
    match kind {
        None => Ok(()),
        Some(kind) => tokens.push(Token {
            kind,
            start: at,
            end: at + len as u32,
        }),
    }
}

/// Reads pieces from the first byte to the last.
fn read_pieces(alloc: Global, text: &[u8]) -> Result<Tokens, LexErr>
    requires { length text.now ≤ 67_108_864 }
    ensures ok { IfOk result (spec.HasTokens text.now) }
    ensures fault { IfErr result (spec.Explains text.now) }
{
    let mut tokens = Tokens::new(alloc);
    let mut at = 0;
    while at < text.len() {
        let piece = match front_piece(alloc, &text[at..]) {
            Ok(piece) => piece,
            Err(stop) => return Err(located(stop, at as u32)),
        };
        let len = piece.len;
        put_token(&mut tokens, at as u32, piece)?;
        at += len;
    }
    Ok(tokens)
}

/// The tokens of a text, or its first fault.
pub fn tokens(alloc: Global, text: &[u8]) -> Result<Tokens, LexErr>
    requires { length text.now ≤ 67_108_864 }

    // What is answered is so,
    ensures ok { IfOk result (spec.HasTokens text.now) }
    ensures fault { IfErr result (spec.Explains text.now) }
    ensures spans { IfOk result (spec.AreInOrder 0 (length text.now)) }

    // and what is so is answered.
    ensures only_tokens { (tokens : List Token) → spec.HasTokens text.now tokens → spec.IsOrNoMemory result (Ok tokens) }
    ensures only_fault { (at : ℕ) (kind : LexKind) → spec.HasFault text.now at kind → spec.IsOrNoMemory result (Err (LexErr.At at kind)) }
{
    read_pieces(alloc, text)
}

/// The line of a place: 1, and one more for each line feed before the place.
pub fn line_of(text: &[u8], at: u32) -> u32
    requires { length text.now ≤ 67_108_864 }
    ensures { result ≡ spec.line_at text.now at }
{
    let before = &text[..text.len().min(at as usize)];
    let mut line = 1;
    for byte in before {
        if *byte == b'\n' {
            line += 1;
        }
    }
    line
}
