//! Simple names, keywords and escaped names.

ghost use Rattle.std.specs.Prelude.{◌≡◌, ◌<◌, ◌≤◌, ◌+◌, ◌^◌, ◌↔◌, length, IfOk, IfErr, IsTrue};
ghost use Rattle.eq_names.specs.Name.{IsName};
ghost use Rattle.eq_vlex.specs.Bytes.{begins};
ghost use Rattle.eq_vlex.specs.declared.bytes.Start.{Start};
ghost use Rattle.eq_vlex.specs.Words as spec;
ghost use Rattle.eq_vlex.specs.Pieces.{IsKind, IsFault, Stops};

use crate::bytes::{Class, is_in, run};
use crate::fault::{LexKind, Stop};
use crate::key::key_of;
use crate::piece::Piece;
use crate::token::TokenKind;
use eq_base::Memory;
use eq_names::{Name, NameErr};
use std::alloc::Global;

/// The name of bytes that are one.
fn name_of(alloc: Global, bytes: &[u8]) -> Result<Name, Memory>
    requires { IsName bytes.now }
    ensures { IfOk result (λ name. name ≡ bytes.now) }
{
    match Name::read(alloc, bytes) {
        Ok(name) => Ok(name),
        Err(NameErr::Memory) => Err(Memory),
        Err(NameErr::Empty) => unreachable!(),
        Err(NameErr::BadByte { .. }) => unreachable!(),
    }
}

/// The simple name or keyword at the front of a text that begins with a letter or `_`.
pub fn simple_name(alloc: Global, text: &[u8]) -> Result<Piece, Memory>
    requires { begins text.now ≡ Start.SimpleName }
    ensures { IfOk result (λ piece. IsKind Start.SimpleName text.now piece.len piece.kind) }
{
    let word = run(Class::Simple, text);
    let kind = match key_of(word) {
        Some(key) => TokenKind::Key(key),
        None => TokenKind::Word(name_of(alloc, word)?),
    };
    Ok(Piece {
        len: word.len(),
        kind: Some(kind),
    })
}

/// Whether the `\` at the front and the bytes behind it, so many, are an escaped name.
fn is_escaped_name(text: &[u8], len: usize) -> bool
    requires len { len ≡ length (spec.escaped_name text.now) }
    requires within { len < 2 ^ 32 }
    ensures { IsTrue result ↔ spec.IsEscapedName text.now }
{
    len > 0 && (len + 1 >= text.len() || is_in(Class::White, text[len + 1]))
}

/// The escaped name at the front of a text that begins with `\`.
pub fn escaped_name(alloc: Global, text: &[u8]) -> Result<Piece, Stop>
    requires some { 0 < length text.now }
    requires within { length text.now ≤ 67_108_864 }
    ensures ok { IfOk result (λ piece. IsKind Start.EscapedName text.now piece.len piece.kind) }
    ensures fault { IfErr result (Stops (IsFault Start.EscapedName text.now)) }
{
    let name = run(Class::Visible, &text[1..]);
    if !is_escaped_name(text, name.len()) {
        return Err(Stop::Fault(LexKind::BadByte));
    }
    Ok(Piece {
        len: name.len() + 1,
        kind: Some(TokenKind::Word(name_of(alloc, name)?)),
    })
}
