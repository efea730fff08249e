//! The bytes of words, marks and numbers.

ghost use Rattle.std.specs.Prelude.{◌≡◌, ◌∷◌, ◌++◌, ◌<◌, false, map, OnOk};
ghost use Rattle.std.specs.Char.{is_ascii_alphabetic};
ghost use Rattle.std.specs.Fmt.{decimal, digits, digit_glyph};
ghost use Rattle.std.specs.List.{list_all, list_any};
ghost use Rattle.std.specs.Option.{is_some};
ghost use Rattle.std.specs.Str.{bytes_eq};
ghost use Rattle.eq_vlex.specs.declared.bytes.Class.TheVariants as class;
ghost use Rattle.eq_vlex.specs.Bytes.{is_in};
ghost use Rattle.eq_vlex.specs.Words.{key_of};
ghost use Rattle.eq_vparse.specs.Layout as spec;

use eq_base::{Bytes, Memory};
use eq_vlex::{Key, Mark, key_of};

fn is_simple_byte(byte: u8) -> bool
    ensures { result ≡ is_in class.Simple byte }
{
    byte.is_ascii_alphanumeric() || byte == b'_' || byte == b'$'
}

fn are_simple_bytes(name: &[u8]) -> bool
    ensures { result ≡ list_all (is_in class.Simple) name.now }
{
    name.iter().all(|byte| is_simple_byte(*byte))
}

fn begins_simple(name: &[u8]) -> bool
    ensures { result ≡ spec.begins_simple name.now }
{
    let first = name.get(0).copied().unwrap_or(0);
    first.is_ascii_alphabetic() || first == b'_'
}

/// Whether a name can stand without a `\`: a letter or `_`, then letters, digits, `_` and `$`, and no keyword.
#[tactic(auto, unfolding(crate::specs::Layout::is_simple))]
pub fn is_simple(name: &[u8]) -> bool
    ensures { result ≡ spec.is_simple name.now }
{
    begins_simple(name) && are_simple_bytes(name) && key_of(name).is_none()
}

pub fn key_bytes(key: Key) -> &'static [u8]
    ensures { result.now ≡ spec.key_bytes key }
{
    match key {
        Key::Module => b"module",
        Key::Endmodule => b"endmodule",
        Key::Input => b"input",
        Key::Output => b"output",
        Key::Wire => b"wire",
        Key::Reg => b"reg",
        Key::Assign => b"assign",
        Key::Always => b"always",
        Key::Initial => b"initial",
        Key::Posedge => b"posedge",
        Key::Begin => b"begin",
        Key::End => b"end",
        Key::If => b"if",
        Key::Else => b"else",
        Key::And => b"and",
        Key::Nand => b"nand",
        Key::Or => b"or",
        Key::Nor => b"nor",
        Key::Xor => b"xor",
        Key::Xnor => b"xnor",
        Key::Buf => b"buf",
        Key::Not => b"not",
        Key::Reserved => b"",
    }
}

pub fn mark_bytes(mark: Mark) -> &'static [u8]
    ensures { result.now ≡ spec.mark_bytes mark }
{
    match mark {
        Mark::CaseEqual => b"===",
        Mark::CaseNotEqual => b"!==",
        Mark::Equal => b"==",
        Mark::NotEqual => b"!=",
        Mark::LessEqual => b"<=",
        Mark::GreaterEqual => b">=",
        Mark::ShiftLeft => b"<<",
        Mark::ShiftRight => b">>",
        Mark::LogicalAnd => b"&&",
        Mark::LogicalOr => b"||",
        Mark::TildeAnd => b"~&",
        Mark::TildeOr => b"~|",
        Mark::TildeXor => b"~^",
        Mark::XorTilde => b"^~",
        Mark::LeftParen => b"(",
        Mark::RightParen => b")",
        Mark::LeftBracket => b"[",
        Mark::RightBracket => b"]",
        Mark::LeftBrace => b"{",
        Mark::RightBrace => b"}",
        Mark::Semicolon => b";",
        Mark::Comma => b",",
        Mark::Dot => b".",
        Mark::Colon => b":",
        Mark::At => b"@",
        Mark::Assign => b"=",
        Mark::Question => b"?",
        Mark::Tilde => b"~",
        Mark::Exclamation => b"!",
        Mark::And => b"&",
        Mark::Or => b"|",
        Mark::Xor => b"^",
        Mark::Plus => b"+",
        Mark::Minus => b"-",
        Mark::Less => b"<",
        Mark::Greater => b">",
    }
}

/// Writes bytes at the end.
pub fn push_bytes(out: &mut Bytes, bytes: &[u8]) -> Result<(), Memory>
    ensures { OnOk result (out.new ≡ out.old ++ bytes.now) }
{
    for byte in bytes {
        out.push(*byte)?;
    }
    Ok(())
}

/// Writes a number in decimal at the end.
pub fn push_decimal(out: &mut Bytes, number: u32) -> Result<(), Memory>
    ensures { OnOk result (out.new ≡ out.old ++ decimal number) }
{
    if number >= 10 {
        push_decimal(out, number / 10)?;
    }
    out.push(b'0' + (number % 10) as u8)?;
    Ok(())
}

fn hexadecimal_digit(digit: u8) -> u8
    requires { digit < 16 }
    ensures { result ≡ digit_glyph false digit }
{
    if digit < 10 {
        b'0' + digit
    } else {
        b'a' + (digit - 10)
    }
}

/// Writes a number in lower case hexadecimal digits at the end.
pub fn push_hexadecimal(out: &mut Bytes, number: u128) -> Result<(), Memory>
    ensures { OnOk result (out.new ≡ out.old ++ digits 16 false number) }
{
    if number >= 16 {
        push_hexadecimal(out, number / 16)?;
    }
    out.push(hexadecimal_digit((number % 16) as u8))?;
    Ok(())
}
