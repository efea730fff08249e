//! Writes single lines at the end of a text.

ghost use Rattle.std.specs.Prelude.{◌≡◌, [], ◌∷◌, ◌++◌, OnOk, codes, map};
ghost use Rattle.std.specs.Fmt.{decimal};
ghost use Rattle.eq_bits.specs.declared.node.Node.TheVariants.{Reg};
ghost use Rattle.eq_wit.specs.Line.{Word, spaced_fields, field_text, line_text, number};
ghost use Rattle.eq_wit.specs.Texts as spec;

use eq_base::Memory;
use eq_bits::{Node, Output};

/// Writes bytes at the end.
pub fn put(out: &mut Vec<u8>, bytes: &[u8]) -> Result<(), Memory>
    ensures { OnOk result (out.new.items ≡ out.old.items ++ bytes.now) }
{
    out.extend_from_slice(bytes)
}

/// Writes a number in decimal at the end.
pub fn put_decimal(out: &mut Vec<u8>, number: u64) -> Result<(), Memory>
    ensures { OnOk result (out.new.items ≡ out.old.items ++ decimal number) }
{
    if number >= 10 {
        put_decimal(out, number / 10)?;
    }
    out.push(b'0' + (number % 10) as u8)?;
    Ok(())
}

/// Writes a blank and a number.
pub fn put_number(out: &mut Vec<u8>, number: u64) -> Result<(), Memory>
    ensures { OnOk result (out.new.items ≡ out.old.items ++ 32 ∷ decimal number) }
{
    out.push(b' ')?;
    put_decimal(out, number)
}

/// Writes numbers, each behind a blank.
fn put_numbers(out: &mut Vec<u8>, numbers: &[u32]) -> Result<(), Memory>
    ensures { OnOk result (out.new.items ≡ out.old.items
        ++ spaced_fields (map number numbers.now)) }
{
    for number in numbers {
        put_number(out, u64::from(*number))?;
    }
    Ok(())
}

/// Writes the line of a word and numbers.
pub fn put_line(out: &mut Vec<u8>, word: &[u8], numbers: &[u32]) -> Result<(), Memory>
    ensures { OnOk result (out.new.items ≡ out.old.items
        ++ line_text (Word word.now ∷ map number numbers.now)) }
{
    put(out, word)?;
    put_numbers(out, numbers)?;
    put(out, b"\n")
}

/// Writes the line of two words.
pub fn put_words(out: &mut Vec<u8>, first: &[u8], second: &[u8]) -> Result<(), Memory>
    ensures { OnOk result (out.new.items ≡ out.old.items
        ++ line_text (Word first.now ∷ Word second.now ∷ [])) }
{
    put(out, first)?;
    put(out, b" ")?;
    put(out, second)?;
    put(out, b"\n")
}

/// Writes the line of one word.
pub fn put_word(out: &mut Vec<u8>, word: &[u8]) -> Result<(), Memory>
    ensures { OnOk result (out.new.items ≡ out.old.items ++ line_text (Word word.now ∷ [])) }
{
    put(out, word)?;
    put(out, b"\n")
}

/// The digit of a truth value.
fn digit(bit: bool) -> u8
    ensures { result ≡ spec.digit_of bit }
{
    if bit { b'1' } else { b'0' }
}

/// Writes truth values as digits.
fn put_digits(out: &mut Vec<u8>, bits: &[bool]) -> Result<(), Memory>
    ensures { OnOk result (out.new.items ≡ out.old.items ++ map spec.digit_of bits.now) }
{
    for bit in bits {
        out.push(digit(*bit))?;
    }
    Ok(())
}

/// Writes truth values as digits, and `-` where there are none.
fn put_bits(out: &mut Vec<u8>, bits: &[bool]) -> Result<(), Memory>
    ensures { OnOk result (out.new.items ≡ out.old.items ++ field_text (spec.bits_word bits.now)) }
{
    match bits {
        [] => put(out, b"-"),
        [_, ..] => put_digits(out, bits),
    }
}

/// Writes the line of a word and truth values.
pub fn put_bits_line(out: &mut Vec<u8>, word: &[u8], bits: &[bool]) -> Result<(), Memory>
    ensures { OnOk result (out.new.items ≡ out.old.items
        ++ line_text (Word word.now ∷ spec.bits_word bits.now ∷ [])) }
{
    put(out, word)?;
    put(out, b" ")?;
    put_bits(out, bits)?;
    put(out, b"\n")
}

fn put_constant(out: &mut Vec<u8>, bit: bool) -> Result<(), Memory>
    ensures { OnOk result (out.new.items ≡ out.old.items
        ++ line_text (Word (codes "const") ∷ spec.bit_word bit ∷ [])) }
{
    put(out, b"const ")?;
    out.push(digit(bit))?;
    put(out, b"\n")
}

fn put_register(out: &mut Vec<u8>, next: u32, init: bool) -> Result<(), Memory>
    ensures { OnOk result (out.new.items ≡ out.old.items
        ++ line_text (spec.node_line (Reg next init))) }
{
    put(out, b"reg")?;
    put_number(out, u64::from(next))?;
    out.push(b' ')?;
    out.push(digit(init))?;
    put(out, b"\n")
}

/// Writes the line of a node.
pub fn put_node(out: &mut Vec<u8>, node: Node) -> Result<(), Memory>
    ensures { OnOk result (out.new.items ≡ out.old.items ++ line_text (spec.node_line node)) }
{
    match node {
        Node::Const(bit) => put_constant(out, bit),
        Node::Input(i) => put_line(out, b"input", &[i]),
        Node::Not(a) => put_line(out, b"not", &[a]),
        Node::And(a, b) => put_line(out, b"and", &[a, b]),
        Node::Xor(a, b) => put_line(out, b"xor", &[a, b]),
        Node::Mux(s, a, b) => put_line(out, b"mux", &[s, a, b]),
        Node::Buf(a) => put_line(out, b"buf", &[a]),
        Node::Reg { next, init } => put_register(out, next, init),
    }
}

/// Writes the line of an output.
pub fn put_output(out: &mut Vec<u8>, output: &Output) -> Result<(), Memory>
    ensures { OnOk result (out.new.items ≡ out.old.items
        ++ line_text (spec.output_line output.now)) }
{
    put_line(out, output.name.bytes(), &[output.gold, output.gate])
}
