//! Writes single lines at the end of a text.

ghost use Rattle.std.specs.Prelude.{◌≡◌, ◌++◌, ◌∷◌, [], OnOk, IfOk};
ghost use Rattle.std.specs.Fmt.{decimal};
ghost use Rattle.eq_config.specs.Printing as spec;

use eq_base::{Bytes, Memory};
use eq_names::{Pattern, Template};
use std::alloc::Global;

/// Writes bytes at the end.
fn put(out: &mut Bytes, bytes: &[u8]) -> Result<(), Memory>
    ensures { OnOk result (out.new ≡ out.old ++ bytes.now) }
{
    for byte in bytes {
        out.push(*byte)?;
    }
    Ok(())
}

/// Writes a number in decimal at the end.
fn put_decimal(out: &mut Bytes, number: u64) -> Result<(), Memory>
    ensures { OnOk result (out.new ≡ out.old ++ decimal number) }
{
    if number >= 10 {
        put_decimal(out, number / 10)?;
    }
    out.push(b'0' + (number % 10) as u8)?;
    Ok(())
}

/// Writes `[TITLE]`.
pub fn put_title(out: &mut Bytes, title: &[u8]) -> Result<(), Memory>
    ensures { OnOk result (out.new ≡ out.old ++ spec.ended (spec.heading_line (title.now ∷ []))) }
{
    put(out, b"[")?;
    put(out, title)?;
    put(out, b"]\n")
}

/// Writes `[TITLE WORD]`.
pub fn put_heading(out: &mut Bytes, title: &[u8], word: &[u8]) -> Result<(), Memory>
    ensures { OnOk result (out.new ≡ out.old
        ++ spec.ended (spec.heading_line (title.now ∷ word.now ∷ []))) }
{
    put(out, b"[")?;
    put(out, title)?;
    put(out, b" ")?;
    put(out, word)?;
    put(out, b"]\n")
}

/// Writes `KEY WORD`.
pub fn put_word(out: &mut Bytes, key: &[u8], word: &[u8]) -> Result<(), Memory>
    ensures { OnOk result (out.new ≡ out.old
        ++ spec.ended (spec.spaced (key.now ∷ word.now ∷ []))) }
{
    put(out, key)?;
    put(out, b" ")?;
    put(out, word)?;
    put(out, b"\n")
}

/// Writes `KEY FIRST SECOND`.
pub fn put_words(out: &mut Bytes, key: &[u8], first: &[u8], second: &[u8]) -> Result<(), Memory>
    ensures { OnOk result (out.new ≡ out.old
        ++ spec.ended (spec.spaced (key.now ∷ first.now ∷ second.now ∷ []))) }
{
    put(out, key)?;
    put(out, b" ")?;
    put(out, first)?;
    put(out, b" ")?;
    put(out, second)?;
    put(out, b"\n")
}

/// Writes `KEY NUMBER`.
pub fn put_number(out: &mut Bytes, key: &[u8], number: u64) -> Result<(), Memory>
    ensures { OnOk result (out.new ≡ out.old
        ++ spec.ended (spec.spaced (key.now ∷ decimal number ∷ []))) }
{
    put(out, key)?;
    put(out, b" ")?;
    put_decimal(out, number)?;
    put(out, b"\n")
}

/// Writes `[TITLE PATTERN]`.
pub fn put_section(
    out: &mut Bytes,
    alloc: Global,
    title: &[u8],
    top: &Pattern,
) -> Result<(), Memory>
    ensures { OnOk result (out.new ≡ out.old
        ++ spec.ended (spec.heading_line (title.now ∷ top.now ∷ []))) }
{
    let top = top.print(alloc)?;
    put_heading(out, title, top.bytes())
}

/// Writes `KEY PATTERN`.
pub fn put_pattern(out: &mut Bytes, alloc: Global, key: &[u8], p: &Pattern) -> Result<(), Memory>
    ensures { OnOk result (out.new ≡ out.old ++ spec.ended (spec.spaced (key.now ∷ p.now ∷ []))) }
{
    let p = p.print(alloc)?;
    put_word(out, key, p.bytes())
}

/// Writes `KEY PATTERN PATTERN`.
pub fn put_path(
    out: &mut Bytes,
    alloc: Global,
    key: &[u8],
    from: &Pattern,
    to: &Pattern,
) -> Result<(), Memory>
    ensures { OnOk result (out.new ≡ out.old
        ++ spec.ended (spec.spaced (key.now ∷ from.now ∷ to.now ∷ []))) }
{
    let from = from.print(alloc)?;
    let to = to.print(alloc)?;
    put_words(out, key, from.bytes(), to.bytes())
}

/// The word of a template, with `~` before it where it is for inverted pairs.
fn signed(alloc: Global, template: &Template, inverted: bool) -> Result<Bytes, Memory>
    ensures { IfOk result (λ word. word ≡ spec.signed inverted template.now) }
{
    let template = template.print(alloc)?;
    let mut word = Bytes::new(alloc);
    if inverted {
        word.push(b'~')?;
    }
    put(&mut word, template.bytes())?;
    Ok(word)
}

/// Writes `KEY PATTERN TEMPLATE`, with `~` before the template where it is for inverted pairs.
pub fn put_rename(
    out: &mut Bytes,
    alloc: Global,
    key: &[u8],
    p: &Pattern,
    template: &Template,
    inverted: bool,
) -> Result<(), Memory>
    ensures { OnOk result (out.new ≡ out.old
        ++ spec.ended (spec.spaced (key.now ∷ p.now ∷ spec.signed inverted template.now ∷ []))) }
{
    let p = p.print(alloc)?;
    let word = signed(alloc, template, inverted)?;
    put_words(out, key, p.bytes(), word.as_slice())
}
