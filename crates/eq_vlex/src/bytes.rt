//! Classes of bytes, and what begins at a place of a text.

ghost use Rattle.std.specs.Prelude.{◌≡◌, ◌<◌, ◌≤◌, length, slice_index};
ghost use Rattle.std.specs.List.{prefix_len, take_while};
ghost use Rattle.eq_vlex.specs.Bytes as spec;

/// A set of bytes.
#[derive(Clone, Copy, Debug)]
pub enum Class {
    /// Space, tab, carriage return, line feed and form feed.
    White,
    /// All but the line feed.
    Line,
    /// What a simple name has: letters, digits, `_` and `$`.
    Simple,
    /// What an escaped name has: 0x21 to 0x7E.
    Visible,
    /// What a decimal has: digits and `_`.
    Decimal,
    /// Letters, digits and `_`.
    Word,
    /// Letters, digits, `_` and `?`.
    Value,
}

/// What stands at the front of a text.
#[derive(Clone, Copy, Debug)]
pub enum Start {
    White,
    LineComment,
    BlockComment,
    Attribute,
    SimpleName,
    EscapedName,
    Number,
    /// A mark, or a byte that begins nothing.
    Other,
}

/// Whether a byte is of the class.
pub fn is_in(class: Class, byte: u8) -> bool
    ensures { result ≡ spec.is_in class byte }
{
    match class {
        Class::White => matches!(byte, b' ' | b'\t' | b'\r' | b'\n' | 0x0C),
        Class::Line => byte != b'\n',
        Class::Simple => byte.is_ascii_alphanumeric() || byte == b'_' || byte == b'$',
        Class::Visible => (0x21..=0x7E).contains(&byte),
        Class::Decimal => byte.is_ascii_digit() || byte == b'_',
        Class::Word => byte.is_ascii_alphanumeric() || byte == b'_',
        Class::Value => byte.is_ascii_alphanumeric() || byte == b'_' || byte == b'?',
    }
}

/// The byte at a place, or 0 past the end.
pub fn byte(text: &[u8], at: usize) -> u8
    ensures { result ≡ slice_index text.now at }
{
    text.get(at).copied().unwrap_or(0)
}

/// How many bytes of the class stand at the front.
fn front(class: Class, text: &[u8]) -> usize
    ensures value { result ≡ prefix_len (spec.is_in class) text.now }
    ensures within { result ≤ length text.now }
{
    let mut len = 0;
    while len < text.len() && is_in(class, text[len]) {
        len += 1;
    }
    len
}

/// The longest run of bytes of the class at the front.
pub fn run(class: Class, text: &[u8]) -> &[u8]
    ensures value { result.now ≡ take_while (spec.is_in class) text.now }
    ensures len { length result.now ≡ prefix_len (spec.is_in class) text.now }
    ensures within { length result.now ≤ length text.now }
{
    &text[..front(class, text)]
}

/// What begins with these two bytes.
fn start_of(first: u8, second: u8) -> Start
    ensures { result ≡ spec.start_of first second }
{
    if is_in(Class::White, first) {
        Start::White
    } else if first == b'/' && second == b'/' {
        Start::LineComment
    } else if first == b'/' && second == b'*' {
        Start::BlockComment
    } else if first == b'(' && second == b'*' {
        Start::Attribute
    } else if first.is_ascii_alphabetic() || first == b'_' {
        Start::SimpleName
    } else if first == b'\\' {
        Start::EscapedName
    } else if first.is_ascii_digit() || first == b'\'' {
        Start::Number
    } else {
        Start::Other
    }
}

/// What begins at the front of a text.
#[tactic(auto, unfolding(crate::specs::Bytes::begins))]
pub fn begins(text: &[u8]) -> Start
    ensures { result ≡ spec.begins text.now }
{
    start_of(byte(text, 0), byte(text, 1))
}
