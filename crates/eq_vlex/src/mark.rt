//! The marks of Verilog.

ghost use Rattle.std.specs.Prelude.{◌≡◌, ◌<◌, ◌≤◌, map, length, IfSome};
ghost use Rattle.eq_vlex.specs.Marks as spec;

/// A token that is no word and no number.
#[derive(Clone, Copy, Debug, PartialEq, Eq)]
pub enum Mark {
    /// `===`
    CaseEqual,
    /// `!==`
    CaseNotEqual,
    /// `==`
    Equal,
    /// `!=`
    NotEqual,
    /// `<=`
    LessEqual,
    /// `>=`
    GreaterEqual,
    /// `<<`
    ShiftLeft,
    /// `>>`
    ShiftRight,
    /// `&&`
    LogicalAnd,
    /// `||`
    LogicalOr,
    /// `~&`
    TildeAnd,
    /// `~|`
    TildeOr,
    /// `~^`
    TildeXor,
    /// `^~`
    XorTilde,
    LeftParen,
    RightParen,
    LeftBracket,
    RightBracket,
    LeftBrace,
    RightBrace,
    Semicolon,
    Comma,
    Dot,
    Colon,
    At,
    /// `=`
    Assign,
    Question,
    Tilde,
    /// `!`
    Exclamation,
    /// `&`
    And,
    /// `|`
    Or,
    /// `^`
    Xor,
    Plus,
    Minus,
    Less,
    Greater,
}

/// Each mark's bytes, the longest first.
const MARKS: [(&[u8], Mark); 36] = [
    (b"===", Mark::CaseEqual),
    (b"!==", Mark::CaseNotEqual),
    (b"==", Mark::Equal),
    (b"!=", Mark::NotEqual),
    (b"<=", Mark::LessEqual),
    (b">=", Mark::GreaterEqual),
    (b"<<", Mark::ShiftLeft),
    (b">>", Mark::ShiftRight),
    (b"&&", Mark::LogicalAnd),
    (b"||", Mark::LogicalOr),
    (b"~&", Mark::TildeAnd),
    (b"~|", Mark::TildeOr),
    (b"~^", Mark::TildeXor),
    (b"^~", Mark::XorTilde),
    (b"(", Mark::LeftParen),
    (b")", Mark::RightParen),
    (b"[", Mark::LeftBracket),
    (b"]", Mark::RightBracket),
    (b"{", Mark::LeftBrace),
    (b"}", Mark::RightBrace),
    (b";", Mark::Semicolon),
    (b",", Mark::Comma),
    (b".", Mark::Dot),
    (b":", Mark::Colon),
    (b"@", Mark::At),
    (b"=", Mark::Assign),
    (b"?", Mark::Question),
    (b"~", Mark::Tilde),
    (b"!", Mark::Exclamation),
    (b"&", Mark::And),
    (b"|", Mark::Or),
    (b"^", Mark::Xor),
    (b"+", Mark::Plus),
    (b"-", Mark::Minus),
    (b"<", Mark::Less),
    (b">", Mark::Greater),
];

/// The first row whose bytes begin the text: its mark, and how many bytes it has.
fn first_row(mut table: &[(&[u8], Mark)], text: &[u8]) -> Option<(Mark, usize)>
    ensures { result ≡ spec.first_row (map (λ row. (row.0.now, row.1)) table.entry.now) text.now }
{
    while let [row, rest @ ..] = table {
        if text.starts_with(row.0) {
            return Some((row.1, row.0.len()));
        }
        table = rest;
    }
    None
}

/// The longest mark that the text begins with, and how many bytes it has.
pub fn mark_at(text: &[u8]) -> Option<(Mark, usize)>
    ensures value { result ≡ spec.mark_at text.now }
    ensures within { IfSome result (λ found. (0 < found.1) × (found.1 ≤ length text.now)) }
{
    first_row(&MARKS, text)
}
