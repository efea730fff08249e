//! The lines of a text, the words of a line, and what stands in a heading.

ghost use Rattle.std.specs.Prelude.{◌≡◌, ◌<◌, ◌≤◌, ◌+◌, ◌∷◌, ◌↔◌, [], IsTrue, IfSome, MatchOption, length, ◌==◌};
ghost use Rattle.std.specs.Str.Lines.{lines, strip_carriage_return};
ghost use Rattle.std.specs.List.{prefix_len, position_or_len};
ghost use Rattle.std.specs.Option.{option_copied};
ghost use Rattle.eq_names.specs.Name.{IsName};
ghost use Rattle.eq_config.specs.Lines as spec;

/// A line without the carriage return at its end, if it has one.
fn without_return(line: &[u8]) -> &[u8]
    ensures { result.now ≡ strip_carriage_return line.now }
{
    match line {
        [front @ .., b'\r'] => front,
        _ => line,
    }
}

/// How many bytes stand before the first line feed.
fn line_len(text: &[u8]) -> usize
    ensures value { result ≡ position_or_len (λ b. b == 10) text.now }
    ensures within { result ≤ length text.now }
{
    let mut len = 0;
    while len < text.len() && text[len] != b'\n' {
        len += 1;
    }
    len
}

/// The first line of a text, and what follows its end.
pub fn next_line(text: &[u8]) -> (&[u8], &[u8])
    requires { 0 < length text.now }
    ensures line { lines text.now ≡ result.0.now ∷ lines result.1.now }
    ensures shorter { length result.1.now < length text.now }
{
    let len = line_len(text);
    if len == text.len() {
        return (text, &text[len..]);
    }
    (without_return(&text[..len]), &text[len + 1..])
}

/// Whether a byte may stand in a line.
fn is_text_byte(byte: u8) -> bool
    ensures { IsTrue result ↔ spec.IsTextByte byte }
{
    byte == b'\t' || (0x20..=0x7E).contains(&byte)
}

/// Whether all bytes of a line may stand there.
pub fn is_text(line: &[u8]) -> bool
    ensures { IsTrue result ↔ spec.IsText line.now }
{
    line.iter().all(|byte| is_text_byte(*byte))
}

fn is_blank(byte: u8) -> bool
    ensures { result ≡ spec.is_blank byte }
{
    byte == b' ' || byte == b'\t'
}

/// How many blanks stand at the front.
fn blanks_before(text: &[u8]) -> usize
    ensures value { result ≡ prefix_len spec.is_blank text.now }
    ensures within { result ≤ length text.now }
{
    let mut len = 0;
    while len < text.len() && is_blank(text[len]) {
        len += 1;
    }
    len
}

/// How many bytes stand before the first blank.
fn word_len(text: &[u8]) -> usize
    ensures value { result ≡ position_or_len spec.is_blank text.now }
    ensures within { result ≤ length text.now }
{
    let mut len = 0;
    while len < text.len() && !is_blank(text[len]) {
        len += 1;
    }
    len
}

/// The first word of a line and what follows it, if there is a word.
pub fn next_word(line: &[u8]) -> Option<(&[u8], &[u8])>
    requires { spec.IsText line.now }
    ensures word { MatchOption result (spec.words line.now ≡ [])
        (λ found. spec.words line.now ≡ found.0.now ∷ spec.words found.1.now) }
    ensures name { IfSome result (λ found. IsName found.0.now) }
    ensures rest { IfSome result (λ found. spec.IsText found.1.now) }
    ensures shorter { IfSome result (λ found. length found.1.now < length line.now) }
{
    let text = &line[blanks_before(line)..];
    let end = word_len(text);
    if end == 0 {
        return None;
    }
    Some((&text[..end], &text[end..]))
}

/// A text without the blanks at its end.
fn before_blanks(text: &[u8]) -> &[u8]
    requires { spec.IsText text.now }
    ensures value { result.now ≡ spec.before_blanks text.now }
    ensures text { spec.IsText result.now }
{
    let mut len = text.len();
    while len > 0 && is_blank(text[len - 1]) {
        len -= 1;
    }
    &text[..len]
}

/// What stands between `[` and `]`, where a text begins with the one and ends with the other.
fn bracketed(text: &[u8]) -> Option<&[u8]>
    requires { spec.IsText text.now }
    ensures inner { option_copied result ≡ spec.bracketed text.now }
    ensures text { IfSome result (λ inner. spec.IsText inner.now) }
{
    if text.len() > 1 && text[0] == b'[' && text[text.len() - 1] == b']' {
        Some(&text[1..text.len() - 1])
    } else {
        None
    }
}

/// What stands between the brackets of a line that is a heading.
#[tactic(auto, unfolding(crate::specs::Lines::heading_text))]
pub fn heading_text(line: &[u8]) -> Option<&[u8]>
    requires { spec.IsText line.now }
    ensures inner { option_copied result ≡ spec.heading_text line.now }
    ensures text { IfSome result (λ inner. spec.IsText inner.now) }
{
    bracketed(before_blanks(&line[blanks_before(line)..]))
}
