//! Words that are numbers in decimal without leading zeros.

ghost use Rattle.std.specs.Prelude.{◌≡◌, ◌≢◌, ◌+◌, ◌*◌, ◌≤◌, ◌<◌, ◌^◌, ℕ, List, [], ◌∷◌, ◌++◌, false, IfSome, IfNone, MatchBool, MatchOption};
ghost use Rattle.std.specs.Fmt.{decimal};
ghost use Rattle.eq_wit.specs.inner.Numeral.{is_digit, value_on, EndsNumber};

/// The number of 64 bits that a word is.
pub fn number(word: &[u8]) -> Option<u64>
    ensures some { IfSome result (λ n. word.now ≡ decimal n) }
    ensures none { IfNone result ((n : ℕ) → n < 2 ^ 64 → word.now ≢ decimal n) }
{
    let (number, rest) = number_of(word)?;
    if rest.is_empty() { Some(number) } else { None }
}

/// The number of 32 bits that a word is.
pub fn short_number(word: &[u8]) -> Option<u32>
    ensures some { IfSome result (λ n. word.now ≡ decimal n) }
    ensures none { IfNone result ((n : ℕ) → n < 2 ^ 32 → word.now ≢ decimal n) }
{
    let number = number(word)?;
    if number <= 0xFFFF_FFFF {
        Some(number as u32)
    } else {
        None
    }
}

/// The first byte and what follows it.
fn first_of(text: &[u8]) -> Option<(u8, &[u8])>
    ensures { MatchOption result (text.now ≡ []) (λ found. text.now ≡ found.0 ∷ found.1.now) }
{
    match text {
        [] => None,
        [byte, rest @ ..] => Some((*byte, rest)),
    }
}
/// The number at the front of a text, up to the first byte that is no digit.
fn number_of(text: &[u8]) -> Option<(u64, &[u8])>
    ensures some { IfSome result (λ found. text.now ≡ decimal found.0 ++ found.1.now) }
    ensures fits { IfSome result (λ found. found.0 < 2 ^ 64) }
    ensures end { IfSome result (λ found. EndsNumber found.1.now) }
    ensures none { IfNone result ((n : ℕ) (rest : List ℕ) → n < 2 ^ 64 → EndsNumber rest →
        text.now ≢ decimal n ++ rest) }
{
    let (byte, rest) = first_of(text)?;
    let first = digit(byte)?;
    if first != 0 {
        return digits_on(u64::from(first), rest);
    }
    if begins_with_digit(rest) {
        return None;
    }
    Some((0, rest))
}

/// The number whose digits are those of `number` and then those at the front of a text, if it is below 2^64.
///
/// No more than 20 calls deep.
fn digits_on(number: u64, text: &[u8]) -> Option<(u64, &[u8])>
    requires { 1 ≤ number }
    ensures some { IfSome result (λ found.
        decimal number ++ text.now ≡ decimal found.0 ++ found.1.now) }
    ensures fits { IfSome result (λ found. found.0 < 2 ^ 64) }
    ensures end { IfSome result (λ found. EndsNumber found.1.now) }
    ensures none { IfNone result (2 ^ 64 ≤ value_on number text.now) }
{
    let Some((byte, rest)) = first_of(text) else {
        return Some((number, text));
    };
    match digit(byte) {
        None => Some((number, text)),
        Some(digit) => digits_on(with_digit(number, digit)?, rest),
    }
}

/// A number with a digit more at its end.
fn with_digit(number: u64, digit: u8) -> Option<u64>
    ensures some { IfSome result (λ n. n ≡ 10 * number + digit) }
    ensures none { IfNone result (2 ^ 64 ≤ 10 * number + digit) }
{
    number.checked_mul(10)?.checked_add(u64::from(digit))
}

fn begins_with_digit(text: &[u8]) -> bool
    ensures { MatchBool result (¬ EndsNumber text.now) (EndsNumber text.now) }
{
    match first_of(text) {
        None => false,
        Some((byte, _)) => byte.is_ascii_digit(),
    }
}

fn digit(byte: u8) -> Option<u8>
    ensures some { IfSome result (λ d. (byte ≡ 48 + d) × (d < 10)) }
    ensures none { IfNone result (is_digit byte ≡ false) }
{
    if byte.is_ascii_digit() {
        Some(byte - b'0')
    } else {
        None
    }
}
