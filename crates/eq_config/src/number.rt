//! Numbers in decimal without leading zeros.

ghost use Rattle.std.specs.Prelude.{◌≡◌, ◌≤◌, ◌<◌, ◌↔◌, IsTrue, IfOk, IfErr, IfSome, IfNone};
ghost use Rattle.eq_names.specs.Name.{IsName};
ghost use Rattle.eq_config.specs.Lines.{IsText, words};
ghost use Rattle.eq_config.specs.Words.{IsNumber, value_of, word_at, OneWord};
ghost use Rattle.eq_config.specs.inner.Stopping.{Stops, NumberFault};

use crate::fault::{ConfigKind, Stop};
use crate::words::{REFUSED, begins_with, is_short, one_word};

/// The number from 1 up to a limit that a word is.
fn number(word: &[u8], most: u32) -> Option<u32>
    requires { most ≤ 200_000 }
    ensures value { IfSome result (λ number. number ≡ value_of word.now) }
    ensures ok { IfSome result (λ _. IsNumber most word.now) }
    ensures none { IfNone result (¬ IsNumber most word.now) }
{
    if begins_with(word, b'0') {
        return None;
    }
    let mut value = 0;
    for byte in word {
        if !byte.is_ascii_digit() {
            return None;
        }
        value = 10 * value + u32::from(*byte - b'0');
        if value > most {
            return None;
        }
    }
    if value == 0 { None } else { Some(value) }
}

/// The number of a line that has one word, a number from 1 up to a limit.
pub fn number_line(line: &[u8], most: u32) -> Result<u32, Stop>
    requires text { IsText line.now }
    requires limit { most ≤ 200_000 }
    ensures value { IfOk result (λ number. number ≡ value_of (word_at (words line.now) 0)) }
    ensures ok { IfOk result (λ _. OneWord (IsNumber most) (words line.now)) }
    ensures fault { IfErr result (Stops (NumberFault most (words line.now))) }
{
    let Some(word) = one_word(line) else {
        return Err(REFUSED);
    };
    if !is_short(word) {
        return Err(REFUSED);
    }
    match number(word, most) {
        Some(number) => Ok(number),
        None => Err(Stop::Fault(ConfigKind::BadNumber)),
    }
}
