//! The last line of a try.

ghost use Rattle.eq_wit.specs.Faults.{IsShortEnd};
ghost use Rattle.eq_wit.specs.Texts.{end_line};
ghost use Rattle.eq_wit.specs.inner.Items as spec;

use crate::dividing::{Words, is_one, keyed};
use crate::items::wrong;
use crate::numeral::short_number;
use crate::state::Stop;
use crate::types::WitKind;
use eq_induct::End;

/// How a try ends.
pub fn end(words: &Words) -> Result<End, Stop>
    ensures { spec.ReadsLine end_line IsShortEnd words.now result }
{
    if is_one(words, b"deep") {
        return Ok(End::Deep);
    }
    if is_one(words, b"spent") {
        return Ok(End::Spent);
    }
    if let Some(word) = keyed(words, b"proved") {
        return match short_number(word) {
            Some(k) => Ok(End::Proved(k)),
            None => Err(wrong(word)),
        };
    }
    let Some(word) = keyed(words, b"fail") else {
        return Err(Stop::Fault(WitKind::Word));
    };
    match short_number(word) {
        Some(k) => Ok(End::Fail(k)),
        None => Err(wrong(word)),
    }
}
