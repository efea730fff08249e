//! Where comments and attributes end.

ghost use Rattle.std.specs.Prelude.{◌≡◌, ◌+◌, ◌<◌, ◌↔◌, ℕ, length, IfSome, IfNone, IsTrue};
ghost use Rattle.eq_vlex.specs.Separators as spec;

use crate::bytes::byte;

/// Where a byte of an attribute stands.
#[derive(Clone, Copy, Debug)]
pub enum Place {
    /// In no string.
    Outside,
    /// In a string.
    Inside,
    /// Behind a `\` in a string.
    Escaped,
}

/// Where the next byte stands.
fn after(place: Place, byte: u8) -> Place
    ensures { result ≡ spec.after place byte }
{
    match place {
        Place::Outside if byte == b'"' => Place::Inside,
        Place::Outside => Place::Outside,
        Place::Inside if byte == b'"' => Place::Outside,
        Place::Inside if byte == b'\\' => Place::Escaped,
        Place::Inside | Place::Escaped => Place::Inside,
    }
}

/// The place of the first `*/`.
pub fn comment_close(body: &[u8]) -> Option<usize>
    ensures found { IfSome result (spec.IsFirst (spec.ClosesComment body.now)) }
    ensures within { IfSome result (λ k. k + 1 < length body.now) }
    ensures none { IfNone result ((k : ℕ) → ¬ spec.ClosesComment body.now k) }
{
    for (at, first) in body.iter().enumerate() {
        if *first == b'*' && byte(body, at + 1) == b'/' {
            return Some(at);
        }
    }
    None
}

/// The place of the first `*)` that stands in no string.
pub fn attribute_close(body: &[u8]) -> Option<usize>
    ensures found { IfSome result (spec.IsFirst (spec.ClosesAttribute body.now)) }
    ensures within { IfSome result (λ k. k + 1 < length body.now) }
    ensures none { IfNone result ((k : ℕ) → ¬ spec.ClosesAttribute body.now k) }
{
    let mut place = Place::Outside;
    for (at, first) in body.iter().enumerate() {
        if closes(place, *first, byte(body, at + 1)) {
            return Some(at);
        }
        place = after(place, *first);
    }
    None
}

/// Whether two bytes, of which the first stands at the place, close an attribute.
fn closes(place: Place, first: u8, second: u8) -> bool
    ensures { IsTrue result ↔ ((first ≡ 42) × (second ≡ 41) × (place ≡ Place.Outside)) }
{
    match place {
        Place::Outside => first == b'*' && second == b')',
        Place::Inside | Place::Escaped => false,
    }
}
