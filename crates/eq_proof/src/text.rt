//! What the text formats share: their refusal, and bytes at the front of a text.
ghost use Rattle.std.specs.Prelude.{◌≡◌, ◌≢◌, List, ℕ, [], ◌∷◌, MatchOption};

use eq_base::Memory;

/// Why a text isn't read.
#[derive(Clone, Copy, Debug, PartialEq, Eq)]
pub enum TextErr {
    /// The first line that isn't in the grammar, counted from 1.
    At { line: u32 },
    Memory,
}

impl From<Memory> for TextErr {
    ghost use Rattle.std.specs.Prelude.{◌≡◌};
    ghost use Rattle.eq_proof.specs.declared.text.TextErr.TheVariants.{Memory};

    ghost from_gives = { λ _ e. e ≡ Memory };

    fn from(_: Memory) -> TextErr {
        TextErr::Memory
    }
}

/// The first byte and what follows it.
pub fn first_of(text: &[u8]) -> Option<(u8, &[u8])>
    ensures { MatchOption result (text.now ≡ []) (λ found. text.now ≡ found.0 ∷ found.1.now) }
{
    match text {
        [] => None,
        [byte, rest @ ..] => Some((*byte, rest)),
    }
}

/// What follows a byte, if it stands first.
pub fn behind(text: &[u8], byte: u8) -> Option<&[u8]>
    ensures { MatchOption result ((rest : List ℕ) → text.now ≢ byte ∷ rest) (λ rest. text.now ≡ byte ∷ rest.now) }
{
    let (first, rest) = first_of(text)?;
    if first == byte { Some(rest) } else { None }
}
