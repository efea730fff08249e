//! The words of the command line.

ghost use Rattle.std.specs.Prelude.{◌≡◌, ℕ, List, IfSome, IfNone, false, true};
ghost use Rattle.std.specs.Str.{IsUtf8};
ghost use Rattle.eqy.specs.Command.{IsCommand, IsFileWord};

use eq_base::Bytes;

/// The name of the configuration, where the words are one word that names one.
pub fn file_word(words: &[Bytes]) -> Option<&str>
    ensures some { IfSome result (λ file. IsCommand words.now file.now) }
    ensures none { IfNone result ((file : List ℕ) → IsCommand words.now file → ⊥) }
{
    let [word] = words else {
        return None;
    };
    let Ok(file) = str::from_utf8(word.as_slice()) else {
        return None;
    };
    if is_reserved(file.as_bytes()) {
        return None;
    }
    Some(file)
}

/// Whether a word is empty, an option or a command.
fn is_reserved(word: &[u8]) -> bool
    ensures reserved { result ≡ true → IsFileWord word.now → ⊥ }
    ensures free { result ≡ false → IsUtf8 word.now → IsFileWord word.now }
{
    word.is_empty() || word[0] == b'-' || word == b"gen".as_slice()
}
