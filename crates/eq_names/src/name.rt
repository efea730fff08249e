//! The bytes of a name.

ghost use Rattle.std.specs.Prelude.{◌≡◌, ◌≢◌, ◌↔◌, [], ℕ, All, IsTrue, IfSome, IfNone, IfOk};
ghost use Rattle.eq_names.specs.Name.{IsNameByte, IsName, IsFirstBadByte};
ghost use Rattle.eq_names.specs.declared.name.NameErr.TheVariants.{Memory as OutOfMemory};

use eq_base::Memory;
use std::alloc::{AllocError, Global};
use std::marker::Model;

/// One or more bytes from 0x21 to 0x7E. Contracts see the list of the bytes.
#[derive(Debug, Drop)]
pub struct Name {
    text: Vec<u8>,
}

impl Model for Name {
    ghost use Rattle.std.specs.Prelude.{List, ℕ};
    ghost use Rattle.eq_names.specs.Name.{IsName};

    ghost Value = { List ℕ };

    ghost view = { λ n. n.text.items };

    ghost invariant = { λ n. IsName n.text.items };
}

/// Why a text is no name.
#[derive(Clone, Copy, Debug, PartialEq, Eq)]
pub enum NameErr {
    /// It has no byte.
    Empty,
    /// Its first byte outside 0x21 to 0x7E stands at this place.
    BadByte { at: u64 },
    /// Want of memory.
    Memory,
}

impl From<AllocError> for NameErr {
    ghost from_gives = { λ _ e. e ≡ OutOfMemory };

    fn from(_: AllocError) -> NameErr {
        NameErr::Memory
    }
}

/// Whether a byte may stand in a name.
fn is_name_byte(byte: u8) -> bool
    ensures { IsTrue result ↔ IsNameByte byte }
{
    (0x21..=0x7E).contains(&byte)
}

/// The place of the first byte that a name may not have.
fn first_bad_byte(text: &[u8]) -> Option<usize>
    ensures found { IfSome result (IsFirstBadByte text.now) }
    ensures none { IfNone result (All IsNameByte text.now) }
{
    text.iter().position(|byte| !is_name_byte(*byte))
}

/// Whether all bytes of a text may stand in a name.
pub fn are_name_bytes(text: &[u8]) -> bool
    ensures { IsTrue result ↔ All IsNameByte text.now }
{
    match first_bad_byte(text) {
        Some(_at) => false,
        None => true,
    }
}

impl Name {
    /// The name of bytes that are known to be one.
    pub(crate) fn of(alloc: Global, text: &[u8]) -> Result<Name, Memory>
        requires { IsName text.now }
        ensures { IfOk result (λ name. name ≡ text.now) }
    {
        Ok(Name {
            text: Vec::from_slice(alloc, text)?,
        })
    }

    /// The name that has these bytes; None where there are none.
    pub(crate) fn from_vec(text: Vec<u8>) -> Option<Name>
        requires { All IsNameByte text.items }
        ensures some { IfSome result (λ name. (name ≡ text.items) × (name ≢ [])) }
        ensures none { IfNone result (text.items ≡ []) }
    {
        if text.as_slice().is_empty() {
            return None;
        }
        Some(Name { text })
    }

    /// Reads a whole text as one name.
    pub fn read(alloc: Global, text: &[u8]) -> Result<Name, NameErr>
        ensures ok { IfOk result (λ name. (name ≡ text.now) × IsName text.now) }
        ensures empty { (result ≡ Err NameErr.Empty) ↔ (text.now ≡ []) }
        ensures bad { (at : ℕ) → (result ≡ Err (NameErr.BadByte at)) ↔ IsFirstBadByte text.now at }
    {
        if text.is_empty() {
            return Err(NameErr::Empty);
        }
        if let Some(at) = first_bad_byte(text) {
            return Err(NameErr::BadByte { at: at as u64 });
        }
        Ok(Name {
            text: Vec::from_slice(alloc, text)?,
        })
    }

    pub fn bytes(&self) -> &[u8]
        ensures bytes { result.now ≡ self.now }
        ensures name { IsName self.now }
    {
        &self.text
    }

    pub fn copy(&self, alloc: Global) -> Result<Name, Memory>
        ensures { IfOk result (λ name. name ≡ self.now) }
    {
        Ok(Name {
            text: Vec::from_slice(alloc, &self.text)?,
        })
    }
}
