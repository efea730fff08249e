//! The words of the command line, as bytes.

use eq_base::{Bytes, Items};
use std::alloc::{AllocError, AllocFailed, Global};
use std::env::{Env, FillError};

/// Why there are no words.
#[derive(Clone, Copy, Debug, PartialEq, Eq)]
pub enum NoWords {
    /// The system gives none of them, or one that is too long.
    Fault,
    /// Memory ran out.
    Memory,
}

impl From<AllocError> for NoWords {
    fn from(_: AllocError) -> NoWords {
        NoWords::Memory
    }
}

impl<T: Drop> From<AllocFailed<T>> for NoWords {
    fn from(_: AllocFailed<T>) -> NoWords {
        NoWords::Memory
    }
}

/// How many bytes a word may have, tried in turn.
const SIZES: [usize; 4] = [256, 4_096, 65_536, 4_194_304];

/// The word of this number, where there is one. Word 0 is the program's name.
fn word<R: Env + Alloc<A = Global>>(rt: &R, number: usize) -> Result<Option<Bytes>, NoWords> {
    for size in SIZES {
        let mut buffer = vec![in rt.alloc(); 0_u8; size]?;
        match rt.arg(number, &mut buffer) {
            Ok(length) => {
                buffer.truncate(length);
                return Ok(Some(Bytes::from_vec(buffer)));
            }
            Err(FillError::TooLong) => {}
            Err(FillError::NotPresent) => return Ok(None),
        }
    }
    Err(NoWords::Fault)
}

/// The words after the program's name.
pub fn words<R: Env + Alloc<A = Global>>(rt: &R) -> Result<Items<Bytes>, NoWords> {
    let mut words = Items::new(rt.alloc());
    for number in 1..usize::MAX {
        match word(rt, number)? {
            Some(word) => words.push(word)?,
            None => return Ok(words),
        }
    }
    Ok(words)
}
