//! Names: which texts are names, and where the first bad byte of another stands.

use eq_names::{Name, NameErr};
use std::alloc::Global;
use std::test::Fail;

const FAULTS: [(&'static [u8], NameErr); 6] = [
    (b"", NameErr::Empty),
    (b" a", NameErr::BadByte { at: 0 }),
    (b"a b", NameErr::BadByte { at: 1 }),
    (b"ab\n", NameErr::BadByte { at: 2 }),
    (b"a\x7F\x80", NameErr::BadByte { at: 1 }),
    (b"\xC3\xA9", NameErr::BadByte { at: 0 }),
];

/// The first text that hasn't its fault.
fn first_other_fault(alloc: Global) -> Option<usize> {
    for (i, (text, fault)) in FAULTS.iter().enumerate() {
        if Name::read(alloc, text).err() != Some(*fault) {
            return Some(i);
        }
    }
    None
}

#[test]
fn what_is_no_name_has_its_first_fault(rt: HostRuntime) -> Result<(), Fail> {
    assert_eq!(rt; first_other_fault(rt.alloc()), None);
    Ok(())
}

/// Whether the text is a name, and so is its copy.
fn is_read(alloc: Global, text: &[u8]) -> Result<bool, Fail> {
    let name = Name::read(alloc, text)?;
    let copy = name.copy(alloc)?;
    Ok(name.bytes() == text && copy.bytes() == text)
}

#[test]
fn a_name_has_the_bytes_of_its_text(rt: HostRuntime) -> Result<(), Fail> {
    assert!(rt; is_read(rt.alloc(), b"!a~\\[3]")?);
    Ok(())
}
