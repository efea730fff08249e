//! Names and their numbers.

use eq_names::{Name, NameTable};
use std::alloc::Global;
use std::test::Fail;

/// The table, to which the names a, b and again a were given, and the numbers that were answered.
fn table(alloc: Global) -> Result<(NameTable, [u32; 3]), Fail> {
    let mut table = NameTable::new(alloc)?;
    let a = table.intern(&Name::read(alloc, b"a")?)?;
    let b = table.intern(&Name::read(alloc, b"b")?)?;
    let again = table.intern(&Name::read(alloc, b"a")?)?;
    Ok((table, [a, b, again]))
}

#[test]
fn a_known_name_keeps_its_number(rt: HostRuntime) -> Result<(), Fail> {
    let (table, numbers) = table(rt.alloc())?;
    assert!(rt; numbers == [0, 1, 0]);
    assert!(rt; table.len() == 2 && table.find(b"a") == Some(0) && table.find(b"b") == Some(1));
    assert!(rt; table.find(b"").is_none() && table.name(2).is_none());
    assert!(rt; table.name(1) == Some(b"b".as_slice()));
    Ok(())
}
