//! Partitions of one name.

ghost use Rattle.std.specs.Prelude.{◌≡◌, ◌++◌, ◌∷◌, [], ◌<◌, ◌-◌, ◌^◌, Some, None, IfOk, IfSome, IfNone, length};
ghost use Rattle.eq_names.specs.Tables.{number_of};
ghost use Rattle.eq_part.specs.Clashes.{AreFirstOfOneName, AreNamedApart};

use crate::types::Partition;
use eq_base::Memory;
use eq_names::{Name, NameTable};
use std::alloc::Global;

/// The number of a name, or none where it is new, and is taken in.
fn known(table: &mut NameTable, name: &Name) -> Result<Option<u32>, Memory>
    requires { length table.old < 2 ^ 32 - 1 }
    ensures some { IfOk result (λ found. IfSome found (λ p.
        number_of table.old name.now ≡ Some p)) }
    ensures new { IfOk result (λ found. IfNone found (number_of table.old name.now ≡ None)) }
    ensures taken { IfOk result (λ found. IfNone found (table.new ≡ table.old ++ name.now ∷ [])) }
{
    if let Some(number) = table.find(name.bytes()) {
        return Ok(Some(number));
    }
    table.intern(name)?;
    Ok(None)
}

/// The first two partitions of one name, if two have one.
pub fn first_clash(alloc: Global, parts: &[Partition]) -> Result<Option<(u32, u32)>, Memory>
    requires { length parts.now < 2 ^ 31 }
    ensures some { IfOk result (λ found. IfSome found (λ two. AreFirstOfOneName parts.now two.0 two.1)) }
    ensures none { IfOk result (λ found. IfNone found (AreNamedApart parts.now)) }
{
    let mut table = NameTable::new(alloc)?;
    for q in 0..parts.len() {
        if let Some(p) = known(&mut table, &parts[q].name)? {
            return Ok(Some((p, q as u32)));
        }
    }
    Ok(None)
}
