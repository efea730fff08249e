//! Names in a row: the first that comes again.

ghost use Rattle.std.specs.Prelude.{◌≡◌, [], None, map, IfOk, OnOk};
ghost use Rattle.std.specs.Prelude.{option_copied};
ghost use Rattle.eq_names.specs.Tables.{with_name};
ghost use Rattle.eq_verilog.specs.Declarations.{has};
ghost use Rattle.eq_verilog.specs.Firsts as spec;

use eq_base::Memory;
use eq_names::{Name, NameTable};
use eq_verilog::laws::names_by_number;

/// Whether a table has a name.
pub fn has_name(table: &NameTable, name: &Name) -> bool
    ensures { result ≡ has table.now name.now }
{
    names_by_number();
    table.find(name.bytes()).is_some()
}

/// Puts a name into a table, and says whether the table had it.
pub fn meets(table: &mut NameTable, name: &Name) -> Result<bool, Memory>
    ensures again { IfOk result (λ again. again ≡ has table.old name.now) }
    ensures names { OnOk result (table.new ≡ with_name table.old name.now) }
{
    if has_name(table, name) {
        return Ok(true);
    }
    if table.len() == u32::MAX {
        return Err(Memory);
    }
    table.intern(name)?;
    Ok(false)
}

/// The first name that is among those before it. Where there is none, the number of each name is its place.
pub fn first_again<'a>(
    table: &mut NameTable,
    names: &[&'a Name],
) -> Result<Option<&'a Name>, Memory>
    requires empty { table.old ≡ [] }
    ensures again { IfOk result (λ found.
        option_copied found ≡ spec.first_again (map (λ n. n.now) names.now)) }
    ensures names { IfOk result (λ found.
        found ≡ None → table.new ≡ map (λ n. n.now) names.now) }
{
    for name in names {
        if meets(table, name)? {
            return Ok(Some(name));
        }
    }
    Ok(None)
}
