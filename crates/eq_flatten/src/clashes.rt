//! Full names of nets in a row: the first that an earlier net has.

ghost use Rattle.std.specs.Prelude.{◌≡◌, map, option_copied, IfOk, OnOk};
ghost use Rattle.eq_names.specs.Tables.{with_name};
ghost use Rattle.eq_net.specs.Nets.{net_of};
ghost use Rattle.eq_verilog.specs.Declarations.{has};
ghost use Rattle.eq_verilog.specs.Firsts.{first_again};
ghost use Rattle.eq_verilog.specs.Nets.{full_names};

use eq_analysis::has_name;
use eq_base::Memory;
use eq_names::{Name, NameTable};
use eq_net::NetInfo;
use std::alloc::Global;

/// The full name of the first net whose name an earlier net has.
pub fn path_clash<'a>(alloc: Global, nets: &'a [NetInfo]) -> Result<Option<&'a Name>, Memory>
    ensures { IfOk result (λ found. option_copied found ≡
        first_again (full_names (map net_of nets.now))) }
{
    let mut seen = NameTable::new(alloc)?;
    for net in nets {
        if meets(&mut seen, &net.name)? {
            return Ok(Some(&net.name));
        }
    }
    Ok(None)
}

/// Puts a name into a table, and says whether the table had it.
fn meets(table: &mut NameTable, name: &Name) -> Result<bool, Memory>
    ensures again { IfOk result (λ again. again ≡ has table.old name.now) }
    ensures names { OnOk result (table.new ≡ with_name table.old name.now) }
{
    if has_name(table, name) {
        return Ok(true);
    }
    if table.len() == u32::MAX {
        return Err(Memory);
    }
    table.intern(name)?;
    Ok(false)
}
