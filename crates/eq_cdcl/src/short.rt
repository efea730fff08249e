//! Numbers in four bytes, since there are many of them.
ghost use Rattle.std.specs.Prelude.{◌≡◌, IfOk};

use eq_base::Memory;

/// A number in four bytes. A larger one is want of memory.
pub fn short(number: u64) -> Result<u32, Memory>
    ensures { IfOk result (λ kept. kept ≡ number) }
{
    match u32::try_from(number) {
        Ok(kept) => Ok(kept),
        Err(_) => Err(Memory),
    }
}
