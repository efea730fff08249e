//! Numbers of nodes and edges.

ghost use Rattle.std.specs.Prelude.{◌≡◌, ◌+◌, IfOk, slice_index};

use eq_base::Memory;
use std::alloc::AllocError;

/// The number at a place, 0 behind the last.
pub fn number_in(numbers: &[usize], place: usize) -> usize
    ensures { result ≡ slice_index numbers.now place }
{
    if place < numbers.len() {
        numbers[place]
    } else {
        0
    }
}

/// The sum, which is a size that no memory has where it is no number of 64 bits.
pub fn add(m: usize, n: usize) -> Result<usize, Memory>
    ensures { IfOk result (λ sum. sum ≡ m + n) }
{
    match m.checked_add(n) {
        Some(sum) => Ok(sum),
        None => Err(AllocError),
    }
}
