//! Bits that were seen, by their numbers.

ghost use Rattle.std.specs.Prelude.{◌≡◌, ◌≤◌, ◌+◌, ◌^◌, ◌++◌, ◌||◌, ℕ, List, true, cond, nat_eq, Some, OnOk};
ghost use Rattle.std.specs.List.{list_any};
ghost use Rattle.eq_verilog.specs.Costs.{has_bit};
ghost use Rattle.eq_analysis.specs.Marking.{mark_of, is_marked, AreMarked, run};

use eq_base::Memory;
use std::collections::HashMap;

/// Marks a bit.
pub fn mark(marks: &mut HashMap<u64, bool>, bit: u64) -> Result<(), Memory>
    ensures { OnOk result ((b : ℕ) →
        mark_of marks.new b ≡ cond (nat_eq bit b) (Some true) (mark_of marks.old b)) }
{
    marks.insert(bit, true)?;
    Ok(())
}

/// Whether a bit is marked.
pub fn is_marked(marks: &HashMap<u64, bool>, bit: u64) -> bool
    ensures { result ≡ is_marked marks.now bit }
{
    marks.contains_key(&bit)
}

fn is_marked_or(marks: &HashMap<u64, bool>, bit: u64, found: bool) -> bool
    ensures { result ≡ (is_marked marks.now bit || found) }
{
    is_marked(marks, bit) || found
}

/// Marks so many bits from one on.
pub fn mark_run(marks: &mut HashMap<u64, bool>, low: u64, count: u64) -> Result<(), Memory>
    requires room { low + count ≤ 2 ^ 63 }
    ensures { OnOk result ((seen : List ℕ) → AreMarked marks.old seen →
        AreMarked marks.new (run low count ++ seen)) }
{
    for bit in 0..count {
        mark(marks, low + bit)?;
    }
    Ok(())
}

/// Whether one of so many bits is marked.
pub fn is_run_marked(marks: &HashMap<u64, bool>, low: u64, count: u64) -> bool
    requires room { low + count ≤ 2 ^ 63 }
    ensures { (seen : List ℕ) → AreMarked marks.now seen →
        result ≡ list_any (has_bit seen) (run low count) }
{
    let mut found = false;
    for bit in 0..count {
        found = is_marked_or(marks, low + bit, found);
    }
    found
}
