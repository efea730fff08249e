//! Rows of nodes: one for each bit of words, the lowest of each first.

ghost use Rattle.std.specs.Prelude.{◌≡◌, ℕ, ◌+◌, ◌<◌, ◌≤◌, OnOk, length};
ghost use Rattle.eq_reads.specs.inner.Leading.{Appended};
ghost use Rattle.eq_reads.specs.Words.{number_at};

use eq_base::Memory;

/// The node at a place.
pub fn node_at(row: &Vec<usize>, place: usize) -> usize
    requires { place < length row.now.items }
    ensures { result ≡ number_at row.now.items place }
{
    row[place]
}

/// Writes a node.
pub fn put(row: &mut Vec<usize>, place: usize, node: usize)
    requires { place < length row.old.items }
    ensures size { length row.new.items ≡ length row.old.items }
    ensures there { number_at row.new.items place ≡ node }
    ensures below { (k : ℕ) → k < place → number_at row.new.items k ≡ number_at row.old.items k }
    ensures above { (k : ℕ) → place < k → number_at row.new.items k ≡ number_at row.old.items k }
{
    row[place] = node;
}

/// Puts a number behind the others.
pub fn push(row: &mut Vec<usize>, node: usize) -> Result<(), Memory>
    ensures size { OnOk result (length row.new.items ≡ length row.old.items + 1) }
    ensures there { OnOk result (number_at row.new.items (length row.old.items) ≡ node) }
    ensures kept { OnOk result ((k : ℕ) → k < length row.old.items →
        number_at row.new.items k ≡ number_at row.old.items k) }
{
    row.push(node)?;
    Ok(())
}

/// Drops all from a place on.
pub fn cut(row: &mut Vec<usize>, to: usize)
    requires { to ≤ length row.old.items }
    ensures size { length row.new.items ≡ to }
    ensures kept { (k : ℕ) → k < to → number_at row.new.items k ≡ number_at row.old.items k }
{
    row.truncate(to);
}

/// Puts a node behind the others, `count` times.
pub fn fill(row: &mut Vec<usize>, node: usize, count: usize) -> Result<(), Memory>
    ensures { OnOk result (Appended row.old.items row.new.items count (λ j. node)) }
{
    for _ in 0..count {
        push(row, node)?;
    }
    Ok(())
}
