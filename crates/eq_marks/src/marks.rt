//! Marks of bits on a stack, the lowest bit first, and what operators make of them. A mark is a number, and a bit has one or
//! none.

ghost use Rattle.std.specs.Prelude.{◌≡◌, ℕ, ◌+◌, ◌-◌, ◌<◌, ◌≤◌, None, OnOk, false, length, slice_index_or, suc};
ghost use Rattle.eq_net.specs.Meaning.{result_size};
ghost use Rattle.eq_net.specs.Operators.{has_free_sizes};
ghost use Rattle.eq_marks.specs.inner.Marks as spec;
ghost use Rattle.eq_marks.specs.inner.Marks.{Overwrites, Puts, mixed_all, mixed_down, operated, part};

use eq_base::Memory;
use eq_net::WordOp;

/// Which marks go on from bits to what is made of them.
#[derive(Clone, Copy, Debug, PartialEq, Eq)]
pub enum Way {
    /// That of the bit which a bit is by wiring alone. An operator's result has no mark.
    Copies,
    /// The least of those of the bits that a bit reads.
    Reads,
}

fn mark_at(stack: &Vec<Option<u32>>, at: usize) -> Option<u32>
    requires { at < length stack.now.items }
    ensures { result ≡ slice_index_or stack.now.items at None }
{
    stack[at]
}

fn put_mark(stack: &mut Vec<Option<u32>>, at: usize, mark: Option<u32>)
    requires { at < length stack.old.items }
    ensures { Puts at mark stack.old.items stack.new.items }
{
    stack[at] = mark;
}

/// The smaller of two marks, where there are any.
pub fn least(x: Option<u32>, y: Option<u32>) -> Option<u32>
    ensures { result ≡ spec.least x y }
{
    match (x, y) {
        (None, y) => y,
        (x, None) => x,
        (Some(x), Some(y)) => Some(x.min(y)),
    }
}

/// What an operator makes of two marks.
fn mixed(way: Way, x: Option<u32>, y: Option<u32>) -> Option<u32>
    ensures { result ≡ spec.mixed way x y }
{
    match way {
        Way::Copies => None,
        Way::Reads => least(x, y),
    }
}

/// What an operator makes of `count` marks from a place on.
pub fn mix_all(way: Way, stack: &Vec<Option<u32>>, from: usize, count: usize) -> Option<u32>
    requires { from + count ≤ length stack.now.items }
    ensures { result ≡ mixed_all way count (part stack.now.items from) }
{
    let mut all = None;
    for j in 0..count {
        all = mixed(way, all, mark_at(stack, from + j));
    }
    all
}

/// Mixes a mark into each from a place on.
pub fn mix_in(way: Way, stack: &mut Vec<Option<u32>>, from: usize, mark: Option<u32>)
    requires { from ≤ length stack.old.items }
    ensures { Overwrites from (λ j. spec.mixed way (part stack.old.items from j) mark)
        (length stack.old.items - from) stack.old.items stack.new.items }
{
    for j in 0..stack.len() - from {
        let mixed = mixed(way, mark_at(stack, from + j), mark);
        put_mark(stack, from + j, mixed);
    }
}

/// Gives each place what is made of the marks up to it.
pub fn mix_up(way: Way, stack: &mut Vec<Option<u32>>, from: usize)
    requires { from ≤ length stack.old.items }
    ensures { Overwrites from (λ j. mixed_all way (suc j) (part stack.old.items from))
        (length stack.old.items - from) stack.old.items stack.new.items }
{
    let mut all = None;
    for j in 0..stack.len() - from {
        all = mixed(way, all, mark_at(stack, from + j));
        put_mark(stack, from + j, all);
    }
}

/// Gives each place what is made of the marks from it on.
fn mix_down(way: Way, stack: &mut Vec<Option<u32>>, from: usize)
    requires { from ≤ length stack.old.items }
    ensures { Overwrites from (λ j. mixed_down way (length stack.old.items - from)
        ((length stack.old.items - from) - j) (part stack.old.items from))
        (length stack.old.items - from) stack.old.items stack.new.items }
{
    let mut all = None;
    let count = stack.len() - from;
    for turn in 0..count {
        let at = from + (count - 1 - turn);
        all = mixed(way, all, mark_at(stack, at));
        put_mark(stack, at, all);
    }
}

/// Mixes the marks from `right` on into those from `left` up to there, place by place.
pub fn combine(way: Way, stack: &mut Vec<Option<u32>>, left: usize, right: usize)
    requires order { left ≤ right }
    requires sizes { right + (right - left) ≡ length stack.old.items }
    ensures { Overwrites left (λ j. spec.mixed way (part stack.old.items left j)
        (part stack.old.items right j)) (right - left) stack.old.items stack.new.items }
{
    for j in 0..right - left {
        let mixed = mixed(way, mark_at(stack, left + j), mark_at(stack, right + j));
        put_mark(stack, left + j, mixed);
    }
    stack.truncate(right);
}

/// Puts one mark in the place of all from a place on.
pub fn leave_one(stack: &mut Vec<Option<u32>>, from: usize, mark: Option<u32>) -> Result<(), Memory>
    requires { from ≤ length stack.old.items }
    ensures { OnOk result (Overwrites from (λ j. mark) 1 stack.old.items stack.new.items) }
{
    stack.truncate(from);
    stack.push(mark)?;
    Ok(())
}

/// Drops all from a place on.
pub fn drop_from(stack: &mut Vec<Option<u32>>, to: usize)
    requires { to ≤ length stack.old.items }
    ensures size { length stack.new.items ≡ to }
    ensures kept { (k : ℕ) → k < to → slice_index_or stack.new.items k None ≡
        slice_index_or stack.old.items k None }
{
    stack.truncate(to);
}

/// Puts bits without a mark above those from `from` on, so that there are `count`.
pub fn extend(stack: &mut Vec<Option<u32>>, from: usize, count: usize) -> Result<(), Memory>
    requires there { from ≤ length stack.old.items }
    requires room { length stack.old.items - from ≤ count }
    ensures { OnOk result (Overwrites from (spec.extended_marks (length stack.old.items - from)
        (part stack.old.items from)) count stack.old.items stack.new.items) }
{
    for _ in 0..count - (stack.len() - from) {
        stack.push(None)?;
    }
    Ok(())
}

fn sum(way: Way, stack: &mut Vec<Option<u32>>, left: usize, right: usize)
    requires order { left ≤ right }
    requires sizes { right + (right - left) ≡ length stack.old.items }
    ensures { Overwrites left (λ j. mixed_all way (suc j) (λ i. spec.mixed way
        (part stack.old.items left i) (part stack.old.items right i)))
        (right - left) stack.old.items stack.new.items }
{
    combine(way, stack, left, right);
    mix_up(way, stack, left);
}

fn left_shift(way: Way, stack: &mut Vec<Option<u32>>, left: usize, right: usize)
    requires order { left ≤ right }
    requires there { right ≤ length stack.old.items }
    ensures { Overwrites left (λ j. spec.mixed way
        (mixed_all way (suc j) (part stack.old.items left))
        (mixed_all way (length stack.old.items - right) (part stack.old.items right)))
        (right - left) stack.old.items stack.new.items }
{
    let by = mix_all(way, stack, right, stack.len() - right);
    drop_from(stack, right);
    mix_up(way, stack, left);
    mix_in(way, stack, left, by);
}

fn right_shift(way: Way, stack: &mut Vec<Option<u32>>, left: usize, right: usize)
    requires order { left ≤ right }
    requires there { right ≤ length stack.old.items }
    ensures { Overwrites left (λ j. spec.mixed way (mixed_down way (right - left)
        ((right - left) - j) (part stack.old.items left))
        (mixed_all way (length stack.old.items - right) (part stack.old.items right)))
        (right - left) stack.old.items stack.new.items }
{
    let by = mix_all(way, stack, right, stack.len() - right);
    drop_from(stack, right);
    mix_down(way, stack, left);
    mix_in(way, stack, left, by);
}

/// Puts one bit, which reads all of both, in the place of two operands.
fn compare(way: Way, stack: &mut Vec<Option<u32>>, left: usize, right: usize) -> Result<(), Memory>
    requires order { left ≤ right }
    requires there { right ≤ length stack.old.items }
    ensures { OnOk result (Overwrites left (spec.one_mark (spec.mixed way
        (mixed_all way (right - left) (part stack.old.items left))
        (mixed_all way (length stack.old.items - right) (part stack.old.items right)))) 1
        stack.old.items stack.new.items) }
{
    let one = mix_all(way, stack, left, right - left);
    let other = mix_all(way, stack, right, stack.len() - right);
    leave_one(stack, left, mixed(way, one, other))
}

/// Puts an operation in the place of its operands, the marks from `left` up to `right` and those from there on.
pub fn operate(
    way: Way,
    op: WordOp,
    stack: &mut Vec<Option<u32>>,
    left: usize,
    right: usize,
) -> Result<(), Memory>
    requires order { left ≤ right }
    requires there { right ≤ length stack.old.items }
    requires sizes { has_free_sizes op ≡ false → right + (right - left) ≡ length stack.old.items }
    ensures { OnOk result (Overwrites left (operated way op (right - left)
        (length stack.old.items - right) (part stack.old.items left)
        (part stack.old.items right)) (result_size op (right - left)) stack.old.items
        stack.new.items) }
{
    match op {
        WordOp::And => combine(way, stack, left, right),
        WordOp::Or => combine(way, stack, left, right),
        WordOp::Xor => combine(way, stack, left, right),
        WordOp::Xnor => combine(way, stack, left, right),
        WordOp::Add => sum(way, stack, left, right),
        WordOp::Sub => sum(way, stack, left, right),
        WordOp::Shl => left_shift(way, stack, left, right),
        WordOp::Shr => right_shift(way, stack, left, right),
        WordOp::Eq => return compare(way, stack, left, right),
        WordOp::Ne => return compare(way, stack, left, right),
        WordOp::Lt => return compare(way, stack, left, right),
        WordOp::Le => return compare(way, stack, left, right),
        WordOp::Gt => return compare(way, stack, left, right),
        WordOp::Ge => return compare(way, stack, left, right),
        WordOp::LogAnd => return compare(way, stack, left, right),
        WordOp::LogOr => return compare(way, stack, left, right),
    }
    Ok(())
}
