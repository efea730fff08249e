//! Cells, each of which computes one bit from at most three others, and what is made of them for one bit.

ghost use Rattle.std.specs.Prelude.{◌≡◌, ◌+◌, ◌<◌, ◌^◌, IfOk, OnOk, not, ◌&&◌, cond, Bool};
ghost use Rattle.eq_net.specs.Numbers.{differ};
ghost use Rattle.eq_net.specs.inner.Cells.{Gives, Grown, computed};
ghost use Rattle.eq_net.specs.inner.CellSteps.{step_value};

use eq_base::Memory;

/// What a bit is computed from: a bit of the nets, by its place in the row of all, or other cells, by their numbers.
#[derive(Clone, Copy, Debug)]
pub enum Cell {
    Bit(u32),
    Not(u32),
    And(u32, u32),
    Or(u32, u32),
    Xor(u32, u32),
    /// The second where the first is 1, else the third.
    Choose(u32, u32, u32),
}

/// The number of the constant 0.
pub const ZERO: u32 = 0;

/// The number of the constant 1. Those of the cells follow.
pub const ONE: u32 = 1;

/// What is made of up to three bits x, y and z.
#[derive(Clone, Copy, Debug, PartialEq, Eq)]
pub enum Kind {
    And,
    Or,
    Xor,
    Xnor,
    Not,
    /// x where z is 1, else y.
    Choose,
    /// Whether a number is below another, where x says so of what stands below their digits y and z.
    Less,
    /// Whether two numbers are equal, where x says so of what stands below their digits y and z.
    Equal,
}

/// The number of the cell behind so many.
fn next_number(count: usize) -> u32
    ensures { 2 + count < 2 ^ 32 → result ≡ 2 + count }
{
    if count < 4_294_967_294 {
        count as u32 + 2
    } else {
        ZERO
    }
}

/// Adds a cell. Answers its number.
pub fn add(cells: &mut Vec<Cell>, cell: Cell) -> Result<u32, Memory>
    ensures grown { OnOk result (Grown cells.old.items cells.new.items) }
    ensures gives { IfOk result (λ m. Gives cells.new.items m (λ v. computed v cell)) }
{
    let number = next_number(cells.len());
    cells.push(cell)?;
    Ok(number)
}

/// The negation of what a cell computes.
fn negated(cells: &mut Vec<Cell>, cell: Cell) -> Result<u32, Memory>
    ensures grown { OnOk result (Grown cells.old.items cells.new.items) }
    ensures gives { IfOk result (λ m. Gives cells.new.items m (λ v. not (computed v cell))) }
{
    let inner = add(cells, cell)?;
    add(cells, Cell::Not(inner))
}

/// Where x and y differ the third, else the fourth.
fn where_they_differ(
    cells: &mut Vec<Cell>,
    x: u32,
    y: u32,
    then: u32,
    otherwise: u32,
) -> Result<u32, Memory>
    ensures grown { OnOk result (Grown cells.old.items cells.new.items) }
    ensures gives { IfOk result (λ m. Gives cells.new.items m (λ v. cond {A = Bool}
        (differ (v.cells x) (v.cells y)) (v.cells then) (v.cells otherwise))) }
{
    let differ = add(cells, Cell::Xor(x, y))?;
    add(cells, Cell::Choose(differ, then, otherwise))
}

fn equal(cells: &mut Vec<Cell>, before: u32, x: u32, y: u32) -> Result<u32, Memory>
    ensures grown { OnOk result (Grown cells.old.items cells.new.items) }
    ensures gives { IfOk result (λ m. Gives cells.new.items m
        (λ v. v.cells before && not (differ (v.cells x) (v.cells y)))) }
{
    let same = negated(cells, Cell::Xor(x, y))?;
    add(cells, Cell::And(before, same))
}

/// The cells of a kind.
pub fn step(kind: Kind, cells: &mut Vec<Cell>, x: u32, y: u32, z: u32) -> Result<u32, Memory>
    ensures grown { OnOk result (Grown cells.old.items cells.new.items) }
    ensures gives { IfOk result (λ m. Gives cells.new.items m
        (λ v. step_value kind (v.cells x) (v.cells y) (v.cells z))) }
{
    match kind {
        Kind::And => add(cells, Cell::And(x, y)),
        Kind::Or => add(cells, Cell::Or(x, y)),
        Kind::Xor => add(cells, Cell::Xor(x, y)),
        Kind::Xnor => negated(cells, Cell::Xor(x, y)),
        Kind::Not => add(cells, Cell::Not(x)),
        Kind::Choose => add(cells, Cell::Choose(z, x, y)),
        Kind::Less => where_they_differ(cells, y, z, z, x),
        Kind::Equal => equal(cells, x, y, z),
    }
}

/// The digit of a sum at one place, and the carry into the next, from the digits x and y and the carry into it.
pub fn sum_and_carry(
    cells: &mut Vec<Cell>,
    x: u32,
    y: u32,
    carry: u32,
) -> Result<(u32, u32), Memory>
    ensures grown { OnOk result (Grown cells.old.items cells.new.items) }
    ensures sum { IfOk result (λ made. Gives cells.new.items made.0
        (λ v. differ (differ (v.cells x) (v.cells y)) (v.cells carry))) }
    ensures carry { IfOk result (λ made. Gives cells.new.items made.1
        (λ v. cond {A = Bool} (differ (v.cells x) (v.cells y)) (v.cells carry) (v.cells x))) }
{
    let differ = add(cells, Cell::Xor(x, y))?;
    let sum = add(cells, Cell::Xor(differ, carry))?;
    let next = add(cells, Cell::Choose(differ, carry, x))?;
    Ok((sum, next))
}
