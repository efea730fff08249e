//! Gates of one bit, made in a builder of nodes.

ghost use Rattle.std.specs.Prelude.{◌≡◌, ◌+◌, ◌<◌, ◌≤◌, ◌^◌, IfOk, OnOk, length, true, not, ◌&&◌, ◌||◌, cond, Bool};
ghost use Rattle.eq_bits.specs.Node.{IsNode};
ghost use Rattle.eq_bits.specs.Shared.{is_gate};
ghost use Rattle.eq_net.specs.Numbers.{differ};
ghost use Rattle.eq_blast.specs.inner.Growing.{Gives, Grown, has_in, value_in};
ghost use Rattle.eq_blast.specs.inner.Steps.{step_cost, step_has, step_value};

use eq_base::Memory;
use eq_bits::{Builder, Node};

/// What is made of up to three bits x, y and z.
#[derive(Clone, Copy, Debug, PartialEq, Eq)]
pub enum Kind {
    And,
    Or,
    Xor,
    Xnor,
    Not,
    /// x where z is 1, else y.
    Choose,
    /// Whether a number is below another, where x says so of what stands below their digits y and z.
    Less,
    /// Whether two numbers are equal, where x says so of what stands below their digits y and z.
    Equal,
    /// The digit of a sum with the carry z.
    Sum,
    /// The carry of a sum with the carry z.
    Carry,
}

/// One gate.
fn gate(builder: &mut Builder, node: Node) -> Result<u32, Memory>
    requires gate { is_gate node ≡ true }
    requires operands { IsNode (length builder.old) (length builder.old) node }
    requires room { length builder.old + 1 < 2 ^ 32 }
    ensures grown { OnOk result (Grown 1 builder.old builder.new) }
    ensures gives { IfOk result (λ m. Gives builder.new m (value_in node) (has_in node)) }
{
    builder.node(node)
}

/// The negation of a gate.
fn negated(builder: &mut Builder, node: Node) -> Result<u32, Memory>
    requires gate { is_gate node ≡ true }
    requires operands { IsNode (length builder.old) (length builder.old) node }
    requires room { length builder.old + 2 < 2 ^ 32 }
    ensures grown { OnOk result (Grown 2 builder.old builder.new) }
    ensures gives { IfOk result
        (λ m. Gives builder.new m (λ x. not (value_in node x)) (has_in node)) }
{
    let inner = gate(builder, node)?;
    gate(builder, Node::Not(inner))
}

fn negated_and(builder: &mut Builder, x: u32, y: u32) -> Result<u32, Memory>
    requires x { x < length builder.old }
    requires y { y < length builder.old }
    requires room { length builder.old + 2 < 2 ^ 32 }
    ensures grown { OnOk result (Grown 2 builder.old builder.new) }
    ensures gives { IfOk result
        (λ m. Gives builder.new m (λ v. not (v x && v y)) (λ d. d x && d y)) }
{
    negated(builder, Node::And(x, y))
}

fn or(builder: &mut Builder, x: u32, y: u32) -> Result<u32, Memory>
    requires x { x < length builder.old }
    requires y { y < length builder.old }
    requires room { length builder.old + 4 < 2 ^ 32 }
    ensures grown { OnOk result (Grown 4 builder.old builder.new) }
    ensures gives { IfOk result (λ m. Gives builder.new m (λ v. v x || v y) (λ d. d x && d y)) }
{
    let no_x = gate(builder, Node::Not(x))?;
    let no_y = gate(builder, Node::Not(y))?;
    negated_and(builder, no_x, no_y)
}

/// Where x and y differ the third, else the fourth.
fn where_they_differ(
    builder: &mut Builder,
    x: u32,
    y: u32,
    then: u32,
    otherwise: u32,
) -> Result<u32, Memory>
    requires x { x < length builder.old }
    requires y { y < length builder.old }
    requires then { then < length builder.old }
    requires otherwise { otherwise < length builder.old }
    requires room { length builder.old + 2 < 2 ^ 32 }
    ensures grown { OnOk result (Grown 2 builder.old builder.new) }
    ensures gives { IfOk result (λ m. Gives builder.new m
        (λ v. cond {A = Bool} (differ (v x) (v y)) (v then) (v otherwise))
        (λ d. (d x && d y) && (d then && d otherwise))) }
{
    let differ = gate(builder, Node::Xor(x, y))?;
    gate(builder, Node::Mux(differ, then, otherwise))
}

fn equal(builder: &mut Builder, before: u32, x: u32, y: u32) -> Result<u32, Memory>
    requires before { before < length builder.old }
    requires x { x < length builder.old }
    requires y { y < length builder.old }
    requires room { length builder.old + 3 < 2 ^ 32 }
    ensures grown { OnOk result (Grown 3 builder.old builder.new) }
    ensures gives { IfOk result (λ m. Gives builder.new m
        (λ v. v before && not (differ (v x) (v y))) (λ d. d before && (d x && d y))) }
{
    let same = negated(builder, Node::Xor(x, y))?;
    gate(builder, Node::And(before, same))
}

fn sum(builder: &mut Builder, x: u32, y: u32, carry: u32) -> Result<u32, Memory>
    requires x { x < length builder.old }
    requires y { y < length builder.old }
    requires carry { carry < length builder.old }
    requires room { length builder.old + 2 < 2 ^ 32 }
    ensures grown { OnOk result (Grown 2 builder.old builder.new) }
    ensures gives { IfOk result (λ m. Gives builder.new m
        (λ v. differ (differ (v x) (v y)) (v carry)) (λ d. (d x && d y) && d carry)) }
{
    let differ = gate(builder, Node::Xor(x, y))?;
    gate(builder, Node::Xor(differ, carry))
}

/// The gates of a kind.
pub fn step(kind: Kind, builder: &mut Builder, x: u32, y: u32, z: u32) -> Result<u32, Memory>
    requires x { x < length builder.old }
    requires y { y < length builder.old }
    requires z { z < length builder.old }
    requires room { length builder.old + 4 < 2 ^ 32 }
    ensures few { OnOk result (length builder.new ≤ length builder.old + 4) }
    ensures grown { OnOk result (Grown (step_cost kind) builder.old builder.new) }
    ensures gives { IfOk result
        (λ m. Gives builder.new m (λ v. step_value kind (v x) (v y) (v z))
        (λ d. step_has kind (d x) (d y) (d z))) }
{
    match kind {
        Kind::And => gate(builder, Node::And(x, y)),
        Kind::Or => or(builder, x, y),
        Kind::Xor => gate(builder, Node::Xor(x, y)),
        Kind::Xnor => negated(builder, Node::Xor(x, y)),
        Kind::Not => gate(builder, Node::Not(x)),
        Kind::Choose => gate(builder, Node::Mux(z, x, y)),
        Kind::Less => where_they_differ(builder, y, z, z, x),
        Kind::Equal => equal(builder, x, y, z),
        Kind::Sum => sum(builder, x, y, z),
        Kind::Carry => where_they_differ(builder, x, y, z, x),
    }
}
