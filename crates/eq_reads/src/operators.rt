//! What operations make of the nodes of their operands: by which positions of these each of their positions reads.

ghost use Rattle.std.specs.Prelude.{◌≡◌, ℕ, ◌+◌, ◌-◌, ◌<◌, ◌≤◌, OnOk, length};
ghost use Rattle.eq_reads.specs.Words.{AreNodes, AreThere};
ghost use Rattle.eq_reads.specs.inner.Leading.{RowGrew, SomeLeads};
ghost use Rattle.eq_reads.specs.inner.Shapes.{AllLead, IsPaired, OperandsLead, shape_of, size_of};

use crate::graph::Nodes;
use crate::nodes::{climb, combine, descend, gather};
use crate::row::{cut, push};
use eq_base::Memory;
use eq_net::WordOp;

/// Which positions of its operands a position of an operation reads.
#[derive(Clone, Copy, Debug, PartialEq, Eq)]
pub enum Shape {
    /// The same of both.
    Same,
    /// All up to it, of both.
    Lower,
    /// Those up to it of the left one, and all of the right one.
    Upward,
    /// Those from it on of the left one, and all of the right one.
    Downward,
    /// All of both, and it is the only one.
    Whole,
}

/// The shape of an operation.
pub fn shape_of(op: WordOp) -> Shape
    ensures { result ≡ shape_of op }
{
    match op {
        WordOp::And => Shape::Same,
        WordOp::Or => Shape::Same,
        WordOp::Xor => Shape::Same,
        WordOp::Xnor => Shape::Same,
        WordOp::Add => Shape::Lower,
        WordOp::Sub => Shape::Lower,
        WordOp::Shl => Shape::Upward,
        WordOp::Shr => Shape::Downward,
        WordOp::Eq => Shape::Whole,
        WordOp::Ne => Shape::Whole,
        WordOp::Lt => Shape::Whole,
        WordOp::Le => Shape::Whole,
        WordOp::Gt => Shape::Whole,
        WordOp::Ge => Shape::Whole,
        WordOp::LogAnd => Shape::Whole,
        WordOp::LogOr => Shape::Whole,
    }
}

/// Puts one node in the place of all from a place on.
pub fn whole(from: usize, nodes: &mut Nodes, row: &mut Vec<usize>) -> Result<(), Memory>
    requires are { AreNodes nodes.old }
    requires there { AreThere nodes.old row.old.items }
    requires from { from ≤ length row.old.items }
    ensures { OnOk result (RowGrew nodes.old row.old.items nodes.new row.new.items from 1
        (AllLead nodes.old row.old.items from)) }
{
    let all = gather(from, nodes, row)?;
    cut(row, from);
    push(row, all)?;
    Ok(())
}

/// Sums and differences: all up to each position.
fn lower(left: usize, right: usize, nodes: &mut Nodes, row: &mut Vec<usize>) -> Result<(), Memory>
    requires are { AreNodes nodes.old }
    requires there { AreThere nodes.old row.old.items }
    requires order { left ≤ right }
    requires size { length row.old.items ≡ right + (right - left) }
    ensures { OnOk result (RowGrew nodes.old row.old.items nodes.new row.new.items left
        (right - left) (OperandsLead Shape.Lower nodes.old row.old.items left right)) }
{
    let none = nodes.none;
    combine(left, right, nodes, row)?;
    climb(left, none, nodes, row)
}

/// Shifts to higher positions.
fn upward(left: usize, right: usize, nodes: &mut Nodes, row: &mut Vec<usize>) -> Result<(), Memory>
    requires are { AreNodes nodes.old }
    requires there { AreThere nodes.old row.old.items }
    requires order { left ≤ right }
    requires right { right ≤ length row.old.items }
    ensures { OnOk result (RowGrew nodes.old row.old.items nodes.new row.new.items left
        (right - left) (OperandsLead Shape.Upward nodes.old row.old.items left right)) }
{
    let amount = gather(right, nodes, row)?;
    cut(row, right);
    climb(left, amount, nodes, row)
}

/// Shifts to lower positions.
fn downward(
    left: usize,
    right: usize,
    nodes: &mut Nodes,
    row: &mut Vec<usize>,
) -> Result<(), Memory>
    requires are { AreNodes nodes.old }
    requires there { AreThere nodes.old row.old.items }
    requires order { left ≤ right }
    requires right { right ≤ length row.old.items }
    ensures { OnOk result (RowGrew nodes.old row.old.items nodes.new row.new.items left
        (right - left) (OperandsLead Shape.Downward nodes.old row.old.items left right)) }
{
    let amount = gather(right, nodes, row)?;
    cut(row, right);
    descend(left, amount, nodes, row)
}

/// Puts an operation in the place of its operands, whose nodes stand from `left` up to `right` and from there on.
pub fn operate(
    shape: Shape,
    left: usize,
    right: usize,
    nodes: &mut Nodes,
    row: &mut Vec<usize>,
) -> Result<(), Memory>
    requires are { AreNodes nodes.old }
    requires there { AreThere nodes.old row.old.items }
    requires order { left ≤ right }
    requires right { right ≤ length row.old.items }
    requires paired { IsPaired shape → length row.old.items ≡ right + (right - left) }
    ensures { OnOk result (RowGrew nodes.old row.old.items nodes.new row.new.items left
        (size_of shape (right - left)) (OperandsLead shape nodes.old row.old.items left right)) }
{
    match shape {
        Shape::Same => combine(left, right, nodes, row),
        Shape::Lower => lower(left, right, nodes, row),
        Shape::Upward => upward(left, right, nodes, row),
        Shape::Downward => downward(left, right, nodes, row),
        Shape::Whole => whole(left, nodes, row),
    }
}
