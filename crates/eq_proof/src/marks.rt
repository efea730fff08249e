//! Marks of variables and values of literals.
ghost use Rattle.std.specs.Prelude.{◌≡◌};
ghost use Rattle.eq_proof.specs.Marks.{value_of, mark_of};

use crate::trail::{Mark, Value};

pub fn value_by(mark: Mark, positive: bool) -> Value
    ensures { result ≡ value_of mark positive }
{
    match mark {
        Mark::Open => Value::Unassigned,
        Mark::Positive => { if positive { Value::True } else { Value::False } }
        Mark::Negative => { if positive { Value::False } else { Value::True } }
    }
}

pub fn mark_by(positive: bool) -> Mark
    ensures { result ≡ mark_of positive }
{
    if positive {
        Mark::Positive
    } else {
        Mark::Negative
    }
}
