//! What a variable's slot says of its literals.
ghost use Rattle.std.specs.Prelude.{◌≡◌};
ghost use Rattle.eq_cdcl.specs.inner.Slots.{value_of, holds_of};

use crate::trail::{Slot, Value};

pub fn value_by(slot: Slot, positive: bool) -> Value
    ensures { result ≡ value_of slot positive }
{
    match slot {
        Slot::Open => Value::Unassigned,
        Slot::Taken(_, sign) => {
            if sign == positive {
                Value::True
            } else {
                Value::False
            }
        }
    }
}

pub fn holds_by(slot: Slot) -> bool
    ensures { result ≡ holds_of slot }
{
    match slot {
        Slot::Open => false,
        Slot::Taken(_, sign) => sign,
    }
}
