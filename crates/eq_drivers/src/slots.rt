//! What drives, sets and begins each bit.

use eq_flatten::Slot;
use eq_vlex::Constant;

/// Of each bit what the equations, the always items and the initial values say; a slot of `begun` has the number of one of
/// the constants.
#[derive(Drop)]
pub struct Slots {
    pub driven: Vec<Slot>,
    pub followed: Vec<Slot>,
    pub constants: Vec<Constant>,
    pub begun: Vec<Slot>,
}
