//! Tables of which netlists are made: signals, wires, and cells without registers and with them.

pub mod gates;
pub mod registers;
pub mod signals;
pub mod wires;
