//! Small modules on which the definitions are tried. They stand in `specs/samples/`, as they are written in Verilog and as
//! trees. The checker computes each clause, but for loops.

pub mod bit_refusals;
pub mod costs;
pub mod equations;
pub mod expressions;
pub mod module_refusals;
pub mod modules;
pub mod order;
pub mod registers;
pub mod target_refusals;
