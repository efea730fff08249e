//! Small designs whose ports fit, or don't. They stand in `specs/samples/`, as they are written in Verilog and as trees. The
//! checker computes each clause.

pub mod ports;
