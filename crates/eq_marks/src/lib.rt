//! What marks on the bits of a netlist tell, before it is a netlist, and whether two netlists have the same ports.
//!
//! - `ports`: whether two designs can be compared (`same_ports`: exactly `port_fault`). `headers`: their ports by name.
//! - `marks`, `carrying`: marks carried from the bits of nets to those of words (`HasRows`). `clocking`: the bits from which
//!   plain copies lead to a clock (`IsClass`). `taking`: the first bit that takes a clock as data (`first_taking`).
//! - `events`: where the edges of always items come from (`edges_of`).
//! - `missing`: the first bit without driver that is needed (`first_missed`).
//! - `examples`: designs on which the definitions of ports are tried. `laws`: what holds of ports that fit.
#![tactic(auto)]

mod carrying;
mod clocking;
mod events;
pub mod examples;
mod headers;
pub mod laws;
mod marks;
mod missing;
mod ports;
mod taking;

pub use events::{Edges, edges_of};
pub use missing::first_missed;
pub use ports::{PortErr, same_ports};
pub use taking::first_taking;
