//! The outside: where files are read and written, where output goes, and what lets a test watch the workers.
//!
//! Each place of the outside is a trait with a written meaning (ghost members) and a count of faults that never falls.
//! `Failed` comes only where the count rose in the call. In the order of the data:
//!
//! - `store`: the trait `Store`. A read answers `Absent`, `TooLong` or the bytes as the files have them (`answer`); a
//!   write puts the bytes under the name (`ok`) or leaves anything there and nothing else changed (`failed`).
//! - `sink`: the trait `Sink`. A put adds the piece (`ok`), or a front part of it (`failed`).
//! - `gate`: the trait `Gate`, which workers pass, and `NoGate`. It has no meaning.
//! - `call_plan`: which calls of a fake fail. The next one fails where its number is in the list (`fails`).
//! - `mem_store`, `mem_sink`: a store and a sink in memory, for tests. Each call is one equation a result.
//! - `dir_store`: a store over the files of the system. It counts a fault exactly where it answers `Failed`.
//! - `out_sink`: a sink over a writer. Over one that tells its bytes, Ok adds the whole piece.
//! - `laws`: what the traits' words leave no choice in (`answers_exactly`, `changes_only_the_name`).
#![tactic(auto)]

mod call_plan;
mod dir_store;
mod gate;
pub mod laws;
mod mem_sink;
mod mem_store;
mod out_sink;
mod sink;
mod store;

pub use dir_store::DirStore;
pub use eq_base::{Bytes, Memory};
pub use gate::{Gate, NoGate};
pub use mem_sink::MemSink;
pub use mem_store::MemStore;
pub use out_sink::OutSink;
pub use sink::{Sink, SinkErr};
pub use store::{Got, Store, StoreErr};
