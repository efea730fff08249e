//! What goes in, and what has to come out, by topic.

pub mod gate_parts;
pub mod groups;
pub mod pairs;
pub mod partitions;
pub mod register_parts;
pub mod wanted;
