//! The text of a design's file, read from a store.
//!
//! - `stop`: why there is none (`Stop`): a refusal, a fault of the store, or want of memory.
//! - `text`: the text of a file, of at most 67,108,864 bytes (`HasText`, `IsUnread`).
#![tactic(auto)]

mod stop;
mod text;

pub use stop::Stop;
pub use text::{MOST_BYTES, read_text};
