//! Whether two entries of a trace are the same, compared field by field. It takes no memory.
#![tactic(auto)]

mod changes;
pub mod entries;
mod texts;

pub use entries::is_same_entry;
