//! The entries that printed traces are of: those of lawful traces are, and of each entry it can be seen.
#![tactic(auto)]

pub mod law;
pub mod written;

pub use law::lawful_traces_can_be_written;
pub use written::is_written;
