//! The reader of printed traces: each line is read as the entry that is printed so, and as no other.
#![tactic(auto)]

mod changes;
mod entries;
pub mod law;
pub mod place;
pub mod reader;
pub mod trace;

pub use law::{
    lawful_traces_are_read_again, no_two_entries_have_one_line, printed_traces_are_read_again,
};
pub use place::fault_place;
pub use reader::TraceReader;
pub use trace::{ReadTrace, read_trace};
