//! Runs of the modelled kernel as data: their start, and the entries of their traces.
#![tactic(auto)]

mod call_args;
pub mod entry;
pub mod start;

pub use call_args::CallArgs;
pub use entry::{CallResult, Cause, Change, Choice, Entry, Way};
pub use st_model::{NewKind, NewNode};
pub use start::{GroupRow, Instr, ProcessRow, Start, ThreadRow, TreeRow, UserRow};
