//! Steps of a kernel whose entries are given to a recorder.
#![tactic(auto)]

pub mod last_entry;
pub mod steps;

pub use last_entry::LastEntry;
