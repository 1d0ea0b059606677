//! Writes the messages about refused schedules: who can't move at a turn, and why, by playing the schedule up to it.
#![tactic(auto)]

pub mod blocked;
pub mod names;
pub mod schedule_fault;
pub mod sources;
pub mod threads;
mod turn;

pub use schedule_fault::schedule_message;
