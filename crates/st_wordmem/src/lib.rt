//! The memory of a process whose threads store and load words without a lock.
#![tactic(auto)]

pub mod memory;
pub mod seat_state;

pub use memory::{Root, WordMem, WordSeat};
