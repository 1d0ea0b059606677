//! Replays a trace entry by entry: each entry is compared with the one that the machine adds for the choice that the entry tells.
#![tactic(auto)]

mod choice;
pub mod entries;
pub mod law;
pub mod mover;
pub mod whole;

pub use entries::{Mismatch, Replay, ReplayFault};
pub use mover::{Mover, mover_of};
pub use whole::{Replayed, replay_trace};
