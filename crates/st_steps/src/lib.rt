//! What the steps of threads and workers make of the parts of the machine: how a call that is made ends, and that the parts then stand for
//! the next state.
#![tactic(auto)]

pub mod own_call;

pub use own_call::{OwnCall, end_made, renew_others};
