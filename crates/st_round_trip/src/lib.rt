//! Proves that what `step` writes of a run, as policies or as a schedule, is read again by `step` with the same meaning, and that `step` writes
//! what `run` has written.
#![tactic(auto)]

pub mod law;
