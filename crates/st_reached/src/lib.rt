//! Invariants of every state that a run of the machine reaches, beyond the lawfulness of each entry.
#![tactic(auto)]

pub mod law;
