//! Proves that a schedule that is printed is read again as exactly its choices.
#![tactic(auto)]

pub mod law;
