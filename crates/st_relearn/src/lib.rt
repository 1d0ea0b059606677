//! Proves that what a session has learnt, once written, is read again as the same policies.
#![tactic(auto)]

pub mod law;
