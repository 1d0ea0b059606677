//! Proves that the canonical text of policies is read again as the same policies.
#![tactic(auto)]

pub mod law;
