//! The policy and the script of a generated run of any number of rounds.
#![tactic(auto)]

pub mod law;
mod policy;
mod script;

pub use policy::generated_policy;
pub use script::gen_script;
