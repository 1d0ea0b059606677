//! Matching of texts against patterns of the policy language.
#![tactic(auto)]

mod class;
mod item;
mod pattern;

pub use pattern::glob;
