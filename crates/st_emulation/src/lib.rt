//! The emulations, native and Linux, and the words by which policies and audits name them.
#![tactic(auto)]

pub mod emulation;

pub use emulation::{Emulation, neither_prefix_begins_with_the_other, the_words_of_emulations};
