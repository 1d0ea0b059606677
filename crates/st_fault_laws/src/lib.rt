//! Proves that the grammar alone determines the first fault of a policy's text.
#![tactic(auto)]

pub mod law;

pub use law::{
    a_cut_text_keeps_its_tokens, the_first_fault_is_the_grammars,
    the_first_fault_of_a_filter_is_a_policys, what_is_a_filter_is_read,
};
