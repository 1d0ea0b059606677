//! Defines the language of policies: its words and symbols, its grammar, and the faults of texts. Following the grammar place by place is
//! proved to agree with its definitions.
#![tactic(auto)]

pub mod env;
pub mod fault;
pub mod law;
pub mod place;
pub mod symbol;
pub mod words;

pub use env::{Env, NamedId};
pub use fault::{PolicyFault, PolicyRefusal, Unsupported};
pub use law::{reading_is_one, what_is_read_is_a_filter};
pub use place::Place;
pub use symbol::Symbol;
