//! Filters, and what they decide: what a filter is, sets of policies, whether a filter holds of a call, what the first that holds
//! says, and the kernel's own answers. Crates above this one read and print the text of filters.
#![tactic(auto)]

mod answer;
mod compare;
pub mod filter;
pub mod judged;
mod judging;
pub mod policies;
mod rows;
pub mod set;

pub use answer::{fast_answer, first_answer};
pub use compare::compares;
pub use filter::{Action, Cmp, Expr, Filter, FilterName, Grant, Op, Policy, Predicate, Who};
pub use judged::Judged;
pub use judging::{decide, holds, ids_match, verdict_of};
pub use policies::Policies;
pub use rows::row_in;
pub use set::{BinaryPolicy, MOST_FILTERS, PolicySet, Reply};
