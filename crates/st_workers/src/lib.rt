//! Serves the messages under way with workers: a worker claims a message, copies its words, looks at its names, and then answers it or
//! marks it as faulted.
#![tactic(auto)]

mod filling;
pub mod laws;
pub mod task;
pub mod turn;
pub mod workers;

pub use laws::what_is_kept;
pub use task::Task;
pub use turn::Turn;
pub use workers::Workers;
