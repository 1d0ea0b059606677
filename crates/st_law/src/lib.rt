//! The modelled kernel as a state machine, its state as a function of a run's history, and the law that every run obeys.
#![tactic(auto)]

pub mod input;
pub mod law;
pub mod looking_back;
pub mod meaning;

pub use input::{Input, MOST_TIMES, Mode, Options, ReadSchedule, ScheduleLine, What};
