//! Reads schedules, which say which choices a run makes.
#![tactic(auto)]

pub mod schedule;

pub use schedule::{read_schedule, schedule_line};
