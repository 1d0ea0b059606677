//! The texts of a run's trace and schedule, and the interface of what records a run entry by entry.
#![tactic(auto)]

mod change;
mod entry;
mod fields;
pub mod recorder;
pub mod schedule;
pub mod trace;

pub use entry::{append_entry, append_result};
pub use recorder::{NoRecorder, Recorder};
pub use schedule::{Repeat, a_printed_schedule_is_its_choices, note_choice, repeats_text};
pub use trace::{TraceRecorder, a_trace_is_printed_in_order};
