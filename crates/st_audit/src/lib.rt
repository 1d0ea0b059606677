//! The audit of a run: a line for each call that a traced process made or was denied; and the policies after the run, with the
//! filters that it added.
#![tactic(auto)]

mod answer;
mod audit;
mod concern;
mod decided;
mod entered;
mod how;
mod law;
mod learnt;
mod ledger;
mod line;
mod marks;
mod policies;
mod process;
mod summary;

pub use audit::{AuditRecorder, longer_runs_extend_the_audit};
pub use law::{a_summary_counts_no_numbers, numbers_print_as_their_drawings};
pub use learnt::print_learnt;
pub use policies::policies_text;
pub use summary::{Summary, SummaryRecorder};
