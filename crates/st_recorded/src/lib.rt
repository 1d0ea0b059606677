//! A run whose entries are recorded, and whose tickets are posted, as they are made.
#![tactic(auto)]

pub mod news;
pub mod recorded;
pub mod run;
mod tickets;

pub use news::News;
pub use recorded::{RecordedRun, RunName};
pub use run::{Run, TicketUse};
pub use tickets::tickets_for;
