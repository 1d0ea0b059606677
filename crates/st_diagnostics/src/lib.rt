//! Writes the messages on standard error.
#![tactic(auto)]

pub mod message;
mod report;
mod unread;

pub use report::line_of;
pub use st_policy_diagnostics::policy_message;
pub use st_policy_diagnostics::shown::OUT_OF_MEMORY;
pub use unread::unread_message;
