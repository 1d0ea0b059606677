//! Keeps how far each thread has come, and ends or renews the calls that threads hold.
#![tactic(auto)]

mod caller;
mod ending;
mod renewing;
mod thread;
mod way;
mod which;

pub use caller::CallingThread;
pub use ending::{end_by_all, end_call};
pub use renewing::{RenewalPlan, RenewedCall, plan_renewals, renew_all};
pub use thread::{PendingCall, Thread};
pub use way::CallWay;
pub use which::{RenewedCalls, WhichCalls};
