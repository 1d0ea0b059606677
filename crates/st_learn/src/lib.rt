//! Keeps the session of a run, the filters that are learnt or replied: it finds the filter that decides on a call, and keeps the kernel's own
//! answers by the filters in force.
#![tactic(auto)]

mod added_filter;
mod answering;
pub mod answers;
mod kept_filter;
pub mod law;
mod learnt;
pub mod operator;
pub mod session;

pub use added_filter::AddedFilter;
pub use answers::Answers;
pub use kept_filter::KeptFilter;
pub use learnt::learnt_filter;
pub use operator::Operator;
pub use session::Session;
