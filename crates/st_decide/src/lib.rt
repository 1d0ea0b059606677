//! Decides what each thread does next, without changing the machine: also how a call is entered, which calls are questions, and which
//! thread holds which call.
#![tactic(auto)]

mod asking;
mod deciding;
mod enabled;
mod entering;
mod holding;
mod making;
mod reloading;
pub mod step;
pub mod view;

pub use step::{DeniedCall, FailedCall, NewCall, NewWay, ReadyCall, Step, StoredWord};
pub use view::View;
