//! Runs the machine choice by choice: it plays the lines of a schedule or makes the first enabled choice, keeps the choices that were made,
//! and gives each entry to a recorder.
#![tactic(auto)]

mod drawn;
pub mod kernel;
pub mod play;
pub mod runners;

pub use kernel::{Kernel, StepFault};
pub use play::PlayFault;
pub use runners::{AnswerFault, Work};
