//! The steps of threads, the machine that makes them, and the kernel.

use crate::is_shareable;
use st_decide::{ReadyCall, Step, View};
use st_kernel::{AnswerFault, Kernel, PlayFault, StepFault, Work};
use st_machine::Machine;
use std::sync::Mutex;

/// Steps, and how they fail.
pub fn steps_are_shareable() {
    is_shareable::<Step>();
    is_shareable::<ReadyCall>();
    is_shareable::<StepFault>();
    is_shareable::<PlayFault>();
}

/// What a worker did, and why its answer wasn't taken.
pub fn works_are_shareable() {
    is_shareable::<Work>();
    is_shareable::<AnswerFault<'_>>();
}

/// The machine, the kernel, and a kernel that several threads take in turns.
pub fn kernels_are_shareable() {
    is_shareable::<View<'_, '_>>();
    is_shareable::<Machine<'_>>();
    is_shareable::<Kernel<'_>>();
    is_shareable::<Mutex<Kernel<'_>>>();
}
