//! Programs of Linux on the native kernel: their flags, the numbers of their errors, and a start that is made native.
#![tactic(auto)]

pub mod errors;
pub mod flags;
pub mod law;
pub mod native;

pub use errors::linux_number;
pub use flags::native_flags;
pub use native::to_native;
