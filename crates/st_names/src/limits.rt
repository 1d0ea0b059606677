//! Limits on the length of names.

/// The greatest length of a name, in bytes.
pub const LONGEST_NAME: usize = 1_024;

/// The greatest length of a component, in bytes.
pub const LONGEST_PART: usize = 255;
