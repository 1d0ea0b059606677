//! The limits of a script.

use st_model::MOST_OBJECTS;

/// The most directories, files and links: with the root, as many as there may be objects.
pub const MOST_TREE_ROWS: usize = MOST_OBJECTS - 1;

/// The most instructions, with the stores of a text counted one by one.
pub const MOST_INSTRUCTIONS: u64 = 4_096;

/// The most processes.
pub const MOST_PROCESSES: usize = 64;

/// The most threads.
pub const MOST_THREADS: usize = 64;
