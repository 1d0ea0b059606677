//! Limits of the modelled system. The limit on a process's descriptors is `DESCRIPTORS` of `open_file`.

/// The number of bytes of a process's memory.
pub const SPACE_BYTES: u64 = 65_536;

/// The number of words of eight bytes in a process's memory.
pub const SPACE_WORDS: u32 = 8_192;

/// The most objects that may ever be made in the file tree, the root included.
pub const MOST_OBJECTS: usize = 4_096;

/// The greatest length of a file, in bytes.
pub const LONGEST_FILE: u64 = 65_536;

/// The most links that the resolution of a name follows.
pub const MOST_LINKS: u32 = 32;

/// The greatest length of an argument that is a plain text, in bytes.
pub const LONGEST_TEXT: usize = 255;

/// The most texts of an argument vector.
pub const ARGV_PARTS: usize = 16;

/// The most bytes of an argument vector's texts together.
pub const ARGV_BYTES: usize = 1_024;
