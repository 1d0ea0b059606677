//! The flags of `open`, as in open(2). Other bits are ignored.

ghost use Rattle.std.specs.Prelude.{◌≡◌};
ghost use Rattle.st_calls.specs.Call.{has_flag};

/// Opens for reading only.
pub const O_RDONLY: u64 = 0;
/// Opens for writing only.
pub const O_WRONLY: u64 = 1;
/// Opens for reading and writing.
pub const O_RDWR: u64 = 2;
/// The mask of the bits for the requested access.
pub const O_ACCMODE: u64 = 3;
/// Each write goes to the end of the file.
pub const O_APPEND: u64 = 8;
/// A missing file is made.
pub const O_CREAT: u64 = 0x200;
/// The file is truncated to length 0.
pub const O_TRUNC: u64 = 0x400;
/// With `O_CREAT`: it is an error if the file exists.
pub const O_EXCL: u64 = 0x800;

/// Whether the flags have a bit in common with `flag`.
pub fn has_flag(flags: u64, flag: u64) -> bool
    ensures { result ≡ has_flag flags flag }
{
    flags & flag != 0
}
