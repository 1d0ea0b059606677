ghost use Rattle.std.specs.Prelude.{◌≡◌, ◌≤◌};
ghost use Rattle.st_linux.specs.Flags.{flag_if_set, native_flags};

use st_calls::{O_ACCMODE, O_APPEND, O_CREAT, O_EXCL, O_TRUNC, has_flag};

/// Linux's `O_CREAT`.
pub const LINUX_CREAT: u64 = 0x40;
/// Linux's `O_EXCL`.
pub const LINUX_EXCL: u64 = 0x80;
/// Linux's `O_TRUNC`.
pub const LINUX_TRUNC: u64 = 0x200;
/// Linux's `O_APPEND`.
pub const LINUX_APPEND: u64 = 0x400;

// A native flag, if its flag of Linux is among these.
fn flag_if_set(flags: u64, linux: u64, native: u64) -> u64
    ensures is { result ≡ flag_if_set flags linux native }
    ensures most { result ≤ native }
{
    if has_flag(flags, linux) { native } else { 0 }
}

/// The native flags of `open` that stand for these flags of Linux. The requested access is the same. Bits that are no flag are dropped.
pub fn native_flags(flags: u64) -> u64
    ensures { result ≡ native_flags flags }
{
    flags % (O_ACCMODE + 1)
        + flag_if_set(flags, LINUX_CREAT, O_CREAT)
        + flag_if_set(flags, LINUX_EXCL, O_EXCL)
        + flag_if_set(flags, LINUX_TRUNC, O_TRUNC)
        + flag_if_set(flags, LINUX_APPEND, O_APPEND)
}
