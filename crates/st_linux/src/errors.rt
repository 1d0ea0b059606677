ghost use Rattle.std.specs.Prelude.{◌≡◌};
ghost use Rattle.st_linux.specs.Errors.{linux_number};

use st_base::Errno;

/// The error's number in Linux's errno(3).
pub fn linux_number(errno: Errno) -> u32
    ensures { result ≡ linux_number errno }
{
    match errno {
        Errno::EAGAIN => 11,
        Errno::ENAMETOOLONG => 36,
        Errno::ENOSYS => 38,
        Errno::ENOTEMPTY => 39,
        Errno::ELOOP => 40,
        Errno::EADDRINUSE => 98,
        Errno::ECONNREFUSED => 111,
        _ => errno.number(),
    }
}
