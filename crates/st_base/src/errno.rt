ghost use Rattle.std.specs.Prelude.{◌≡◌, find};
ghost use Rattle.std.specs.Str.{bytes_eq};
ghost use Rattle.st_base.specs.Errno.{number_of_error, name_of_error, word_of_error, error_named};

/// An error of a system call, as in errno(2).
#[derive(Clone, Copy, Debug, PartialEq, Eq)]
pub enum Errno {
    EPERM,
    ENOENT,
    ESRCH,
    E2BIG,
    ENOEXEC,
    EBADF,
    EACCES,
    EFAULT,
    EEXIST,
    ENOTDIR,
    EISDIR,
    EINVAL,
    EMFILE,
    ENOSPC,
    EAGAIN,
    EADDRINUSE,
    ECONNREFUSED,
    ELOOP,
    ENAMETOOLONG,
    ENOTEMPTY,
    ENOSYS,
}

impl Errno {
    /// All errors, by increasing number.
    pub const ALL: [Errno; 21] = [
        Errno::EPERM,
        Errno::ENOENT,
        Errno::ESRCH,
        Errno::E2BIG,
        Errno::ENOEXEC,
        Errno::EBADF,
        Errno::EACCES,
        Errno::EFAULT,
        Errno::EEXIST,
        Errno::ENOTDIR,
        Errno::EISDIR,
        Errno::EINVAL,
        Errno::EMFILE,
        Errno::ENOSPC,
        Errno::EAGAIN,
        Errno::EADDRINUSE,
        Errno::ECONNREFUSED,
        Errno::ELOOP,
        Errno::ENAMETOOLONG,
        Errno::ENOTEMPTY,
        Errno::ENOSYS,
    ];

    /// The error's number in OpenBSD's errno(2).
    pub fn number(self) -> u32
        ensures { result ≡ number_of_error self }
    {
        match self {
            Errno::EPERM => 1,
            Errno::ENOENT => 2,
            Errno::ESRCH => 3,
            Errno::E2BIG => 7,
            Errno::ENOEXEC => 8,
            Errno::EBADF => 9,
            Errno::EACCES => 13,
            Errno::EFAULT => 14,
            Errno::EEXIST => 17,
            Errno::ENOTDIR => 20,
            Errno::EISDIR => 21,
            Errno::EINVAL => 22,
            Errno::EMFILE => 24,
            Errno::ENOSPC => 28,
            Errno::EAGAIN => 35,
            Errno::EADDRINUSE => 48,
            Errno::ECONNREFUSED => 61,
            Errno::ELOOP => 62,
            Errno::ENAMETOOLONG => 63,
            Errno::ENOTEMPTY => 66,
            Errno::ENOSYS => 78,
        }
    }

    /// The error's name in capital letters, as it is printed.
    pub fn name(self) -> &'static [u8]
        ensures { result.now ≡ name_of_error self }
    {
        match self {
            Errno::EPERM => b"EPERM",
            Errno::ENOENT => b"ENOENT",
            Errno::ESRCH => b"ESRCH",
            Errno::E2BIG => b"E2BIG",
            Errno::ENOEXEC => b"ENOEXEC",
            Errno::EBADF => b"EBADF",
            Errno::EACCES => b"EACCES",
            Errno::EFAULT => b"EFAULT",
            Errno::EEXIST => b"EEXIST",
            Errno::ENOTDIR => b"ENOTDIR",
            Errno::EISDIR => b"EISDIR",
            Errno::EINVAL => b"EINVAL",
            Errno::EMFILE => b"EMFILE",
            Errno::ENOSPC => b"ENOSPC",
            Errno::EAGAIN => b"EAGAIN",
            Errno::EADDRINUSE => b"EADDRINUSE",
            Errno::ECONNREFUSED => b"ECONNREFUSED",
            Errno::ELOOP => b"ELOOP",
            Errno::ENAMETOOLONG => b"ENAMETOOLONG",
            Errno::ENOTEMPTY => b"ENOTEMPTY",
            Errno::ENOSYS => b"ENOSYS",
        }
    }

    // The error's name in small letters, as a policy writes it.
    fn word(self) -> &'static [u8]
        ensures { result.now ≡ word_of_error self }
    {
        match self {
            Errno::EPERM => b"eperm",
            Errno::ENOENT => b"enoent",
            Errno::ESRCH => b"esrch",
            Errno::E2BIG => b"e2big",
            Errno::ENOEXEC => b"enoexec",
            Errno::EBADF => b"ebadf",
            Errno::EACCES => b"eacces",
            Errno::EFAULT => b"efault",
            Errno::EEXIST => b"eexist",
            Errno::ENOTDIR => b"enotdir",
            Errno::EISDIR => b"eisdir",
            Errno::EINVAL => b"einval",
            Errno::EMFILE => b"emfile",
            Errno::ENOSPC => b"enospc",
            Errno::EAGAIN => b"eagain",
            Errno::EADDRINUSE => b"eaddrinuse",
            Errno::ECONNREFUSED => b"econnrefused",
            Errno::ELOOP => b"eloop",
            Errno::ENAMETOOLONG => b"enametoolong",
            Errno::ENOTEMPTY => b"enotempty",
            Errno::ENOSYS => b"enosys",
        }
    }

    /// The error whose name in small letters is this word of a policy.
    pub fn of_word(word: &[u8]) -> Option<Errno>
        ensures { result ≡ error_named word.now }
    {
        first_named(&Errno::ALL, word)
    }
}

// The first of these errors whose name in small letters is this word.
fn first_named(errors: &[Errno], word: &[u8]) -> Option<Errno>
    ensures { result ≡ find (λ errno. bytes_eq (word_of_error errno) word.now) errors.now }
{
    errors.iter().copied().find(|errno| errno.word() == word)
}
