ghost use Rattle.std.specs.Prelude.{◌≡◌, find};
ghost use Rattle.std.specs.Str.{bytes_eq};
ghost use Rattle.st_calls.specs.Call.{name_of_call, call_named, index_of_call, follows, sets_ids};

use crate::flags::{O_CREAT, O_EXCL, has_flag};
use st_base::is_same_text;

/// A system call of the model, as in the system-call pages of OpenBSD's manual, section 2.
#[derive(Clone, Copy, Debug, PartialEq, Eq)]
pub enum SysCall {
    Open,
    Close,
    Read,
    Write,
    Lseek,
    Dup,
    Stat,
    Lstat,
    Access,
    Readlink,
    Unlink,
    Link,
    Symlink,
    Rename,
    Mkdir,
    Rmdir,
    Chdir,
    Chmod,
    Chown,
    Truncate,
    Fork,
    Execve,
    Exit,
    Kill,
    GetPid,
    GetUid,
    GetEuid,
    SetUid,
    SetEuid,
    SetGid,
    SetEgid,
    Socket,
    Bind,
    Connect,
}

impl SysCall {
    /// Every call of the model.
    pub const ALL: [SysCall; 34] = [
        SysCall::Open,
        SysCall::Close,
        SysCall::Read,
        SysCall::Write,
        SysCall::Lseek,
        SysCall::Dup,
        SysCall::Stat,
        SysCall::Lstat,
        SysCall::Access,
        SysCall::Readlink,
        SysCall::Unlink,
        SysCall::Link,
        SysCall::Symlink,
        SysCall::Rename,
        SysCall::Mkdir,
        SysCall::Rmdir,
        SysCall::Chdir,
        SysCall::Chmod,
        SysCall::Chown,
        SysCall::Truncate,
        SysCall::Fork,
        SysCall::Execve,
        SysCall::Exit,
        SysCall::Kill,
        SysCall::GetPid,
        SysCall::GetUid,
        SysCall::GetEuid,
        SysCall::SetUid,
        SysCall::SetEuid,
        SysCall::SetGid,
        SysCall::SetEgid,
        SysCall::Socket,
        SysCall::Bind,
        SysCall::Connect,
    ];

    /// The call's name, as a script writes it. A policy writes it after `native-`.
    pub fn word(self) -> &'static [u8]
        ensures { result.now ≡ name_of_call self }
    {
        match self {
            SysCall::Open => b"open",
            SysCall::Close => b"close",
            SysCall::Read => b"read",
            SysCall::Write => b"write",
            SysCall::Lseek => b"lseek",
            SysCall::Dup => b"dup",
            SysCall::Stat => b"stat",
            SysCall::Lstat => b"lstat",
            SysCall::Access => b"access",
            SysCall::Readlink => b"readlink",
            SysCall::Unlink => b"unlink",
            SysCall::Link => b"link",
            SysCall::Symlink => b"symlink",
            SysCall::Rename => b"rename",
            SysCall::Mkdir => b"mkdir",
            SysCall::Rmdir => b"rmdir",
            SysCall::Chdir => b"chdir",
            SysCall::Chmod => b"chmod",
            SysCall::Chown => b"chown",
            SysCall::Truncate => b"truncate",
            SysCall::Fork => b"fork",
            SysCall::Execve => b"execve",
            SysCall::Exit => b"exit",
            SysCall::Kill => b"kill",
            SysCall::GetPid => b"getpid",
            SysCall::GetUid => b"getuid",
            SysCall::GetEuid => b"geteuid",
            SysCall::SetUid => b"setuid",
            SysCall::SetEuid => b"seteuid",
            SysCall::SetGid => b"setgid",
            SysCall::SetEgid => b"setegid",
            SysCall::Socket => b"socket",
            SysCall::Bind => b"bind",
            SysCall::Connect => b"connect",
        }
    }

    /// The call whose name is this word.
    pub fn of_word(word: &[u8]) -> Option<SysCall>
        ensures { result ≡ call_named word.now }
    {
        first_named(&SysCall::ALL, word)
    }

    /// The call's index among all calls, from 0.
    pub fn index(self) -> usize
        ensures { result ≡ index_of_call self }
    {
        match self {
            SysCall::Open => 0,
            SysCall::Close => 1,
            SysCall::Read => 2,
            SysCall::Write => 3,
            SysCall::Lseek => 4,
            SysCall::Dup => 5,
            SysCall::Stat => 6,
            SysCall::Lstat => 7,
            SysCall::Access => 8,
            SysCall::Readlink => 9,
            SysCall::Unlink => 10,
            SysCall::Link => 11,
            SysCall::Symlink => 12,
            SysCall::Rename => 13,
            SysCall::Mkdir => 14,
            SysCall::Rmdir => 15,
            SysCall::Chdir => 16,
            SysCall::Chmod => 17,
            SysCall::Chown => 18,
            SysCall::Truncate => 19,
            SysCall::Fork => 20,
            SysCall::Execve => 21,
            SysCall::Exit => 22,
            SysCall::Kill => 23,
            SysCall::GetPid => 24,
            SysCall::GetUid => 25,
            SysCall::GetEuid => 26,
            SysCall::SetUid => 27,
            SysCall::SetEuid => 28,
            SysCall::SetGid => 29,
            SysCall::SetEgid => 30,
            SysCall::Socket => 31,
            SysCall::Bind => 32,
            SysCall::Connect => 33,
        }
    }

    /// Whether the call sets ids of its process.
    pub fn sets_ids(self) -> bool
        ensures { result ≡ sets_ids self }
    {
        matches!(
            self,
            SysCall::SetUid | SysCall::SetEuid | SysCall::SetGid | SysCall::SetEgid
        )
    }
}

/// Whether the call follows a link that is the last component of the name in the register with this number.
pub fn follows(call: SysCall, regs: &[u64; 6], register: u32) -> bool
    ensures { result ≡ follows call regs.now register }
{
    match call {
        SysCall::Open => !(has_flag(regs[1], O_CREAT) && has_flag(regs[1], O_EXCL)),
        SysCall::Link => register == 0,
        SysCall::Stat | SysCall::Access | SysCall::Chdir | SysCall::Chmod => true,
        SysCall::Chown | SysCall::Truncate | SysCall::Execve => true,
        _ => false,
    }
}

// The first of these calls that has this name.
fn first_named(calls: &[SysCall], word: &[u8]) -> Option<SysCall>
    ensures { result ≡ find (λ call. bytes_eq (name_of_call call) word.now) calls.now }
{
    calls
        .iter()
        .copied()
        .find(|call| is_same_text(call.word(), word))
}
