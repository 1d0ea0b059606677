//! The calls that a script may make, by what they are about.

use st_base::Text;
use st_calls::SysCall;
use st_lex::Token;
use std::alloc::AllocError;

#[derive(Clone, Copy, Debug, PartialEq, Eq)]
enum Class {
    Descriptors,
    Names,
    Processes,
    Ids,
    Sockets,
}

const CLASSES: [(Class, &[u8]); 5] = [
    (Class::Descriptors, b"a call: on descriptors"),
    (Class::Names, b"; on names"),
    (Class::Processes, b"; on processes"),
    (Class::Ids, b"; on ids"),
    (Class::Sockets, b"; on sockets"),
];

fn class_of(call: SysCall) -> Class {
    match call {
        SysCall::Open | SysCall::Close | SysCall::Read | SysCall::Write => Class::Descriptors,
        SysCall::Lseek | SysCall::Dup => Class::Descriptors,
        SysCall::Stat | SysCall::Lstat | SysCall::Access | SysCall::Readlink => Class::Names,
        SysCall::Unlink | SysCall::Link | SysCall::Symlink | SysCall::Rename => Class::Names,
        SysCall::Mkdir | SysCall::Rmdir | SysCall::Chdir | SysCall::Chmod => Class::Names,
        SysCall::Chown | SysCall::Truncate => Class::Names,
        SysCall::Fork | SysCall::Execve | SysCall::Exit | SysCall::Kill => Class::Processes,
        SysCall::GetPid => Class::Processes,
        SysCall::GetUid | SysCall::GetEuid | SysCall::SetUid | SysCall::SetEuid => Class::Ids,
        SysCall::SetGid | SysCall::SetEgid => Class::Ids,
        SysCall::Socket | SysCall::Bind | SysCall::Connect => Class::Sockets,
    }
}

// Appends the calls of a class. Fork has a row of its own.
fn append_calls_of(line: &mut Text, class: Class) -> Result<(), AllocError> {
    let mut between = b" ".as_slice();
    for call in SysCall::ALL {
        if class_of(call) == class && call != SysCall::Fork {
            line.append(between)?;
            line.append(call.word())?;
            between = b", ";
        }
    }
    Ok(())
}

fn append_calls(line: &mut Text) -> Result<(), AllocError> {
    for (class, front) in CLASSES {
        line.append(front)?;
        append_calls_of(line, class)?;
    }
    Ok(())
}

/// Appends what was expected in the place of this token, where a call is named.
pub fn append_expected_call(
    line: &mut Text,
    text: &[u8],
    token: Option<&Token>,
) -> Result<(), AllocError> {
    match token {
        Some(token) if token.is_keyword(text, b"fork") => {
            line.append(b"a call other than fork, which is a row of its own: 'fork THREAD'")
        }
        _ => append_calls(line),
    }
}
