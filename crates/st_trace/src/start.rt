use st_base::{Pid, Sequence, Text, Tid};
use st_calls::SysCall;
use st_model::NewNode;
use st_names::AbsName;

/// The start of a run: the rows of a script, in order.
#[derive(Debug, Drop)]
pub struct Start {
    pub users: Sequence<UserRow>,
    pub groups: Sequence<GroupRow>,
    /// The objects of the file tree other than the root. An object's number is the position of its row, counted from 2.
    pub tree: Sequence<TreeRow>,
    pub processes: Sequence<ProcessRow>,
    pub threads: Sequence<ThreadRow>,
}

/// A user that policies may name.
#[derive(Debug, Drop)]
pub struct UserRow {
    pub name: Text,
    pub uid: u32,
    pub gid: u32,
    pub home: Text,
}

/// A group that policies may name.
#[derive(Debug, Drop)]
pub struct GroupRow {
    pub name: Text,
    pub gid: u32,
}

/// A directory, file or link that exists at the start.
#[derive(Debug, Drop)]
pub struct TreeRow {
    pub name: AbsName,
    pub new: NewNode,
}

/// A process that exists at the start. Its number is the position of its row, counted from 1.
#[derive(Debug, Drop)]
pub struct ProcessRow {
    /// Whether policies apply to it.
    pub traced: bool,
    /// The binary's absolute name, by which its policy is found.
    pub binary: Text,
    pub uid: u32,
    pub gid: u32,
    /// The working directory, where its relative names begin.
    pub cwd: AbsName,
}

/// A thread. Its number is the position of its row, counted from 1.
#[derive(Debug, Drop)]
pub struct ThreadRow {
    /// The process in which it starts, or `None` if a fork has to start it.
    pub process: Option<Pid>,
    pub body: Sequence<Instr>,
}

/// One instruction of a thread's body.
#[derive(Clone, Copy, Debug, PartialEq, Eq)]
pub enum Instr {
    /// A store of a word at a word index of the process's memory.
    Store(u32, u64),
    /// A system call with its six registers.
    Call(SysCall, [u64; 6]),
    /// The call fork, whose child gets this thread.
    Fork(Tid),
    /// A reload: the policy of the script with this number, counted from 1, replaces that of its binary.
    Reload(u32),
}
