//! The statements of a script's rows.

ghost use Rattle.std.specs.Prelude.{◌≡◌, ◌^◌, ◌<◌, length, IfOk};

use st_base::Text;
use st_calls::SysCall;
use st_trace::{GroupRow, NewNode, UserRow};
use std::alloc::{AllocError, Global};
use std::marker::Model;

/// A process of a script, whose binary and directory are absolute names.
#[derive(Debug, Drop)]
pub struct ScriptProcess {
    /// The name by which threads refer to it.
    pub name: Text,
    /// Whether policies apply to it.
    pub traced: bool,
    pub binary: Text,
    pub uid: u32,
    pub gid: u32,
    /// The directory that its relative names begin at.
    pub cwd: Text,
}

/// The text of a filter, which has fewer than 2^32 bytes.
#[derive(Debug, Drop)]
pub struct FilterText {
    text: Text,
}

impl Model for FilterText {
    ghost use Rattle.std.specs.Prelude.{List, ℕ, ◌^◌, ◌<◌, length};

    ghost Value = { List ℕ };

    ghost view = { λ f. f.text };

    ghost invariant = { λ f. length f.text < 2 ^ 32 };
}

impl FilterText {
    /// The text of these bytes.
    pub fn of(alloc: Global, bytes: &[u8]) -> Result<Self, AllocError>
        requires { length bytes.now < 2 ^ 32 }
        ensures { IfOk result (λ text. text ≡ bytes.now) }
    {
        Ok(FilterText {
            text: Text::of(alloc, bytes)?,
        })
    }

    /// The bytes, in order.
    pub fn bytes(&self) -> &[u8]
        ensures is { result.now ≡ self.now }
        ensures few { length result.now < 2 ^ 32 }
    {
        self.text.bytes()
    }
}

/// What a row says.
#[derive(Debug, Drop)]
pub enum Statement {
    User(UserRow),
    Group(GroupRow),
    /// An object of the file tree, at an absolute name other than the root's.
    Object { path: Text, new: NewNode },
    Process(ScriptProcess),
    /// A thread, whose body is the rows after it, and the process that it starts in. Without a process it waits for a fork.
    Thread { name: Text, process: Option<Text> },
    /// A reply, with the quoted text of its binary and the text of its filter as they were written.
    Reply { binary: Text, filter: FilterText },
    /// A policy for a binary, whose quoted text is as it was written. Its filters are the rows after it.
    Policy { name: Text, binary: Text },
    /// A filter of a policy, as it was written.
    Filter(FilterText),
    /// A store of a word at this word index.
    Store(u32, u64),
    /// The stores of a text and a zero byte, from this word index on.
    Put(u32, Text),
    Call(SysCall, [u64; 6]),
    /// The call fork, whose child is the thread of this name.
    Fork(Text),
    /// A reload of the policy of this name.
    Reload(Text),
    /// The end of the body of a thread or of a policy.
    End,
}

/// The body that the rows after a row stand in.
#[derive(Clone, Copy, Debug, PartialEq, Eq, Drop)]
pub enum OpenBody {
    /// None: the rows are those of the script.
    NoBody,
    /// That of a thread, whose rows are instructions.
    ThreadBody,
    /// That of a policy, whose rows are filters.
    PolicyBody,
}

/// A line of a script.
#[derive(Debug, Drop)]
pub struct ScriptLine {
    /// Counted from 1.
    pub number: u32,
    /// What it says; nothing if it isn't in the grammar.
    pub says: Option<Statement>,
}
