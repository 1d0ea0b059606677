ghost use Rattle.std.specs.Prelude.{◌≡◌, [], None};
ghost use Rattle.st_trace.specs.declared.entry.CallResult.TheVariants.{Failed};
ghost use Rattle.st_trace.specs.declared.entry.Entry.TheVariants.{Denied, Used};

use st_base::{Drawing, Errno, Ids, Pid, Seq, Sequence, Tid};
use st_calls::{FastAnswer, SysCall};
use st_threads::CallWay;
use st_trace::{CallArgs, CallResult, Cause, Change, Entry};
use std::alloc::Global;

/// What a thread does next.
#[derive(Debug, Drop)]
pub enum Step {
    /// Nothing: it hasn't started, has ended, or waits for its held call.
    Wait,
    /// It ends.
    End,
    /// It stores a word.
    Store(StoredWord),
    /// It enters a call.
    Enter(NewCall),
    /// Its call is made.
    Make(ReadyCall),
    /// Its call fails before it is made.
    Fail(FailedCall),
    /// Its call is denied.
    Deny(DeniedCall),
    /// It puts the script's policy with this number in force.
    Reload(u32),
    /// Its reload of the script's policy with this number is refused.
    RefuseReload(u32),
}

/// A word that a thread stores, with an index in its process's memory.
#[derive(Clone, Copy, Debug)]
pub struct StoredWord {
    pub place: u32,
    pub word: u64,
}

/// A call that a thread of this process enters.
#[derive(Clone, Copy, Debug)]
pub struct NewCall {
    pub pid: Pid,
    pub call: SysCall,
    pub regs: [u64; 6],
}

/// How a new call goes on, and the kernel's own answer to it, which a barred call keeps.
#[derive(Clone, Copy, Debug)]
pub struct NewWay {
    pub way: CallWay,
    pub answer: FastAnswer,
}

/// How a call is made: by a thread of this process, with these arguments and under these ids. A held call has the drawing of its message.
#[derive(Debug, Drop)]
pub struct ReadyCall {
    pub pid: Pid,
    pub drawing: Option<Drawing>,
    pub call: SysCall,
    pub regs: [u64; 6],
    pub args: CallArgs,
    pub ids: Ids,
}

impl ReadyCall {
    /// The entry of a thread that makes this call, with the number of its message, this result and these changes.
    pub fn entry(
        self,
        tid: Tid,
        seq: Option<Seq>,
        outcome: CallResult,
        changes: Sequence<Change>,
    ) -> Entry
        ensures { result ≡ Used tid seq self.call self.regs self.args self.ids outcome changes }
    {
        let ReadyCall {
            pid: _,
            drawing: _,
            call,
            regs,
            args,
            ids,
        } = self;
        Entry::Used {
            tid,
            seq,
            call,
            regs,
            args,
            ids,
            result: outcome,
            changes,
        }
    }
}

/// A call that isn't held and fails before it is made, under the process's own ids.
#[derive(Debug, Drop)]
pub struct FailedCall {
    pub call: SysCall,
    pub regs: [u64; 6],
    pub ids: Ids,
    pub errno: Errno,
}

impl FailedCall {
    /// The entry of a thread whose call fails. It has neither arguments nor changes.
    pub fn entry(self, alloc: Global, tid: Tid) -> Entry
        ensures { result ≡ Used tid None self.call self.regs [] self.ids (Failed self.errno) [] }
    {
        let FailedCall {
            call,
            regs,
            ids,
            errno,
        } = self;
        Entry::Used {
            tid,
            seq: None,
            call,
            regs,
            args: CallArgs::own(Sequence::new(alloc)),
            ids,
            result: CallResult::Failed(errno),
            changes: Sequence::new(alloc),
        }
    }
}

/// A call that is denied. A held call has the drawing of its message.
#[derive(Debug, Drop)]
pub struct DeniedCall {
    pub drawing: Option<Drawing>,
    pub errno: Errno,
    pub cause: Cause,
}

impl DeniedCall {
    /// The entry of a thread whose call is denied, with the number of its message.
    pub fn entry(self, tid: Tid, seq: Option<Seq>) -> Entry
        ensures { result ≡ Denied tid seq self.errno self.cause }
    {
        let DeniedCall {
            drawing: _,
            errno,
            cause,
        } = self;
        Entry::Denied {
            tid,
            seq,
            errno,
            cause,
        }
    }
}
