use crate::call_args::CallArgs;
use st_base::{Errno, Ids, Obj, Pid, Seq, Sequence, Shared, Space, Text, Tid, Worker};
use st_calls::{Snapshot, SysCall, Verdict};
use st_model::NewKind;
use st_names::{AbsName, SeenText};

/// The choice of who moves next: a thread, a worker or the operator.
#[derive(Clone, Copy, Debug, PartialEq, Eq)]
pub enum Choice {
    Thread(Tid),
    Worker(Worker),
    /// The operator, who answers questions.
    Operator,
}

/// One step of a run. A choice that is enabled adds exactly one entry.
#[derive(Debug, Drop)]
pub enum Entry {
    /// A thread stores a word at a word index of its process's memory.
    Stored {
        tid: Tid,
        place: u32,
        word: u64,
    },
    /// A thread enters a call with its six registers.
    Entered {
        tid: Tid,
        call: SysCall,
        regs: [u64; 6],
        way: Way,
    },
    /// A worker claims the message with this number.
    Claimed {
        worker: Worker,
        seq: Seq,
    },
    /// A word of one of the message's arguments is copied.
    Copied {
        seq: Seq,
        part: u32,
        place: u32,
        word: u64,
    },
    /// A name is looked up, for one of the message's arguments that is a name.
    Looked {
        seq: Seq,
        part: u32,
        name: AbsName,
        seen: SeenText,
    },
    /// Copying or looking up was blocked by a fault.
    Faulted {
        seq: Seq,
        errno: Errno,
    },
    /// A worker answers with a verdict on its snapshot.
    Answered {
        worker: Worker,
        snapshot: Shared<Snapshot>,
        verdict: Verdict,
        /// Whether the message was live.
        applied: bool,
    },
    /// The question with this number is answered by the script's reply with this number, counted from 1. The reply is added as a filter.
    Replied {
        seq: Seq,
        reply: u32,
        /// The filter's number among those of its policy and rule.
        number: u32,
    },
    /// The question with this number is answered by the filter learnt from its snapshot. The filter is added.
    Learned {
        seq: Seq,
        /// The filter's number among those of its policy and rule.
        number: u32,
    },
    /// The entered call is made, under these ids.
    Used {
        tid: Tid,
        /// The message's number, if the call was held.
        seq: Option<Seq>,
        call: SysCall,
        regs: [u64; 6],
        args: CallArgs,
        ids: Ids,
        result: CallResult,
        changes: Sequence<Change>,
    },
    /// The entered call is denied.
    Denied {
        tid: Tid,
        /// The message's number, if the call was held.
        seq: Option<Seq>,
        errno: Errno,
        cause: Cause,
    },
    /// A thread ends.
    Ended {
        tid: Tid,
    },
    /// A thread reloads the policy of a binary: the script's policy with this number applies to it from now on.
    Reloaded {
        tid: Tid,
        policy: u32,
        /// Whether it was done: only an untraced process with effective user 0 may.
        done: bool,
        /// The messages of held calls that are judged again.
        changes: Sequence<Change>,
    },
}

/// How an entered call continues.
#[derive(Clone, Copy, Debug, PartialEq, Eq)]
pub enum Way {
    /// The first filter of its rule permits it plainly, so that it is made at once.
    Fast,
    /// The filter with this number refuses it plainly.
    Barred(u32),
    /// It is held: the filters are tried on the message with this number.
    Held(Seq),
    /// No policy applies to its process.
    Untraced,
}

/// Why a call was denied.
#[derive(Debug, Drop)]
pub enum Cause {
    /// The filter with this number denies it. Filters are counted from 1 among those of its policy and rule.
    Filter(u32),
    /// No filter decides.
    NoFilter,
    /// Copying or looking up was blocked by a fault.
    Fault,
    /// This name is a link now. It is a name of the call that is followed to its end, or a proper prefix of a name of the call.
    Link(AbsName),
}

/// The result that a call returns to its thread.
#[derive(Clone, Copy, Debug, PartialEq, Eq)]
pub enum CallResult {
    Value(u64),
    Failed(Errno),
}

/// A change that a call makes, other than to its process's descriptors.
#[derive(Debug, Drop)]
pub enum Change {
    /// A new object has this name.
    Made {
        name: AbsName,
        obj: Obj,
        /// The kind of the new object. A new file is empty.
        kind: NewKind,
        uid: u32,
        gid: u32,
        mode: u32,
    },
    /// The object has one more name.
    Linked {
        name: AbsName,
        obj: Obj,
    },
    /// The name is removed.
    Removed(AbsName),
    /// In each name that begins with the old name, the new name replaces this prefix.
    Renamed {
        old: AbsName,
        new: AbsName,
    },
    /// The file has these bytes from this offset on.
    Written {
        obj: Obj,
        at: u64,
        bytes: Text,
    },
    /// The file is truncated or extended to this length.
    Cut {
        obj: Obj,
        len: u64,
    },
    Moded {
        obj: Obj,
        mode: u32,
    },
    Owned {
        obj: Obj,
        uid: u32,
        gid: u32,
    },
    /// The memory has these bytes from this offset on.
    Put {
        space: Space,
        at: u64,
        bytes: Text,
    },
    /// The process has a child with this number, with a copy of its memory and this thread.
    Forked {
        pid: Pid,
        space: Space,
        tid: Tid,
    },
    /// The process runs this binary in a new memory. Of its threads only the caller continues.
    Execed {
        binary: Text,
        space: Space,
    },
    /// The process has these ids.
    SetIds(Ids),
    /// The process has this working directory.
    Cwd(AbsName),
    /// The threads of this process are dying: each of them can only end.
    Dying(Pid),
    /// The message with the old number is waiting again, under the new number.
    Renewed {
        old: Seq,
        new: Seq,
    },
    /// The policy of this binary applies to the process.
    Policy(Text),
}
