ghost use Rattle.std.specs.Prelude.{◌≡◌, ◌↔◌, true, IsTrue};
ghost use Rattle.st_same.specs.Families.{is_of_call, is_of_copy, is_of_end, is_of_instruction, is_of_operator, is_of_worker};

use crate::changes::are_same_changes;
use crate::texts::{are_same_arguments, is_same_name, is_same_seen};
use st_base::Sequence;
use st_calls::SysCall;
use st_trace::{CallArgs, Cause, Change, Entry};

// Whether two causes of a denial are the same.
fn is_same_cause(one: &Cause, other: &Cause) -> bool
    ensures { IsTrue result ↔ (one.now ≡ other.now) }
{
    match (one, other) {
        (Cause::Filter(number), Cause::Filter(other_number)) => number == other_number,
        (Cause::NoFilter, Cause::NoFilter) => true,
        (Cause::Fault, Cause::Fault) => true,
        (Cause::Link(name), Cause::Link(other_name)) => is_same_name(name, other_name),
        _ => false,
    }
}

// Whether two calls are the same, with the same registers.
fn is_same_call(one: SysCall, one_regs: &[u64; 6], other: SysCall, other_regs: &[u64; 6]) -> bool
    ensures { IsTrue result ↔ (one ≡ other) × (one_regs.now ≡ other_regs.now) }
{
    one == other && one_regs == other_regs
}

// Whether two calls were made with the same arguments, and made the same changes.
fn is_same_effect(
    one_args: &CallArgs,
    one_changes: &Sequence<Change>,
    other_args: &CallArgs,
    other_changes: &Sequence<Change>,
) -> bool
    ensures { IsTrue result ↔ (one_args.now ≡ other_args.now) × (one_changes.now ≡ other_changes.now) }
{
    are_same_arguments(one_args.as_slice(), other_args.as_slice())
        && are_same_changes(one_changes.as_slice(), other_changes.as_slice())
}

// Whether two entries of instructions are the same.
fn is_same_of_instruction(one: &Entry, other: &Entry) -> bool
    ensures { IsTrue result ↔ (is_of_instruction one.now ≡ true) × (one.now ≡ other.now) }
{
    match (one, other) {
        (
            Entry::Stored { tid, place, word },
            Entry::Stored {
                tid: other_tid,
                place: other_place,
                word: other_word,
            },
        ) => { tid == other_tid && place == other_place && word == other_word }
        (
            Entry::Entered {
                tid,
                call,
                regs,
                way,
            },
            Entry::Entered {
                tid: other_tid,
                call: other_call,
                regs: other_regs,
                way: other_way,
            },
        ) => {
            tid == other_tid
                && way == other_way
                && is_same_call(*call, regs, *other_call, other_regs)
        }
        (
            Entry::Reloaded {
                tid,
                policy,
                done,
                changes,
            },
            Entry::Reloaded {
                tid: other_tid,
                policy: other_policy,
                done: other_done,
                changes: other_changes,
            },
        ) => {
            tid == other_tid
                && policy == other_policy
                && done == other_done
                && are_same_changes(changes.as_slice(), other_changes.as_slice())
        }
        _ => false,
    }
}

// Whether two entries of calls that are made are the same.
fn is_same_of_call(one: &Entry, other: &Entry) -> bool
    ensures { IsTrue result ↔ (is_of_call one.now ≡ true) × (one.now ≡ other.now) }
{
    match (one, other) {
        (
            Entry::Used {
                tid,
                seq,
                call,
                regs,
                args,
                ids,
                result,
                changes,
            },
            Entry::Used {
                tid: other_tid,
                seq: other_seq,
                call: other_call,
                regs: other_regs,
                args: other_args,
                ids: other_ids,
                result: other_result,
                changes: other_changes,
            },
        ) => {
            tid == other_tid
                && seq == other_seq
                && ids == other_ids
                && result == other_result
                && is_same_call(*call, regs, *other_call, other_regs)
                && is_same_effect(args, changes, other_args, other_changes)
        }
        _ => false,
    }
}

// Whether two entries with which a call or a thread ends are the same.
fn is_same_of_end(one: &Entry, other: &Entry) -> bool
    ensures { IsTrue result ↔ (is_of_end one.now ≡ true) × (one.now ≡ other.now) }
{
    match (one, other) {
        (
            Entry::Denied {
                tid,
                seq,
                errno,
                cause,
            },
            Entry::Denied {
                tid: other_tid,
                seq: other_seq,
                errno: other_errno,
                cause: other_cause,
            },
        ) => {
            tid == other_tid
                && seq == other_seq
                && errno == other_errno
                && is_same_cause(cause, other_cause)
        }
        (Entry::Ended { tid }, Entry::Ended { tid: other_tid }) => tid == other_tid,
        _ => false,
    }
}

// Whether two entries of workers that copy or look are the same.
fn is_same_of_copy(one: &Entry, other: &Entry) -> bool
    ensures { IsTrue result ↔ (is_of_copy one.now ≡ true) × (one.now ≡ other.now) }
{
    match (one, other) {
        (
            Entry::Copied {
                seq,
                part,
                place,
                word,
            },
            Entry::Copied {
                seq: other_seq,
                part: other_part,
                place: other_place,
                word: other_word,
            },
        ) => {
            seq == other_seq && part == other_part && place == other_place && word == other_word
        }
        (
            Entry::Looked {
                seq,
                part,
                name,
                seen,
            },
            Entry::Looked {
                seq: other_seq,
                part: other_part,
                name: other_name,
                seen: other_seen,
            },
        ) => {
            seq == other_seq
                && part == other_part
                && is_same_name(name, other_name)
                && is_same_seen(seen, other_seen)
        }
        _ => false,
    }
}

// Whether two other entries of workers are the same.
fn is_same_of_worker(one: &Entry, other: &Entry) -> bool
    ensures { IsTrue result ↔ (is_of_worker one.now ≡ true) × (one.now ≡ other.now) }
{
    match (one, other) {
        (
            Entry::Claimed { worker, seq },
            Entry::Claimed {
                worker: other_worker,
                seq: other_seq,
            },
        ) => { worker == other_worker && seq == other_seq }
        (
            Entry::Faulted { seq, errno },
            Entry::Faulted {
                seq: other_seq,
                errno: other_errno,
            },
        ) => { seq == other_seq && errno == other_errno }
        (
            Entry::Answered {
                worker,
                snapshot,
                verdict,
                applied,
            },
            Entry::Answered {
                worker: other_worker,
                snapshot: other_snapshot,
                verdict: other_verdict,
                applied: other_applied,
            },
        ) => {
            worker == other_worker
                && verdict == other_verdict
                && applied == other_applied
                && snapshot.get().is_same(other_snapshot.get())
        }
        _ => false,
    }
}

// Whether two entries of the operator are the same.
fn is_same_of_operator(one: &Entry, other: &Entry) -> bool
    ensures { IsTrue result ↔ (is_of_operator one.now ≡ true) × (one.now ≡ other.now) }
{
    match (one, other) {
        (
            Entry::Replied { seq, reply, number },
            Entry::Replied {
                seq: other_seq,
                reply: other_reply,
                number: other_number,
            },
        ) => { seq == other_seq && reply == other_reply && number == other_number }
        (
            Entry::Learned { seq, number },
            Entry::Learned {
                seq: other_seq,
                number: other_number,
            },
        ) => { seq == other_seq && number == other_number }
        _ => false,
    }
}

/// Whether two entries are the same. It takes no memory.
pub fn is_same_entry(one: &Entry, other: &Entry) -> bool
    ensures { IsTrue result ↔ (one.now ≡ other.now) }
{
    is_same_of_instruction(one, other)
        || is_same_of_call(one, other)
        || is_same_of_end(one, other)
        || is_same_of_copy(one, other)
        || is_same_of_worker(one, other)
        || is_same_of_operator(one, other)
}
