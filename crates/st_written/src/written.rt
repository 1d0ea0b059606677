ghost use Rattle.std.specs.Prelude.{◌≡◌, ◌↔◌, true, IsTrue};
ghost use Rattle.std.specs.List.{AllByRecursion};
ghost use Rattle.st_written.specs.Written.{Has64, AreArgs, AreChanges, AreIds, AreRegs, IsArg, IsCause, IsChange, IsEntry, IsKind, IsName, IsPart, IsResult, IsSeen, IsSeq, IsSnapshot, IsText, IsVerdict, IsWay};
ghost use Rattle.st_same.specs.Families.{is_of_names, is_of_content, is_of_processes, is_of_instruction, is_of_call, is_of_end, is_of_copy, is_of_worker, is_of_operator};

use st_base::{Ids, Seq};
use st_calls::{ArgText, Snapshot, Verdict};
use st_model::NewKind;
use st_names::{AbsName, SeenText, first_slash, is_component};
use st_trace::{CallResult, Cause, Change, Entry, Way};

// The functions that return nothing say what the types of values promise. A value is read so that its type is known.

fn are_bytes(bytes: &[u8])
    ensures { IsText bytes.now }
{}

fn are_ids(ids: Ids)
    ensures { AreIds ids }
{}

fn are_words(words: &[u64])
    ensures { AllByRecursion Has64 words.now }
{}

fn are_regs(regs: &[u64; 6])
    ensures { AreRegs regs.now }
{
    are_words(regs);
}

fn is_way(way: Way)
    ensures { IsWay way }
{}

fn is_seq(seq: Option<Seq>)
    ensures { IsSeq seq }
{}

fn is_result(outcome: CallResult)
    ensures { IsResult outcome }
{}

fn is_verdict(verdict: Verdict)
    ensures { IsVerdict verdict }
{}

fn is_seen(seen: &SeenText)
    ensures { IsSeen seen.now }
{
    if let SeenText::Link(target) = seen {
        are_bytes(target.bytes());
    }
}

fn is_arg(arg: &ArgText)
    ensures { IsArg arg.now }
{
    let _index = arg.index;
    are_bytes(arg.text.bytes());
}

fn are_args(args: &[ArgText])
    ensures { AreArgs args.now }
{
    for arg in args {
        is_arg(arg);
    }
}

fn is_snapshot(snapshot: &Snapshot)
    ensures { IsSnapshot snapshot.now }
{
    let _seq = snapshot.seq;
    let _pid = snapshot.pid;
    let _version = snapshot.version;
    are_ids(snapshot.ids);
    are_bytes(snapshot.policy.get().bytes());
    are_regs(&snapshot.regs);
    are_args(snapshot.parts.as_slice());
}

// Whether a part of a name is a component without a slash.
fn is_part(part: &[u8]) -> bool
    ensures { IsTrue result ↔ IsPart part.now }
{
    if !is_component(part) {
        return false;
    }
    first_slash(part) == part.len()
}

// Whether each part of a name is a component.
fn is_name(name: &AbsName) -> bool
    ensures { IsTrue result ↔ IsName name.now }
{
    for part in name.parts() {
        if !is_part(part) {
            return false;
        }
    }
    true
}

// Whether an object that is made is no file with bytes.
fn is_kind(kind: &NewKind) -> bool
    ensures { IsTrue result ↔ IsKind kind.now }
{
    match kind {
        NewKind::Dir => true,
        NewKind::File(content) => content.is_empty(),
        NewKind::Link(target) => {
            are_bytes(target.bytes());
            true
        }
    }
}

// Whether a change is one of names in the file tree, its names are normal, and the file that it makes is empty.
fn is_of_names(change: &Change) -> bool
    ensures { IsTrue result ↔ (is_of_names change.now ≡ true) × IsChange change.now }
{
    match change {
        Change::Made {
            name,
            obj,
            kind,
            uid,
            gid,
            mode,
        } => {
            let (_obj, _uid, _gid, _mode) = (*obj, *uid, *gid, *mode);
            is_name(name) && is_kind(kind)
        }
        Change::Linked { name, obj } => {
            let _obj = *obj;
            is_name(name)
        }
        Change::Removed(name) => is_name(name),
        Change::Renamed { old, new } => is_name(old) && is_name(new),
        _ => false,
    }
}

// Whether a change is one of an object or a memory.
fn is_of_content(change: &Change) -> bool
    ensures { IsTrue result ↔ (is_of_content change.now ≡ true) × IsChange change.now }
{
    match change {
        Change::Written { obj, at, bytes } => {
            let (_obj, _at) = (*obj, *at);
            are_bytes(bytes.bytes());
            true
        }
        Change::Cut { obj, len } => {
            let (_obj, _len) = (*obj, *len);
            true
        }
        Change::Moded { obj, mode } => {
            let (_obj, _mode) = (*obj, *mode);
            true
        }
        Change::Owned { obj, uid, gid } => {
            let (_obj, _uid, _gid) = (*obj, *uid, *gid);
            true
        }
        Change::Put { space, at, bytes } => {
            let (_space, _at) = (*space, *at);
            are_bytes(bytes.bytes());
            true
        }
        _ => false,
    }
}

// Whether a change is one of a process or a message, and its name is normal.
fn is_of_processes(change: &Change) -> bool
    ensures { IsTrue result ↔ (is_of_processes change.now ≡ true) × IsChange change.now }
{
    match change {
        Change::Forked { pid, space, tid } => {
            let (_pid, _space, _tid) = (*pid, *space, *tid);
            true
        }
        Change::Execed { binary, space } => {
            let _space = *space;
            are_bytes(binary.bytes());
            true
        }
        Change::SetIds(ids) => {
            are_ids(*ids);
            true
        }
        Change::Cwd(name) => is_name(name),
        Change::Dying(pid) => {
            let _pid = *pid;
            true
        }
        Change::Renewed { old, new } => {
            let (_old, _new) = (*old, *new);
            true
        }
        Change::Policy(binary) => {
            are_bytes(binary.bytes());
            true
        }
        _ => false,
    }
}

// Whether the names of a change are normal, and the file that it makes is empty.
fn is_change(change: &Change) -> bool
    ensures { IsTrue result ↔ IsChange change.now }
{
    is_of_names(change) || is_of_content(change) || is_of_processes(change)
}

fn are_changes(changes: &[Change]) -> bool
    ensures { IsTrue result ↔ AreChanges changes.now }
{
    for change in changes {
        if !is_change(change) {
            return false;
        }
    }
    true
}

// Whether the name of a cause is normal.
fn is_cause(cause: &Cause) -> bool
    ensures { IsTrue result ↔ IsCause cause.now }
{
    match cause {
        Cause::Filter(number) => {
            let _number = *number;
            true
        }
        Cause::NoFilter | Cause::Fault => true,
        Cause::Link(name) => is_name(name),
    }
}

// Whether an entry is one of an instruction, and written.
fn is_of_instruction(entry: &Entry) -> bool
    ensures { IsTrue result ↔ (is_of_instruction entry.now ≡ true) × IsEntry entry.now }
{
    match entry {
        Entry::Stored { tid, place, word } => {
            let (_tid, _place, _word) = (*tid, *place, *word);
            true
        }
        Entry::Entered { tid, regs, way, .. } => {
            let _tid = *tid;
            are_regs(regs);
            is_way(*way);
            true
        }
        Entry::Reloaded {
            tid,
            policy,
            changes,
            ..
        } => {
            let (_tid, _policy) = (*tid, *policy);
            are_changes(changes.as_slice())
        }
        _ => false,
    }
}

// Whether an entry is one of a call that is made, and written.
fn is_of_call(entry: &Entry) -> bool
    ensures { IsTrue result ↔ (is_of_call entry.now ≡ true) × IsEntry entry.now }
{
    match entry {
        Entry::Used {
            tid,
            seq,
            regs,
            args,
            ids,
            result: outcome,
            changes,
            ..
        } => {
            let _tid = *tid;
            is_seq(*seq);
            are_regs(regs);
            are_args(args.as_slice());
            are_ids(*ids);
            is_result(*outcome);
            are_changes(changes.as_slice())
        }
        _ => false,
    }
}

// Whether a call is denied or a thread ends with an entry, and it is written.
fn is_of_end(entry: &Entry) -> bool
    ensures { IsTrue result ↔ (is_of_end entry.now ≡ true) × IsEntry entry.now }
{
    match entry {
        Entry::Denied {
            tid,
            seq,
            cause,
            ..
        } => {
            let _tid = *tid;
            is_seq(*seq);
            is_cause(cause)
        }
        Entry::Ended { tid } => {
            let _tid = *tid;
            true
        }
        _ => false,
    }
}

// Whether an entry is one of a worker that copies or looks, and written.
fn is_of_copy(entry: &Entry) -> bool
    ensures { IsTrue result ↔ (is_of_copy entry.now ≡ true) × IsEntry entry.now }
{
    match entry {
        Entry::Copied {
            seq,
            part,
            place,
            word,
        } => {
            let (_seq, _part, _place, _word) = (*seq, *part, *place, *word);
            true
        }
        Entry::Looked {
            seq,
            part,
            name,
            seen,
        } => {
            let (_seq, _part) = (*seq, *part);
            is_seen(seen);
            is_name(name)
        }
        _ => false,
    }
}

// Whether an entry is another one of a worker, and written.
fn is_of_worker(entry: &Entry) -> bool
    ensures { IsTrue result ↔ (is_of_worker entry.now ≡ true) × IsEntry entry.now }
{
    match entry {
        Entry::Claimed { worker, seq } => {
            let (_worker, _seq) = (*worker, *seq);
            true
        }
        Entry::Faulted { seq, .. } => {
            let _seq = *seq;
            true
        }
        Entry::Answered {
            worker,
            snapshot,
            verdict,
            ..
        } => {
            let _worker = *worker;
            is_snapshot(snapshot.get());
            is_verdict(*verdict);
            true
        }
        _ => false,
    }
}

// Whether an entry is one of the operator, and written.
fn is_of_operator(entry: &Entry) -> bool
    ensures { IsTrue result ↔ (is_of_operator entry.now ≡ true) × IsEntry entry.now }
{
    match entry {
        Entry::Replied { seq, reply, number } => {
            let (_seq, _reply, _number) = (*seq, *reply, *number);
            true
        }
        Entry::Learned { seq, number } => {
            let (_seq, _number) = (*seq, *number);
            true
        }
        _ => false,
    }
}

/// Whether an entry is one that traces are written of: its names are normal, and the files that it makes are empty.
pub fn is_written(entry: &Entry) -> bool
    ensures { IsTrue result ↔ IsEntry entry.now }
{
    is_of_instruction(entry)
        || is_of_call(entry)
        || is_of_end(entry)
        || is_of_copy(entry)
        || is_of_worker(entry)
        || is_of_operator(entry)
}
