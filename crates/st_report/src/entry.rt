ghost use Rattle.std.specs.Prelude.{◌≡◌, [], ◌∷◌, ◌++◌, codes, OnOk};
ghost use Rattle.st_base.specs.Errno.{name_of_error};
ghost use Rattle.st_report.specs.ChangeText.{changes_fields};
ghost use Rattle.st_report.specs.Fields.{ids_fields, name_field, number_fields, word_field};
ghost use Rattle.st_report.specs.TraceText.{call_fields, way_fields, seen_fields, args_fields, arg_fields, verdict_fields, applied_field, seq_field, result_text, cause_fields, version_field, judged_fields, asked_fields, done_field, entry_text, IsOfCall, IsOfWorker};

use crate::change::append_changes;
use crate::fields::{
    append_ids, append_name, append_numbered, append_numbers, append_text, append_word,
};
use st_base::{Errno, Ids, Seq, Text, Tid};
use st_calls::{ArgText, Snapshot, SysCall, Verdict, emulation_prefix};
use st_names::{AbsName, SeenText};
use st_trace::{CallResult, Cause, Change, Entry, Way};
use std::alloc::{AllocError, Global};

// Appends a call with its registers.
fn append_call(text: &mut Text, call: SysCall, regs: &[u64; 6]) -> Result<(), AllocError>
    ensures { OnOk result (text.new ≡ text.old ++ call_fields call regs.now) }
{
    append_word(text, call.word())?;
    append_numbers(text, regs)
}

// Appends how an entered call goes on.
fn append_way(text: &mut Text, way: Way) -> Result<(), AllocError>
    ensures { OnOk result (text.new ≡ text.old ++ way_fields way) }
{
    match way {
        Way::Fast => text.append(b" fast"),
        Way::Barred(number) => append_numbered(text, b" barred", &[u64::from(number)]),
        Way::Held(seq) => append_numbered(text, b" held", &[u64::from(seq)]),
        Way::Untraced => text.append(b" untraced"),
    }
}

// Appends what a look saw.
fn append_seen(text: &mut Text, seen: &SeenText) -> Result<(), AllocError>
    ensures { OnOk result (text.new ≡ text.old ++ seen_fields seen.now) }
{
    match seen {
        SeenText::Missing => text.append(b" missing"),
        SeenText::NotDir => text.append(b" notdir"),
        SeenText::Dir => text.append(b" dir"),
        SeenText::File => text.append(b" file"),
        SeenText::Link(target) => {
            text.append(b" link")?;
            append_text(text, target.bytes())
        }
    }
}

// Appends an argument.
fn append_arg(text: &mut Text, arg: &ArgText) -> Result<(), AllocError>
    ensures { OnOk result (text.new ≡ text.old ++ arg_fields arg.now) }
{
    text.append(b" arg")?;
    append_word(text, arg.label.word())?;
    append_numbers(text, &[u64::from(arg.index)])?;
    append_text(text, arg.text.bytes())
}

// Appends the arguments of a call.
fn append_args(text: &mut Text, args: &[ArgText]) -> Result<(), AllocError>
    ensures { OnOk result (text.new ≡ text.old ++ args_fields args.now) }
{
    for arg in args {
        append_arg(text, arg)?;
    }
    Ok(())
}

// Appends what the filters say.
fn append_verdict(text: &mut Text, verdict: Verdict) -> Result<(), AllocError>
    ensures { OnOk result (text.new ≡ text.old ++ verdict_fields verdict) }
{
    match verdict {
        Verdict::Permit(number, ids) => {
            append_numbered(text, b" permit", &[u64::from(number)])?;
            append_ids(text, b" ids", ids)
        }
        Verdict::Refuse(number, errno) => {
            append_numbered(text, b" refuse", &[u64::from(number)])?;
            append_word(text, errno.name())
        }
        Verdict::Unmatched => text.append(b" unmatched"),
    }
}

// Whether an answer was applied, as a word.
fn applied_word(applied: bool) -> &'static [u8]
    ensures { result.now ≡ applied_field applied }
{
    if applied { b" applied" } else { b" stale" }
}

// Appends the number of a held call, or `-` for another call.
fn append_seq(text: &mut Text, seq: Option<Seq>) -> Result<(), AllocError>
    ensures { OnOk result (text.new ≡ text.old ++ seq_field seq) }
{
    match seq {
        Some(seq) => append_numbers(text, &[u64::from(seq)]),
        None => text.append(b" -"),
    }
}

/// Appends the result of a call: a number, or an error's name.
pub fn append_result(text: &mut Text, outcome: CallResult) -> Result<(), AllocError>
    ensures { OnOk result (text.new ≡ text.old ++ result_text outcome) }
{
    match outcome {
        CallResult::Value(number) => text.append_number(number),
        CallResult::Failed(errno) => text.append(errno.name()),
    }
}

// Appends why a call is denied.
fn append_cause(alloc: Global, text: &mut Text, cause: &Cause) -> Result<(), AllocError>
    ensures { OnOk result (text.new ≡ text.old ++ cause_fields cause.now) }
{
    match cause {
        Cause::Filter(number) => append_numbered(text, b" filter", &[u64::from(*number)]),
        Cause::NoFilter => text.append(b" nofilter"),
        Cause::Fault => text.append(b" fault"),
        Cause::Link(name) => {
            text.append(b" link")?;
            append_name(alloc, text, name)
        }
    }
}

// Appends the version of a policy, unless it is the policy as it was read.
fn append_version(text: &mut Text, version: u32) -> Result<(), AllocError>
    ensures { OnOk result (text.new ≡ text.old ++ version_field version) }
{
    if version != 0 {
        append_numbered(text, b" version", &[u64::from(version)])?;
    }
    Ok(())
}

// Appends who makes the held call, and the policy that judges it.
fn append_judged(text: &mut Text, copies: &Snapshot) -> Result<(), AllocError>
    ensures { OnOk result (text.new ≡ text.old ++ judged_fields copies.now) }
{
    append_numbered(text, b" pid", &[u64::from(copies.pid)])?;
    append_ids(text, b" ids", copies.ids)?;
    text.append(b" policy")?;
    append_text(text, copies.policy.get().bytes())?;
    append_version(text, copies.version)
}

// Appends the held call, by the copies of its arguments.
fn append_asked(text: &mut Text, copies: &Snapshot) -> Result<(), AllocError>
    ensures { OnOk result (text.new ≡ text.old ++ asked_fields copies.now) }
{
    text.append(b" rule ")?;
    text.append(emulation_prefix())?;
    text.append(copies.rule.word())?;
    append_call(text, copies.call, &copies.regs)?;
    append_args(text, copies.parts.as_slice())
}

// Appends the call that a thread enters, and how it goes on.
fn append_entered(
    text: &mut Text,
    tid: Tid,
    call: SysCall,
    regs: &[u64; 6],
    way: Way,
) -> Result<(), AllocError>
    ensures { OnOk result (text.new ≡ text.old ++ codes "entered" ++ number_fields (tid ∷ []) ++ call_fields call regs.now ++ way_fields way) }
{
    append_numbered(text, b"entered", &[u64::from(tid)])?;
    append_call(text, call, regs)?;
    append_way(text, way)
}

// Appends which call a thread makes.
fn append_used(
    text: &mut Text,
    tid: Tid,
    seq: Option<Seq>,
    call: SysCall,
    regs: &[u64; 6],
) -> Result<(), AllocError>
    ensures { OnOk result (text.new ≡ text.old ++ codes "used" ++ number_fields (tid ∷ []) ++ seq_field seq ++ call_fields call regs.now) }
{
    append_numbered(text, b"used", &[u64::from(tid)])?;
    append_seq(text, seq)?;
    append_call(text, call, regs)
}

// Appends how a call was made: its ids and arguments, its result, and its changes.
fn append_made(
    alloc: Global,
    text: &mut Text,
    ids: Ids,
    args: &[ArgText],
    outcome: CallResult,
    changes: &[Change],
) -> Result<(), AllocError>
    ensures { OnOk result (text.new ≡ text.old ++ ids_fields ids ++ args_fields args.now ++ codes " = " ++ result_text outcome ++ changes_fields changes.now) }
{
    append_ids(text, b" ids", ids)?;
    append_args(text, args)?;
    text.append(b" = ")?;
    append_result(text, outcome)?;
    append_changes(alloc, text, changes)
}

// Appends which call of a thread is denied, with which error, and why.
fn append_denied(
    alloc: Global,
    text: &mut Text,
    tid: Tid,
    seq: Option<Seq>,
    errno: Errno,
    cause: &Cause,
) -> Result<(), AllocError>
    ensures { OnOk result (text.new ≡ text.old ++ codes "denied" ++ number_fields (tid ∷ []) ++ seq_field seq ++ word_field (name_of_error errno) ++ cause_fields cause.now) }
{
    append_numbered(text, b"denied", &[u64::from(tid)])?;
    append_seq(text, seq)?;
    append_word(text, errno.name())?;
    append_cause(alloc, text, cause)
}

// Appends an entry by which a thread enters a call, makes it, or is denied it.
fn append_call_entry(alloc: Global, text: &mut Text, entry: &Entry) -> Result<(), AllocError>
    requires { IsOfCall entry.now }
    ensures { OnOk result (text.new ≡ text.old ++ entry_text entry.now) }
{
    match entry {
        Entry::Entered {
            tid,
            call,
            regs,
            way,
        } => append_entered(text, *tid, *call, regs, *way),
        Entry::Used {
            tid,
            seq,
            call,
            regs,
            args,
            ids,
            result: outcome,
            changes,
        } => {
            append_used(text, *tid, *seq, *call, regs)?;
            let args = args.as_slice();
            append_made(alloc, text, *ids, args, *outcome, changes.as_slice())
        }
        Entry::Denied {
            tid,
            seq,
            errno,
            cause,
        } => append_denied(alloc, text, *tid, *seq, *errno, cause),
        _ => unreachable!(),
    }
}

// Whether a reload was done, as a word.
fn done_word(done: bool) -> &'static [u8]
    ensures { result.now ≡ done_field done }
{
    if done { b" done" } else { b" refused" }
}

// Appends which policy a thread reloads, and whether this is done.
fn append_reloaded(text: &mut Text, tid: Tid, policy: u32, done: bool) -> Result<(), AllocError>
    ensures { OnOk result (text.new ≡ text.old ++ codes "reloaded" ++ number_fields (tid ∷ policy ∷ []) ++ done_field done) }
{
    append_numbered(text, b"reloaded", &[u64::from(tid), u64::from(policy)])?;
    text.append(done_word(done))
}

// Appends which word a worker copied.
fn append_copied(
    text: &mut Text,
    seq: Seq,
    part: u32,
    place: u32,
    word: u64,
) -> Result<(), AllocError>
    ensures { OnOk result (text.new ≡ text.old ++ codes "copied" ++ number_fields (seq ∷ part ∷ place ∷ word ∷ [])) }
{
    let numbers = [u64::from(seq), u64::from(part), u64::from(place), word];
    append_numbered(text, b"copied", &numbers)
}

// Appends which name a worker looked at, and what it saw.
fn append_looked(
    alloc: Global,
    text: &mut Text,
    seq: Seq,
    part: u32,
    name: &AbsName,
    seen: &SeenText,
) -> Result<(), AllocError>
    ensures { OnOk result (text.new ≡ text.old ++ codes "looked" ++ number_fields (seq ∷ part ∷ []) ++ name_field name.now ++ seen_fields seen.now) }
{
    append_numbered(text, b"looked", &[u64::from(seq), u64::from(part)])?;
    append_name(alloc, text, name)?;
    append_seen(text, seen)
}

// Appends what a worker answered.
fn append_answer(
    text: &mut Text,
    copies: &Snapshot,
    verdict: Verdict,
    applied: bool,
) -> Result<(), AllocError>
    ensures { OnOk result (text.new ≡ text.old ++ asked_fields copies.now ++ verdict_fields verdict ++ applied_field applied) }
{
    append_asked(text, copies)?;
    append_verdict(text, verdict)?;
    text.append(applied_word(applied))
}

// Appends an entry of a worker.
fn append_worker_entry(alloc: Global, text: &mut Text, entry: &Entry) -> Result<(), AllocError>
    requires { IsOfWorker entry.now }
    ensures { OnOk result (text.new ≡ text.old ++ entry_text entry.now) }
{
    match entry {
        Entry::Claimed { worker, seq } => {
            append_numbered(text, b"claimed", &[u64::from(*worker), u64::from(*seq)])
        }
        Entry::Copied {
            seq,
            part,
            place,
            word,
        } => append_copied(text, *seq, *part, *place, *word),
        Entry::Looked {
            seq,
            part,
            name,
            seen,
        } => append_looked(alloc, text, *seq, *part, name, seen),
        Entry::Faulted { seq, errno } => {
            append_numbered(text, b"faulted", &[u64::from(*seq)])?;
            append_word(text, errno.name())
        }
        Entry::Answered {
            worker,
            snapshot,
            verdict,
            applied,
        } => {
            let copies = snapshot.get();
            append_numbered(
                text,
                b"answered",
                &[u64::from(*worker), u64::from(copies.seq)],
            )?;
            append_judged(text, copies)?;
            append_answer(text, copies, *verdict, *applied)
        }
        _ => unreachable!(),
    }
}

/// Appends an entry, without the newline of its line.
pub fn append_entry(alloc: Global, text: &mut Text, entry: &Entry) -> Result<(), AllocError>
    ensures { OnOk result (text.new ≡ text.old ++ entry_text entry.now) }
{
    match entry {
        Entry::Stored { tid, place, word } => append_numbered(
            text,
            b"stored",
            &[u64::from(*tid), u64::from(*place), *word],
        ),
        Entry::Entered { .. } | Entry::Used { .. } | Entry::Denied { .. } => {
            append_call_entry(alloc, text, entry)
        }
        Entry::Claimed { .. }
        | Entry::Copied { .. }
        | Entry::Looked { .. }
        | Entry::Faulted { .. }
        | Entry::Answered { .. } => append_worker_entry(alloc, text, entry),
        Entry::Replied { seq, reply, number } => append_numbered(
            text,
            b"replied",
            &[u64::from(*seq), u64::from(*reply), u64::from(*number)],
        ),
        Entry::Learned { seq, number } => {
            append_numbered(text, b"learned", &[u64::from(*seq), u64::from(*number)])
        }
        Entry::Reloaded {
            tid,
            policy,
            done,
            changes,
        } => {
            append_reloaded(text, *tid, *policy, *done)?;
            append_changes(alloc, text, changes.as_slice())
        }
        Entry::Ended { tid } => append_numbered(text, b"ended", &[u64::from(*tid)]),
    }
}
