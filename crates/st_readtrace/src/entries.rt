ghost use Rattle.std.specs.Prelude.{◌≡◌};
ghost use Rattle.st_fields.specs.Reads.{Gives, Reads};
ghost use Rattle.st_readtrace.specs.Entries.{way_by, way_at, seen_by, seen_at, verdict_by, verdict_at, cause_by, cause_at, version_at, snapshot_at, flag_at, stored_at, entered_at, used_at, denied_at, ended_at, reloaded_at, claimed_at, copied_at, looked_at, faulted_at, answered_at, replied_at, learned_at, operator_entry, worker_entry, entry_by, entry_at, printed_as, entry_of_line};

use crate::changes::read_changes;
use st_base::{Shared, Text, is_same_text};
use st_calls::{Snapshot, Verdict};
use st_fields::{Fields, LineFault, read_args};
use st_names::SeenText;
use st_report::append_entry;
use st_trace::{CallArgs, Cause, Entry, Way};
use std::alloc::Global;

#[tactic(auto, unfolding(crate::specs::Entries::way_by))]
fn read_way_by(word: &[u8], fields: &mut Fields<'_>) -> Result<Way, LineFault>
    ensures { Reads result (way_by word.now fields.old) fields.new }
{
    if is_same_text(word, b"fast") {
        Ok(Way::Fast)
    } else if is_same_text(word, b"barred") {
        let number = fields.u32()?;
        Ok(Way::Barred(number))
    } else if is_same_text(word, b"held") {
        let seq = fields.u16()?;
        Ok(Way::Held(seq))
    } else if is_same_text(word, b"untraced") {
        Ok(Way::Untraced)
    } else {
        Err(LineFault::NotInGrammar)
    }
}

#[tactic(auto, unfolding(crate::specs::Entries::way_at))]
fn read_way(fields: &mut Fields<'_>) -> Result<Way, LineFault>
    ensures { Reads result (way_at fields.old) fields.new }
{
    let word = fields.word()?;
    read_way_by(word, fields)
}

#[tactic(auto, unfolding(crate::specs::Entries::seen_by))]
fn read_seen_by(alloc: Global, word: &[u8], fields: &mut Fields<'_>) -> Result<SeenText, LineFault>
    ensures { Reads result (seen_by word.now fields.old) fields.new }
{
    if is_same_text(word, b"missing") {
        Ok(SeenText::Missing)
    } else if is_same_text(word, b"notdir") {
        Ok(SeenText::NotDir)
    } else if is_same_text(word, b"dir") {
        Ok(SeenText::Dir)
    } else if is_same_text(word, b"file") {
        Ok(SeenText::File)
    } else if is_same_text(word, b"link") {
        let target = fields.text(alloc)?;
        Ok(SeenText::Link(target))
    } else {
        Err(LineFault::NotInGrammar)
    }
}

#[tactic(auto, unfolding(crate::specs::Entries::seen_at))]
fn read_seen(alloc: Global, fields: &mut Fields<'_>) -> Result<SeenText, LineFault>
    ensures { Reads result (seen_at fields.old) fields.new }
{
    let word = fields.word()?;
    read_seen_by(alloc, word, fields)
}

#[tactic(auto, unfolding(crate::specs::Entries::verdict_by))]
fn read_verdict_by(word: &[u8], fields: &mut Fields<'_>) -> Result<Verdict, LineFault>
    ensures { Reads result (verdict_by word.now fields.old) fields.new }
{
    if is_same_text(word, b"permit") {
        let number = fields.u32()?;
        fields.word()?;
        let ids = fields.ids()?;
        Ok(Verdict::Permit(number, ids))
    } else if is_same_text(word, b"refuse") {
        let number = fields.u32()?;
        let errno = fields.error()?;
        Ok(Verdict::Refuse(number, errno))
    } else if is_same_text(word, b"unmatched") {
        Ok(Verdict::Unmatched)
    } else {
        Err(LineFault::NotInGrammar)
    }
}

#[tactic(auto, unfolding(crate::specs::Entries::verdict_at))]
fn read_verdict(fields: &mut Fields<'_>) -> Result<Verdict, LineFault>
    ensures { Reads result (verdict_at fields.old) fields.new }
{
    let word = fields.word()?;
    read_verdict_by(word, fields)
}

#[tactic(auto, unfolding(crate::specs::Entries::cause_by))]
fn read_cause_by(alloc: Global, word: &[u8], fields: &mut Fields<'_>) -> Result<Cause, LineFault>
    ensures { Reads result (cause_by word.now fields.old) fields.new }
{
    if is_same_text(word, b"filter") {
        let number = fields.u32()?;
        Ok(Cause::Filter(number))
    } else if is_same_text(word, b"nofilter") {
        Ok(Cause::NoFilter)
    } else if is_same_text(word, b"fault") {
        Ok(Cause::Fault)
    } else if is_same_text(word, b"link") {
        let name = fields.name(alloc)?;
        Ok(Cause::Link(name))
    } else {
        Err(LineFault::NotInGrammar)
    }
}

#[tactic(auto, unfolding(crate::specs::Entries::cause_at))]
fn read_cause(alloc: Global, fields: &mut Fields<'_>) -> Result<Cause, LineFault>
    ensures { Reads result (cause_at fields.old) fields.new }
{
    let word = fields.word()?;
    read_cause_by(alloc, word, fields)
}

// The version of a policy: 0, the policy as it was read, if none is given.
#[tactic(auto, unfolding(crate::specs::Entries::version_at))]
fn read_version(fields: &mut Fields<'_>) -> Result<u32, LineFault>
    ensures { Reads result (version_at fields.old) fields.new }
{
    if fields.begins(b" version ") {
        fields.word()?;
        fields.u32()
    } else {
        Ok(0)
    }
}

// The words between the fields aren't looked at: they are compared when the entry is printed.
#[tactic(auto, unfolding(crate::specs::Entries::snapshot_at))]
fn read_snapshot(alloc: Global, fields: &mut Fields<'_>) -> Result<Snapshot, LineFault>
    ensures { Reads result (snapshot_at fields.old) fields.new }
{
    let seq = fields.u16()?;
    fields.word()?;
    let pid = fields.u32()?;
    fields.word()?;
    let ids = fields.ids()?;
    fields.word()?;
    let policy = Shared::new(alloc, fields.text(alloc)?)?;
    let version = read_version(fields)?;
    fields.word()?;
    let rule = fields.rule()?;
    let call = fields.call()?;
    let regs = fields.regs()?;
    let parts = read_args(alloc, fields)?;
    Ok(Snapshot {
        seq,
        pid,
        ids,
        policy,
        version,
        rule,
        call,
        regs,
        parts,
    })
}

// Whether the next word is the wanted one.
#[tactic(auto, unfolding(crate::specs::Entries::flag_at))]
fn read_flag(wanted: &[u8], fields: &mut Fields<'_>) -> Result<bool, LineFault>
    ensures { Reads result (flag_at wanted.now fields.old) fields.new }
{
    let word = fields.word()?;
    Ok(is_same_text(word, wanted))
}

#[tactic(auto, unfolding(crate::specs::Entries::stored_at))]
fn read_stored(fields: &mut Fields<'_>) -> Result<Entry, LineFault>
    ensures { Gives result (stored_at fields.old) }
{
    let tid = fields.u32()?;
    let place = fields.u32()?;
    let word = fields.u64()?;
    Ok(Entry::Stored { tid, place, word })
}

#[tactic(auto, unfolding(crate::specs::Entries::entered_at))]
fn read_entered(fields: &mut Fields<'_>) -> Result<Entry, LineFault>
    ensures { Gives result (entered_at fields.old) }
{
    let tid = fields.u32()?;
    let call = fields.call()?;
    let regs = fields.regs()?;
    let way = read_way(fields)?;
    Ok(Entry::Entered {
        tid,
        call,
        regs,
        way,
    })
}

#[tactic(auto, unfolding(crate::specs::Entries::used_at))]
fn read_used(alloc: Global, fields: &mut Fields<'_>) -> Result<Entry, LineFault>
    ensures { Gives result (used_at fields.old) }
{
    let tid = fields.u32()?;
    let seq = fields.seq()?;
    let call = fields.call()?;
    let regs = fields.regs()?;
    fields.word()?;
    let ids = fields.ids()?;
    let args = read_args(alloc, fields)?;
    fields.word()?;
    let outcome = fields.result()?;
    let changes = read_changes(alloc, fields)?;
    Ok(Entry::Used {
        tid,
        seq,
        call,
        regs,
        args: CallArgs::own(args),
        ids,
        result: outcome,
        changes,
    })
}

#[tactic(auto, unfolding(crate::specs::Entries::denied_at))]
fn read_denied(alloc: Global, fields: &mut Fields<'_>) -> Result<Entry, LineFault>
    ensures { Gives result (denied_at fields.old) }
{
    let tid = fields.u32()?;
    let seq = fields.seq()?;
    let errno = fields.error()?;
    let cause = read_cause(alloc, fields)?;
    Ok(Entry::Denied {
        tid,
        seq,
        errno,
        cause,
    })
}

#[tactic(auto, unfolding(crate::specs::Entries::ended_at))]
fn read_ended(fields: &mut Fields<'_>) -> Result<Entry, LineFault>
    ensures { Gives result (ended_at fields.old) }
{
    let tid = fields.u32()?;
    Ok(Entry::Ended { tid })
}

#[tactic(auto, unfolding(crate::specs::Entries::reloaded_at))]
fn read_reloaded(alloc: Global, fields: &mut Fields<'_>) -> Result<Entry, LineFault>
    ensures { Gives result (reloaded_at fields.old) }
{
    let tid = fields.u32()?;
    let policy = fields.u32()?;
    let done = read_flag(b"done", fields)?;
    let changes = read_changes(alloc, fields)?;
    Ok(Entry::Reloaded {
        tid,
        policy,
        done,
        changes,
    })
}

#[tactic(auto, unfolding(crate::specs::Entries::claimed_at))]
fn read_claimed(fields: &mut Fields<'_>) -> Result<Entry, LineFault>
    ensures { Gives result (claimed_at fields.old) }
{
    let worker = fields.u32()?;
    let seq = fields.u16()?;
    Ok(Entry::Claimed { worker, seq })
}

#[tactic(auto, unfolding(crate::specs::Entries::copied_at))]
fn read_copied(fields: &mut Fields<'_>) -> Result<Entry, LineFault>
    ensures { Gives result (copied_at fields.old) }
{
    let seq = fields.u16()?;
    let part = fields.u32()?;
    let place = fields.u32()?;
    let word = fields.u64()?;
    Ok(Entry::Copied {
        seq,
        part,
        place,
        word,
    })
}

#[tactic(auto, unfolding(crate::specs::Entries::looked_at))]
fn read_looked(alloc: Global, fields: &mut Fields<'_>) -> Result<Entry, LineFault>
    ensures { Gives result (looked_at fields.old) }
{
    let seq = fields.u16()?;
    let part = fields.u32()?;
    let name = fields.name(alloc)?;
    let seen = read_seen(alloc, fields)?;
    Ok(Entry::Looked {
        seq,
        part,
        name,
        seen,
    })
}

#[tactic(auto, unfolding(crate::specs::Entries::faulted_at))]
fn read_faulted(fields: &mut Fields<'_>) -> Result<Entry, LineFault>
    ensures { Gives result (faulted_at fields.old) }
{
    let seq = fields.u16()?;
    let errno = fields.error()?;
    Ok(Entry::Faulted { seq, errno })
}

#[tactic(auto, unfolding(crate::specs::Entries::answered_at))]
fn read_answered(alloc: Global, fields: &mut Fields<'_>) -> Result<Entry, LineFault>
    ensures { Gives result (answered_at fields.old) }
{
    let worker = fields.u32()?;
    let snapshot = Shared::new(alloc, read_snapshot(alloc, fields)?)?;
    let verdict = read_verdict(fields)?;
    let applied = read_flag(b"applied", fields)?;
    Ok(Entry::Answered {
        worker,
        snapshot,
        verdict,
        applied,
    })
}

#[tactic(auto, unfolding(crate::specs::Entries::replied_at))]
fn read_replied(fields: &mut Fields<'_>) -> Result<Entry, LineFault>
    ensures { Gives result (replied_at fields.old) }
{
    let seq = fields.u16()?;
    let reply = fields.u32()?;
    let number = fields.u32()?;
    Ok(Entry::Replied { seq, reply, number })
}

#[tactic(auto, unfolding(crate::specs::Entries::learned_at))]
fn read_learned(fields: &mut Fields<'_>) -> Result<Entry, LineFault>
    ensures { Gives result (learned_at fields.old) }
{
    let seq = fields.u16()?;
    let number = fields.u32()?;
    Ok(Entry::Learned { seq, number })
}

// An entry of the operator, by the line's first word.
#[tactic(auto, unfolding(crate::specs::Entries::operator_entry))]
fn read_operator_entry(word: &[u8], fields: &mut Fields<'_>) -> Result<Entry, LineFault>
    ensures { Gives result (operator_entry word.now fields.old) }
{
    if is_same_text(word, b"replied") {
        read_replied(fields)
    } else if is_same_text(word, b"learned") {
        read_learned(fields)
    } else {
        Err(LineFault::NotInGrammar)
    }
}

// An entry of a worker or the operator, by the line's first word.
#[tactic(auto, unfolding(crate::specs::Entries::worker_entry))]
fn read_worker_entry(
    alloc: Global,
    word: &[u8],
    fields: &mut Fields<'_>,
) -> Result<Entry, LineFault>
    ensures { Gives result (worker_entry word.now fields.old) }
{
    if is_same_text(word, b"claimed") {
        read_claimed(fields)
    } else if is_same_text(word, b"copied") {
        read_copied(fields)
    } else if is_same_text(word, b"looked") {
        read_looked(alloc, fields)
    } else if is_same_text(word, b"faulted") {
        read_faulted(fields)
    } else if is_same_text(word, b"answered") {
        read_answered(alloc, fields)
    } else {
        read_operator_entry(word, fields)
    }
}

/// An entry, by the line's first word.
#[tactic(auto, unfolding(crate::specs::Entries::entry_by))]
pub(crate) fn read_entry_by(
    alloc: Global,
    word: &[u8],
    fields: &mut Fields<'_>,
) -> Result<Entry, LineFault>
    ensures { Gives result (entry_by word.now fields.old) }
{
    if is_same_text(word, b"stored") {
        read_stored(fields)
    } else if is_same_text(word, b"entered") {
        read_entered(fields)
    } else if is_same_text(word, b"used") {
        read_used(alloc, fields)
    } else if is_same_text(word, b"denied") {
        read_denied(alloc, fields)
    } else if is_same_text(word, b"ended") {
        read_ended(fields)
    } else if is_same_text(word, b"reloaded") {
        read_reloaded(alloc, fields)
    } else {
        read_worker_entry(alloc, word, fields)
    }
}

// The entry that a line seems to be.
fn read_entry(alloc: Global, line: &[u8]) -> Result<Entry, LineFault>
    ensures { Gives result (entry_at line.now) }
{
    let mut fields = Fields::of(line);
    let word = fields.first_word();
    read_entry_by(alloc, word, &mut fields)
}

/// The entry that a line is. What the line seems to be is printed, into a text that is kept for this, and compared with the line. So each
/// entry has a single spelling.
#[tactic(auto, unfolding(crate::specs::Entries::entry_of_line))]
pub(crate) fn entry_of_line(
    alloc: Global,
    printed: &mut Text,
    line: &[u8],
) -> Result<Entry, LineFault>
    ensures { Gives result (entry_of_line line.now) }
{
    let entry = read_entry(alloc, line)?;
    printed.truncate(0);
    append_entry(alloc, printed, &entry)?;
    if is_same_text(printed.bytes(), line) {
        Ok(entry)
    } else {
        Err(LineFault::NotInGrammar)
    }
}
