ghost use Rattle.std.specs.Prelude.{◌≡◌, ◌-◌, length};
ghost use Rattle.st_fields.specs.Reads.{Gives, Reads};
ghost use Rattle.st_readtrace.specs.Changes.{made_at, linked_at, removed_at, renamed_at, cwd_at, written_at, cut_at, moded_at, owned_at, put_at, forked_at, execed_at, set_ids_at, dying_at, renewed_at, policy_at, process_change, object_change, name_change, change_at, next_change_at, changes_from, changes_at};

use st_base::{Sequence, is_same_text};
use st_fields::{Fields, LineFault, kind_of_word};
use st_trace::Change;
use std::alloc::Global;

#[tactic(auto, unfolding(crate::specs::Changes::made_at))]
fn read_made(alloc: Global, fields: &mut Fields<'_>) -> Result<Change, LineFault>
    ensures { Reads result (made_at fields.old) fields.new }
{
    let name = fields.name(alloc)?;
    let obj = fields.u32()?;
    let word = fields.word()?;
    let uid = fields.u32()?;
    let gid = fields.u32()?;
    let mode = fields.mode()?;
    let target = fields.text(alloc)?;
    let Some(kind) = kind_of_word(alloc, word, target) else {
        return Err(LineFault::NotInGrammar);
    };
    Ok(Change::Made {
        name,
        obj,
        kind,
        uid,
        gid,
        mode,
    })
}

#[tactic(auto, unfolding(crate::specs::Changes::linked_at))]
fn read_linked(alloc: Global, fields: &mut Fields<'_>) -> Result<Change, LineFault>
    ensures { Reads result (linked_at fields.old) fields.new }
{
    let name = fields.name(alloc)?;
    let obj = fields.u32()?;
    Ok(Change::Linked { name, obj })
}

#[tactic(auto, unfolding(crate::specs::Changes::removed_at))]
fn read_removed(alloc: Global, fields: &mut Fields<'_>) -> Result<Change, LineFault>
    ensures { Reads result (removed_at fields.old) fields.new }
{
    let name = fields.name(alloc)?;
    Ok(Change::Removed(name))
}

#[tactic(auto, unfolding(crate::specs::Changes::renamed_at))]
fn read_renamed(alloc: Global, fields: &mut Fields<'_>) -> Result<Change, LineFault>
    ensures { Reads result (renamed_at fields.old) fields.new }
{
    let old = fields.name(alloc)?;
    let new = fields.name(alloc)?;
    Ok(Change::Renamed { old, new })
}

#[tactic(auto, unfolding(crate::specs::Changes::cwd_at))]
fn read_cwd(alloc: Global, fields: &mut Fields<'_>) -> Result<Change, LineFault>
    ensures { Reads result (cwd_at fields.old) fields.new }
{
    let name = fields.name(alloc)?;
    Ok(Change::Cwd(name))
}

#[tactic(auto, unfolding(crate::specs::Changes::written_at))]
fn read_written(alloc: Global, fields: &mut Fields<'_>) -> Result<Change, LineFault>
    ensures { Reads result (written_at fields.old) fields.new }
{
    let obj = fields.u32()?;
    let at = fields.u64()?;
    let bytes = fields.bytes(alloc)?;
    Ok(Change::Written { obj, at, bytes })
}

#[tactic(auto, unfolding(crate::specs::Changes::cut_at))]
fn read_cut(fields: &mut Fields<'_>) -> Result<Change, LineFault>
    ensures { Reads result (cut_at fields.old) fields.new }
{
    let obj = fields.u32()?;
    let len = fields.u64()?;
    Ok(Change::Cut { obj, len })
}

#[tactic(auto, unfolding(crate::specs::Changes::moded_at))]
fn read_moded(fields: &mut Fields<'_>) -> Result<Change, LineFault>
    ensures { Reads result (moded_at fields.old) fields.new }
{
    let obj = fields.u32()?;
    let mode = fields.mode()?;
    Ok(Change::Moded { obj, mode })
}

#[tactic(auto, unfolding(crate::specs::Changes::owned_at))]
fn read_owned(fields: &mut Fields<'_>) -> Result<Change, LineFault>
    ensures { Reads result (owned_at fields.old) fields.new }
{
    let obj = fields.u32()?;
    let uid = fields.u32()?;
    let gid = fields.u32()?;
    Ok(Change::Owned { obj, uid, gid })
}

#[tactic(auto, unfolding(crate::specs::Changes::put_at))]
fn read_put(alloc: Global, fields: &mut Fields<'_>) -> Result<Change, LineFault>
    ensures { Reads result (put_at fields.old) fields.new }
{
    let space = fields.u32()?;
    let at = fields.u64()?;
    let bytes = fields.bytes(alloc)?;
    Ok(Change::Put { space, at, bytes })
}

#[tactic(auto, unfolding(crate::specs::Changes::forked_at))]
fn read_forked(fields: &mut Fields<'_>) -> Result<Change, LineFault>
    ensures { Reads result (forked_at fields.old) fields.new }
{
    let pid = fields.u32()?;
    let space = fields.u32()?;
    let tid = fields.u32()?;
    Ok(Change::Forked { pid, space, tid })
}

#[tactic(auto, unfolding(crate::specs::Changes::execed_at))]
fn read_execed(alloc: Global, fields: &mut Fields<'_>) -> Result<Change, LineFault>
    ensures { Reads result (execed_at fields.old) fields.new }
{
    let binary = fields.text(alloc)?;
    let space = fields.u32()?;
    Ok(Change::Execed { binary, space })
}

#[tactic(auto, unfolding(crate::specs::Changes::set_ids_at))]
fn read_set_ids(fields: &mut Fields<'_>) -> Result<Change, LineFault>
    ensures { Reads result (set_ids_at fields.old) fields.new }
{
    let ids = fields.ids()?;
    Ok(Change::SetIds(ids))
}

#[tactic(auto, unfolding(crate::specs::Changes::dying_at))]
fn read_dying(fields: &mut Fields<'_>) -> Result<Change, LineFault>
    ensures { Reads result (dying_at fields.old) fields.new }
{
    let pid = fields.u32()?;
    Ok(Change::Dying(pid))
}

#[tactic(auto, unfolding(crate::specs::Changes::renewed_at))]
fn read_renewed(fields: &mut Fields<'_>) -> Result<Change, LineFault>
    ensures { Reads result (renewed_at fields.old) fields.new }
{
    let old = fields.u16()?;
    let new = fields.u16()?;
    Ok(Change::Renewed { old, new })
}

#[tactic(auto, unfolding(crate::specs::Changes::policy_at))]
fn read_policy(alloc: Global, fields: &mut Fields<'_>) -> Result<Change, LineFault>
    ensures { Reads result (policy_at fields.old) fields.new }
{
    let binary = fields.text(alloc)?;
    Ok(Change::Policy(binary))
}

// A change of a process or a message, by its word.
#[tactic(auto, unfolding(crate::specs::Changes::process_change))]
fn read_process_change(
    alloc: Global,
    word: &[u8],
    fields: &mut Fields<'_>,
) -> Result<Change, LineFault>
    ensures { Reads result (process_change word.now fields.old) fields.new }
{
    if is_same_text(word, b"forked") {
        read_forked(fields)
    } else if is_same_text(word, b"execed") {
        read_execed(alloc, fields)
    } else if is_same_text(word, b"setids") {
        read_set_ids(fields)
    } else if is_same_text(word, b"dying") {
        read_dying(fields)
    } else if is_same_text(word, b"renewed") {
        read_renewed(fields)
    } else if is_same_text(word, b"policy") {
        read_policy(alloc, fields)
    } else {
        Err(LineFault::NotInGrammar)
    }
}

// A change of an object or a memory, by its word, or one of another kind.
#[tactic(auto, unfolding(crate::specs::Changes::object_change))]
fn read_object_change(
    alloc: Global,
    word: &[u8],
    fields: &mut Fields<'_>,
) -> Result<Change, LineFault>
    ensures { Reads result (object_change word.now fields.old) fields.new }
{
    if is_same_text(word, b"written") {
        read_written(alloc, fields)
    } else if is_same_text(word, b"cut") {
        read_cut(fields)
    } else if is_same_text(word, b"moded") {
        read_moded(fields)
    } else if is_same_text(word, b"owned") {
        read_owned(fields)
    } else if is_same_text(word, b"put") {
        read_put(alloc, fields)
    } else {
        read_process_change(alloc, word, fields)
    }
}

// A change of a name, by its word, or one of another kind.
#[tactic(auto, unfolding(crate::specs::Changes::name_change))]
fn read_name_change(
    alloc: Global,
    word: &[u8],
    fields: &mut Fields<'_>,
) -> Result<Change, LineFault>
    ensures { Reads result (name_change word.now fields.old) fields.new }
{
    if is_same_text(word, b"made") {
        read_made(alloc, fields)
    } else if is_same_text(word, b"linked") {
        read_linked(alloc, fields)
    } else if is_same_text(word, b"removed") {
        read_removed(alloc, fields)
    } else if is_same_text(word, b"renamed") {
        read_renamed(alloc, fields)
    } else if is_same_text(word, b"cwd") {
        read_cwd(alloc, fields)
    } else {
        read_object_change(alloc, word, fields)
    }
}

#[tactic(auto, unfolding(crate::specs::Changes::change_at))]
fn read_change(alloc: Global, fields: &mut Fields<'_>) -> Result<Change, LineFault>
    ensures { Reads result (change_at fields.old) fields.new }
{
    let word = fields.word()?;
    read_name_change(alloc, word, fields)
}

// A change after a comma.
#[tactic(auto, unfolding(crate::specs::Changes::next_change_at))]
fn read_next_change(alloc: Global, fields: &mut Fields<'_>) -> Result<Change, LineFault>
    ensures { Reads result (next_change_at fields.old) fields.new }
{
    fields.comma()?;
    read_change(alloc, fields)
}

/// The changes up to the line's end. There are fewer of them than bytes.
pub(crate) fn read_changes(
    alloc: Global,
    fields: &mut Fields<'_>,
) -> Result<Sequence<Change>, LineFault>
    ensures { Gives result (changes_at fields.old) }
{
    let most = fields.len();
    let mut changes = Sequence::new(alloc);
    for _ in 0..most {
        if fields.is_empty() {
            return Ok(changes);
        }
        changes.push(read_next_change(alloc, fields)?)?;
    }
    if fields.is_empty() {
        Ok(changes)
    } else {
        Err(LineFault::NotInGrammar)
    }
}
