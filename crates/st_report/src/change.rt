ghost use Rattle.std.specs.Prelude.{◌≡◌, [], ◌∷◌, ◌++◌, codes, OnOk};
ghost use Rattle.st_report.specs.ChangeText.{kind_word, target_text, change_text, changes_fields};
ghost use Rattle.st_report.specs.Fields.{number_fields, text_field, name_field, bytes_field};

use crate::fields::{
    append_bytes, append_ids, append_mode, append_name, append_numbered, append_numbers,
    append_text, append_word,
};
use st_base::{Obj, Text};
use st_model::NewKind;
use st_names::AbsName;
use st_trace::Change;
use std::alloc::{AllocError, Global};

// The word for the kind of an object that is made.
fn kind_word(kind: &NewKind) -> &'static [u8]
    ensures { result.now ≡ kind_word kind.now }
{
    match kind {
        NewKind::Dir => b"dir",
        NewKind::File(_) => b"file",
        NewKind::Link(_) => b"link",
    }
}

// The target of a link that is made; empty for other kinds.
fn target_text(kind: &NewKind) -> &[u8]
    ensures { result.now ≡ target_text kind.now }
{
    match kind {
        NewKind::Dir | NewKind::File(_) => b"",
        NewKind::Link(target) => target.bytes(),
    }
}

// Appends a word without a blank, and a name.
fn append_named(
    alloc: Global,
    text: &mut Text,
    word: &[u8],
    name: &AbsName,
) -> Result<(), AllocError>
    ensures { OnOk result (text.new ≡ text.old ++ word.now ++ name_field name.now) }
{
    text.append(word)?;
    append_name(alloc, text, name)
}

// Appends a word without a blank, and a text.
fn append_printed(text: &mut Text, word: &[u8], printed: &Text) -> Result<(), AllocError>
    ensures { OnOk result (text.new ≡ text.old ++ word.now ++ text_field printed.now) }
{
    text.append(word)?;
    append_text(text, printed.bytes())
}

// Appends what is written: a word without a blank, where it is written, and the bytes.
fn append_written(
    text: &mut Text,
    word: &[u8],
    place: &[u64],
    bytes: &Text,
) -> Result<(), AllocError>
    ensures { OnOk result (text.new ≡ text.old ++ word.now ++ number_fields place.now ++ bytes_field bytes.now) }
{
    append_numbered(text, word, place)?;
    append_bytes(text, bytes.bytes())
}

// Appends what a new object is: its number, kind, user and group.
fn append_object(
    text: &mut Text,
    obj: Obj,
    kind: &NewKind,
    uid: u32,
    gid: u32,
) -> Result<(), AllocError>
    ensures { OnOk result (text.new ≡ text.old ++ number_fields (obj ∷ []) ++ codes " " ++ kind_word kind.now ++ number_fields (uid ∷ gid ∷ [])) }
{
    append_numbers(text, &[u64::from(obj)])?;
    append_word(text, kind_word(kind))?;
    append_numbers(text, &[u64::from(uid), u64::from(gid)])
}

// Appends a change.
fn append_change(alloc: Global, text: &mut Text, change: &Change) -> Result<(), AllocError>
    ensures { OnOk result (text.new ≡ text.old ++ change_text change.now) }
{
    match change {
        Change::Made {
            name,
            obj,
            kind,
            uid,
            gid,
            mode,
        } => {
            append_named(alloc, text, b"made", name)?;
            append_object(text, *obj, kind, *uid, *gid)?;
            append_mode(alloc, text, *mode)?;
            append_text(text, target_text(kind))
        }
        Change::Linked { name, obj } => {
            append_named(alloc, text, b"linked", name)?;
            append_numbers(text, &[u64::from(*obj)])
        }
        Change::Removed(name) => append_named(alloc, text, b"removed", name),
        Change::Renamed { old, new } => {
            append_named(alloc, text, b"renamed", old)?;
            append_name(alloc, text, new)
        }
        Change::Written { obj, at, bytes } => {
            append_written(text, b"written", &[u64::from(*obj), *at], bytes)
        }
        Change::Cut { obj, len } => append_numbered(text, b"cut", &[u64::from(*obj), *len]),
        Change::Moded { obj, mode } => {
            append_numbered(text, b"moded", &[u64::from(*obj)])?;
            append_mode(alloc, text, *mode)
        }
        Change::Owned { obj, uid, gid } => append_numbered(
            text,
            b"owned",
            &[u64::from(*obj), u64::from(*uid), u64::from(*gid)],
        ),
        Change::Put { space, at, bytes } => {
            append_written(text, b"put", &[u64::from(*space), *at], bytes)
        }
        Change::Forked { pid, space, tid } => append_numbered(
            text,
            b"forked",
            &[u64::from(*pid), u64::from(*space), u64::from(*tid)],
        ),
        Change::Execed { binary, space } => {
            append_printed(text, b"execed", binary)?;
            append_numbers(text, &[u64::from(*space)])
        }
        Change::SetIds(ids) => append_ids(text, b"setids", *ids),
        Change::Cwd(name) => append_named(alloc, text, b"cwd", name),
        Change::Dying(pid) => append_numbered(text, b"dying", &[u64::from(*pid)]),
        Change::Renewed { old, new } => {
            let numbers = [u64::from(*old), u64::from(*new)];
            append_numbered(text, b"renewed", &numbers)
        }
        Change::Policy(binary) => append_printed(text, b"policy", binary),
    }
}

/// Appends changes, each after a comma.
pub fn append_changes(alloc: Global, text: &mut Text, changes: &[Change]) -> Result<(), AllocError>
    ensures { OnOk result (text.new ≡ text.old ++ changes_fields changes.now) }
{
    for change in changes {
        text.append(b", ")?;
        append_change(alloc, text, change)?;
    }
    Ok(())
}
