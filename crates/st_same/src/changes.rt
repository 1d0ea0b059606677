// Whether two changes that calls make are the same.
ghost use Rattle.std.specs.Prelude.{◌≡◌, ◌↔◌, true, length, IsTrue};
ghost use Rattle.st_same.specs.Families.{is_of_content, is_of_names, is_of_processes};

use crate::texts::{is_same_kind, is_same_name};
use st_base::is_same_text;
use st_trace::Change;

// Whether two changes of names are the same.
fn is_same_of_names(one: &Change, other: &Change) -> bool
    ensures { IsTrue result ↔ (is_of_names one.now ≡ true) × (one.now ≡ other.now) }
{
    match (one, other) {
        (
            Change::Made {
                name,
                obj,
                kind,
                uid,
                gid,
                mode,
            },
            Change::Made {
                name: other_name,
                obj: other_obj,
                kind: other_kind,
                uid: other_uid,
                gid: other_gid,
                mode: other_mode,
            },
        ) => {
            obj == other_obj
                && uid == other_uid
                && gid == other_gid
                && mode == other_mode
                && is_same_name(name, other_name)
                && is_same_kind(kind, other_kind)
        }
        (
            Change::Linked { name, obj },
            Change::Linked {
                name: other_name,
                obj: other_obj,
            },
        ) => { obj == other_obj && is_same_name(name, other_name) }
        (Change::Removed(name), Change::Removed(other_name)) => is_same_name(name, other_name),
        (
            Change::Renamed { old, new },
            Change::Renamed {
                old: other_old,
                new: other_new,
            },
        ) => { is_same_name(old, other_old) && is_same_name(new, other_new) }
        _ => false,
    }
}

// Whether two changes of objects or memories are the same.
fn is_same_of_content(one: &Change, other: &Change) -> bool
    ensures { IsTrue result ↔ (is_of_content one.now ≡ true) × (one.now ≡ other.now) }
{
    match (one, other) {
        (
            Change::Written { obj, at, bytes },
            Change::Written {
                obj: other_obj,
                at: other_at,
                bytes: other_bytes,
            },
        ) => {
            obj == other_obj && at == other_at && is_same_text(bytes.bytes(), other_bytes.bytes())
        }
        (
            Change::Cut { obj, len },
            Change::Cut {
                obj: other_obj,
                len: other_len,
            },
        ) => { obj == other_obj && len == other_len }
        (
            Change::Moded { obj, mode },
            Change::Moded {
                obj: other_obj,
                mode: other_mode,
            },
        ) => { obj == other_obj && mode == other_mode }
        (
            Change::Owned { obj, uid, gid },
            Change::Owned {
                obj: other_obj,
                uid: other_uid,
                gid: other_gid,
            },
        ) => { obj == other_obj && uid == other_uid && gid == other_gid }
        (
            Change::Put { space, at, bytes },
            Change::Put {
                space: other_space,
                at: other_at,
                bytes: other_bytes,
            },
        ) => {
            space == other_space
                && at == other_at
                && is_same_text(bytes.bytes(), other_bytes.bytes())
        }
        _ => false,
    }
}

// Whether two changes of processes or messages are the same.
fn is_same_of_processes(one: &Change, other: &Change) -> bool
    ensures { IsTrue result ↔ (is_of_processes one.now ≡ true) × (one.now ≡ other.now) }
{
    match (one, other) {
        (
            Change::Forked { pid, space, tid },
            Change::Forked {
                pid: other_pid,
                space: other_space,
                tid: other_tid,
            },
        ) => { pid == other_pid && space == other_space && tid == other_tid }
        (
            Change::Execed { binary, space },
            Change::Execed {
                binary: other_binary,
                space: other_space,
            },
        ) => { space == other_space && is_same_text(binary.bytes(), other_binary.bytes()) }
        (Change::SetIds(ids), Change::SetIds(other_ids)) => ids == other_ids,
        (Change::Cwd(name), Change::Cwd(other_name)) => is_same_name(name, other_name),
        (Change::Dying(pid), Change::Dying(other_pid)) => pid == other_pid,
        (
            Change::Renewed { old, new },
            Change::Renewed {
                old: other_old,
                new: other_new,
            },
        ) => { old == other_old && new == other_new }
        (Change::Policy(binary), Change::Policy(other_binary)) => {
            is_same_text(binary.bytes(), other_binary.bytes())
        }
        _ => false,
    }
}

// Whether two changes are the same.
fn is_same_change(one: &Change, other: &Change) -> bool
    ensures { IsTrue result ↔ (one.now ≡ other.now) }
{
    is_same_of_names(one, other)
        || is_same_of_content(one, other)
        || is_same_of_processes(one, other)
}

// Whether the changes of two lists of the same length are the same, each at its place.
fn is_each_change_same(one: &[Change], other: &[Change]) -> bool
    requires { length one.now ≡ length other.now }
    ensures { IsTrue result ↔ (one.now ≡ other.now) }
{
    let mut left = one.len();
    while left > 0 {
        left -= 1;
        if !is_same_change(&one[left], &other[left]) {
            return false;
        }
    }
    true
}

// Whether two lists have the same changes, in the same order.
pub(crate) fn are_same_changes(one: &[Change], other: &[Change]) -> bool
    ensures { IsTrue result ↔ (one.now ≡ other.now) }
{
    one.len() == other.len() && is_each_change_same(one, other)
}
