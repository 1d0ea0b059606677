ghost use Rattle.std.specs.Prelude.{◌≡◌, ℕ, ◌<◌, is_none, is_some, slice_set, true};
ghost use Rattle.st_model.specs.declared.open_file.TheConstants.{DESCRIPTORS};
ghost use Rattle.std.specs.List.{position};
ghost use Rattle.std.specs.BTreeMap.{insert_entry, is_at};
ghost use Rattle.std.specs.List.Sorted.{IsStrictlySortedBy};
ghost use Rattle.std.specs.Map.{keys_of, lookup};
ghost use Rattle.std.specs.Ordering.{nat_cmp};
ghost use Rattle.st_model.specs.Descriptors.{is_bound_to, has_bound_file, file_of_number, places_in};

use st_base::Pid;
use st_model::{DESCRIPTORS, FileKind, OpenFile};
use std::collections::BTreeMap;

/// For each descriptor of a process, the number of its open file; `None` if the descriptor is free.
pub type Places = [Option<usize>; DESCRIPTORS];

/// The least free descriptor; `None` if all are open.
pub fn least_free(places: &[Option<usize>]) -> Option<usize>
    ensures { result ≡ position is_none places.now }
{
    places.iter().position(|place| place.is_none())
}

/// The descriptors of a process that has a table.
pub fn places_of(processes: &BTreeMap<Pid, Places>, pid: Pid) -> &Places
    requires { is_some (lookup (is_at (nat_cmp pid)) processes.now.entries) ≡ true }
    ensures { result.now ≡ places_in processes.now.entries pid }
{
    match processes.get(&pid) {
        Some(places) => places,
        None => unreachable!(),
    }
}

/// Makes a descriptor of a process that has a table refer to the open file of this number, or frees it.
pub fn set_place(processes: &mut BTreeMap<Pid, Places>, pid: Pid, fd: usize, number: Option<usize>)
    requires has { is_some (lookup (is_at (nat_cmp pid)) processes.old.entries) ≡ true }
    requires within { fd < DESCRIPTORS }
    ensures entries { processes.new.entries ≡ insert_entry nat_cmp processes.old.entries pid (slice_set (places_in processes.old.entries pid) fd number) }
    ensures ordered { IsStrictlySortedBy nat_cmp (keys_of processes.old.entries) }
    ensures tables { (other : ℕ) → is_some (lookup (is_at (nat_cmp other)) processes.new.entries) ≡ is_some (lookup (is_at (nat_cmp other)) processes.old.entries) }
{
    if let Some(places) = processes.get_mut(&pid) {
        places[fd] = number;
    }
}

/// Replaces the descriptors of a process that has a table, which takes no memory.
pub fn put(processes: &mut BTreeMap<Pid, Places>, pid: Pid, places: Places)
    requires { is_some (lookup (is_at (nat_cmp pid)) processes.old.entries) ≡ true }
    ensures entries { processes.new.entries ≡ insert_entry nat_cmp processes.old.entries pid places }
    ensures tables { (other : ℕ) → is_some (lookup (is_at (nat_cmp other)) processes.new.entries) ≡ is_some (lookup (is_at (nat_cmp other)) processes.old.entries) }
{
    let _ = processes.insert(pid, places);
}

/// The open file of this number, if it exists.
pub fn file_of_number(files: &[OpenFile], number: Option<usize>) -> Option<OpenFile>
    ensures { result ≡ file_of_number files.now number }
{
    files.get(number?).copied()
}

/// Whether the open file of this number exists and is bound to this port.
pub fn is_bound_to(files: &[OpenFile], number: Option<usize>, port: u16) -> bool
    ensures { result ≡ is_bound_to port (file_of_number files.now number) }
{
    match file_of_number(files, number) {
        Some(
            OpenFile {
                kind: FileKind::Socket {
                    port: Some(other),
                    ..
                },
                ..
            },
        ) => other == port,
        _ => false,
    }
}

/// Whether one of these descriptors refers to an open file that is bound to this port.
pub fn has_bound_file(files: &[OpenFile], port: u16, places: &[Option<usize>]) -> bool
    ensures { result ≡ has_bound_file files.now port places.now }
{
    places
        .iter()
        .any(|number| is_bound_to(files, *number, port))
}
