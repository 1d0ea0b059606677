ghost use Rattle.std.specs.Prelude.{◌≡◌, Some, true, false, OnOk, OnErr};
ghost use Rattle.std.specs.BTreeMap.{insert_entry, is_at};
ghost use Rattle.std.specs.List.Sorted.{IsStrictlySortedBy};
ghost use Rattle.std.specs.Map.{keys_of, lookup};
ghost use Rattle.std.specs.Ordering.{nat_cmp};
ghost use Rattle.st_model.specs.Processes.{has_not_ended};

use st_base::{Pid, Tid};
use std::alloc::AllocError;
use std::collections::BTreeMap;
use std::marker::Model;

/// A thread that has started.
#[derive(Clone, Copy, Debug)]
pub struct StartedThread {
    pub pid: Pid,
    pub ended: bool,
}

impl Model for StartedThread {
    ghost use Rattle.st_model.specs.Processes as processes;

    ghost Value = { processes.StartedThread };

    ghost view = { λ t. record { pid = t.pid; ended = t.ended } };

    ghost inverse = { λ t. record { pid = t.pid; ended = t.ended } };
}

/// Inserts a thread of this process, which hasn't ended. If memory runs out, nothing changes.
pub fn begin(
    threads: &mut BTreeMap<Tid, StartedThread>,
    tid: Tid,
    pid: Pid,
) -> Result<(), AllocError>
    ensures entries { OnOk result (threads.new.entries ≡ insert_entry nat_cmp threads.old.entries tid (record { pid = pid; ended = false })) }
    ensures ordered { IsStrictlySortedBy nat_cmp (keys_of threads.new.entries) }
    ensures err { OnErr result (threads.new.entries ≡ threads.old.entries) }
{
    threads.insert(tid, StartedThread { pid, ended: false })?;
    Ok(())
}

/// Ends a thread that hasn't ended, and returns its process. Takes no memory.
pub fn end(threads: &mut BTreeMap<Tid, StartedThread>, tid: Tid) -> Pid
    requires { has_not_ended (lookup (is_at (nat_cmp tid)) threads.old.entries) ≡ true }
    ensures pid { lookup (is_at (nat_cmp tid)) threads.old.entries ≡ Some (record { pid = result; ended = false }) }
    ensures entries { threads.new.entries ≡ insert_entry nat_cmp threads.old.entries tid (record { pid = result; ended = true }) }
    ensures ordered { IsStrictlySortedBy nat_cmp (keys_of threads.new.entries) }
{
    let Some(thread) = threads.get(&tid) else {
        unreachable!()
    };
    let pid = thread.pid;
    let _ = threads.insert(tid, StartedThread { pid, ended: true });
    pid
}
