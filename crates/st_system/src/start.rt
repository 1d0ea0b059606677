// Builds the system that a run starts with: the tree, the processes and the threads of a script's rows.
ghost use Rattle.std.specs.Prelude.{◌≡◌, ◌<◌, ◌^◌, ◌-◌, ◌==◌, ℕ, true, false, suc, [], None, if◌then◌else◌, unwrap_or, IfOk, OnOk};
ghost use Rattle.std.specs.List.{fold};
ghost use Rattle.st_memory.specs.Memory.{byte_in, next_space, ChangesLive};
ghost use Rattle.st_fds.specs.Table.{ChangesTable};
ghost use Rattle.st_model.specs.DescriptorCalls.{table_after_start};
ghost use Rattle.st_model.specs.Descriptors.{has_table};
ghost use Rattle.st_model.specs.Processes.{next_pid, pid_of, processes_after_start, thread_at};
ghost use Rattle.st_model.specs.Tree.{root_only};
ghost use Rattle.st_model.specs.Adding.{add_refused};
ghost use Rattle.st_law.specs.Processes.{first_ids, process_count, tree_with_row};
ghost use Rattle.st_law.specs.State.{thread_count};
ghost use Rattle.st_law.specs.Threads.{first_owner};
ghost use Rattle.st_procs.specs.Laws.{AreOrdered};
ghost use Rattle.st_system.specs.Start.{first_thread_of, AreFirst, HaveStarted};
ghost use Rattle.st_law.specs.Inputs.{CanStand};

use st_base::{Ids, Pid, Shared, Tid};
use st_fds::Fds;
use st_law::Input;
use st_memory::Spaces;
use st_procs::{ProcRow, Procs};
use st_request::unrefused;
use st_trace::{ProcessRow, ThreadRow, TreeRow};
use st_tree::Tree;
use std::alloc::{AllocError, Global};

// Puts the object of a row into a tree.
fn put_row(tree: &mut Tree, alloc: Global, row: &TreeRow) -> Result<(), AllocError>
    requires { add_refused tree.old row.now.name ≡ None }
    ensures { OnOk result (tree.new ≡ tree_with_row tree.old row.now) }
{
    unrefused(tree.add(alloc, &row.name, row.new.copy(alloc)?))?;
    Ok(())
}

// The tree of some rows.
pub(crate) fn tree_of(alloc: Global, rows: &[TreeRow]) -> Result<Tree, AllocError>
    requires { CanStand rows.now }
    ensures { IfOk result (λ tree. tree ≡ fold tree_with_row root_only rows.now) }
{
    let mut tree = Tree::new(alloc)?;
    tree.reserve(rows.len())?;
    for row in rows {
        put_row(&mut tree, alloc, row)?;
    }
    Ok(tree)
}

// Starts the process of a row, with the next number and the memory of that number.
fn add_process(
    fds: &mut Fds,
    procs: &mut Procs,
    spaces: &mut Spaces,
    alloc: Global,
    ids: Ids,
    row: &ProcessRow,
) -> Result<(), AllocError>
    requires pids { next_pid procs.old < 2 ^ 32 - 1 }
    requires spaces { next_space spaces.old ≡ next_pid procs.old }
    requires table { has_table fds.old (next_pid procs.old) ≡ false }
    ensures table { OnOk result (fds.new ≡ table_after_start fds.old (next_pid procs.old)) }
    ensures process { OnOk result (procs.new ≡ processes_after_start procs.old (record { traced = row.now.traced; policy = row.now.binary; ids = ids; cwd = row.now.cwd; space = next_pid procs.old })) }
    ensures tables { OnOk result (ChangesTable fds.old (next_pid procs.old) true fds.new) }
    ensures pids { OnOk result (next_pid procs.new ≡ suc (next_pid procs.old)) }
    ensures spaces { OnOk result (next_space spaces.new ≡ suc (next_space spaces.old)) }
    ensures live { OnOk result (ChangesLive spaces.old (next_space spaces.old) true spaces.new) }
    ensures bytes { (s b : ℕ) → byte_in spaces.new s b ≡ byte_in spaces.old s b }
{
    let space = spaces.make(alloc)?;
    let pid = procs.start(ProcRow {
        traced: row.traced,
        binary: Shared::new(alloc, row.binary.copy(alloc)?)?,
        ids,
        cwd: Shared::new(alloc, row.cwd.copy(alloc)?)?,
        space,
    })?;
    fds.start(pid)
}

// The ids of a process, by its row. The options may give each traced process other ids.
fn first_ids(given: Option<(u32, u32)>, row: &ProcessRow) -> Ids
    ensures { result ≡ first_ids given row.now.traced row.now.uid row.now.gid }
{
    match given {
        Some((uid, gid)) if row.traced => Ids::of(uid, gid),
        _ => Ids::of(row.uid, row.gid),
    }
}

// The descriptors, processes and memories of a script's rows. No thread has started.
pub(crate) fn processes_of(alloc: Global, input: &Input) -> Result<(Fds, Procs, Spaces), AllocError>
    requires { process_count input.now < 2 ^ 31 }
    ensures { IfOk result (λ made. AreFirst input.now (process_count input.now) made.0 made.1 made.2) }
{
    let mut fds = Fds::new(alloc);
    let mut procs = Procs::new(alloc);
    let mut spaces = Spaces::new(alloc);
    let rows = input.start.processes.as_slice();
    for i in 0..rows.len() {
        let row = &rows[i];
        let ids = first_ids(input.options.ids, row);
        add_process(&mut fds, &mut procs, &mut spaces, alloc, ids, row)?;
    }
    Ok((fds, procs, spaces))
}

// The number of the process that a row's thread starts in; 0 if a fork starts the thread.
fn owner_of(row: &ThreadRow) -> Pid
    ensures { result ≡ unwrap_or row.now.process 0 }
{
    row.process.unwrap_or(0)
}

// Starts a thread in a process, unless the process's number is 0: then a fork starts the thread.
fn begin(procs: &mut Procs, tid: Tid, owner: Pid) -> Result<(), AllocError>
    requires thread { pid_of procs.old tid ≡ None }
    requires process { owner < next_pid procs.old }
    ensures threads { OnOk result ((t : ℕ) → thread_at procs.new t ≡ (if t == tid then first_thread_of owner else thread_at procs.old t)) }
    ensures rows { OnOk result (procs.new.rows ≡ procs.old.rows) }
    ensures ordered { OnOk result (AreOrdered procs.old → AreOrdered procs.new) }
{
    if owner == 0 {
        return Ok(());
    }
    procs.begin(tid, owner)
}

// Starts the threads whose rows name a process.
pub(crate) fn begin_threads(procs: &mut Procs, input: &Input) -> Result<(), AllocError>
    requires none { procs.old.threads ≡ [] }
    requires owners { (t : ℕ) → first_owner input.now t < next_pid procs.old }
    requires few { thread_count input.now < 2 ^ 31 }
    ensures { OnOk result (HaveStarted input.now (thread_count input.now) procs.old procs.new) }
{
    let rows = input.start.threads.as_slice();
    for i in 0..rows.len() {
        let row = &rows[i];
        begin(procs, i as Tid + 1, owner_of(row))?;
    }
    Ok(())
}
