ghost use Rattle.std.specs.Prelude.{◌≡◌, ◌<◌, ◌≤◌, length, IfOk};
ghost use Rattle.st_model.specs.Processes.{process_after_exec, no_process};
ghost use Rattle.st_base.specs.Numbered.{item_at_number_or, with_item_at_number};
ghost use Rattle.st_procs.specs.Rows.{counts_of, no_threads, process_of, processes_of};

use st_base::{Ids, Pid, Shared, Space, Text};
use st_names::AbsName;
use std::alloc::AllocError;

/// The row of a process, without the counts of its threads.
#[derive(Debug, Drop)]
pub struct ProcRow {
    /// Whether policies apply to it.
    pub traced: bool,
    /// The binary whose policy applies to the process.
    pub binary: Shared<Text>,
    pub ids: Ids,
    /// The directory where its relative names begin.
    pub cwd: Shared<AbsName>,
    /// The number of its memory space.
    pub space: Space,
}

impl ProcRow {
    /// A process that equals this one but for its memory space.
    pub fn child(&self, space: Space) -> Result<Self, AllocError>
        ensures { IfOk result (λ child. process_of child ≡ record (process_of self.now) { space = space }) }
    {
        Ok(ProcRow {
            traced: self.traced,
            binary: self.binary.share()?,
            ids: self.ids,
            cwd: self.cwd.share()?,
            space,
        })
    }
}

/// How many threads of a process have started, and how many of them haven't ended.
#[derive(Clone, Copy, Debug, PartialEq, Eq)]
pub struct ThreadCounts {
    pub begun: usize,
    pub running: usize,
}

/// A process and the counts of its threads.
#[derive(Debug, Drop)]
pub struct Row {
    pub process: ProcRow,
    pub threads: ThreadCounts,
}

/// The process of this number.
pub fn process(rows: &[Row], pid: Pid) -> &ProcRow
    requires from { 0 < pid }
    requires to { pid ≤ length rows.now }
    ensures { process_of result.now ≡ item_at_number_or no_process (processes_of rows.now) pid }
{
    &rows[pid as usize - 1].process
}

/// The counts of a process's threads.
pub fn counts(rows: &[Row], pid: Pid) -> ThreadCounts
    requires from { 0 < pid }
    requires to { pid ≤ length rows.now }
    ensures { result ≡ item_at_number_or no_threads (counts_of rows.now) pid }
{
    rows[pid as usize - 1].threads
}

/// Sets the counts of a process's threads.
pub fn set_count(rows: &mut [Row], pid: Pid, threads: ThreadCounts)
    requires from { 0 < pid }
    requires to { pid ≤ length rows.old }
    ensures counts { counts_of rows.new ≡ with_item_at_number (counts_of rows.old) pid threads }
    ensures processes { processes_of rows.new ≡ processes_of rows.old }
{
    rows[pid as usize - 1].threads = threads;
}

/// Gives a process another memory space, and the policy of the binary that it executes unless it keeps its own.
pub fn execute(rows: &mut [Row], pid: Pid, binary: Shared<Text>, space: Space, inherit: bool)
    requires from { 0 < pid }
    requires to { pid ≤ length rows.old }
    ensures counts { counts_of rows.new ≡ counts_of rows.old }
    ensures processes { processes_of rows.new ≡ with_item_at_number (processes_of rows.old) pid (process_after_exec (item_at_number_or no_process (processes_of rows.old) pid) binary space inherit) }
{
    let process = &mut rows[pid as usize - 1].process;
    process.space = space;
    if !inherit {
        process.binary = binary;
    }
}

/// Sets the ids of a process.
pub fn set_ids(rows: &mut [Row], pid: Pid, ids: Ids)
    requires from { 0 < pid }
    requires to { pid ≤ length rows.old }
    ensures counts { counts_of rows.new ≡ counts_of rows.old }
    ensures processes { processes_of rows.new ≡ with_item_at_number (processes_of rows.old) pid (record (item_at_number_or no_process (processes_of rows.old) pid) { ids = ids }) }
{
    rows[pid as usize - 1].process.ids = ids;
}

/// Sets the directory of a process.
pub fn set_cwd(rows: &mut [Row], pid: Pid, cwd: Shared<AbsName>)
    requires from { 0 < pid }
    requires to { pid ≤ length rows.old }
    ensures counts { counts_of rows.new ≡ counts_of rows.old }
    ensures processes { processes_of rows.new ≡ with_item_at_number (processes_of rows.old) pid (record (item_at_number_or no_process (processes_of rows.old) pid) { cwd = cwd }) }
{
    rows[pid as usize - 1].process.cwd = cwd;
}
