ghost use Rattle.std.specs.Prelude.{◌≡◌, suc, ◌^◌, ◌-◌, ◌<◌, ◌↔◌, Some, None, true, false, [], not, IsTrue, IfSome, IfOk, OnOk, OnErr};
ghost use Rattle.st_calls.specs.Call.{sets_ids};
ghost use Rattle.st_model.specs.Identity.{ids_after_set, set_refused};
ghost use Rattle.st_model.specs.Processes.{IsPid, processes_after_begin, processes_after_exec, processes_after_fork, is_process_live, is_running, next_pid, pid_of, process_at, processes_after_start, processes_after_end, with_cwd, with_ids};
ghost use Rattle.st_procs.specs.Calls.{set_ids_result};
ghost use Rattle.st_procs.specs.Laws.{AreOrdered, HasEnded, IsLast, ThreadEnds, ThreadStarts};
ghost use Rattle.st_procs.specs.Rows.{process_of};

use crate::identity;
use crate::rows::{self, ProcRow, Row, ThreadCounts};
use crate::threads::{self, StartedThread};
use st_base::{Errno, Ids, Pid, Shared, Space, Text, Tid};
use st_calls::SysCall;
use st_names::AbsName;
use std::alloc::{AllocError, Global};
use std::collections::BTreeMap;
use std::marker::Model;

/// The processes, numbered from 1 in the order in which they started, and the threads that have started.
#[derive(Debug, Drop)]
pub struct Procs {
    // Process p is at index p - 1.
    rows: Vec<Row>,
    threads: BTreeMap<Tid, StartedThread>,
}

impl Model for Procs {
    ghost use Rattle.st_model.specs.Processes.{Processes};

    ghost Value = { Processes };

    ghost use Rattle.st_procs.specs.Rows.{AreCounted, counts_of, processes_of};

    ghost view = { λ p. record { rows = processes_of p.rows.items; threads = p.threads.entries } };

    ghost invariant = { λ p. AreCounted (counts_of p.rows.items) p.threads.entries };
}

impl Procs {
    /// A table without processes and threads, which takes no memory.
    pub fn new(alloc: Global) -> Self
        ensures rows { result.rows ≡ [] }
        ensures threads { result.threads ≡ [] }
    {
        Procs {
            rows: Vec::new(alloc),
            threads: BTreeMap::new(alloc),
        }
    }

    /// The number of the next process.
    pub fn next_pid(&self) -> Pid
        ensures { result ≡ next_pid self.now }
    {
        self.rows.len() as Pid + 1
    }

    /// Starts a process without threads, and returns its number. If memory runs out, nothing changes.
    pub fn start(&mut self, row: ProcRow) -> Result<Pid, AllocError>
        requires { next_pid self.old < 2 ^ 32 - 1 }
        ensures pid { IfOk result (λ pid. pid ≡ next_pid self.old) }
        ensures ok { OnOk result (self.new ≡ processes_after_start self.old (process_of row)) }
        ensures pids { OnOk result (next_pid self.new ≡ suc (next_pid self.old)) }
        ensures err { OnErr result (self.new ≡ self.old) }
    {
        let pid = self.rows.len() as Pid + 1;
        let threads = ThreadCounts {
            begun: 0,
            running: 0,
        };
        self.rows.push(Row {
            process: row,
            threads,
        })?;
        Ok(pid)
    }

    /// The process of a thread; `None` exactly when the thread hasn't started.
    pub fn pid_of(&self, tid: Tid) -> Option<Pid>
        ensures pid { result ≡ pid_of self.now tid }
        ensures there { IfSome result (λ pid. IsPid self.now pid) }
    {
        match self.threads.get(&tid) {
            Some(thread) => Some(thread.pid),
            None => None,
        }
    }

    /// The ids of a process.
    pub fn ids(&self, pid: Pid) -> Ids
        requires { IsPid self.now pid }
        ensures { result ≡ (process_at self.now pid).ids }
    {
        rows::process(&self.rows, pid).ids
    }

    /// The directory of a process, where its relative names begin.
    pub fn cwd(&self, pid: Pid) -> &Shared<AbsName>
        requires { IsPid self.now pid }
        ensures { result.now ≡ (process_at self.now pid).cwd }
    {
        &rows::process(&self.rows, pid).cwd
    }

    /// The binary whose policy applies to a process.
    pub fn policy(&self, pid: Pid) -> &Shared<Text>
        requires { IsPid self.now pid }
        ensures { result.now ≡ (process_at self.now pid).policy }
    {
        &rows::process(&self.rows, pid).binary
    }

    /// The number of a process's memory space.
    pub fn space(&self, pid: Pid) -> Space
        requires { IsPid self.now pid }
        ensures { result ≡ (process_at self.now pid).space }
    {
        rows::process(&self.rows, pid).space
    }

    /// Whether policies apply to a process.
    pub fn traced(&self, pid: Pid) -> bool
        requires { IsPid self.now pid }
        ensures { result ≡ (process_at self.now pid).traced }
    {
        rows::process(&self.rows, pid).traced
    }

    /// Whether a process hasn't ended: it never had a thread, or has one that hasn't ended.
    pub fn alive(&self, pid: Pid) -> bool
        requires { IsPid self.now pid }
        ensures live { result ≡ is_process_live self.now pid }
        ensures ended { (result ≡ false) ↔ HasEnded self.now pid }
    {
        let counts = rows::counts(&self.rows, pid);
        counts.begun == 0 || counts.running > 0
    }

    /// Starts a thread of a process. If memory runs out, nothing changes.
    pub fn begin(&mut self, tid: Tid, pid: Pid) -> Result<(), AllocError>
        requires process { IsPid self.old pid }
        requires thread { pid_of self.old tid ≡ None }
        ensures ok { OnOk result (self.new ≡ processes_after_begin self.old tid pid) }
        ensures threads { OnOk result (ThreadStarts self.old tid pid self.new) }
        ensures pids { next_pid self.new ≡ next_pid self.old }
        ensures err { OnErr result (self.new ≡ self.old) }
    {
        let counts = rows::counts(&self.rows, pid);
        threads::begin(&mut self.threads, tid, pid)?;
        let more = ThreadCounts {
            begun: counts.begun + 1,
            running: counts.running + 1,
        };
        rows::set_count(&mut self.rows, pid, more);
        Ok(())
    }

    /// Starts a process that equals this one but for its memory, with one thread, as fork(2) does, and returns its number. If
    /// memory runs out, nothing changes.
    pub fn fork(&mut self, pid: Pid, tid: Tid, space: Space) -> Result<Pid, AllocError>
        requires parent { IsPid self.old pid }
        requires thread { pid_of self.old tid ≡ None }
        requires room { next_pid self.old < 2 ^ 32 - 1 }
        ensures pid { IfOk result (λ child. child ≡ next_pid self.old) }
        ensures ok { OnOk result (self.new ≡ processes_after_fork self.old pid tid space) }
        ensures threads { OnOk result (ThreadStarts self.old tid (next_pid self.old) self.new) }
        ensures pids { OnOk result (next_pid self.new ≡ suc (next_pid self.old)) }
        ensures err { OnErr result (self.new ≡ self.old) }
    {
        let child = self.rows.len() as Pid + 1;
        let process = rows::process(&self.rows, pid).child(space)?;
        self.rows.reserve(1)?;
        threads::begin(&mut self.threads, tid, child)?;
        let threads = ThreadCounts {
            begun: 1,
            running: 1,
        };
        self.rows.push_reserved(Row { process, threads });
        Ok(child)
    }

    /// Gives a process another memory space, and the policy of the binary that it executes unless it keeps its own, as execve(2)
    /// does. Takes no memory.
    pub fn exec(&mut self, pid: Pid, binary: Shared<Text>, space: Space, inherit: bool)
        requires { IsPid self.old pid }
        ensures rows { self.new ≡ processes_after_exec self.old pid binary space inherit }
        ensures pids { next_pid self.new ≡ next_pid self.old }
    {
        rows::execute(&mut self.rows, pid, binary, space, inherit);
    }

    /// Sets ids of a process by one of the four calls that do so, and returns all its ids. Takes no memory. EINVAL if the value
    /// isn't an id, otherwise EPERM if the process may not set it; after either error nothing has changed.
    pub fn set_ids(&mut self, pid: Pid, call: SysCall, value: u64) -> Result<Ids, Errno>
        requires process { IsPid self.old pid }
        requires call { sets_ids call ≡ true }
        ensures answer { result ≡ set_ids_result (set_refused call (process_at self.old pid).ids value) (ids_after_set call (process_at self.old pid).ids value) }
        ensures ok { IfOk result (λ ids. self.new ≡ with_ids self.old pid ids) }
        ensures pids { next_pid self.new ≡ next_pid self.old }
        ensures err { OnErr result (self.new ≡ self.old) }
    {
        let before = rows::process(&self.rows, pid).ids;
        let ids = identity::ids_after(call, before, value)?;
        rows::set_ids(&mut self.rows, pid, ids);
        Ok(ids)
    }

    /// Gives a process another directory. Takes no memory.
    pub fn set_cwd(&mut self, pid: Pid, cwd: Shared<AbsName>)
        requires { IsPid self.old pid }
        ensures rows { self.new ≡ with_cwd self.old pid cwd }
        ensures pids { next_pid self.new ≡ next_pid self.old }
    {
        rows::set_cwd(&mut self.rows, pid, cwd);
    }

    /// Ends a thread, and returns whether its process ends with it: whether it was the last thread that hadn't ended.
    pub fn end_thread(&mut self, tid: Tid) -> bool
        requires { is_running self.old tid ≡ true }
        ensures ended { self.new ≡ processes_after_end self.old tid }
        ensures threads { ThreadEnds self.old tid self.new }
        ensures pids { next_pid self.new ≡ next_pid self.old }
        ensures last { IsTrue result ↔ IsLast self.old tid }
        ensures live { IfSome (pid_of self.old tid) (λ pid. result ≡ not (is_process_live self.new pid)) }
    {
        let pid = self.finish(tid);
        !self.alive(pid)
    }

    // Ends a thread, and returns its process.
    fn finish(&mut self, tid: Tid) -> Pid
        requires { is_running self.old tid ≡ true }
        ensures ended { self.new ≡ processes_after_end self.old tid }
        ensures pid { pid_of self.old tid ≡ Some result }
        ensures there { IsPid self.old result }
        ensures pids { next_pid self.new ≡ next_pid self.old }
        ensures ordered { AreOrdered self.old }
    {
        let pid = threads::end(&mut self.threads, tid);
        let counts = rows::counts(&self.rows, pid);
        let running = counts.running - 1;
        rows::set_count(&mut self.rows, pid, ThreadCounts { running, ..counts });
        pid
    }
}
