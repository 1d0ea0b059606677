ghost use Rattle.std.specs.Prelude.{◌≡◌, ◌≤◌, ◌<◌, ℕ, true, cond, length, IsSome, IfSome, IfOk, OnErr, OnOk};
ghost use Rattle.st_fds.specs.Table.{KeepsTables};
ghost use Rattle.st_model.specs.DescriptorCalls.{table_after_close_all};
ghost use Rattle.st_model.specs.Descriptors.{has_table};
ghost use Rattle.st_model.specs.Processes.{IsPid, is_process_live, is_running, pid_of, process_at};
ghost use Rattle.st_memory.specs.Memory.{byte_in};
ghost use Rattle.st_model.specs.Memory.{word_of};
ghost use Rattle.st_model.specs.Tree.{look};
ghost use Rattle.st_names.specs.Name.{printed_name};
ghost use Rattle.st_names.specs.Seen.{seen_text};
ghost use Rattle.st_names.specs.declared.limits.TheConstants.{LONGEST_NAME};
ghost use Rattle.st_model.specs.declared.limits.TheConstants.{SPACE_WORDS};
ghost use Rattle.st_trace.specs.declared.entry.Entry.TheVariants.{Ended, Stored};
ghost use Rattle.st_law.specs.declared.input.Input.{Input};
ghost use Rattle.st_law.specs.Machine.{first_state, state_after};
ghost use Rattle.st_law.specs.State.{State, is_live_process};
ghost use Rattle.st_law.specs.Inputs.{CanStart};
ghost use Rattle.st_system.specs.System.{IsSystem};

use crate::start::{begin_threads, processes_of, tree_of};
use st_base::{Ids, Pid, Shared, Text, Tid};
use st_fds::Fds;
use st_law::Input;
use st_memory::{MemFault, Spaces};
use st_names::{AbsName, Seen};
use st_procs::Procs;
use st_tree::Tree;
use std::alloc::{AllocError, Global};
use std::marker::Model;

/// The modelled system that calls are made over: the file tree, descriptors, processes with their threads, and memories.
#[derive(Debug)]
pub struct System {
    pub(crate) tree: Tree,
    pub(crate) fds: Fds,
    pub(crate) procs: Procs,
    pub(crate) spaces: Spaces,
}

// Written out, so that another crate that drops one calls this, and doesn't drop its parts one by one.
impl Drop for System {
    fn drop(self) {
        let Self {
            tree: _,
            fds: _,
            procs: _,
            spaces: _,
        } = self;
    }
}

impl Model for System {
    ghost use Rattle.st_system.specs.System.{IsValidSystem, Parts};

    ghost Value = { Parts };

    ghost view = { λ s. record { tree = s.tree; descriptors = s.fds; processes = s.procs; memories = s.spaces } };

    ghost invariant = { λ s. IsValidSystem (record { tree = s.tree; descriptors = s.fds; processes = s.procs; memories = s.spaces }) };
}

// Closes the descriptors of a process, if it has ended.
fn close_if(fds: &mut Fds, pid: Pid, has_ended: bool)
    requires { has_table fds.old pid ≡ true }
    ensures table { fds.new ≡ cond has_ended (table_after_close_all fds.old pid) fds.old }
    ensures tables { KeepsTables fds.old fds.new }
{
    if has_ended {
        fds.close_all(pid);
    }
}

impl System {
    /// The system that a run starts with: the tree, processes and threads of its script. Each object, process and thread that a row names
    /// can exist, which the reader of scripts ensures.
    pub fn start(alloc: Global, input: &Input) -> Result<Self, AllocError>
        requires { CanStart input.now }
        ensures { IfOk result (λ system. IsSystem input.now (first_state input.now) system) }
    {
        let tree = tree_of(alloc, input.start.tree.as_slice())?;
        let (fds, mut procs, spaces) = processes_of(alloc, input)?;
        begin_threads(&mut procs, input)?;
        Ok(System {
            tree,
            fds,
            procs,
            spaces,
        })
    }

    /// The process of a thread; none if the thread hasn't started.
    pub fn pid_of(&self, tid: Tid) -> Option<Pid>
        ensures pid { result ≡ pid_of self.now.processes tid }
        ensures there { IfSome result (IsPid self.now.processes) }
    {
        self.procs.pid_of(tid)
    }

    /// Whether a process hasn't ended: it never had a thread, or has a thread that hasn't ended.
    pub fn is_live(&self, pid: Pid) -> bool
        requires { IsPid self.now.processes pid }
        ensures live { result ≡ is_process_live self.now.processes pid }
        ensures law { (i : Input) (st : State) → IsSystem i st self.now → result ≡ is_live_process i st pid }
    {
        self.procs.alive(pid)
    }

    /// The ids of a process.
    pub fn ids(&self, pid: Pid) -> Ids
        requires { IsPid self.now.processes pid }
        ensures { result ≡ (process_at self.now.processes pid).ids }
    {
        self.procs.ids(pid)
    }

    /// The directory in which a process's relative names are resolved. Its name has at most 1,024 bytes.
    pub fn cwd(&self, pid: Pid) -> &Shared<AbsName>
        requires { IsPid self.now.processes pid }
        ensures cwd { result.now ≡ (process_at self.now.processes pid).cwd }
        ensures short { length (printed_name result.now) ≤ LONGEST_NAME }
    {
        self.procs.cwd(pid)
    }

    /// The binary whose policy applies to a process.
    pub fn policy(&self, pid: Pid) -> &Shared<Text>
        requires { IsPid self.now.processes pid }
        ensures { result.now ≡ (process_at self.now.processes pid).policy }
    {
        self.procs.policy(pid)
    }

    /// Whether policies apply to a process.
    pub fn traced(&self, pid: Pid) -> bool
        requires { IsPid self.now.processes pid }
        ensures { result ≡ (process_at self.now.processes pid).traced }
    {
        self.procs.traced(pid)
    }

    /// The word with an index in a process's memory.
    pub fn word(&self, pid: Pid, place: u32) -> u64
        requires process { IsPid self.now.processes pid }
        requires place { place < SPACE_WORDS }
        ensures word { result ≡ word_of (byte_in self.now.memories (process_at self.now.processes pid).space) place }
        ensures law { (i : Input) (st : State) → IsSystem i st self.now → result ≡ word_of (st.memory (st.processes pid).space) place }
    {
        match self.spaces.word(self.procs.space(pid), place) {
            Some(word) => word,
            None => unreachable!(),
        }
    }

    /// What the tree has under a name.
    pub fn look<'a>(&'a self, name: &AbsName) -> Seen<'a>
        ensures { seen_text result ≡ look self.now.tree name.now }
    {
        self.tree.look(name)
    }

    /// Stores a word in the memory of a thread's process. If memory runs out for the copy of a shared page, nothing changes.
    pub fn store(
        &mut self,
        alloc: Global,
        tid: Tid,
        place: u32,
        word: u64,
    ) -> Result<(), AllocError>
        requires started { IsSome (pid_of self.old.processes tid) }
        requires place { place < SPACE_WORDS }
        ensures processes { self.new.processes ≡ self.old.processes }
        ensures system { OnOk result ((i : Input) (st : State) → IsSystem i st self.old → IsSystem i (state_after i st (Stored tid place word)) self.new) }
        ensures err { OnErr result (self.new ≡ self.old) }
    {
        let Some(pid) = self.procs.pid_of(tid) else {
            unreachable!()
        };
        let space = self.procs.space(pid);
        match self.spaces.put_word(alloc, space, place, word) {
            Ok(()) => Ok(()),
            Err(MemFault::NoMemory) => Err(AllocError),
            Err(MemFault::Outside) => unreachable!(),
        }
    }

    /// Ends a thread. With the last thread of its process, the process ends, and its descriptors are closed.
    pub fn end_thread(&mut self, tid: Tid)
        requires { is_running self.old.processes tid ≡ true }
        ensures { (i : Input) (st : State) → IsSystem i st self.old → IsSystem i (state_after i st (Ended tid)) self.new }
    {
        let Some(pid) = self.procs.pid_of(tid) else {
            unreachable!()
        };
        let is_last = self.procs.end_thread(tid);
        close_if(&mut self.fds, pid, is_last);
    }
}
