ghost use Rattle.std.specs.Prelude.{◌≡◌, ◌≢◌, [], ℕ, is_none, ◌<◌, ◌↔◌, Some, None, true, false, length, IsErrOf, IsNone, IsTrue, IfNone, IfSome, IfOk, IfErr, OnOk, OnErr};
ghost use Rattle.st_base.specs.declared.errno.Errno.TheVariants.{EBADF, EMFILE};
ghost use Rattle.st_model.specs.declared.open_file.TheConstants.{DESCRIPTORS};
ghost use Rattle.st_fds.specs.declared.fds.FdFault.TheVariants.{Os, NoMemory};
ghost use Rattle.st_model.specs.Descriptors.{Table, file_at, has_table, least_free, file_number_at, is_port_in_use};
ghost use Rattle.st_fds.specs.Table.{AreOpenBelow, ChangesTable, IsLeastFree, KeepsTables, WasOpened};
ghost use Rattle.st_model.specs.DescriptorCalls.{bind_refused, table_after_bind, close_refused, table_after_close, connect_refused, table_after_connect, table_after_copy, table_after_dup, table_after_close_all, table_after_open, seek_refused, table_after_seek, table_after_start, table_after_entry_removed};
ghost use Rattle.st_fds.specs.Calls.{result_of_refusal, dup_result};

use crate::places::{self, Places};
use st_base::{Errno, Pid};
use st_model::{DESCRIPTORS, FileKind, OpenFile};
use std::alloc::{AllocError, Global};
use std::collections::BTreeMap;
use std::marker::Model;
use thiserror::Error;

/// Why a call on descriptors failed.
#[derive(Clone, Copy, Debug, PartialEq, Eq, Drop, Error)]
pub enum FdFault {
    /// The call fails with this error.
    #[error("the call fails")]
    Os(Errno),
    /// Out of memory for the open file.
    #[error("out of memory")]
    NoMemory,
}

impl From<AllocError> for FdFault {
    ghost use Rattle.st_fds.specs.declared.fds.FdFault.TheVariants.{NoMemory};

    ghost from_gives = { λ _ fault. fault ≡ NoMemory };

    fn from(_error: AllocError) -> Self {
        FdFault::NoMemory
    }
}

/// The descriptors of every process, from 0 to 63, and the open files that they share. A port is in use while some descriptor of
/// some process refers to the socket that is bound to it.
#[derive(Debug, Drop)]
pub struct Fds {
    processes: BTreeMap<Pid, Places>,
    // All open files so far. The number of an open file is its index here.
    files: Vec<OpenFile>,
}

impl Model for Fds {
    ghost use Rattle.st_model.specs.Descriptors.{Table};

    ghost Value = { Table };

    ghost view = { λ f. record { processes = f.processes.entries; files = f.files.items } };

    ghost use Rattle.std.specs.Prelude.{length};
    ghost use Rattle.st_fds.specs.Table.{IsValidTable};

    ghost invariant = { λ f. IsValidTable f.processes.entries (length f.files.items) };
}

impl Fds {
    /// Makes a table of descriptors without any process, which takes no memory.
    pub fn new(alloc: Global) -> Self
        ensures processes { result.processes ≡ [] }
        ensures files { result.files ≡ [] }
    {
        Fds {
            processes: BTreeMap::new(alloc),
            files: Vec::new(alloc),
        }
    }

    /// The open file of a descriptor, as it is now; `None` exactly when the descriptor isn't open.
    pub fn get(&self, pid: Pid, fd: u64) -> Option<OpenFile>
        requires { has_table self.now pid ≡ true }
        ensures file { result ≡ file_at self.now pid fd }
        ensures none { IsNone result ↔ (file_number_at self.now pid fd ≡ None) }
    {
        match self.number(pid, fd) {
            Some(number) => Some(self.files[number]),
            None => None,
        }
    }

    // The number of the open file that a descriptor refers to.
    fn number(&self, pid: Pid, fd: u64) -> Option<usize>
        requires { has_table self.now pid ≡ true }
        ensures number { result ≡ file_number_at self.now pid fd }
        ensures within { IfSome result (λ number. number < length self.now.files) }
        ensures below { IfSome result (λ _. fd < DESCRIPTORS) }
    {
        let places = places::places_of(&self.processes, pid);
        if fd < DESCRIPTORS as u64 {
            places[fd as usize]
        } else {
            None
        }
    }

    // The number of a descriptor's open file, and that file; EBADF if the descriptor isn't open.
    fn find(&self, pid: Pid, fd: u64) -> Result<(usize, OpenFile), Errno>
        requires { has_table self.now pid ≡ true }
        ensures number { IfOk result (λ found. file_number_at self.now pid fd ≡ Some found.0) }
        ensures file { IfOk result (λ found. file_at self.now pid fd ≡ Some found.1) }
        ensures within { IfOk result (λ found. found.0 < length self.now.files) }
        ensures fault { IfErr result (λ errno. (errno ≡ EBADF) × (file_at self.now pid fd ≡ None)) }
    {
        match self.number(pid, fd) {
            Some(number) => Ok((number, self.files[number])),
            None => Err(Errno::EBADF),
        }
    }

    // The least free descriptor; `None` if all are open.
    fn least_free(&self, pid: Pid) -> Option<usize>
        requires { has_table self.now pid ≡ true }
        ensures value { result ≡ least_free self.now pid }
        ensures least { IfSome result (λ fd. IsLeastFree self.now pid fd) }
        ensures full { IfNone result (AreOpenBelow self.now pid DESCRIPTORS) }
    {
        places::least_free(places::places_of(&self.processes, pid))
    }

    /// Whether all 64 descriptors of a process are open.
    pub fn is_full(&self, pid: Pid) -> bool
        requires { has_table self.now pid ≡ true }
        ensures value { result ≡ is_none (least_free self.now pid) }
        ensures full { IsTrue result → AreOpenBelow self.now pid DESCRIPTORS }
    {
        self.least_free(pid).is_none()
    }

    /// Gives a process without a table the console as its descriptors 0, 1 and 2, each with its own open file. If memory runs out,
    /// nothing changes.
    pub fn start(&mut self, pid: Pid) -> Result<(), AllocError>
        requires { has_table self.old pid ≡ false }
        ensures ok { OnOk result (self.new ≡ table_after_start self.old pid) }
        ensures tables { OnOk result (ChangesTable self.old pid true self.new) }
        ensures err { OnErr result (self.new ≡ self.old) }
    {
        let first = self.files.len();
        let mut places = [None; DESCRIPTORS];
        places[0] = Some(first);
        places[1] = Some(first + 1);
        places[2] = Some(first + 2);
        self.files.reserve(3)?;
        self.processes.insert(pid, places)?;
        self.files.push_reserved(OpenFile::CONSOLE);
        self.files.push_reserved(OpenFile::CONSOLE);
        self.files.push_reserved(OpenFile::CONSOLE);
        Ok(())
    }

    /// Gives a process without a table the descriptors of another process, which share their open files, as fork(2) does. If memory
    /// runs out, nothing changes.
    pub fn copy(&mut self, from: Pid, to: Pid) -> Result<(), AllocError>
        requires from { has_table self.old from ≡ true }
        requires to { has_table self.old to ≡ false }
        ensures ok { OnOk result (self.new ≡ table_after_copy self.old from to) }
        ensures tables { OnOk result (ChangesTable self.old to true self.new) }
        ensures err { OnErr result (self.new ≡ self.old) }
    {
        let places = *places::places_of(&self.processes, from);
        self.processes.insert(to, places)?;
        Ok(())
    }

    /// Removes the table that `copy` made. If nothing was changed since, all is as before the copy.
    pub fn uncopy(&mut self, to: Pid)
        requires { has_table self.old to ≡ true }
        ensures table { self.new ≡ table_after_entry_removed self.old to }
        ensures tables { ChangesTable self.old to false self.new }
        ensures undoes { (t : Table) (from : ℕ) → has_table t to ≡ false → self.old ≡ table_after_copy t from to → self.new ≡ t }
    {
        self.processes.remove(&to);
    }

    /// Makes the least free descriptor refer to a new open file, and returns its number. EMFILE if all 64 are open, otherwise
    /// NoMemory if memory runs out; after either error nothing has changed.
    pub fn open(&mut self, pid: Pid, file: OpenFile) -> Result<u32, FdFault>
        requires { has_table self.old pid ≡ true }
        ensures descriptor { IfOk result (λ fd. least_free self.old pid ≡ Some fd) }
        ensures least { IfOk result (λ fd. IsLeastFree self.old pid fd) }
        ensures ok { OnOk result (self.new ≡ table_after_open self.old pid file) }
        ensures tables { KeepsTables self.old self.new }
        ensures opened { IfOk result (λ fd. WasOpened self.old pid fd self.new) }
        ensures full { IsErrOf result (Os EMFILE) ↔ AreOpenBelow self.old pid DESCRIPTORS }
        ensures fault { IfErr result (λ fault. (fault ≢ NoMemory) → fault ≡ Os EMFILE) }
        ensures err { OnErr result (self.new ≡ self.old) }
    {
        let Some(least) = self.least_free(pid) else {
            return Err(FdFault::Os(Errno::EMFILE));
        };
        let fresh = self.files.len();
        self.files.reserve(1)?;
        self.files.push_reserved(file);
        places::set_place(&mut self.processes, pid, least, Some(fresh));
        Ok(least as u32)
    }

    /// Removes the descriptor that `open` gave. Nothing may have changed since; all is then as before the open.
    pub fn unopen(&mut self, pid: Pid, fd: u32)
        requires { (before : Table) × WasOpened before pid fd self.old }
        ensures { (before : Table) → WasOpened before pid fd self.old → self.new ≡ before }
    {
        places::set_place(&mut self.processes, pid, fd as usize, None);
        self.files.pop();
    }

    /// Makes the least free descriptor refer to the open file of this descriptor too, and returns its number, as dup(2) does. Takes
    /// no memory. EBADF if this descriptor isn't open, otherwise EMFILE if all 64 are.
    pub fn dup(&mut self, pid: Pid, fd: u64) -> Result<u32, FdFault>
        requires { has_table self.old pid ≡ true }
        ensures answer { result ≡ dup_result self.old pid fd }
        ensures least { IfOk result (λ least. IsLeastFree self.old pid least) }
        ensures full { IsErrOf result (Os EMFILE) → AreOpenBelow self.old pid DESCRIPTORS }
        ensures table { self.new ≡ table_after_dup self.old pid fd }
        ensures tables { KeepsTables self.old self.new }
    {
        let Ok((number, _)) = self.find(pid, fd) else {
            return Err(FdFault::Os(Errno::EBADF));
        };
        let Some(least) = self.least_free(pid) else {
            return Err(FdFault::Os(Errno::EMFILE));
        };
        places::set_place(&mut self.processes, pid, least, Some(number));
        Ok(least as u32)
    }

    /// Closes a descriptor, as close(2) does. EBADF if it isn't open.
    pub fn close(&mut self, pid: Pid, fd: u64) -> Result<(), Errno>
        requires { has_table self.old pid ≡ true }
        ensures answer { result ≡ result_of_refusal (close_refused self.old pid fd) }
        ensures table { self.new ≡ table_after_close self.old pid fd }
        ensures tables { KeepsTables self.old self.new }
    {
        let Some(_) = self.number(pid, fd) else {
            return Err(Errno::EBADF);
        };
        places::set_place(&mut self.processes, pid, fd as usize, None);
        Ok(())
    }

    /// Closes all descriptors of a process, which keeps its table.
    pub fn close_all(&mut self, pid: Pid)
        requires { has_table self.old pid ≡ true }
        ensures table { self.new ≡ table_after_close_all self.old pid }
        ensures tables { KeepsTables self.old self.new }
    {
        places::put(&mut self.processes, pid, [None; DESCRIPTORS]);
    }

    /// Sets the offset of a descriptor's open file, in bytes, for all descriptors that share the file. EBADF if the descriptor
    /// isn't open.
    pub fn seek(&mut self, pid: Pid, fd: u64, offset: u64) -> Result<(), Errno>
        requires { has_table self.old pid ≡ true }
        ensures answer { result ≡ result_of_refusal (seek_refused self.old pid fd) }
        ensures table { self.new ≡ table_after_seek self.old pid fd offset }
        ensures tables { KeepsTables self.old self.new }
    {
        let (number, file) = self.find(pid, fd)?;
        self.files[number] = OpenFile { offset, ..file };
        Ok(())
    }

    /// Gives the socket of a descriptor a port, as bind(2) does. EBADF if the descriptor isn't open. Otherwise EINVAL if its file
    /// isn't a socket, if the socket has a port already, or if the port is 0. Otherwise EADDRINUSE if an open socket has the port.
    pub fn bind(&mut self, pid: Pid, fd: u64, port: u16) -> Result<(), Errno>
        requires { has_table self.old pid ≡ true }
        ensures answer { result ≡ result_of_refusal (bind_refused self.old pid fd port) }
        ensures table { self.new ≡ table_after_bind self.old pid fd port }
        ensures tables { KeepsTables self.old self.new }
    {
        let (number, file) = self.find(pid, fd)?;
        let FileKind::Socket {
            port: None,
            connected,
        } = file.kind
        else {
            return Err(Errno::EINVAL);
        };
        if port == 0 {
            return Err(Errno::EINVAL);
        }
        if self.is_port_in_use(port) {
            return Err(Errno::EADDRINUSE);
        }
        let kind = FileKind::Socket {
            port: Some(port),
            connected,
        };
        self.files[number] = OpenFile { kind, ..file };
        Ok(())
    }

    /// Connects the socket of a descriptor to a port, as connect(2) does. EBADF if the descriptor isn't open. Otherwise EINVAL if
    /// its file isn't a socket or is connected. Otherwise ECONNREFUSED if no open socket has the port.
    pub fn connect(&mut self, pid: Pid, fd: u64, port: u16) -> Result<(), Errno>
        requires { has_table self.old pid ≡ true }
        ensures answer { result ≡ result_of_refusal (connect_refused self.old pid fd port) }
        ensures table { self.new ≡ table_after_connect self.old pid fd port }
        ensures tables { KeepsTables self.old self.new }
    {
        let (number, file) = self.find(pid, fd)?;
        let FileKind::Socket {
            port: own,
            connected: false,
        } = file.kind
        else {
            return Err(Errno::EINVAL);
        };
        if !self.is_port_in_use(port) {
            return Err(Errno::ECONNREFUSED);
        }
        let kind = FileKind::Socket {
            port: own,
            connected: true,
        };
        self.files[number] = OpenFile { kind, ..file };
        Ok(())
    }

    // Whether an open socket of some process has this port.
    fn is_port_in_use(&self, port: u16) -> bool
        ensures { result ≡ is_port_in_use self.now port }
    {
        self.processes
            .values()
            .any(|places| places::has_bound_file(&self.files, port, places))
    }
}
