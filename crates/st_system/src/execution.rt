// Makes system calls, each by the crate of its kind.
ghost use Rattle.std.specs.Prelude.{◌≡◌, ◌<◌, ◌^◌, true, IfOk, OnErr};
ghost use Rattle.st_calls.specs.Call.{follows};
ghost use Rattle.st_calls.specs.declared.call.SysCall.TheVariants.{Execve};
ghost use Rattle.st_effects.specs.System.{arg_name_at};
ghost use Rattle.st_exec_fs.specs.Execution.{IsOnFiles};
ghost use Rattle.st_exec_fs.specs.Open.{IsNoLink};
ghost use Rattle.st_memory.specs.Memory.{next_space};
ghost use Rattle.st_model.specs.Processes.{IsPid};
ghost use Rattle.st_system.specs.Steps.{CanMake, IsCallMade, IsOnProcesses};

use crate::System;
use st_calls::SysCall;
use st_exec_fs::execute_fs;
use st_exec_objects::execve;
use st_exec_sys::execute_sys;
use st_request::{Outcome, Request};
use std::alloc::{AllocError, Global};

impl System {
    // Makes a call on names and files.
    fn execute_on_files(
        &mut self,
        alloc: Global,
        call: SysCall,
        request: &Request<'_>,
    ) -> Result<Outcome, AllocError>
        requires on { IsOnFiles call }
        requires process { IsPid self.old.processes request.now.pid }
        requires can { CanMake call self.old request.now }
        requires no_link { follows call request.now.regs 0 ≡ true → IsNoLink self.old.tree (arg_name_at request.now 0) }
        ensures done { IfOk result (λ outcome. IsCallMade call request.now outcome self.old self.new) }
        ensures err { OnErr result (self.new ≡ self.old) }
    {
        execute_fs(
            &mut self.tree,
            &mut self.fds,
            &mut self.procs,
            &mut self.spaces,
            alloc,
            call,
            request,
        )
    }

    // Executes a binary.
    fn execute_binary(
        &mut self,
        alloc: Global,
        request: &Request<'_>,
    ) -> Result<Outcome, AllocError>
        requires process { IsPid self.old.processes request.now.pid }
        requires room { next_space self.old.memories < 2 ^ 32 }
        ensures done { IfOk result (λ outcome. IsCallMade Execve request.now outcome self.old self.new) }
        ensures err { OnErr result (self.new ≡ self.old) }
    {
        execve(
            &self.tree,
            &mut self.procs,
            &mut self.spaces,
            alloc,
            request,
        )
    }

    // Makes a call on processes, ids and sockets.
    fn execute_on_processes(
        &mut self,
        alloc: Global,
        call: SysCall,
        request: &Request<'_>,
    ) -> Result<Outcome, AllocError>
        requires on { IsOnProcesses call }
        requires process { IsPid self.old.processes request.now.pid }
        requires can { CanMake call self.old request.now }
        ensures done { IfOk result (λ outcome. IsCallMade call request.now outcome self.old self.new) }
        ensures err { OnErr result (self.new ≡ self.old) }
    {
        execute_sys(
            &mut self.fds,
            &mut self.procs,
            &mut self.spaces,
            alloc,
            call,
            request,
        )
    }

    /// Makes a system call. If it follows a link at the end of its first name, the name was resolved before, and isn't a link's. It doesn't
    /// give held calls new numbers after a call that sets ids. If memory runs out, nothing changes.
    pub fn execute(
        &mut self,
        alloc: Global,
        call: SysCall,
        request: &Request<'_>,
    ) -> Result<Outcome, AllocError>
        requires process { IsPid self.old.processes request.now.pid }
        requires can { CanMake call self.old request.now }
        requires no_link { follows call request.now.regs 0 ≡ true → IsNoLink self.old.tree (arg_name_at request.now 0) }
        ensures done { IfOk result (λ outcome. IsCallMade call request.now outcome self.old self.new) }
        ensures err { OnErr result (self.new ≡ self.old) }
    {
        match call {
            SysCall::Execve => self.execute_binary(alloc, request),
            SysCall::Fork
            | SysCall::Exit
            | SysCall::Kill
            | SysCall::GetPid
            | SysCall::GetUid
            | SysCall::GetEuid
            | SysCall::SetUid
            | SysCall::SetEuid
            | SysCall::SetGid
            | SysCall::SetEgid
            | SysCall::Socket
            | SysCall::Bind
            | SysCall::Connect => self.execute_on_processes(alloc, call, request),
            _ => self.execute_on_files(alloc, call, request),
        }
    }
}
