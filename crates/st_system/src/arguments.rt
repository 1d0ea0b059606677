// The arguments of a call that is made in one step, and the links in the way of a call.
ghost use Rattle.std.specs.Prelude.{◌≡◌, true, None, IsSome, IfOk};
ghost use Rattle.st_arguments.specs.Arguments.{arguments_progress};
ghost use Rattle.st_calls.specs.Call.{follows};
ghost use Rattle.st_exec_fs.specs.Open.{IsNoLink};
ghost use Rattle.st_law.specs.State.{State, arguments_now, link_now};
ghost use Rattle.st_law.specs.declared.input.Input.{Input};
ghost use Rattle.st_model.specs.Processes.{pid_of};
ghost use Rattle.st_system.specs.Fit.{first_name};
ghost use Rattle.st_system.specs.System.{IsSystem};

use crate::System;
use st_arguments::{Arguments, Asked, arguments_in, link_met};
use st_base::Tid;
use st_calls::{ArgText, Rule, SysCall};
use st_names::AbsName;
use std::alloc::{AllocError, Global};

impl System {
    /// The arguments of a call that a thread makes in one step, or the first fault of one of them. `aliasing` decides under which rule the
    /// call is judged.
    pub fn arguments(
        &self,
        alloc: Global,
        tid: Tid,
        call: SysCall,
        regs: &[u64; 6],
        aliasing: bool,
    ) -> Result<Arguments, AllocError>
        requires { IsSome (pid_of self.now.processes tid) }
        ensures { IfOk result (λ arguments. (i : Input) (st : State) → IsSystem i st self.now → i.options.aliasing ≡ aliasing → arguments_now i st tid call regs.now ≡ arguments_progress arguments) }
    {
        let Some(pid) = self.procs.pid_of(tid) else {
            unreachable!()
        };
        let asked = Asked {
            rule: Rule::of(call, regs, aliasing),
            call,
            regs: *regs,
            cwd: self.procs.cwd(pid).get(),
        };
        arguments_in(
            alloc,
            &self.tree,
            &self.spaces,
            self.procs.space(pid),
            &asked,
        )
    }

    /// The first link in the way of a call with these arguments. If there is none, and the call follows a link at the end of its first
    /// name, that name isn't a link's.
    pub fn link_met(
        &self,
        alloc: Global,
        call: SysCall,
        regs: &[u64; 6],
        args: &[ArgText],
        aliasing: bool,
    ) -> Result<Option<AbsName>, AllocError>
        ensures link { IfOk result (λ link. (i : Input) (st : State) → IsSystem i st self.now → i.options.aliasing ≡ aliasing → link ≡ link_now i st call regs.now args.now) }
        ensures unlinked { IfOk result (λ link. link ≡ None → follows call regs.now 0 ≡ true → IsNoLink self.now.tree (first_name args.now)) }
    {
        // The root is a directory, so no walk begins at a link.
        let _root = self.tree.root();
        let rule = Rule::of(call, regs, aliasing);
        link_met(alloc, &self.tree, rule, call, regs, args)
    }
}
