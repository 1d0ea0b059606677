// Any call on names and files, made by its own function.
ghost use Rattle.std.specs.Prelude.{◌≡◌, ℕ, true, IfOk, OnErr};
ghost use Rattle.st_calls.specs.Call.{follows};
ghost use Rattle.st_effects.specs.System as effects;
ghost use Rattle.st_effects.specs.Changes.{memory_after, tree_after};
ghost use Rattle.st_effects.specs.Effect.{effect};
ghost use Rattle.st_fds.specs.Table.{KeepsTables};
ghost use Rattle.st_memory.specs.Memory.{byte_in, is_space_live, KeepsSpaces};
ghost use Rattle.st_model.specs.Descriptors.{has_table};
ghost use Rattle.st_model.specs.Processes.{IsPid, process_at};
ghost use Rattle.st_exec_fs.specs.Execution.{IsFileCallExecuted, IsLookingCall, IsOnDescriptors, IsOnFiles, IsOnNames};
ghost use Rattle.st_exec_fs.specs.Open.{IsNoLink};
ghost use Rattle.st_request.specs.Ready.{IsReady, AreValidOpenFiles};
ghost use Rattle.st_request.specs.Outcome.{outcome_of, with_descriptors, with_processes, with_tree};

use crate::opening::{open, truncate};
use st_calls::SysCall;
use st_exec_fds::{close, dup, lseek, read, write};
use st_exec_names::{link, mkdir, rename, rmdir, symlink, unlink};
use st_exec_objects::{access, chdir, chmod, chown, readlink, stat};
use st_fds::Fds;
use st_memory::Spaces;
use st_procs::Procs;
use st_request::{Outcome, Request};
use st_tree::Tree;
use std::alloc::{AllocError, Global};

// Makes a call that looks at what a name has.
fn look(
    tree: &Tree,
    procs: &Procs,
    spaces: &mut Spaces,
    alloc: Global,
    call: SysCall,
    request: &Request<'_>,
) -> Result<Outcome, AllocError>
    requires call { IsLookingCall call }
    requires process { IsPid procs.now request.now.pid }
    requires space { is_space_live spaces.old (process_at procs.now request.now.pid).space ≡ true }
    ensures outcome { IfOk result (λ outcome. (system : effects.System) → outcome_of outcome system.descriptors ≡ effect (with_tree (with_processes system procs.now) tree.now) call request.now) }
    ensures memory { IfOk result (λ outcome. (s b : ℕ) → byte_in spaces.new s b ≡ memory_after (process_at procs.now request.now.pid).space (byte_in spaces.old) outcome.changes s b) }
    ensures spaces { KeepsSpaces spaces.old spaces.new }
    ensures err { OnErr result (spaces.new ≡ spaces.old) }
{
    match call {
        SysCall::Stat | SysCall::Lstat => stat(tree, procs, spaces, alloc, request),
        SysCall::Access => access(tree, alloc, request),
        SysCall::Readlink => readlink(tree, procs, spaces, alloc, request),
        _ => unreachable!(),
    }
}

// Makes a call that changes what a name has, or whether it has an object.
fn change_names(
    tree: &mut Tree,
    alloc: Global,
    call: SysCall,
    request: &Request<'_>,
) -> Result<Outcome, AllocError>
    requires call { IsOnNames call }
    requires no_link { follows call request.now.regs 0 ≡ true → IsNoLink tree.old (effects.arg_name_at request.now 0) }
    ensures outcome { IfOk result (λ outcome. (system : effects.System) → outcome_of outcome system.descriptors ≡ effect (with_tree system tree.old) call request.now) }
    ensures tree { IfOk result (λ outcome. tree.new ≡ tree_after tree.old outcome.changes) }
    ensures err { OnErr result (tree.new ≡ tree.old) }
{
    match call {
        SysCall::Unlink => unlink(tree, alloc, request),
        SysCall::Link => link(tree, alloc, request),
        SysCall::Symlink => symlink(tree, alloc, request),
        SysCall::Rename => rename(tree, alloc, request),
        SysCall::Mkdir => mkdir(tree, alloc, request),
        SysCall::Rmdir => rmdir(tree, alloc, request),
        SysCall::Chmod => chmod(tree, alloc, request),
        SysCall::Chown => chown(tree, alloc, request),
        SysCall::Truncate => truncate(tree, alloc, request),
        _ => unreachable!(),
    }
}

// Makes a call that changes descriptors or their offsets, and nothing else.
fn move_descriptors(
    tree: &Tree,
    fds: &mut Fds,
    alloc: Global,
    call: SysCall,
    request: &Request<'_>,
) -> Outcome
    requires call { IsOnDescriptors call }
    requires table { has_table fds.old request.now.pid ≡ true }
    requires real { AreValidOpenFiles tree.now fds.old }
    ensures outcome { (system : effects.System) → outcome_of result fds.new ≡ effect (with_descriptors (with_tree system tree.now) fds.old) call request.now }
    ensures tables { KeepsTables fds.old fds.new }
    ensures real { AreValidOpenFiles tree.now fds.new }
{
    match call {
        SysCall::Close => close(fds, alloc, request),
        SysCall::Lseek => lseek(tree, fds, alloc, request),
        SysCall::Dup => dup(fds, alloc, request),
        _ => unreachable!(),
    }
}

/// Makes any call on names and files, by the call's own function. If the call follows a link at the end of its first name, the name
/// was resolved before and isn't that of a link. If memory runs out, nothing changes.
pub fn execute_fs(
    tree: &mut Tree,
    fds: &mut Fds,
    procs: &mut Procs,
    spaces: &mut Spaces,
    alloc: Global,
    call: SysCall,
    request: &Request<'_>,
) -> Result<Outcome, AllocError>
    requires call { IsOnFiles call }
    requires ready { IsReady tree.old fds.old procs.old spaces.old request.now.pid }
    requires no_link { follows call request.now.regs 0 ≡ true → IsNoLink tree.old (effects.arg_name_at request.now 0) }
    ensures executed { IfOk result (λ outcome. IsFileCallExecuted call request.now outcome tree.old fds.old procs.old spaces.old tree.new fds.new procs.new spaces.new) }
    ensures spaces { KeepsSpaces spaces.old spaces.new }
    ensures tables { KeepsTables fds.old fds.new }
    ensures ready { IsReady tree.new fds.new procs.new spaces.new request.now.pid }
    ensures err { OnErr result ((tree.new ≡ tree.old) × ((fds.new ≡ fds.old) × ((procs.new ≡ procs.old) × (spaces.new ≡ spaces.old)))) }
{
    match call {
        SysCall::Open => open(tree, fds, alloc, request),
        SysCall::Read => read(tree, fds, procs, spaces, alloc, request),
        SysCall::Write => write(tree, fds, procs, spaces, alloc, request),
        SysCall::Close | SysCall::Lseek | SysCall::Dup => {
            Ok(move_descriptors(tree, fds, alloc, call, request))
        }
        SysCall::Stat | SysCall::Lstat | SysCall::Access | SysCall::Readlink => {
            look(tree, procs, spaces, alloc, call, request)
        }
        SysCall::Chdir => chdir(tree, procs, alloc, request),
        SysCall::Unlink
        | SysCall::Link
        | SysCall::Symlink
        | SysCall::Rename
        | SysCall::Mkdir
        | SysCall::Rmdir
        | SysCall::Chmod
        | SysCall::Chown
        | SysCall::Truncate => change_names(tree, alloc, call, request),
        _ => unreachable!(),
    }
}
