// The call that executes a binary.
ghost use Rattle.std.specs.Prelude.{◌≡◌, ◌≢◌, ◌^◌, ◌<◌, ℕ, true, ◌∷◌, IfOk, OnErr};
ghost use Rattle.st_effects.specs.Changes.{memory_after};
ghost use Rattle.st_effects.specs.Processes.{execve_outcome, policy_changes};
ghost use Rattle.st_effects.specs.System.{arg_name_at, success, System};
ghost use Rattle.st_memory.specs.Memory.{byte_in, is_space_live, next_space};
ghost use Rattle.st_model.specs.Processes.{next_pid, process_at, IsPid};
ghost use Rattle.st_names.specs.Name.{printed_name};
ghost use Rattle.st_request.specs.Outcome.{outcome_of, unless_err, with_memories, with_tree};
ghost use Rattle.st_request.specs.Processes.{AreProcessesAfter};
ghost use Rattle.st_trace.specs.declared.entry.CallResult.TheVariants.{Value};
ghost use Rattle.st_exec_objects.specs.Execution.{AreSpacesAfter};

use crate::walking;
use st_base::{Errno, Sequence, Shared, Space};
use st_memory::Spaces;
use st_names::AbsName;
use st_procs::Procs;
use st_request::{Outcome, Request};
use st_trace::{CallResult, Change};
use st_tree::{Kind, Tree, Want};
use std::alloc::{AllocError, Global};

// Checks that execve(2) may execute a binary; otherwise gives the error of the call.
fn may_execute(tree: &Tree, request: &Request<'_>, name: &AbsName) -> Result<(), Errno>
    requires { name.now ≡ arg_name_at request.now 0 }
    ensures { (system : System) → execve_outcome (with_tree system tree.now) request.now ≡ unless_err system result (λ _. success system 0 (Change.Execed (printed_name name.now) system.next_space ∷ policy_changes request.now.inherit (printed_name name.now))) }
{
    let ids = request.ids;
    let obj = walking::find(tree, ids, name)?;
    let node = tree.node(obj);
    if node.kind != Kind::File || !tree.allowed(obj, ids.euid, ids.egid, Want::Execute) {
        return Err(Errno::EACCES);
    }
    if node.size == 0 {
        return Err(Errno::ENOEXEC);
    }
    Ok(())
}

// The outcome of executing a binary in this space.
fn executed(
    alloc: Global,
    name: &AbsName,
    space: Space,
    inherit: bool,
) -> Result<Outcome, AllocError>
    ensures result { IfOk result (λ outcome. outcome.result ≡ Value 0) }
    ensures changes { IfOk result (λ outcome. outcome.changes ≡ Change.Execed (printed_name name.now) space ∷ policy_changes inherit (printed_name name.now)) }
{
    let mut changes = Sequence::new(alloc);
    let binary = name.print(alloc)?;
    changes.push(Change::Execed { binary, space })?;
    if !inherit {
        changes.push(Change::Policy(name.print(alloc)?))?;
    }
    Ok(Outcome {
        result: CallResult::Value(0),
        changes,
    })
}

// Gives the process a new memory space, and the policy of the binary unless it keeps its own. If memory runs out, nothing changes.
fn execute(
    procs: &mut Procs,
    spaces: &mut Spaces,
    alloc: Global,
    request: &Request<'_>,
    name: &AbsName,
) -> Result<Outcome, AllocError>
    requires process { IsPid procs.old request.now.pid }
    requires space { is_space_live spaces.old (process_at procs.old request.now.pid).space ≡ true }
    requires room { next_space spaces.old < 2 ^ 32 }
    ensures result { IfOk result (λ outcome. outcome.result ≡ Value 0) }
    ensures changes { IfOk result (λ outcome. outcome.changes ≡ Change.Execed (printed_name name.now) (next_space spaces.old) ∷ policy_changes request.now.inherit (printed_name name.now)) }
    ensures processes { IfOk result (λ outcome. AreProcessesAfter procs.old request.now.pid outcome.changes procs.new) }
    ensures spaces { IfOk result (λ outcome. AreSpacesAfter (process_at procs.old request.now.pid).space spaces.old outcome.changes spaces.new) }
    ensures memory { IfOk result (λ outcome. (s b : ℕ) → s ≢ (process_at procs.old request.now.pid).space → byte_in spaces.new s b ≡ memory_after (process_at procs.old request.now.pid).space (byte_in spaces.old) outcome.changes s b) }
    ensures pids { next_pid procs.new ≡ next_pid procs.old }
    ensures ready { is_space_live spaces.new (process_at procs.new request.now.pid).space ≡ true }
    ensures live { (s : ℕ) → s ≢ (process_at procs.old request.now.pid).space → is_space_live spaces.old s ≡ true → is_space_live spaces.new s ≡ true }
    ensures err { OnErr result ((procs.new ≡ procs.old) × (spaces.new ≡ spaces.old)) }
{
    let binary = Shared::new(alloc, name.print(alloc)?)?;
    let space = spaces.make(alloc)?;
    let made = executed(alloc, name, space, request.inherit);
    if made.is_err() {
        spaces.unmake(space);
        return made;
    }
    spaces.give_up(procs.space(request.pid));
    procs.exec(request.pid, binary, space, request.inherit);
    made
}

/// execve(name, argv): the process goes on with a new memory of zeros, and under the policy of the binary unless it keeps its own.
/// Its old memory is given up. Fails with an error of the walk, with EACCES if the object isn't a file or the ids may not execute
/// it, or with ENOEXEC if the file is empty. If memory runs out, nothing changes.
pub fn execve(
    tree: &Tree,
    procs: &mut Procs,
    spaces: &mut Spaces,
    alloc: Global,
    request: &Request<'_>,
) -> Result<Outcome, AllocError>
    requires process { IsPid procs.old request.now.pid }
    requires space { is_space_live spaces.old (process_at procs.old request.now.pid).space ≡ true }
    requires room { next_space spaces.old < 2 ^ 32 }
    ensures outcome { IfOk result (λ outcome. (system : System) → outcome_of outcome system.descriptors ≡ execve_outcome (with_tree (with_memories system spaces.old) tree.now) request.now) }
    ensures processes { IfOk result (λ outcome. AreProcessesAfter procs.old request.now.pid outcome.changes procs.new) }
    ensures spaces { IfOk result (λ outcome. AreSpacesAfter (process_at procs.old request.now.pid).space spaces.old outcome.changes spaces.new) }
    ensures memory { IfOk result (λ outcome. (s b : ℕ) → s ≢ (process_at procs.old request.now.pid).space → byte_in spaces.new s b ≡ memory_after (process_at procs.old request.now.pid).space (byte_in spaces.old) outcome.changes s b) }
    ensures pids { next_pid procs.new ≡ next_pid procs.old }
    ensures ready { is_space_live spaces.new (process_at procs.new request.now.pid).space ≡ true }
    ensures live { (s : ℕ) → s ≢ (process_at procs.old request.now.pid).space → is_space_live spaces.old s ≡ true → is_space_live spaces.new s ≡ true }
    ensures err { OnErr result ((procs.new ≡ procs.old) × (spaces.new ≡ spaces.old)) }
{
    let name = request.name(alloc, 0)?;
    if let Err(errno) = may_execute(tree, request, &name) {
        return Ok(Outcome::failure(alloc, errno));
    }
    execute(procs, spaces, alloc, request, &name)
}
