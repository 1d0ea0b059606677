// Gives held calls new drawings: after a call that sets the ids of their process, and after a reload of their policy.
ghost use Rattle.std.specs.Prelude.{◌≡◌, ◌↔◌, ◌<◌, ◌≤◌, ◌+◌, ◌-◌, ◌^◌, ℕ, Bool, true, List, [], ◌++◌, All, length, vec_capacity, IfSome, IfOk, OnOk};
ghost use Rattle.std.specs.Option.{option_to_list};
ghost use Rattle.st_lookaside.specs.Need.{IsShort};
ghost use Rattle.st_threads.specs.Renewing.{call_renewed, calls_from, cwds_of, numbers_after_renewals, pids_of, renewals_from, row_renewed, with_call, AreNumberedFrom, CanRenew, HaveRenewed, RenewsIf, TakesCwd};
ghost use Rattle.st_messages.specs.Messages.{is_live_drawing};
ghost use Rattle.st_model.specs.Processes.{process_at, IsPid};
ghost use Rattle.st_names.specs.Name.{Components};
ghost use Rattle.st_trace.specs.declared.entry.Change.{Change};
ghost use Rattle.st_workers.specs.Numbers.{AreFew, AreReady, CarriesNumbers, IsReadyWith};

use crate::thread::Thread;
use crate::which::{RenewedCalls, WhichCalls};
use st_base::{Drawing, Pid, Shared, Tid, is_same_text};
use st_lookaside::Renewal;
use st_names::AbsName;
use st_system::System;
use st_trace::Change;
use st_workers::Workers;
use std::alloc::{AllocError, Global};

/// A held call that is renewed: the process of its thread, and the drawing of its message.
#[derive(Clone, Copy, Debug)]
pub struct RenewedCall {
    pub pid: Pid,
    pub drawing: Drawing,
}

// The process of a thread, if it is one whose held call is renewed.
fn pid_if(system: &System, which: WhichCalls<'_>, tid: Tid) -> Option<Pid>
    ensures pid { result ≡ pids_of system.now.processes which.entry tid }
    ensures there { IfSome result (IsPid system.now.processes) }
{
    let pid = system.pid_of(tid)?;
    let is_renewed = match which {
        WhichCalls::OthersOf(caller) => pid == caller.pid && tid != caller.tid,
        WhichCalls::Under(binary) => is_same_text(system.policy(pid).get().bytes(), binary),
    };
    if is_renewed { Some(pid) } else { None }
}

// The call that a thread holds, if it is renewed.
fn call_renewed(
    thread: &Thread<'_>,
    system: &System,
    which: WhichCalls<'_>,
    tid: Tid,
) -> Option<RenewedCall>
    ensures call { result ≡ call_renewed (pids_of system.now.processes which.entry) tid thread.now }
    ensures there { IfSome result (λ call. IsPid system.now.processes call.pid) }
{
    let drawing = thread.drawing_held()?;
    let pid = pid_if(system, which, tid)?;
    Some(RenewedCall { pid, drawing })
}

// ---- what takes memory, before anything changes

/// What renewals need: the changes of the entry so far, with room for the renewals; the directory of the process of each call, that of the
/// last call first; and the version of their policy.
#[derive(Debug, Drop)]
pub struct RenewalPlan {
    pub changes: Vec<Change>,
    pub cwds: Vec<Shared<AbsName>>,
    pub version: u32,
}

// Adds a copy of the directory of a call's process, if the call exists.
fn add_copy(
    cwds: &mut Vec<Shared<AbsName>>,
    system: &System,
    call: Option<RenewedCall>,
) -> Result<(), AllocError>
    requires there { IfSome call (λ its. IsPid system.now.processes its.pid) }
    ensures cwds { OnOk result (TakesCwd system.now.processes call cwds.new.items cwds.old.items) }
    ensures short { OnOk result (All IsShort cwds.old.items → All IsShort cwds.new.items) }
{
    if let Some(call) = call {
        cwds.push(system.cwd(call.pid).share()?)?;
    }
    Ok(())
}

// A copy of the directory of its process for each call that is renewed; that of the last call comes first.
fn copies_for(
    alloc: Global,
    threads: &[Thread<'_>],
    system: &System,
    which: WhichCalls<'_>,
) -> Result<Vec<Shared<AbsName>>, AllocError>
    requires few { length threads.now < 2 ^ 31 }
    ensures cwds { IfOk result (λ cwds. cwds.items ≡ cwds_of system.now.processes (calls_from (pids_of system.now.processes which.entry) 1 threads.now)) }
    ensures few { IfOk result (λ cwds. length cwds.items ≤ length threads.now) }
    ensures short { IfOk result (λ cwds. All IsShort cwds.items) }
{
    let mut cwds = Vec::new(alloc);
    let mut i = threads.len();
    while i > 0 {
        i -= 1;
        let call = call_renewed(&threads[i], system, which, i as Tid + 1);
        add_copy(&mut cwds, system, call)?;
    }
    Ok(cwds)
}

/// Plans new drawings for these held calls, after this change of the entry, if it has one before. All memory is taken here.
pub fn plan_renewals(
    alloc: Global,
    threads: &[Thread<'_>],
    system: &System,
    calls: RenewedCalls<'_>,
    first: Option<Change>,
) -> Result<RenewalPlan, AllocError>
    requires few { length threads.now < 2 ^ 31 }
    ensures changes { IfOk result (λ plan. plan.changes.items ≡ option_to_list first) }
    ensures cwds { IfOk result (λ plan. plan.cwds.items ≡ cwds_of system.now.processes (calls_from (pids_of system.now.processes calls.entry.which) 1 threads.now)) }
    ensures version { IfOk result (λ plan. plan.version ≡ calls.entry.version) }
    ensures space { IfOk result (λ plan. length plan.changes.items + length plan.cwds.items ≤ vec_capacity plan.changes) }
    ensures short { IfOk result (λ plan. All IsShort plan.cwds.items) }
{
    let cwds = copies_for(alloc, threads, system, calls.which)?;
    let mut changes = Vec::with_capacity(alloc, 1 + cwds.len())?;
    if let Some(first) = first {
        changes.push_reserved(first);
    }
    Ok(RenewalPlan {
        changes,
        cwds,
        version: calls.version,
    })
}

// ---- what takes no memory, after the ids are set or the policy is replaced

// Gives a call the next drawing, if it is renewed, with the ids of its process, the plan's last copy of a directory and its version. Adds
// the change to those of the plan, with the numbers that the old drawing has and that the new one gets.
fn renew_call(
    thread: &mut Thread<'_>,
    workers: &mut Workers,
    system: &System,
    call: Option<RenewedCall>,
    plan: &mut RenewalPlan,
)
    requires there { IfSome call (λ its. IsPid system.now.processes its.pid) }
    requires live { IfSome call (λ its. is_live_drawing workers.old.calls its.drawing ≡ true) }
    requires room { IfSome call (λ its. workers.old.calls.next < 2 ^ 64 - 1) }
    requires few { AreFew workers.old.calls }
    requires cwds { (left : List Components) × TakesCwd system.now.processes call plan.old.cwds.items left }
    requires short { All IsShort plan.old.cwds.items }
    requires space { length plan.old.changes.items + length plan.old.cwds.items ≤ vec_capacity plan.old.changes }
    ensures thread { thread.new ≡ row_renewed workers.old.calls.next call thread.old }
    ensures kept { RenewsIf system.now.processes plan.old.version call workers.old workers.new }
    ensures few { AreFew workers.new.calls }
    ensures numbers { (ready : ℕ → Bool) → AreReady ready workers.old → CarriesNumbers (numbers_after_renewals ready (renewals_from workers.old.calls.next (with_call call []))) workers.old.calls workers.new.calls }
    ensures ready { (q : ℕ) → IsReadyWith workers.new q ↔ IsReadyWith workers.old q }
    ensures cwds { TakesCwd system.now.processes call plan.old.cwds.items plan.new.cwds.items }
    ensures short { All IsShort plan.new.cwds.items }
    ensures version { plan.new.version ≡ plan.old.version }
    ensures changes { (given : List Change) × (plan.new.changes.items ≡ plan.old.changes.items ++ given) × AreNumberedFrom workers.old (renewals_from workers.old.calls.next (with_call call [])) given }
    ensures space { length plan.new.changes.items + length plan.new.cwds.items ≤ vec_capacity plan.new.changes }
{
    if let Some(call) = call {
        let Some(cwd) = plan.cwds.pop() else {
            unreachable!()
        };
        let renewal = Renewal {
            ids: system.ids(call.pid),
            cwd,
            version: plan.version,
        };
        let old = workers.seq(call.drawing);
        let new = workers.next_seq();
        thread.renew(workers.renew(call.drawing, renewal));
        plan.changes.push_reserved(Change::Renewed { old, new });
    }
}

/// Gives these held calls new drawings, in the order of threads, with the ids of their processes, the plan's copies of their directories and
/// its version. Returns the changes, with the numbers that the calls had and have got.
pub fn renew_all(
    threads: &mut [Thread<'_>],
    workers: &mut Workers,
    system: &System,
    which: WhichCalls<'_>,
    mut plan: RenewalPlan,
) -> Vec<Change>
    requires few { length threads.old < 2 ^ 31 }
    requires calls { CanRenew workers.old (calls_from (pids_of system.now.processes which) 1 threads.old) }
    requires room { workers.old.calls.next + length threads.old < 2 ^ 64 }
    requires in_use { AreFew workers.old.calls }
    requires cwds { plan.cwds.items ≡ cwds_of system.now.processes (calls_from (pids_of system.now.processes which) 1 threads.old) }
    requires short { All IsShort plan.cwds.items }
    requires space { length plan.changes.items + length plan.cwds.items ≤ vec_capacity plan.changes }
    ensures renewed { HaveRenewed system.now.processes (pids_of system.now.processes which.entry) plan.version threads.old workers.old threads.new workers.new }
    ensures changes { (given : List Change) × (result.items ≡ plan.changes.items ++ given) × AreNumberedFrom workers.old (renewals_from workers.old.calls.next (calls_from (pids_of system.now.processes which.entry) 1 threads.old)) given }
{
    for i in 0..threads.len() {
        let call = call_renewed(&threads[i], system, which, i as Tid + 1);
        renew_call(&mut threads[i], workers, system, call, &mut plan);
    }
    plan.changes
}
