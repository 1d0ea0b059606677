// Ends held calls with their threads.
ghost use Rattle.std.specs.Prelude.{◌≡◌, ◌<◌, ◌^◌, true, length, IfSome};
ghost use Rattle.st_threads.specs.Ending.{EndsCall, HaveCalls, HaveEnded, ends_with, is_end_of, is_ended_by, row_dying_if};
ghost use Rattle.st_threads.specs.Thread.{drawing_held};
ghost use Rattle.st_messages.specs.Messages.{is_live_drawing};
ghost use Rattle.st_workers.specs.Numbers.{KeepsNumbers};

use crate::caller::CallingThread;
use crate::thread::Thread;
use st_base::{Drawing, Pid, Tid};
use st_system::System;
use st_trace::Change;
use st_workers::Workers;

/// Ends the call of this drawing, if there is one.
pub fn end_call(workers: &mut Workers, drawing: Option<Drawing>)
    requires { IfSome drawing (λ q. is_live_drawing workers.old.calls q ≡ true) }
    ensures kept { EndsCall drawing workers.old workers.new }
    ensures numbers { KeepsNumbers workers.old.calls workers.new.calls }
{
    if let Some(drawing) = drawing {
        workers.cancel(drawing);
    }
}

// Makes a thread dying, and ends the call that it holds.
fn make_dying(thread: &mut Thread<'_>, workers: &mut Workers)
    requires { IfSome (drawing_held thread.old) (λ q. is_live_drawing workers.old.calls q ≡ true) }
    ensures thread { thread.new ≡ row_dying_if true thread.old }
    ensures kept { EndsCall (drawing_held thread.old) workers.old workers.new }
    ensures numbers { KeepsNumbers workers.old.calls workers.new.calls }
{
    end_call(workers, thread.drawing_held());
    thread.die();
}

// Whether a thread ends with a process; one thread is spared.
fn ends_with(system: &System, pid: Pid, spared: Tid, tid: Tid) -> bool
    ensures { result ≡ ends_with system.now.processes pid spared tid }
{
    let owner = system.pid_of(tid).unwrap_or(0);
    owner == pid && tid != spared
}

// Makes the threads of a process dying; one thread is spared.
fn end_threads(
    threads: &mut [Thread<'_>],
    workers: &mut Workers,
    system: &System,
    pid: Pid,
    spared: Tid,
)
    requires calls { HaveCalls threads.old workers.old }
    requires few { length threads.old < 2 ^ 31 }
    ensures { HaveEnded (ends_with system.now.processes pid spared) threads.old workers.old threads.new workers.new }
{
    for i in 0..threads.len() {
        if ends_with(system, pid, spared, i as Tid + 1) {
            make_dying(&mut threads[i], workers);
        }
    }
}

// Ends what a change ends: the end of a process ends all its threads, and running another binary ends all but the caller.
fn end_by(
    threads: &mut [Thread<'_>],
    workers: &mut Workers,
    system: &System,
    caller: CallingThread,
    change: &Change,
)
    requires calls { HaveCalls threads.old workers.old }
    requires few { length threads.old < 2 ^ 31 }
    ensures { HaveEnded (λ t. is_end_of system.now.processes caller.tid caller.pid t change.now) threads.old workers.old threads.new workers.new }
{
    match change {
        Change::Dying(dying) => end_threads(threads, workers, system, *dying, 0),
        Change::Execed { .. } => end_threads(threads, workers, system, caller.pid, caller.tid),
        _ => {}
    }
}

/// Ends what the changes of a caller's call end: the threads of a process that dies, and all but the caller if another binary runs.
pub fn end_by_all(
    threads: &mut [Thread<'_>],
    workers: &mut Workers,
    system: &System,
    caller: CallingThread,
    changes: &[Change],
)
    requires calls { HaveCalls threads.old workers.old }
    requires few { length threads.old < 2 ^ 31 }
    ensures { HaveEnded (is_ended_by system.now.processes caller.tid caller.pid changes.now) threads.old workers.old threads.new workers.new }
{
    for change in changes {
        end_by(threads, workers, system, caller, change);
    }
}
