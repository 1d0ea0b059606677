// The end of a call that its thread makes, with what its changes end, or after the other held calls of its process are renewed.
ghost use Rattle.std.specs.Prelude.{◌≡◌, ◌<◌, ◌+◌, ◌≤◌, ◌^◌, ◌++◌, true, All, List, length, Some, vec_capacity, IfSome};
ghost use Rattle.st_base.specs.Numbered.{item_at_number};
ghost use Rattle.st_lookaside.specs.Need.{IsShort};
ghost use Rattle.st_steps.specs.Making.{others, CanRenewOthers, EndsMade, IsClosed, RenewsOthers};
ghost use Rattle.st_messages.specs.Messages.{is_live_drawing};
ghost use Rattle.st_threads.specs.Ending.{EndsCall, HaveCalls};
ghost use Rattle.st_threads.specs.Renewing.{calls_from, renewals_from, AreNumberedFrom};
ghost use Rattle.st_threads.specs.Thread.{ThreadRow};
ghost use Rattle.st_trace.specs.declared.entry.Change.{Change};
ghost use Rattle.st_workers.specs.UnderWay.{UnderWay};

use st_base::{Drawing, Sequence};
use st_system::System;
use st_threads::{CallingThread, RenewalPlan, Thread, WhichCalls, end_by_all, end_call, renew_all};
use st_trace::Change;
use st_workers::Workers;

/// A call that is made: its thread, and the drawing of its message if it is held.
#[derive(Clone, Copy)]
pub struct OwnCall {
    pub caller: CallingThread,
    pub drawing: Option<Drawing>,
}

/// Ends a call that is made, and the threads and held calls that its changes end.
#[inline(always)]
pub fn end_made(
    threads: &mut Vec<Thread<'_>>,
    workers: &mut Workers,
    system: &System,
    own: OwnCall,
    changes: &[Change],
)
    requires there { (row : ThreadRow) × (item_at_number threads.old.items own.caller.tid ≡ Some row) }
    requires few { length threads.old.items < 2 ^ 31 }
    requires live { IfSome own.drawing (λ q. is_live_drawing workers.old.calls q ≡ true) }
    requires calls { (closed : List ThreadRow) (between : UnderWay) → IsClosed threads.old.items own.caller.tid closed → EndsCall own.drawing workers.old between → HaveCalls closed between }
    ensures { EndsMade system.now.processes own changes.now threads.old.items workers.old threads.new.items workers.new }
{
    threads[own.caller.tid as usize - 1].close();
    end_call(workers, own.drawing);
    end_by_all(threads, workers, system, own.caller, changes);
}

/// Gives the other held calls of the process of a call that is made new drawings, and then ends the call: its own number is in use until
/// then. Returns the changes, with the numbers that the other calls had and have got.
#[inline(always)]
pub fn renew_others(
    threads: &mut Vec<Thread<'_>>,
    workers: &mut Workers,
    system: &System,
    own: OwnCall,
    plan: RenewalPlan,
) -> Sequence<Change>
    requires can { (closed : List ThreadRow) × IsClosed threads.old.items own.caller.tid closed × CanRenewOthers system.now.processes own plan.version closed workers.old plan.cwds.items }
    requires few { length threads.old.items < 2 ^ 31 }
    requires short { All IsShort plan.cwds.items }
    requires space { length plan.changes.items + length plan.cwds.items ≤ vec_capacity plan.changes }
    ensures renewed { RenewsOthers system.now.processes own plan.version threads.old.items workers.old threads.new.items workers.new }
    ensures changes { (closed : List ThreadRow) → IsClosed threads.old.items own.caller.tid closed → (given : List Change) × (result ≡ plan.changes.items ++ given) × AreNumberedFrom workers.old (renewals_from workers.old.calls.next (calls_from (others system.now.processes own) 1 closed)) given }
{
    threads[own.caller.tid as usize - 1].close();
    let which = WhichCalls::OthersOf(own.caller);
    let changes = renew_all(threads, workers, system, which, plan);
    end_call(workers, own.drawing);
    Sequence::of(changes)
}
