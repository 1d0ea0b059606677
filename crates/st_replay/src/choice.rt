// The choice that an entry tells.
ghost use Rattle.std.specs.Prelude.{◌≡◌, ℕ};
ghost use Rattle.st_law.specs.Inputs.{IsStartable};
ghost use Rattle.st_kernel.specs.Kernel.{number_now, state_in};
ghost use Rattle.st_replay.specs.Told.{choice_numbered, choice_of_mover, worker_numbered};

use crate::mover::{Mover, mover_of};
use st_base::{Seq, Worker};
use st_kernel::Kernel;
use st_trace::{Choice, Entry};

// The least worker that is at this number, 0 if none is.
fn worker_numbered(kernel: &Kernel<'_>, seq: Seq) -> Worker
    requires { IsStartable kernel.now.input }
    ensures { result ≡ worker_numbered kernel.now.input (state_in kernel.now) (number_now kernel.now) seq }
{
    for worker in 1..kernel.input().options.workers + 1 {
        if kernel.working_on(worker) == Some(seq) {
            return worker;
        }
    }
    0
}

/// The choice of a mover.
pub(crate) fn choice_of_mover(kernel: &Kernel<'_>, mover: Mover) -> Choice
    requires { IsStartable kernel.now.input }
    ensures { result ≡ choice_of_mover kernel.now.input (state_in kernel.now) (number_now kernel.now) mover }
{
    match mover {
        Mover::Thread(tid) => Choice::Thread(tid),
        Mover::Worker(worker) => Choice::Worker(worker),
        Mover::Number(seq) => Choice::Worker(worker_numbered(kernel, seq)),
        Mover::Operator => Choice::Operator,
    }
}

/// The choice that an entry tells: its thread, the worker that it names or that is at its number, or the operator.
pub(crate) fn choice_told(kernel: &Kernel<'_>, entry: &Entry) -> Choice
    requires { IsStartable kernel.now.input }
    ensures { result ≡ choice_numbered kernel.now.input (state_in kernel.now) (number_now kernel.now) entry.now }
{
    choice_of_mover(kernel, mover_of(entry))
}
