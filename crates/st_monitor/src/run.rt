// Runs all bodies, all workers and the operator.
ghost use Rattle.std.specs.Prelude.{◌≡◌, ◌≤◌, [], IfOk};
ghost use Rattle.std.specs.List.{All};
ghost use Rattle.std.specs.Thread.{IsSend, IsSync};
ghost use Rattle.st_messages.specs.Tickets.{took_nothing};
ghost use Rattle.st_law.specs.Machine.{IsSettled};
ghost use Rattle.st_reached.specs.Reached.{most_numbers};
ghost use Rattle.st_kernel.specs.Kernel.{state_in, trace_of};
ghost use Rattle.st_recorded.specs.Tickets.{new_takers};

use crate::shared::Shared;
use st_desk::{Gate, Monitor, run_bodies, run_operator, run_worker};
use st_kernel::Kernel;
use st_messages::{Poster, Taker};
use st_recorded::{RecordedRun, Run, RunName, tickets_for};
use st_report::Recorder;
use std::alloc::{AllocError, Global};
use std::marker::Brand;
use std::sync::Wait;
use std::thread::{Threads, join};

// Runs the operator and the workers, each with one of these takers.
fn run_servers<
    N: RunName + Send,
    Q: Run + Drop + Send,
    M: Monitor<Q> + Sync,
    G: Gate + Sync,
    T: Threads + Wait + Sync,
>(rt: &T, shared: &M, gate: &G, takers: Vec<Taker>)
    requires { All (λ taker. taker ≡ took_nothing N.queue) takers.items }
{
    let mut takers = takers;
    let worker = u32::try_from(takers.len()).unwrap_or(u32::MAX);
    let Some(taker) = takers.pop() else {
        run_operator::<Q, M, T>(rt, shared);
        return;
    };
    join(
        rt,
        move ||
            requires { IsSync T.row × IsSync G.row × IsSync M.row × IsSend Q.row × IsSend N.row × All (λ taker. taker ≡ took_nothing N.queue) takers.items }
        { run_servers::<N, Q, M, G, T>(rt, shared, gate, takers) },
        move ||
            requires { IsSync T.row × IsSync G.row × IsSync M.row × IsSend Q.row × IsSend N.row × (taker ≡ took_nothing N.queue) }
        { run_worker::<N, Q, M, G, T>(rt, shared, worker, gate, taker) },
    );
}

// Runs all bodies, and lets the other runners return.
fn run_threads<
    Q: Run + Drop + Send,
    M: Monitor<Q> + Sync,
    G: Gate + Sync,
    T: Threads + Wait + Sync,
>(rt: &T, shared: &M, gate: &G, threads: u32) {
    run_bodies::<Q, M, G, T>(rt, shared, gate, 1, threads);
    shared.turns().close(rt);
}

// Runs all bodies, all workers and the operator, on what they take in turns. The bodies are joined last, since they are what runs first if
// the host makes no thread.
fn run_all_at<
    N: RunName + Send,
    Q: Run + Drop + Send,
    M: Monitor<Q> + Sync,
    G: Gate + Sync,
    T: Threads + Wait + Sync,
>(rt: &T, shared: &M, gate: &G, takers: Vec<Taker>, threads: u32)
    requires { takers.items ≡ new_takers N.input N.queue }
{
    join(
        rt,
        move ||
            requires { IsSync T.row × IsSync G.row × IsSync M.row × IsSend Q.row × IsSend N.row × All (λ taker. taker ≡ took_nothing N.queue) takers.items }
        { run_servers::<N, Q, M, G, T>(rt, shared, gate, takers) },
        ||
            requires { IsSync T.row × IsSync G.row × IsSync M.row × IsSend Q.row }
        { run_threads::<Q, M, G, T>(rt, shared, gate, threads) },
    );
}

// Runs a kernel of the input that `N` names, by the poster and the takers of the queue that `N` names.
fn run_named<
    'a,
    N: RunName + Send + Sync,
    R: Recorder + Drop + Send,
    G: Gate + Sync,
    T: Threads + Wait + Sync,
>(
    rt: &T,
    alloc: Global,
    both: (Kernel<'a>, R),
    tickets: (Poster, Vec<Taker>),
    gate: &G,
) -> Result<(Kernel<'a>, R), AllocError>
    requires input { both.0.input ≡ N.input }
    requires noted { R.has_noted both.1 both.0.input (trace_of both.0) }
    requires room { most_numbers both.0.input ≤ tickets.0.capacity }
    requires none { tickets.0.tickets ≡ [] }
    requires queue { tickets.0.queue ≡ N.queue }
    requires takers { tickets.1.items ≡ new_takers N.input N.queue }
    ensures input { IfOk result (λ both. both.0.input ≡ N.input) }
    ensures settled { IfOk result (λ both. IsSettled both.0.input (state_in both.0)) }
    ensures noted { IfOk result (λ both. ∥ R.has_noted both.1 both.0.input (trace_of both.0) ∥₁) }
{
    let (kernel, recorder) = both;
    let (poster, takers) = tickets;
    let threads = u32::try_from(kernel.input().start.threads.len()).unwrap_or(u32::MAX);
    let shared = Shared::<'a, N, R>::new(rt, alloc, kernel, recorder, poster)?;
    run_all_at::<N, RecordedRun<'a, N, R>, Shared<'a, N, R>, G, T>(
        rt, &shared, gate, takers, threads,
    );
    shared.finish()
}

/// Runs a kernel by threads until no choice is enabled, and returns it with what recorded its run. Bodies, workers and the operator are
/// runners of their own, and where the host makes no thread they run one after the other. If memory runs out, all runners return.
pub fn run_all<'a, R: Recorder + Drop + Send, G: Gate + Sync, T: Threads + Wait + Sync>(
    rt: &T,
    alloc: Global,
    kernel: Kernel<'a>,
    recorder: R,
    gate: &G,
) -> Result<(Kernel<'a>, R), AllocError>
    requires { R.has_noted recorder kernel.input (trace_of kernel) }
    ensures input { IfOk result (λ both. both.0.input ≡ kernel.entry.input) }
    ensures settled { IfOk result (λ both. IsSettled both.0.input (state_in both.0)) }
    ensures noted { IfOk result (λ both. ∥ R.has_noted both.1 both.0.input (trace_of both.0) ∥₁) }
{
    let (poster, takers) = tickets_for(alloc, &kernel)?;
    run_named::<Brand, R, G, T>(rt, alloc, (kernel, recorder), (poster, takers), gate)
}
