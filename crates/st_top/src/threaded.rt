// Runs by threads, and prints what is asked for of the run that they made.
ghost use Rattle.std.specs.Prelude.{◌≡◌, [], IfOk};
ghost use Rattle.st_command.specs.declared.given.Print.TheVariants as print;
ghost use Rattle.st_audit.specs.Recording.{IsAuditOf, emulation_by};
ghost use Rattle.st_emulation.specs.declared.emulation.Emulation as spec;
ghost use Rattle.st_kernel.specs.Kernel.{state_in, trace_of};
ghost use Rattle.st_law.specs.Inputs.{IsStartable};
ghost use Rattle.st_law.specs.Machine.{IsSettled};
ghost use Rattle.st_reached.specs.Runnable.{CanRun};
ghost use Rattle.st_report.specs.TraceText.{trace_text};
ghost use Rattle.st_top.specs.RunEnds.{IsWholeRun, ThreadsShow};

use crate::ended::Schedule;
use crate::status::Status;
use st_audit::{AuditRecorder, policies_text};
use st_base::Text;
use st_command::Print;
use st_emulation::Emulation;
use st_kernel::Kernel;
use st_law::Input;
use st_law::law::some_choice_is_enabled;
use st_monitor::{Gate, run_all};
use st_report::schedule::a_printed_schedule_is_its_choices;
use st_report::{NoRecorder, TraceRecorder, repeats_text};
use std::alloc::{AllocError, Global};
use std::sync::Wait;
use std::thread::Threads;

/// What is asked for of a run: what is printed of it, and under which emulation.
#[derive(Clone, Copy)]
pub struct Asked {
    pub print: Print,
    pub emulation: Emulation,
}

// The choices of a run. If no choice is enabled after them, they make a whole run.
fn choices_of(alloc: Global, kernel: &Kernel<'_>) -> Result<Schedule, AllocError>
    ensures made { IfOk result (λ schedule. schedule ≡ kernel.now.choices) }
    ensures whole { IsSettled kernel.now.input (state_in kernel.now) → IsWholeRun kernel.now.input kernel.now.choices }
{
    a_printed_schedule_is_its_choices();
    some_choice_is_enabled();
    Schedule::of(alloc, kernel.schedule())
}

// The audit of a run that threads have made, and its choices. It borrows the kernel, so that the kernel is dropped in one place.
fn audit_made<const LINUX: bool>(
    alloc: Global,
    kernel: &Kernel<'_>,
    recorder: AuditRecorder<LINUX>,
) -> Result<(Text, Schedule), Status>
    requires startable { IsStartable kernel.now.input }
    requires settled { IsSettled kernel.now.input (state_in kernel.now) }
    requires noted { ∥ IsAuditOf recorder kernel.now.input (trace_of kernel.now) (emulation_by LINUX) ∥₁ }
    ensures { ThreadsShow print.Audit kernel.now.input (emulation_by LINUX) result }
{
    let schedule = choices_of(alloc, kernel)?;
    Ok((recorder.into_text(), schedule))
}

// The audit of a run by threads, for Linux or as it is, and its choices.
fn recorded_by_threads<const LINUX: bool, G: Gate + Sync, T: Threads + Wait + Sync>(
    rt: &T,
    alloc: Global,
    kernel: Kernel<'_>,
    gate: &G,
) -> Result<(Text, Schedule), Status>
    requires startable { IsStartable kernel.input }
    requires none { kernel.choices ≡ [] }
    ensures { ThreadsShow print.Audit kernel.entry.input (emulation_by LINUX) result }
{
    let recorder = AuditRecorder::<LINUX>::new(alloc);
    let (kernel, recorder) = run_all(rt, alloc, kernel, recorder, gate)?;
    audit_made(alloc, &kernel, recorder)
}

// The audit of a run by threads, under an emulation, and its choices.
fn audit_by_threads<G: Gate + Sync, T: Threads + Wait + Sync>(
    rt: &T,
    alloc: Global,
    kernel: Kernel<'_>,
    gate: &G,
    emulation: Emulation,
) -> Result<(Text, Schedule), Status>
    requires startable { IsStartable kernel.input }
    requires none { kernel.choices ≡ [] }
    ensures { ThreadsShow print.Audit kernel.entry.input emulation result }
{
    match emulation {
        Emulation::Native => recorded_by_threads::<false, G, T>(rt, alloc, kernel, gate),
        Emulation::Linux => recorded_by_threads::<true, G, T>(rt, alloc, kernel, gate),
    }
}

// The trace of a run that threads have made, and its choices. It borrows the kernel, so that the kernel is dropped in one place.
fn trace_made(
    alloc: Global,
    kernel: &Kernel<'_>,
    recorder: TraceRecorder,
) -> Result<(Text, Schedule), Status>
    requires settled { IsSettled kernel.now.input (state_in kernel.now) }
    requires noted { recorder ≡ trace_text (trace_of kernel.now) }
    ensures { (emulation : spec.Emulation) → ThreadsShow print.Trace kernel.now.input emulation result }
{
    let schedule = choices_of(alloc, kernel)?;
    Ok((recorder.into_text(), schedule))
}

// The trace of a run by threads, and its choices.
fn trace_by_threads<G: Gate + Sync, T: Threads + Wait + Sync>(
    rt: &T,
    alloc: Global,
    kernel: Kernel<'_>,
    gate: &G,
) -> Result<(Text, Schedule), Status>
    requires startable { IsStartable kernel.input }
    requires none { kernel.choices ≡ [] }
    ensures { (emulation : spec.Emulation) → ThreadsShow print.Trace kernel.entry.input emulation result }
{
    let recorder = TraceRecorder::new(alloc);
    let (kernel, recorder) = run_all(rt, alloc, kernel, recorder, gate)?;
    trace_made(alloc, &kernel, recorder)
}

// The schedule of a run that threads have made, and its choices. It borrows the kernel, so that the kernel is dropped in one place.
fn schedule_made(alloc: Global, kernel: &Kernel<'_>) -> Result<(Text, Schedule), Status>
    requires settled { IsSettled kernel.now.input (state_in kernel.now) }
    ensures { (emulation : spec.Emulation) → ThreadsShow print.Schedule kernel.now.input emulation result }
{
    let schedule = choices_of(alloc, kernel)?;
    Ok((repeats_text(alloc, kernel.schedule())?, schedule))
}

// The schedule of a run by threads, and its choices.
fn schedule_by_threads<G: Gate + Sync, T: Threads + Wait + Sync>(
    rt: &T,
    alloc: Global,
    kernel: Kernel<'_>,
    gate: &G,
) -> Result<(Text, Schedule), Status>
    requires startable { IsStartable kernel.input }
    ensures { (emulation : spec.Emulation) → ThreadsShow print.Schedule kernel.entry.input emulation result }
{
    let (kernel, _) = run_all(rt, alloc, kernel, NoRecorder, gate)?;
    schedule_made(alloc, &kernel)
}

// The policies after a run that threads have made, and its choices. It borrows the kernel, so that the kernel is dropped in one place.
fn policies_made(
    alloc: Global,
    kernel: &Kernel<'_>,
    emulation: Emulation,
) -> Result<(Text, Schedule), Status>
    requires startable { IsStartable kernel.now.input }
    requires settled { IsSettled kernel.now.input (state_in kernel.now) }
    ensures { ThreadsShow print.Policy kernel.now.input emulation result }
{
    let schedule = choices_of(alloc, kernel)?;
    let text = policies_text(alloc, kernel.input(), kernel.session(), emulation)?;
    Ok((text, schedule))
}

// The policies after a run by threads, and its choices.
fn policies_by_threads<G: Gate + Sync, T: Threads + Wait + Sync>(
    rt: &T,
    alloc: Global,
    kernel: Kernel<'_>,
    gate: &G,
    emulation: Emulation,
) -> Result<(Text, Schedule), Status>
    requires startable { IsStartable kernel.input }
    ensures { ThreadsShow print.Policy kernel.entry.input emulation result }
{
    let (kernel, _) = run_all(rt, alloc, kernel, NoRecorder, gate)?;
    policies_made(alloc, &kernel, emulation)
}

// The text that is asked for of a run by threads, and its choices.
fn printed_by_threads<G: Gate + Sync, T: Threads + Wait + Sync>(
    rt: &T,
    alloc: Global,
    asked: Asked,
    kernel: Kernel<'_>,
    gate: &G,
) -> Result<(Text, Schedule), Status>
    requires startable { IsStartable kernel.input }
    requires none { kernel.choices ≡ [] }
    ensures { ThreadsShow asked.print kernel.entry.input asked.emulation result }
{
    let Asked { print, emulation } = asked;
    match print {
        Print::Audit => audit_by_threads(rt, alloc, kernel, gate, emulation),
        Print::Trace => trace_by_threads(rt, alloc, kernel, gate),
        Print::Schedule => schedule_by_threads(rt, alloc, kernel, gate),
        Print::Policy => policies_by_threads(rt, alloc, kernel, gate, emulation),
    }
}

/// Runs an input by threads, and prints what is asked for of the run that they made. Returns its choices too.
pub fn text_of_threads<G: Gate + Sync, T: Threads + Wait + Sync>(
    rt: &T,
    alloc: Global,
    asked: Asked,
    input: &Input,
    gate: &G,
) -> Result<(Text, Schedule), Status>
    requires { CanRun input.now }
    ensures { ThreadsShow asked.print input.now asked.emulation result }
{
    let kernel = Kernel::start(alloc, input)?;
    printed_by_threads(rt, alloc, asked, kernel, gate)
}
