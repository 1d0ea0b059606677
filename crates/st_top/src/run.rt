// Plays a run, and prints what is asked for of it.
ghost use Rattle.std.specs.Prelude.{◌≡◌, []};
ghost use Rattle.st_command.specs.declared.given.Print.TheVariants as print;
ghost use Rattle.st_audit.specs.Recording.{emulation_by};
ghost use Rattle.st_emulation.specs.declared.emulation.Emulation as spec;
ghost use Rattle.st_law.specs.Inputs.{IsStartable};
ghost use Rattle.st_reached.specs.Runnable.{CanRun};
ghost use Rattle.st_top.specs.Ends.{RunShown};

use crate::status::Status;
use st_audit::{AuditRecorder, policies_text};
use st_base::Text;
use st_command::Print;
use st_emulation::Emulation;
use st_kernel::Kernel;
use st_law::{Input, ReadSchedule};
use st_report::{NoRecorder, TraceRecorder, repeats_text};
use std::alloc::Global;

// The audit of the run by a schedule, for Linux or as it is.
fn recorded_audit<const LINUX: bool>(
    alloc: Global,
    kernel: &mut Kernel<'_>,
    schedule: &ReadSchedule,
) -> Result<Text, Status>
    requires startable { IsStartable kernel.old.input }
    requires none { kernel.old.choices ≡ [] }
    ensures { RunShown print.Audit kernel.old.input schedule.now (emulation_by LINUX) result }
{
    let mut recorder = AuditRecorder::<LINUX>::new(alloc);
    kernel.play(alloc, schedule, &mut recorder)?;
    Ok(recorder.into_text())
}

// The audit of the run by a schedule, under an emulation.
fn audit_of(
    alloc: Global,
    kernel: &mut Kernel<'_>,
    schedule: &ReadSchedule,
    emulation: Emulation,
) -> Result<Text, Status>
    requires startable { IsStartable kernel.old.input }
    requires none { kernel.old.choices ≡ [] }
    ensures { RunShown print.Audit kernel.old.input schedule.now emulation result }
{
    match emulation {
        Emulation::Native => recorded_audit::<false>(alloc, kernel, schedule),
        Emulation::Linux => recorded_audit::<true>(alloc, kernel, schedule),
    }
}

// The trace of the run by a schedule.
fn trace_of(alloc: Global, kernel: &mut Kernel<'_>, schedule: &ReadSchedule) -> Result<Text, Status>
    requires none { kernel.old.choices ≡ [] }
    ensures { (emulation : spec.Emulation) → RunShown print.Trace kernel.old.input schedule.now emulation result }
{
    let mut recorder = TraceRecorder::new(alloc);
    kernel.play(alloc, schedule, &mut recorder)?;
    Ok(recorder.into_text())
}

// The schedule of the run by a schedule.
fn schedule_of(
    alloc: Global,
    kernel: &mut Kernel<'_>,
    schedule: &ReadSchedule,
) -> Result<Text, Status>
    requires none { kernel.old.choices ≡ [] }
    ensures { (emulation : spec.Emulation) → RunShown print.Schedule kernel.old.input schedule.now emulation result }
{
    kernel.play(alloc, schedule, &mut NoRecorder)?;
    Ok(repeats_text(alloc, kernel.schedule())?)
}

// The policies after the run by a schedule.
fn policies_of(
    alloc: Global,
    kernel: &mut Kernel<'_>,
    schedule: &ReadSchedule,
    emulation: Emulation,
) -> Result<Text, Status>
    requires startable { IsStartable kernel.old.input }
    requires none { kernel.old.choices ≡ [] }
    ensures { RunShown print.Policy kernel.old.input schedule.now emulation result }
{
    kernel.play(alloc, schedule, &mut NoRecorder)?;
    Ok(policies_text(alloc, kernel.input(), kernel.session(), emulation)?)
}

// The text that is asked for of the run by a schedule, under an emulation. It borrows the kernel, so that the kernel is dropped in one place.
fn text_of(
    alloc: Global,
    print: Print,
    kernel: &mut Kernel<'_>,
    schedule: &ReadSchedule,
    emulation: Emulation,
) -> Result<Text, Status>
    requires startable { IsStartable kernel.old.input }
    requires none { kernel.old.choices ≡ [] }
    ensures { RunShown print kernel.old.input schedule.now emulation result }
{
    match print {
        Print::Audit => audit_of(alloc, kernel, schedule, emulation),
        Print::Trace => trace_of(alloc, kernel, schedule),
        Print::Schedule => schedule_of(alloc, kernel, schedule),
        Print::Policy => policies_of(alloc, kernel, schedule, emulation),
    }
}

/// Plays a schedule, and prints what is asked for of its run, under an emulation.
pub fn text_of_run(
    alloc: Global,
    print: Print,
    input: &Input,
    schedule: &ReadSchedule,
    emulation: Emulation,
) -> Result<Text, Status>
    requires { CanRun input.now }
    ensures { RunShown print input.now schedule.now emulation result }
{
    let mut kernel = Kernel::start(alloc, input)?;
    text_of(alloc, print, &mut kernel, schedule, emulation)
}
