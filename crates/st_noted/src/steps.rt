// Steps of a kernel whose entries are given to a recorder.
ghost use Rattle.std.specs.Prelude.{◌≡◌, ◌↔◌, true, is_some, IfOk, OnOk, OnErr};
ghost use Rattle.st_trace.specs.declared.entry.Choice.{Choice};
ghost use Rattle.st_trace.specs.declared.entry.Choice.TheVariants as choices;
ghost use Rattle.st_law.specs.Meaning.{IsWorker};
ghost use Rattle.st_kernel.specs.Kernel.{entry_now, with_choice, RunSoFar};
ghost use Rattle.st_noted.specs.Steps.{IsAnswerTaken, IsStepMade, IsWorkDone, MayHaveMade, StillNoted};

use crate::last_entry::LastEntry;
use st_base::Worker;
use st_filter::Judged;
use st_kernel::{Kernel, StepFault, Work};
use st_report::Recorder;
use st_trace::{Choice, Entry};
use std::alloc::{AllocError, Global};

// Gives the recorder the entry that the last choice added.
fn note_last<R: Recorder>(
    kernel: &Kernel<'_>,
    recorder: &mut R,
    alloc: Global,
    added: &Option<Entry>,
) -> Result<(), AllocError>
    requires { is_some added.now ≡ true }
    ensures { OnOk result ((old : RunSoFar) (choice : Choice) → kernel.now ≡ with_choice old choice → entry_now old choice ≡ added.now → StillNoted (R.has_noted recorder.old) old (R.has_noted recorder.new) kernel.now) }
{
    let Some(entry) = added else { unreachable!() };
    recorder.note(
        alloc,
        kernel.input(),
        kernel.compiled(),
        kernel.session(),
        entry,
    )
}

/// Makes a choice, stores its entry in `added`, and gives it to the recorder. Returns whether the choice was enabled; one that isn't
/// changes neither the run nor what is recorded.
pub fn advance<R: Recorder>(
    kernel: &mut Kernel<'_>,
    recorder: &mut R,
    alloc: Global,
    choice: Choice,
    added: &mut LastEntry,
) -> Result<bool, AllocError>
    ensures noted { OnOk result (StillNoted (R.has_noted recorder.old) kernel.old (R.has_noted recorder.new) kernel.new) }
    ensures made { IfOk result (λ made. IsStepMade kernel.old choice made kernel.new) }
    ensures step { MayHaveMade kernel.old choice kernel.new }
{
    match kernel.advance(alloc, choice, &mut added.entry) {
        Ok(()) => {}
        Err(StepFault::NotEnabled) => return Ok(false),
        Err(StepFault::NoMemory) => return Err(AllocError),
    }
    note_last(kernel, recorder, alloc, &added.entry)?;
    Ok(true)
}

// Whether there is a worker of this number.
fn has_worker(kernel: &Kernel<'_>, worker: Worker) -> bool
    ensures { (result ≡ true) ↔ IsWorker kernel.now.input worker }
{
    0 < worker && worker <= kernel.input().options.workers
}

/// Moves a worker, unless it is ready: then its copies are returned, and nothing changes. The entry that a move adds is stored in `added`
/// and given to the recorder. A worker that isn't there is idle.
pub fn work<R: Recorder>(
    kernel: &mut Kernel<'_>,
    recorder: &mut R,
    alloc: Global,
    worker: Worker,
    added: &mut LastEntry,
) -> Result<Work, AllocError>
    ensures noted { OnOk result (StillNoted (R.has_noted recorder.old) kernel.old (R.has_noted recorder.new) kernel.new) }
    ensures work { IfOk result (λ work. IsWorkDone kernel.old worker work kernel.new) }
    ensures step { MayHaveMade kernel.old (choices.Worker worker) kernel.new }
{
    if !has_worker(kernel, worker) {
        return Ok(Work::Idle);
    }
    match kernel.work(alloc, worker, &mut added.entry)? {
        Work::Went => {}
        Work::Judge(copies) => return Ok(Work::Judge(copies)),
        Work::Idle => return Ok(Work::Idle),
    }
    note_last(kernel, recorder, alloc, &added.entry)?;
    Ok(Work::Went)
}

/// Answers a call that was judged by the policies of the run, under the number of its worker, and gives the entry to the recorder. Returns
/// whether the worker was ready with this call; if not, nothing changes. If memory runs out, the answer was made all the same.
pub fn answer<'a, R: Recorder>(
    kernel: &mut Kernel<'a>,
    recorder: &mut R,
    alloc: Global,
    worker: Worker,
    judged: Judged<'a>,
) -> Result<bool, AllocError>
    requires { judged.policies ≡ kernel.old.input.policies }
    ensures noted { OnOk result (StillNoted (R.has_noted recorder.old) kernel.old (R.has_noted recorder.new) kernel.new) }
    ensures taken { IfOk result (λ taken. IsAnswerTaken kernel.old worker judged.entry.snapshot taken kernel.new) }
    ensures unnoted { OnErr result (IsAnswerTaken kernel.old worker judged.entry.snapshot true kernel.new) }
    ensures step { MayHaveMade kernel.old (choices.Worker worker) kernel.new }
{
    if !has_worker(kernel, worker) {
        return Ok(false);
    }
    let mut answered = LastEntry::none();
    if kernel
        .answer(worker, judged, &mut answered.entry)
        .ok()
        .is_none()
    {
        return Ok(false);
    }
    note_last(kernel, recorder, alloc, &answered.entry)?;
    Ok(true)
}
