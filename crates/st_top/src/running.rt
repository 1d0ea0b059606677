// The top call of `run`.
ghost use Rattle.std.specs.Prelude.{◌≡◌, ◌≢◌, ◌⊎◌, ◌++◌, ℕ, List, Some, None, false, []};
ghost use Rattle.st_outside.specs.Count.{HasRisen};
ghost use Rattle.st_outside.specs.Sink.{Appends, AppendsPrefix};
ghost use Rattle.st_law.specs.declared.input.Input.{Input};
ghost use Rattle.st_law.specs.Lawful.{Lawful};
ghost use Rattle.st_law.specs.Machine.{run};
ghost use Rattle.st_law.specs.Numbers.{IsLawfulByNumber, numbered};
ghost use Rattle.st_command.specs.Command.{RunWords};
ghost use Rattle.st_command.specs.Reading.{run_of_words, IsRunWithinLimits};
ghost use Rattle.st_grammar.specs.declared.fault.PolicyRefusal.{PolicyRefusal};
ghost use Rattle.st_script_faults.specs.declared.fault.ScriptFault.{ScriptFault};
ghost use Rattle.st_reading.specs.Meaning.{Stops, Refuses, AreFilesKnown};
ghost use Rattle.st_reading.specs.RunMeaning.{MeansRun, run_input, starts};
ghost use Rattle.st_reading.specs.Runnable.{StartsNatively};
ghost use Rattle.st_reading.specs.declared.refusal.Refusal.TheVariants as refusal;
ghost use Rattle.st_reading.specs.declared.refusal.Which.{Which};
ghost use Rattle.st_reading.specs.declared.refusal.Which.TheVariants as which;
ghost use Rattle.st_top.specs.Outcome.{CommandOutcome, is_stop, printed};
ghost use Rattle.st_top.specs.Ends.{EndsAs};
ghost use Rattle.st_top.specs.RunEnds.{IsWholeRun, PreparesRun, WritesMade, EndsRun, RunMeansUpTo, IsMeantOfThreads, RunWantsMemory, run_names_asked, RunHasOutcome};

use crate::ended::{Ended, Schedule};
use crate::status::Status;
use crate::threaded::{Asked, text_of_threads};
use st_base::Text;
use st_command::{RunWords, read_run_words};
use st_monitor::Gate;
use st_outside::{Files, Sink, write_all};
use st_reading::law::what_run_means_can_run;
use st_reading::read_run;
use std::alloc::Global;
use std::sync::Wait;
use std::thread::Threads;

// The text that `run` writes with the choices of its run, or why it is refused.
fn prepare_run<F: Files, G: Gate + Sync, T: Threads + Wait + Sync>(
    rt: &T,
    alloc: Global,
    threaded: &RunWords<'_>,
    files: &mut F,
    gate: &G,
) -> Result<(Text, Schedule), Status>
    requires limits { IsRunWithinLimits threaded.now }
    ensures contents { F.contents files.new ≡ F.contents files.old }
    ensures prepares { PreparesRun (F.contents files.old) threaded.now (F.faults files.old) (F.faults files.new) (F.asked files.old) (F.asked files.new) result }
    ensures quiet { result ≢ Err Status.ReadFault → F.faults files.new ≡ F.faults files.old }
{
    what_run_means_can_run();
    let input = read_run(alloc, threaded, files)?;
    let asked = Asked {
        print: threaded.print,
        emulation: threaded.emulation,
    };
    text_of_threads(rt, alloc, asked, &input, gate)
}

// Writes what was prepared, and ends the call.
fn write_made<S: Sink>(
    alloc: Global,
    prepared: Result<(Text, Schedule), Status>,
    out: &mut S,
) -> Ended
    ensures written { WritesMade prepared (S.faults out.old) (S.faults out.new) (S.written out.old) (S.written out.new) result }
    ensures quiet { result.status ≢ Status.WriteFault → S.faults out.new ≡ S.faults out.old }
{
    let (text, schedule) = match prepared {
        Ok(made) => made,
        Err(status) => return Ended::without(alloc, status),
    };
    match write_all(out, text.bytes()) {
        Ok(()) => Ended {
            status: Status::Done,
            schedule,
        },
        Err(_) => Ended::without(alloc, Status::WriteFault),
    }
}

/// Runs the command of the words after the program's name by threads: `run`, with these files and this sink. It may wait, and what is said
/// of its end holds if it returns.
///
/// The words are read first, then the script, then each policy file. The first of them that is refused decides.
pub fn systrace_run<F: Files, S: Sink, G: Gate + Sync, T: Threads + Wait + Sync>(
    rt: &T,
    alloc: Global,
    words: &[Text],
    files: &mut F,
    out: &mut S,
    gate: &G,
) -> Ended
    // `run` writes what its words ask for of a run of the input that the words and files mean. Threads make that run, by the choices that are
    // returned. Each of them was enabled when it was made, the run is lawful, and each thread that has started has ended. The run's trace with
    // the numbers of messages is lawful too. The start of the run is the script's, with native flags in place of Linux ones if the words ask for
    // Linux.
    ensures run { result.status ≡ Status.Done → (threaded : RunWords) → run_of_words words.now ≡ Some threaded →
        (input : Input) × MeansRun (F.contents files.old) threaded (starts input) ×
        StartsNatively (F.contents files.old) (run_input threaded) input ×
        IsWholeRun input result.schedule ×
        Lawful input (run input result.schedule) ×
        IsLawfulByNumber input (numbered input (run input result.schedule)) ×
        Appends (S.written out.old) (S.written out.new) (printed threaded.print input result.schedule threaded.emulation) }
    ensures served { result.status ≡ Status.Done → run_of_words words.now ≢ None }
    // If a text was written, whole or in part, all names of the words were asked for, in order.
    ensures asked { (result.status ≡ Status.Done) ⊎ (result.status ≡ Status.WriteFault) → F.asked files.new ≡ F.asked files.old ++ run_names_asked (run_of_words words.now) }
    // No choice is returned unless the whole text was written.
    ensures no_choices { result.status ≢ Status.Done → result.schedule ≡ [] }

    // Each refusal is what the words and files mean, and the names that were asked for are those up to the refused file: none if the words
    // spell no `run`.
    ensures usage { result.status ≡ Status.Usage → (run_of_words words.now ≡ None) × (F.asked files.new ≡ F.asked files.old) }
    ensures missing { (w : Which) → result.status ≡ Status.Missing w → RunMeansUpTo words.now (F.contents files.old) (Refuses (refusal.Missing w)) w (F.asked files.old) (F.asked files.new) }
    ensures too_long { (w : Which) → result.status ≡ Status.TooLong w → RunMeansUpTo words.now (F.contents files.old) (Refuses (refusal.TooLong w)) w (F.asked files.old) (F.asked files.new) }
    ensures script { (fault : ScriptFault) → result.status ≡ Status.Script fault → RunMeansUpTo words.now (F.contents files.old) (Refuses (refusal.Script fault)) which.Script (F.asked files.old) (F.asked files.new) }
    ensures policy { (n : ℕ) (fault : PolicyRefusal) → result.status ≡ Status.Policy n fault → RunMeansUpTo words.now (F.contents files.old) (Refuses (refusal.Policy n fault)) (which.Policy n) (F.asked files.old) (F.asked files.new) }
    ensures schedule { (line : ℕ) → result.status ≢ Status.Schedule line }
    ensures illegal { (line : ℕ) → result.status ≢ Status.Illegal line }
    ensures read_fault { result.status ≡ Status.ReadFault → HasRisen (F.faults files.old) (F.faults files.new) × ((w : Which) × RunMeansUpTo words.now (F.contents files.old) (Stops w) w (F.asked files.old) (F.asked files.new)) }
    ensures write_fault { result.status ≡ Status.WriteFault → HasRisen (S.faults out.old) (S.faults out.new) ×
        ((text : List ℕ) × IsMeantOfThreads words.now (F.contents files.old) text × AppendsPrefix (S.written out.old) (S.written out.new) text) }
    ensures no_memory { result.status ≡ Status.NoMemory → RunWantsMemory (F.contents files.old) (run_of_words words.now) (F.asked files.old) (F.asked files.new) }

    // Nothing is written unless the call succeeds or writing fails, the files stay as they are, and no count rises without its fault.
    ensures unwritten { result.status ≢ Status.Done → result.status ≢ Status.WriteFault → S.written out.new ≡ S.written out.old }
    ensures contents { F.contents files.new ≡ F.contents files.old }
    ensures quiet { result.status ≢ Status.ReadFault → F.faults files.new ≡ F.faults files.old }
    ensures sink_quiet { result.status ≢ Status.WriteFault → S.faults out.new ≡ S.faults out.old }

    // If each name of the words is known and no count rose, the answer is the outcome of the words by the choices that are returned, unless
    // memory runs out.
    ensures complete { AreFilesKnown (F.contents files.old) (run_names_asked (run_of_words words.now)) → (HasRisen (F.faults files.old) (F.faults files.new) → ⊥) → (HasRisen (S.faults out.old) (S.faults out.new) → ⊥) →
        (outcome : CommandOutcome) → is_stop outcome ≡ false → RunHasOutcome (F.contents files.old) (run_of_words words.now) result.schedule outcome →
        (result.status ≡ Status.NoMemory) ⊎ EndsAs outcome (S.written out.old) (S.written out.new) result.status }
{
    match read_run_words(alloc, words) {
        Ok(Some(threaded)) => write_made(
            alloc,
            prepare_run(rt, alloc, &threaded, files, gate),
            out,
        ),
        Ok(None) => Ended::without(alloc, Status::Usage),
        Err(_) => Ended::without(alloc, Status::NoMemory),
    }
}
