ghost use Rattle.std.specs.Prelude.{◌≡◌, ◌≢◌, ◌⊎◌, ◌++◌, ℕ, List, Some, None, true, false};
ghost use Rattle.st_outside.specs.Count.{HasRisen};
ghost use Rattle.st_outside.specs.Sink.{Appends, AppendsPrefix};
ghost use Rattle.st_trace.specs.declared.entry.Choice.{Choice};
ghost use Rattle.st_law.specs.declared.input.Input.{Input};
ghost use Rattle.st_law.specs.declared.input.ReadSchedule.{ReadSchedule};
ghost use Rattle.st_law.specs.Lawful.{Lawful};
ghost use Rattle.st_law.specs.Machine.{run};
ghost use Rattle.st_law.specs.Numbers.{IsLawfulByNumber, numbered};
ghost use Rattle.st_law.specs.Schedules.{Choices, BadLine, played};
ghost use Rattle.st_command.specs.Command.{StepWords, ReplayWords, CheckWords};
ghost use Rattle.st_command.specs.Reading.{command_in, gen_of_words, IsWithinLimits};
ghost use Rattle.st_command.specs.declared.command.Command.TheVariants.{Step, Replay, Check};
ghost use Rattle.st_grammar.specs.declared.fault.PolicyRefusal.{PolicyRefusal};
ghost use Rattle.st_script_faults.specs.declared.fault.ScriptFault.{ScriptFault};
ghost use Rattle.st_reading.specs.Meaning.{Means, Stops, Refuses, Runs, Replays, Prints, AreFilesKnown, replay_input, step_input};
ghost use Rattle.st_reading.specs.Runnable.{StartsNatively};
ghost use Rattle.st_reading.specs.declared.refusal.Refusal.TheVariants as refusal;
ghost use Rattle.st_reading.specs.declared.refusal.Which.{Which};
ghost use Rattle.st_reading.specs.declared.refusal.Which.TheVariants as which;
ghost use Rattle.st_top.specs.Outcome.{CommandOutcome, WordsHaveOutcome, emulation_asked, is_stop, lawful_text, print_of, printed};
ghost use Rattle.st_trace_replay.specs.Replayed.{BreaksAt, IsLawfulText};
ghost use Rattle.st_generated_run.specs.Generated.{IsGeneratedLine};
ghost use Rattle.st_top.specs.Generated.{IsGeneratedBy, WordsMeanGenerated};
ghost use Rattle.st_top.specs.Ends.{Prepares, EndsCommand, IsMeantBy, WordsMeanUpTo, WantsMemoryFor, EndsAs, names_asked};

use crate::generated::serve_generated;
use crate::replaying::text_of_replay;
use crate::run::text_of_run;
use crate::status::Status;
use st_base::Text;
use st_command::{Command, Print, read_gen_words, read_words};
use st_emulation::Emulation;
use st_outside::{Files, Sink, write_all};
use st_reading::law::{what_is_meant_to_be_replayed_can_run, what_is_meant_to_run_can_run};
use st_reading::{Reading, read_command};
use std::alloc::Global;

// What a command asks to be printed of its run.
fn print_of(command: &Command<'_>) -> Print
    ensures { result ≡ print_of command.now }
{
    match command {
        Command::Step(step) => step.print,
        Command::Replay(_) | Command::Check(_) => Print::Audit,
    }
}

// The emulation that a command asks for.
fn emulation_asked(command: &Command<'_>) -> Emulation
    ensures { result ≡ emulation_asked command.now }
{
    match command {
        Command::Step(step) => step.emulation,
        Command::Replay(replay) => replay.emulation,
        Command::Check(check) => check.emulation,
    }
}

// The text that a command writes, or why the command is refused.
fn prepare<F: Files>(alloc: Global, command: &Command<'_>, files: &mut F) -> Result<Text, Status>
    requires limits { IsWithinLimits command.now }
    ensures contents { F.contents files.new ≡ F.contents files.old }
    ensures prepares { Prepares (F.contents files.old) command.now (F.faults files.old) (F.faults files.new) (F.asked files.old) (F.asked files.new) result }
    ensures quiet { result ≢ Err Status.ReadFault → F.faults files.new ≡ F.faults files.old }
{
    what_is_meant_to_run_can_run();
    what_is_meant_to_be_replayed_can_run();
    match read_command(alloc, command, files)? {
        Reading::Run(input, schedule) => text_of_run(
            alloc,
            print_of(command),
            &input,
            &schedule,
            emulation_asked(command),
        ),
        Reading::Replay(input, trace) => text_of_replay(alloc, &input, trace.bytes()),
        Reading::Text(text) => Ok(text),
    }
}

// Runs a command, and writes its text.
fn serve<F: Files, S: Sink>(
    alloc: Global,
    command: &Command<'_>,
    files: &mut F,
    out: &mut S,
) -> Status
    requires limits { IsWithinLimits command.now }
    ensures contents { F.contents files.new ≡ F.contents files.old }
    ensures ends { EndsCommand (F.contents files.old) command.now (F.faults files.old) (F.faults files.new) (F.asked files.old) (F.asked files.new) (S.faults out.old) (S.faults out.new) (S.written out.old) (S.written out.new) result }
    ensures quiet { result ≢ Status.ReadFault → F.faults files.new ≡ F.faults files.old }
    ensures sink_quiet { result ≢ Status.WriteFault → S.faults out.new ≡ S.faults out.old }
{
    match prepare(alloc, command, files) {
        Ok(text) => match write_all(out, text.bytes()) {
            Ok(()) => Status::Done,
            Err(_) => Status::WriteFault,
        },
        Err(status) => status,
    }
}

/// Runs the command of the words after the program's name: `step`, `replay`, `check` or `gen`, with these files and this sink.
///
/// The words are read first, then the script, then each policy file, then the schedule or the trace. The first of them that is refused decides. `gen`
/// asks for no file: its script and its policy are generated.
pub fn systrace_plain<F: Files, S: Sink>(
    alloc: Global,
    words: &[Text],
    files: &mut F,
    out: &mut S,
) -> Status
    // `step` writes what its words ask for of the run that the words and files mean, and that run is lawful. So is its trace with the numbers
    // of messages, which is printed if the words ask for the trace: its numbers are those that the law gives to its messages. The start of the
    // run is the script's, with native flags in place of Linux ones if the words ask for Linux.
    ensures step { result ≡ Status.Done → (step : StepWords) → command_in words.now ≡ Some (Step step) →
        (input : Input) × (schedule : ReadSchedule) × (choices : List Choice) ×
        Means (F.contents files.old) (Step step) (Runs input schedule) ×
        StartsNatively (F.contents files.old) (step_input step) input ×
        (played input schedule ≡ Choices choices) ×
        Lawful input (run input choices) ×
        IsLawfulByNumber input (numbered input (run input choices)) ×
        Appends (S.written out.old) (S.written out.new) (printed step.print input choices step.emulation) }
    // `replay` writes `lawful` if the trace that its words and files mean is lawful: each line is that of one entry, and the entries are a
    // lawful trace, by the numbers of its messages.
    ensures replay { result ≡ Status.Done → (replay : ReplayWords) → command_in words.now ≡ Some (Replay replay) →
        (input : Input) × (trace : List ℕ) × Means (F.contents files.old) (Replay replay) (Replays input trace) × StartsNatively (F.contents files.old) (replay_input replay) input × IsLawfulText input trace × Appends (S.written out.old) (S.written out.new) lawful_text }
    // `check` writes the canonical text of the policies that its words and files mean.
    ensures check { result ≡ Status.Done → (check : CheckWords) → command_in words.now ≡ Some (Check check) →
        (text : List ℕ) × Means (F.contents files.old) (Check check) (Prints text) × Appends (S.written out.old) (S.written out.new) text }
    // `gen` writes the line of the run of the generated script and policy of so many rounds.
    ensures generated { result ≡ Status.Done → (rounds : ℕ) → gen_of_words words.now ≡ Some rounds →
        (line : List ℕ) × IsGeneratedLine rounds line × Appends (S.written out.old) (S.written out.new) line }
    ensures served { result ≡ Status.Done → (command_in words.now ≢ None) ⊎ (gen_of_words words.now ≢ None) }
    // If a text was written, whole or in part, all names of the command were asked for, in order.
    ensures asked { (result ≡ Status.Done) ⊎ (result ≡ Status.WriteFault) → F.asked files.new ≡ F.asked files.old ++ names_asked (command_in words.now) }

    // Each refusal is what the words and files mean, and the names that were asked for are those up to the refused file: none if the words
    // spell no command, or `gen`.
    ensures usage { result ≡ Status.Usage → (command_in words.now ≡ None) × (gen_of_words words.now ≡ None) × (F.asked files.new ≡ F.asked files.old) }
    ensures missing { (w : Which) → result ≡ Status.Missing w → WordsMeanUpTo words.now (F.contents files.old) (Refuses (refusal.Missing w)) w (F.asked files.old) (F.asked files.new) }
    ensures too_long { (w : Which) → result ≡ Status.TooLong w → WordsMeanUpTo words.now (F.contents files.old) (Refuses (refusal.TooLong w)) w (F.asked files.old) (F.asked files.new) }
    ensures script { (fault : ScriptFault) → result ≡ Status.Script fault → WordsMeanUpTo words.now (F.contents files.old) (Refuses (refusal.Script fault)) which.Script (F.asked files.old) (F.asked files.new) ⊎
        WordsMeanGenerated words.now (Refuses (refusal.Script fault)) (F.asked files.old) (F.asked files.new) }
    ensures policy { (n : ℕ) (fault : PolicyRefusal) → result ≡ Status.Policy n fault → WordsMeanUpTo words.now (F.contents files.old) (Refuses (refusal.Policy n fault)) (which.Policy n) (F.asked files.old) (F.asked files.new) ⊎
        WordsMeanGenerated words.now (Refuses (refusal.Policy n fault)) (F.asked files.old) (F.asked files.new) }
    ensures schedule { (line : ℕ) → result ≡ Status.Schedule line → (input : Input) × (schedule : ReadSchedule) ×
        WordsMeanUpTo words.now (F.contents files.old) (Runs input schedule) which.Schedule (F.asked files.old) (F.asked files.new) × (played input schedule ≡ BadLine line) }
    ensures illegal { (line : ℕ) → result ≡ Status.Illegal line → (input : Input) × (trace : List ℕ) ×
        WordsMeanUpTo words.now (F.contents files.old) (Replays input trace) which.Trace (F.asked files.old) (F.asked files.new) × BreaksAt input trace line }
    ensures read_fault { result ≡ Status.ReadFault → HasRisen (F.faults files.old) (F.faults files.new) × ((w : Which) × WordsMeanUpTo words.now (F.contents files.old) (Stops w) w (F.asked files.old) (F.asked files.new)) }
    ensures write_fault { result ≡ Status.WriteFault → HasRisen (S.faults out.old) (S.faults out.new) ×
        ((text : List ℕ) × (IsMeantBy words.now (F.contents files.old) text ⊎ IsGeneratedBy words.now text) × AppendsPrefix (S.written out.old) (S.written out.new) text) }
    ensures no_memory { result ≡ Status.NoMemory → WantsMemoryFor (F.contents files.old) (command_in words.now) (F.asked files.old) (F.asked files.new) }

    // Nothing is written unless the call succeeds or writing fails, the files stay as they are, and no count rises without its fault.
    ensures unwritten { result ≢ Status.Done → result ≢ Status.WriteFault → S.written out.new ≡ S.written out.old }
    ensures contents { F.contents files.new ≡ F.contents files.old }
    ensures quiet { result ≢ Status.ReadFault → F.faults files.new ≡ F.faults files.old }
    ensures sink_quiet { result ≢ Status.WriteFault → S.faults out.new ≡ S.faults out.old }

    // If each name of the words is known and no count rose, the answer is the outcome of the words, unless memory runs out.
    ensures complete { AreFilesKnown (F.contents files.old) (names_asked (command_in words.now)) → (HasRisen (F.faults files.old) (F.faults files.new) → ⊥) → (HasRisen (S.faults out.old) (S.faults out.new) → ⊥) →
        (outcome : CommandOutcome) → is_stop outcome ≡ false → WordsHaveOutcome words.now (F.contents files.old) outcome →
        (result ≡ Status.NoMemory) ⊎ EndsAs outcome (S.written out.old) (S.written out.new) result }
{
    if let Some(rounds) = read_gen_words(words) {
        return serve_generated(alloc, rounds, out);
    }
    match read_words(alloc, words) {
        Ok(Some(command)) => serve(alloc, &command, files, out),
        Ok(None) => Status::Usage,
        Err(_) => Status::NoMemory,
    }
}
