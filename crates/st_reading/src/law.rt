ghost use Rattle.std.specs.Prelude.{◌≡◌, ◌≤◌, ℕ, List, false, length};
ghost use Rattle.st_law.specs.declared.input.Input.{Input};
ghost use Rattle.st_law.specs.declared.input.ReadSchedule.{ReadSchedule};
ghost use Rattle.st_command.specs.Command.{StepWords, ReplayWords, RunWords, CheckWords};
ghost use Rattle.st_command.specs.Reading.{IsRunWithinLimits, IsWithinLimits};
ghost use Rattle.st_command.specs.Words.{Word};
ghost use Rattle.st_command.specs.declared.command.Command.{Command};
ghost use Rattle.st_command.specs.declared.command.Command.TheVariants as command;
ghost use Rattle.st_reading.specs.Meaning.{Contents, Meaning, Means, Runs, Replays, Prints, is_stop, AreFilesKnown, names_of, step_input, replay_input};
ghost use Rattle.st_reading.specs.RunMeaning.{MeansRun, starts, no_lines, run_input, run_names, with_schedule_of};
ghost use Rattle.st_reading.specs.Kinds.{OnlyRuns, OnlyReplays, OnlyPrints};
ghost use Rattle.st_reading.specs.Runnable.{IsRunnable, StartsNatively};
ghost use Rattle.st_outside.specs.Files.{CanHold};
ghost use Rattle.st_outside.specs.declared.files.TheConstants.{FILE_LIMIT};
ghost use Rattle.st_reached.specs.Runnable.{CanRun};
ghost use Rattle.st_schedule.specs.Schedule.{schedule_in};

use st_script::policies::{
    what_is_reloaded_grants_no_ids_for_setting, what_is_replied_grants_no_ids_for_setting,
};

/// A command over known files has exactly one meaning, besides the files at which reading may stop.
pub fn a_command_has_one_meaning()
    ensures some { (contents : Contents) (c : Command) → AreFilesKnown contents (names_of c) → (outcome : Meaning) × (is_stop outcome ≡ false) × Means contents c outcome }
    ensures one { (contents : Contents) (c : Command) (a b : Meaning) → AreFilesKnown contents (names_of c) → is_stop a ≡ false → is_stop b ≡ false →
        Means contents c a → Means contents c b → a ≡ b }
{}

/// Each input that `step`, `replay` or `run` means has the start that its script says, with native flags in place of Linux ones if the words
/// ask for Linux.
pub fn what_is_meant_starts_natively()
    ensures step { (contents : Contents) (step : StepWords) (input : Input) (schedule : ReadSchedule) → Means contents (command.Step step) (Runs input schedule) → StartsNatively contents (step_input step) input }
    ensures replay { (contents : Contents) (replay : ReplayWords) (input : Input) (text : List ℕ) → Means contents (command.Replay replay) (Replays input text) → StartsNatively contents (replay_input replay) input }
    ensures run { (contents : Contents) (run : RunWords) (input : Input) → MeansRun contents run (starts input) → StartsNatively contents (run_input run) input }
{}

/// Each input that `step` means to run can be run: its script, its policies and its replies have what a run needs, and its options are those
/// of the words.
pub fn what_is_meant_to_run_can_run()
    ensures { (contents : Contents) (step : StepWords) (input : Input) (schedule : ReadSchedule) → Means contents (command.Step step) (Runs input schedule) → IsRunnable step input }
{
    what_is_replied_grants_no_ids_for_setting();
    what_is_reloaded_grants_no_ids_for_setting();
}

/// `step` only means runs, `replay` only replays, and `check` only texts without a run, besides stops and refusals.
pub fn each_command_means_its_own_kind()
    ensures step { (contents : Contents) (step : StepWords) (outcome : Meaning) → Means contents (command.Step step) outcome → OnlyRuns outcome }
    ensures replay { (contents : Contents) (replay : ReplayWords) (outcome : Meaning) → Means contents (command.Replay replay) outcome → OnlyReplays outcome }
    ensures check { (contents : Contents) (check : CheckWords) (outcome : Meaning) → Means contents (command.Check check) outcome → OnlyPrints outcome }
{}

/// Each input whose trace `replay` means to replay can be run, and the trace is what its file holds, no longer than a file may be.
pub fn what_is_meant_to_be_replayed_can_run()
    ensures { (contents : Contents) (replay : ReplayWords) (input : Input) (text : List ℕ) → IsWithinLimits (command.Replay replay) → Means contents (command.Replay replay) (Replays input text) →
        CanRun input × (length text ≤ FILE_LIMIT) × CanHold (contents replay.trace) text }
{
    what_is_replied_grants_no_ids_for_setting();
    what_is_reloaded_grants_no_ids_for_setting();
}

/// `run` over known files has exactly one meaning, besides the files at which reading may stop.
pub fn a_run_has_one_meaning()
    ensures some { (contents : Contents) (run : RunWords) → AreFilesKnown contents (run_names run) → (outcome : Meaning) × (is_stop outcome ≡ false) × MeansRun contents run outcome }
    ensures one { (contents : Contents) (run : RunWords) (a b : Meaning) → AreFilesKnown contents (run_names run) → is_stop a ≡ false → is_stop b ≡ false →
        MeansRun contents run a → MeansRun contents run b → a ≡ b }
{}

/// Each input that `run` means to run can be run. `run` has no line of a schedule, and never means a text without a run.
pub fn what_run_means_can_run()
    ensures runnable { (contents : Contents) (run : RunWords) (input : Input) → IsRunWithinLimits run → MeansRun contents run (starts input) → CanRun input }
    ensures lines { (contents : Contents) (run : RunWords) (input : Input) (schedule : ReadSchedule) → MeansRun contents run (Runs input schedule) → schedule ≡ no_lines }
    ensures text { (contents : Contents) (run : RunWords) (text : List ℕ) → MeansRun contents run (Prints text) → ⊥ }
{
    what_is_replied_grants_no_ids_for_setting();
    what_is_reloaded_grants_no_ids_for_setting();
}

/// `step` with the options and the script of a `run`, and with any schedule that can be fetched, means to run the input that the `run` means.
pub fn what_run_means_step_means()
    ensures { (contents : Contents) (run : RunWords) (input : Input) → MeansRun contents run (starts input) →
        (name : Word) (text : List ℕ) → CanHold (contents name) text → length text ≤ FILE_LIMIT →
        Means contents (command.Step (with_schedule_of run name)) (Runs input (schedule_in text)) }
{}
