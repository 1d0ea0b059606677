ghost use Rattle.std.specs.Prelude.{◌≡◌, ◌≤◌, ◌∷◌, ℕ, List, [], None, Some, length, reverse};
ghost use Rattle.st_command.specs.Command.{RunWords, StepWords};
ghost use Rattle.st_command.specs.Reading.{IsRunWithinLimits, IsWithinLimits};
ghost use Rattle.st_command.specs.Words.{Word};
ghost use Rattle.st_command.specs.declared.command.Command.TheVariants.{Step};
ghost use Rattle.st_command.specs.declared.given.Print.TheVariants as print;
ghost use Rattle.st_filter.specs.Policies.{filters_in};
ghost use Rattle.st_filter.specs.declared.set.TheConstants.{MOST_FILTERS};
ghost use Rattle.st_law.specs.Machine.{run};
ghost use Rattle.st_law.specs.Schedules.{Choices, played};
ghost use Rattle.st_law.specs.declared.input.Input.{Input};
ghost use Rattle.st_law.specs.declared.input.Mode.TheVariants.{Learn};
ghost use Rattle.st_law.specs.declared.input.ReadSchedule.{ReadSchedule};
ghost use Rattle.st_outside.specs.Files.{CanHold, FileBytes};
ghost use Rattle.st_outside.specs.declared.files.TheConstants.{FILE_LIMIT};
ghost use Rattle.st_reading.specs.Meaning.{Contents, Means, Runs};
ghost use Rattle.st_reading.specs.RunMeaning.{MeansRun, starts, with_schedule_of};
ghost use Rattle.st_round_trip.specs.RoundTrip.{HoldBytes, IsReadAgain, IsScriptOf, Plays, enforcing, with_schedule};
ghost use Rattle.st_schedule.specs.Schedule.{schedule_in};
ghost use Rattle.st_script.specs.declared.reading.ReadScript.{ReadScript};
ghost use Rattle.st_top.specs.Learning.{PermitsWhatWasMade, policies_after};
ghost use Rattle.st_top.specs.Outcome.{HasOutcome, Writes, printed};
ghost use Rattle.st_top.specs.RunEnds.{IsWholeRun};
ghost use Rattle.st_trace.specs.declared.entry.Choice.{Choice};

use st_fault_laws::what_is_a_filter_is_read;
use st_grammar::{reading_is_one, what_is_read_is_a_filter};
use st_reading::law::{
    what_is_meant_to_run_can_run, what_run_means_can_run, what_run_means_step_means,
};
use st_relearn::law::{
    learnt_text_is_read_again, what_a_run_adds_can_be_written, what_a_script_says_can_be_written,
    what_was_read_is_what_can_be_written,
};
use st_reschedule::law::a_printed_schedule_is_read_again;
use st_top::law::what_was_made_is_permitted_by_what_is_written;

/// If `step` is asked for the policies of a run that learns, what it writes is read again with the script's environment, both while filters
/// are learnt and while they aren't. It is read as the policies after the run, and as no others, unless these have too many filters.
pub fn what_is_written_is_read_again()
    ensures { (contents : Contents) (step : StepWords) (input : Input) (schedule : ReadSchedule) → HoldBytes contents (step.script ∷ step.policies) → IsWithinLimits (Step step) → step.options.mode ≡ Learn → Means contents (Step step) (Runs input schedule) →
        (script : ReadScript) → IsScriptOf contents step script → (choices : List Choice) → filters_in (policies_after input choices) ≤ MOST_FILTERS →
        IsReadAgain (printed print.Policy input choices step.emulation) script.env (policies_after input choices) × IsReadAgain (printed print.Policy input choices step.emulation) (enforcing script.env) (policies_after input choices) }
{
    what_is_meant_to_run_can_run();
    what_was_read_is_what_can_be_written();
    what_a_script_says_can_be_written();
    what_a_run_adds_can_be_written();
    learnt_text_is_read_again();
    reading_is_one();
}

/// Learnt, then enforced: if a name holds what `step` has written of a run that learnt, `step` with that policy alone, the same script, the
/// same ids and the same emulation runs under policies that permit each held call that was made, under the ids that it was made under.
pub fn what_was_learnt_is_enforced()
    ensures { (contents : Contents) (step : StepWords) (input : Input) (schedule : ReadSchedule) → HoldBytes contents (step.script ∷ step.policies) → IsWithinLimits (Step step) → step.options.mode ≡ Learn → Means contents (Step step) (Runs input schedule) →
        (choices : List Choice) → filters_in (policies_after input choices) ≤ MOST_FILTERS → (name : Word) → contents name ≡ FileBytes (printed print.Policy input choices step.emulation) →
        (again : StepWords) → again.script ≡ step.script → again.policies ≡ name ∷ [] → again.options.ids ≡ step.options.ids → again.emulation ≡ step.emulation → (other : Input) (later : ReadSchedule) → Means contents (Step again) (Runs other later) →
        PermitsWhatWasMade input other.policies.read (reverse (run input choices)) }
{
    what_is_written_is_read_again();
    what_was_made_is_permitted_by_what_is_written();
}

/// If `step` is asked for the schedule of a run, what it writes makes the same run again. If a name holds that text, and the text isn't
/// longer than a file may be, `step` with this schedule and otherwise the same words means to run the same input, and the schedule is
/// played as the same choices.
pub fn what_is_written_is_played_again()
    ensures { (contents : Contents) (step : StepWords) (input : Input) (schedule : ReadSchedule) → IsWithinLimits (Step step) → Means contents (Step step) (Runs input schedule) → (choices : List Choice) → played input schedule ≡ Choices choices →
        (name : Word) → contents name ≡ FileBytes (printed print.Schedule input choices step.emulation) → length (printed print.Schedule input choices step.emulation) ≤ FILE_LIMIT → Plays contents (with_schedule step name) input choices }
{
    what_is_meant_to_run_can_run();
    a_printed_schedule_is_read_again();
}

/// What `run` writes is what `step` writes: if a name holds the text of the choices that the threads of a `run` made, and the text isn't
/// longer than a file may be, `step` with this schedule and otherwise the same words means to run the same input, the schedule is played as
/// the same choices, and the outcome is the text that `run` writes.
pub fn what_threads_made_is_played_again()
    ensures plays { (contents : Contents) (threaded : RunWords) (input : Input) → IsRunWithinLimits threaded → MeansRun contents threaded (starts input) → (choices : List Choice) → IsWholeRun input choices →
        (name : Word) → contents name ≡ FileBytes (printed print.Schedule input choices threaded.emulation) → length (printed print.Schedule input choices threaded.emulation) ≤ FILE_LIMIT → Plays contents (with_schedule_of threaded name) input choices }
    ensures writes { (contents : Contents) (threaded : RunWords) (input : Input) → IsRunWithinLimits threaded → MeansRun contents threaded (starts input) → (choices : List Choice) → IsWholeRun input choices →
        (name : Word) → contents name ≡ FileBytes (printed print.Schedule input choices threaded.emulation) → length (printed print.Schedule input choices threaded.emulation) ≤ FILE_LIMIT →
        HasOutcome contents (Some (Step (with_schedule_of threaded name))) None (Writes (printed threaded.print input choices threaded.emulation)) }
{
    what_run_means_can_run();
    what_run_means_step_means();
    a_printed_schedule_is_read_again();
}

/// What was learnt is not refused: if a name holds what `step` has written of a run that learnt, and the text fits into a file, `step` with
/// that policy alone, the same script, the same ids and the same emulation means a run of the same script under exactly the policies after
/// that run, by any schedule that can be fetched and with any other options.
pub fn what_was_learnt_can_be_enforced()
    ensures { (contents : Contents) (step : StepWords) (input : Input) (schedule : ReadSchedule) → HoldBytes contents (step.script ∷ step.policies) → IsWithinLimits (Step step) → step.options.mode ≡ Learn → Means contents (Step step) (Runs input schedule) →
        (choices : List Choice) → filters_in (policies_after input choices) ≤ MOST_FILTERS → (name : Word) → contents name ≡ FileBytes (printed print.Policy input choices step.emulation) → length (printed print.Policy input choices step.emulation) ≤ FILE_LIMIT →
        (again : StepWords) → again.script ≡ step.script → again.policies ≡ name ∷ [] → again.options.ids ≡ step.options.ids → again.emulation ≡ step.emulation → (text : List ℕ) → CanHold (contents again.schedule) text → length text ≤ FILE_LIMIT →
        Means contents (Step again) (Runs (record input { policies = record { read = policies_after input choices; blocks = input.policies.blocks }; options = again.options }) (schedule_in text)) }
{
    what_is_written_is_read_again();
    what_is_read_is_a_filter();
    what_is_a_filter_is_read();
}
