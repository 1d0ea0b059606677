ghost use Rattle.std.specs.Prelude.{◌≡◌, ◌++◌, ◌<◌, ◌∷◌, ◌+◌, ◌≤◌, [], ℕ, List, length, vec_capacity, vec_len, IfOk, OnOk};
ghost use Rattle.st_law.specs.Machine.{run};
ghost use Rattle.st_law.specs.Schedules.{Choices, played};
ghost use Rattle.st_law.specs.declared.input.Input.{Input};
ghost use Rattle.st_report.specs.ScheduleText.{AreJoined, choice_text, is_same_choice, joins, printed_schedule, repeat_line, repeats_of, repeats_text, repeats_with, spelled_choices};
ghost use Rattle.st_report.specs.declared.schedule.Repeat.{Repeat};
ghost use Rattle.st_trace.specs.declared.entry.Choice.{Choice};

use crate::fields::{append_numbered, append_numbers};
use st_base::Text;
use st_law::MOST_TIMES;
use st_trace::Choice;
use std::alloc::{AllocError, Global};

/// A choice that is made several times in a row.
#[derive(Clone, Copy, Debug, PartialEq, Eq)]
pub struct Repeat {
    pub choice: Choice,
    pub times: u32,
}

// Whether two choices are the same.
fn is_same_choice(choice: Choice, other: Choice) -> bool
    ensures { result ≡ is_same_choice choice other }
{
    match (choice, other) {
        (Choice::Thread(tid), Choice::Thread(other)) => tid == other,
        (Choice::Worker(worker), Choice::Worker(other)) => worker == other,
        (Choice::Operator, Choice::Operator) => true,
        _ => false,
    }
}

// Appends who moves.
fn append_choice(text: &mut Text, choice: Choice) -> Result<(), AllocError>
    ensures { OnOk result (text.new ≡ text.old ++ choice_text choice) }
{
    match choice {
        Choice::Thread(tid) => append_numbered(text, b"thread", &[u64::from(tid)]),
        Choice::Worker(worker) => append_numbered(text, b"worker", &[u64::from(worker)]),
        Choice::Operator => text.append(b"operator"),
    }
}

// Whether a choice joins the last line, which has its choice this many times.
fn joins(last: Repeat, choice: Choice) -> bool
    ensures { result ≡ joins last choice }
{
    last.times < MOST_TIMES && is_same_choice(last.choice, choice)
}

/// Appends a choice to those that were made, in capacity that exists already. The choice joins the last line, unless that has
/// another choice or is full.
pub fn note_choice(repeats: &mut Vec<Repeat>, choice: Choice)
    requires room { vec_len repeats.old < vec_capacity repeats.old }
    ensures made { repeats.new.items ≡ repeats_with repeats.old.items choice }
    ensures length { vec_len repeats.new ≤ vec_len repeats.old + 1 }
    ensures capacity { vec_capacity repeats.new ≡ vec_capacity repeats.old }
{
    let count = repeats.len();
    if count > 0 && joins(repeats[count - 1], choice) {
        repeats[count - 1].times += 1;
    } else {
        repeats.push_reserved(Repeat { choice, times: 1 });
    }
}

// Appends the line of a choice that is made several times in a row.
fn append_repeat(text: &mut Text, each: Repeat) -> Result<(), AllocError>
    ensures { OnOk result (text.new ≡ text.old ++ repeat_line each) }
{
    append_choice(text, each.choice)?;
    if each.times != 1 {
        append_numbers(text, &[u64::from(each.times)])?;
    }
    text.push(b'\n')
}

/// The text of a schedule: who moves, in order, with equal neighbours joined in one line.
pub fn repeats_text(alloc: Global, repeats: &[Repeat]) -> Result<Text, AllocError>
    ensures { IfOk result (λ text. text ≡ repeats_text repeats.now) }
{
    let mut text = Text::new(alloc);
    for each in repeats {
        append_repeat(&mut text, *each)?;
    }
    Ok(text)
}

/// The lines that are printed of a schedule spell exactly its choices, in order, with as many equal neighbours in a line as may be.
/// One more choice is recorded as the last of a longer schedule. If each choice is enabled at its turn, a run by these lines makes
/// the same choices.
pub fn a_printed_schedule_is_its_choices()
    ensures spelled { (choices : List Choice) → spelled_choices (repeats_of choices) ≡ choices }
    ensures joined { (choices : List Choice) → AreJoined (repeats_of choices) }
    ensures only { (choices : List Choice) (repeats : List Repeat) → AreJoined repeats → spelled_choices repeats ≡ choices → repeats ≡ repeats_of choices }
    ensures more { (choices : List Choice) (choice : Choice) → repeats_with (repeats_of choices) choice ≡ repeats_of (choices ++ choice ∷ []) }
    ensures played { (input : Input) (choices : List Choice) → length (run input choices) ≡ length choices → played input (printed_schedule choices) ≡ Choices choices }
{}
