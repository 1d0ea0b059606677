ghost use Rattle.std.specs.Prelude.{◌≡◌, ◌<◌, ◌≤◌, length, map, option_copied, option_map, IfOk, IfSome};
ghost use Rattle.st_command.specs.Given.{next_option, options_in};
ghost use Rattle.st_command.specs.Command.{may_be_given, may_be_replayed, options_of, step_words, step_with, replay_words, replay_with, run_words, run_with, check_words, may_be_checked, check_with};
ghost use Rattle.st_command.specs.Reading.{option_value, shown_next, command_after, command_in, run_of_words, gen_of_words, IsWithinLimits, IsRunWithinLimits};

use crate::command::{CheckWords, Command, ReplayWords, RunWords, StepWords};
use crate::given::{
    Given, Kind, Print, alone, count_of, emulation_of, ids_of, mode_of, policies_of, print_of,
    valued, workers_of,
};
use crate::words::{has_dash, rounds_in};
use st_base::{Sequence, Text};
use st_law::{Mode, Options};
use std::alloc::{AllocError, Global};

/// The most policy files that may be given.
pub const MOST_POLICIES: usize = 8;

// The option that words begin with, and the words after it.
fn next_option<'a>(words: &'a [Text]) -> Option<(Given<'a>, &'a [Text])>
    ensures is { option_map shown_next result ≡ next_option words.now }
    ensures shorter { IfSome result (λ next. length next.1.now < length words.now) }
{
    let (word, following) = words.split_first()?;
    if let Some(option) = alone(word.bytes()) {
        return Some((option, following));
    }
    let (value, following) = following.split_first()?;
    let option = valued(word.bytes(), value)?;
    Some((option, following))
}

// The options at the beginning of words, and the words after them.
fn options_in<'a>(
    alloc: Global,
    words: &'a [Text],
) -> Result<(Sequence<Given<'a>>, &'a [Text]), AllocError>
    ensures { IfOk result (λ taken. record { given = map option_value taken.0; rest = taken.1.now } ≡ options_in words.now) }
{
    let mut given = Sequence::new(alloc);
    let mut rest = words;
    while let Some((option, following)) = next_option(rest) {
        given.push(option)?;
        rest = following;
    }
    Ok((given, rest))
}

// Whether options may be given together: at most eight policy files, and each other kind at most once.
fn may_be_given(given: &[Given<'_>]) -> bool
    ensures { result ≡ may_be_given (map option_value given.now) }
{
    count_of(Kind::Policy, given) <= MOST_POLICIES
        && count_of(Kind::Mode, given) <= 1
        && count_of(Kind::Inherit, given) <= 1
        && count_of(Kind::Unaliased, given) <= 1
        && count_of(Kind::Ids, given) <= 1
        && count_of(Kind::Workers, given) <= 1
        && count_of(Kind::Print, given) <= 1
        && count_of(Kind::Linux, given) <= 1
}

fn options_of(given: &[Given<'_>]) -> Options
    ensures { result ≡ options_of (map option_value given.now) }
{
    Options {
        mode: mode_of(given).unwrap_or(Mode::Enforce),
        inherit: count_of(Kind::Inherit, given) > 0,
        aliasing: count_of(Kind::Unaliased, given) == 0,
        ids: ids_of(given),
        workers: workers_of(given).unwrap_or(1),
    }
}

fn step_of<'a>(
    alloc: Global,
    given: &[Given<'a>],
    script: &'a Text,
    schedule: &'a Text,
) -> Result<StepWords<'a>, AllocError>
    ensures { IfOk result (λ step. step ≡ step_words (map option_value given.now) script.now schedule.now) }
{
    Ok(StepWords {
        policies: policies_of(alloc, given)?,
        script,
        schedule,
        options: options_of(given),
        print: print_of(given).unwrap_or(Print::Audit),
        emulation: emulation_of(given),
    })
}

// What `step` is asked to do by its options and the words after them.
fn step_with<'a>(
    alloc: Global,
    given: &[Given<'a>],
    operands: &'a [Text],
) -> Result<Option<StepWords<'a>>, AllocError>
    ensures { IfOk result (λ step. step ≡ step_with (map option_value given.now) operands.now) }
{
    let [script, schedule] = operands else {
        return Ok(None);
    };
    if !has_dash(script.bytes()) && !has_dash(schedule.bytes()) && may_be_given(given) {
        Ok(Some(step_of(alloc, given, script, schedule)?))
    } else {
        Ok(None)
    }
}

// Whether options may be given together to `replay`, which has no `--print`.
fn may_be_replayed(given: &[Given<'_>]) -> bool
    ensures { result ≡ may_be_replayed (map option_value given.now) }
{
    may_be_given(given) && count_of(Kind::Print, given) == 0
}

fn replay_of<'a>(
    alloc: Global,
    given: &[Given<'a>],
    script: &'a Text,
    trace: &'a Text,
) -> Result<ReplayWords<'a>, AllocError>
    ensures { IfOk result (λ replay. replay ≡ replay_words (map option_value given.now) script.now trace.now) }
{
    Ok(ReplayWords {
        policies: policies_of(alloc, given)?,
        script,
        trace,
        options: options_of(given),
        emulation: emulation_of(given),
    })
}

// What `replay` is asked to do by its options and the words after them.
fn replay_with<'a>(
    alloc: Global,
    given: &[Given<'a>],
    operands: &'a [Text],
) -> Result<Option<ReplayWords<'a>>, AllocError>
    ensures { IfOk result (λ replay. replay ≡ replay_with (map option_value given.now) operands.now) }
{
    let [script, trace] = operands else {
        return Ok(None);
    };
    if !has_dash(script.bytes()) && !has_dash(trace.bytes()) && may_be_replayed(given) {
        Ok(Some(replay_of(alloc, given, script, trace)?))
    } else {
        Ok(None)
    }
}

fn run_of<'a>(
    alloc: Global,
    given: &[Given<'a>],
    script: &'a Text,
) -> Result<RunWords<'a>, AllocError>
    ensures { IfOk result (λ run. run ≡ run_words (map option_value given.now) script.now) }
{
    Ok(RunWords {
        policies: policies_of(alloc, given)?,
        script,
        options: options_of(given),
        print: print_of(given).unwrap_or(Print::Audit),
        emulation: emulation_of(given),
    })
}

// What `run` is asked to do by its options and the words after them.
fn run_with<'a>(
    alloc: Global,
    given: &[Given<'a>],
    operands: &'a [Text],
) -> Result<Option<RunWords<'a>>, AllocError>
    ensures { IfOk result (λ run. run ≡ run_with (map option_value given.now) operands.now) }
{
    let [script] = operands else {
        return Ok(None);
    };
    if !has_dash(script.bytes()) && may_be_given(given) {
        Ok(Some(run_of(alloc, given, script)?))
    } else {
        Ok(None)
    }
}

// Whether options may be given together to `check`, which has `-c` and `--linux`.
fn may_be_checked(given: &[Given<'_>]) -> bool
    ensures { result ≡ may_be_checked (map option_value given.now) }
{
    may_be_given(given)
        && count_of(Kind::Policy, given) == 0
        && count_of(Kind::Mode, given) == 0
        && count_of(Kind::Inherit, given) == 0
        && count_of(Kind::Unaliased, given) == 0
        && count_of(Kind::Workers, given) == 0
        && count_of(Kind::Print, given) == 0
}

fn check_of<'a>(given: &[Given<'_>], policy: &'a Text, script: Option<&'a Text>) -> CheckWords<'a>
    ensures { result ≡ check_words (map option_value given.now) policy.now (option_copied script.entry) }
{
    CheckWords {
        policy,
        script,
        ids: ids_of(given),
        emulation: emulation_of(given),
    }
}

// What `check` is asked to do by its options and the words after them.
fn check_with<'a>(given: &[Given<'_>], operands: &'a [Text]) -> Option<CheckWords<'a>>
    ensures { result ≡ check_with (map option_value given.now) operands.now }
{
    let (policy, script) = match operands {
        [policy] => (policy, None),
        [policy, script] => (policy, Some(script)),
        _ => return None,
    };
    if has_dash(policy.bytes()) || script.is_some_and(|script| has_dash(script.bytes())) {
        return None;
    }
    if may_be_checked(given) {
        Some(check_of(given, policy, script))
    } else {
        None
    }
}

// The command of this name that the words after the name spell.
fn command_after<'a>(
    alloc: Global,
    name: &[u8],
    words: &'a [Text],
) -> Result<Option<Command<'a>>, AllocError>
    ensures { IfOk result (λ command. command ≡ command_after name.now words.now) }
{
    let (given, operands) = options_in(alloc, words)?;
    if name == b"check".as_slice() {
        Ok(check_with(given.as_slice(), operands).map(Command::Check))
    } else if name == b"step".as_slice() {
        let step = step_with(alloc, given.as_slice(), operands)?;
        Ok(step.map(Command::Step))
    } else if name == b"replay".as_slice() {
        let replay = replay_with(alloc, given.as_slice(), operands)?;
        Ok(replay.map(Command::Replay))
    } else {
        Ok(None)
    }
}

fn command_in(alloc: Global, words: &[Text]) -> Result<Option<Command<'_>>, AllocError>
    ensures { IfOk result (λ command. command ≡ command_in words.now) }
{
    match words.split_first() {
        Some((name, following)) => command_after(alloc, name.bytes(), following),
        None => Ok(None),
    }
}

/// The command that words spell, or `None` exactly when they spell none.
#[tactic(auto, using(crate::proofs::Limits::limits_kept))]
pub fn read_words(alloc: Global, words: &[Text]) -> Result<Option<Command<'_>>, AllocError>
    ensures is { IfOk result (λ command. command ≡ command_in words.now) }
    ensures limits { IfOk result (λ command. IfSome command IsWithinLimits) }
{
    command_in(alloc, words)
}

// What `run` is asked to do by words, if they spell it.
fn run_of_words(alloc: Global, words: &[Text]) -> Result<Option<RunWords<'_>>, AllocError>
    ensures { IfOk result (λ run. run ≡ run_of_words words.now) }
{
    match words.split_first() {
        Some((name, following)) if name.bytes() == b"run".as_slice() => {
            let (given, operands) = options_in(alloc, following)?;
            run_with(alloc, given.as_slice(), operands)
        }
        _ => Ok(None),
    }
}

/// What `run` is asked to do by words, or `None` exactly when they don't spell it.
#[tactic(auto, using(crate::proofs::Limits::run_limits_kept))]
pub fn read_run_words(alloc: Global, words: &[Text]) -> Result<Option<RunWords<'_>>, AllocError>
    ensures is { IfOk result (λ run. run ≡ run_of_words words.now) }
    ensures limits { IfOk result (λ run. IfSome run IsRunWithinLimits) }
{
    run_of_words(alloc, words)
}

/// The rounds that `gen` is asked for by words, or `None` exactly when they don't spell it.
#[tactic(auto, using(crate::proofs::Limits::gen_limits_kept))]
pub fn read_gen_words(words: &[Text]) -> Option<u32>
    ensures is { result ≡ gen_of_words words.now }
    ensures limits { IfSome result (λ rounds. (1 ≤ rounds) × (rounds ≤ 512)) }
{
    match words {
        [name, rounds] if name.bytes() == b"gen".as_slice() => rounds_in(rounds.bytes()),
        _ => None,
    }
}
