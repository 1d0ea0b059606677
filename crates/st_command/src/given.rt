ghost use Rattle.std.specs.Prelude.{◌≡◌, map, option_map, IfOk};
ghost use Rattle.st_command.specs.Given.{alone, valued, print_in, is_option_of, count_of};
ghost use Rattle.st_command.specs.Command.{policies_of, mode_of, ids_of, workers_of, option_print, emulation_of};
ghost use Rattle.st_command.specs.Reading.{option_value};

use crate::words::{ids_in, workers_in};
use st_base::{Sequence, Text};
use st_emulation::Emulation;
use st_law::Mode;
use std::alloc::{AllocError, Global};

/// What is printed of a run.
#[derive(Clone, Copy, Debug, PartialEq, Eq)]
pub enum Print {
    /// The audit: a line for each call of a traced process that was made or denied.
    Audit,
    /// The trace: each entry, as text.
    Trace,
    /// The schedule: the choices that were made.
    Schedule,
    /// The policies, with the filters that the session has added.
    Policy,
}

/// A kind of options.
#[derive(Clone, Copy, Debug, PartialEq, Eq)]
pub enum Kind {
    Policy,
    Mode,
    Inherit,
    Unaliased,
    Ids,
    Workers,
    Print,
    Linux,
}

/// An option as it is given.
#[derive(Clone, Copy, Debug)]
pub enum Given<'a> {
    Policy(&'a Text),
    Mode(Mode),
    Inherit,
    Unaliased,
    Ids(u32, u32),
    Workers(u32),
    Print(Print),
    /// The programs are those of Linux.
    Linux,
}

/// The option that this word is without a value.
pub(crate) fn alone<'a>(word: &[u8]) -> Option<Given<'a>>
    ensures { option_map option_value result ≡ alone word.now }
{
    if word == b"-A".as_slice() {
        Some(Given::Mode(Mode::Learn))
    } else if word == b"-a".as_slice() {
        Some(Given::Mode(Mode::Enforce))
    } else if word == b"-t".as_slice() {
        Some(Given::Mode(Mode::AskText))
    } else if word == b"-i".as_slice() {
        Some(Given::Inherit)
    } else if word == b"-u".as_slice() {
        Some(Given::Unaliased)
    } else if word == b"--linux".as_slice() {
        Some(Given::Linux)
    } else {
        None
    }
}

fn print_in(word: &[u8]) -> Option<Print>
    ensures { result ≡ print_in word.now }
{
    if word == b"audit".as_slice() {
        Some(Print::Audit)
    } else if word == b"trace".as_slice() {
        Some(Print::Trace)
    } else if word == b"schedule".as_slice() {
        Some(Print::Schedule)
    } else if word == b"policy".as_slice() {
        Some(Print::Policy)
    } else {
        None
    }
}

/// The option that this word is with this value.
pub(crate) fn valued<'a>(word: &[u8], value: &'a Text) -> Option<Given<'a>>
    ensures { option_map option_value result ≡ valued word.now value.now }
{
    if word == b"-f".as_slice() {
        Some(Given::Policy(value))
    } else if word == b"-c".as_slice() {
        let (uid, gid) = ids_in(value.bytes())?;
        Some(Given::Ids(uid, gid))
    } else if word == b"-w".as_slice() {
        let count = workers_in(value.bytes())?;
        Some(Given::Workers(count))
    } else if word == b"--print".as_slice() {
        let print = print_in(value.bytes())?;
        Some(Given::Print(print))
    } else {
        None
    }
}

fn is_of(kind: Kind, option: &Given<'_>) -> bool
    ensures { result ≡ is_option_of kind (option_value option.now) }
{
    match option {
        Given::Policy(_) => matches!(kind, Kind::Policy),
        Given::Mode(_) => matches!(kind, Kind::Mode),
        Given::Inherit => matches!(kind, Kind::Inherit),
        Given::Unaliased => matches!(kind, Kind::Unaliased),
        Given::Ids(_, _) => matches!(kind, Kind::Ids),
        Given::Workers(_) => matches!(kind, Kind::Workers),
        Given::Print(_) => matches!(kind, Kind::Print),
        Given::Linux => matches!(kind, Kind::Linux),
    }
}

/// How many options of a kind there are.
pub(crate) fn count_of(kind: Kind, options: &[Given<'_>]) -> usize
    ensures { result ≡ count_of kind (map option_value options.now) }
{
    let mut count = 0;
    for option in options {
        if is_of(kind, option) {
            count += 1;
        }
    }
    count
}

/// The names of policy files, in order.
pub(crate) fn policies_of<'a>(
    alloc: Global,
    options: &[Given<'a>],
) -> Result<Sequence<&'a Text>, AllocError>
    ensures { IfOk result (λ names. map (λ name. name.now) names ≡ policies_of (map option_value options.now)) }
{
    let mut names = Sequence::new(alloc);
    for option in options {
        if let Given::Policy(name) = option {
            names.push(*name)?;
        }
    }
    Ok(names)
}

/// The first mode.
pub(crate) fn mode_of(options: &[Given<'_>]) -> Option<Mode>
    ensures { result ≡ mode_of (map option_value options.now) }
{
    for option in options {
        if let Given::Mode(mode) = option {
            return Some(*mode);
        }
    }
    None
}

/// The first ids.
pub(crate) fn ids_of(options: &[Given<'_>]) -> Option<(u32, u32)>
    ensures { result ≡ ids_of (map option_value options.now) }
{
    for option in options {
        if let Given::Ids(uid, gid) = option {
            return Some((*uid, *gid));
        }
    }
    None
}

/// The first number of workers.
pub(crate) fn workers_of(options: &[Given<'_>]) -> Option<u32>
    ensures { result ≡ workers_of (map option_value options.now) }
{
    for option in options {
        if let Given::Workers(count) = option {
            return Some(*count);
        }
    }
    None
}

/// What is printed, by the first option that says it.
pub(crate) fn print_of(options: &[Given<'_>]) -> Option<Print>
    ensures { result ≡ option_print (map option_value options.now) }
{
    for option in options {
        if let Given::Print(print) = option {
            return Some(*print);
        }
    }
    None
}

/// The emulation: Linux if an option says so.
pub(crate) fn emulation_of(options: &[Given<'_>]) -> Emulation
    ensures { result ≡ emulation_of (map option_value options.now) }
{
    for option in options {
        if let Given::Linux = option {
            return Emulation::Linux;
        }
    }
    Emulation::Native
}
