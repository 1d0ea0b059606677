//! The commands of the program, as help and usage show them. Words aren't read with them.

use clap::{Arg, ArgAction, Command};
use st_base::Text;
use std::alloc::{AllocError, Global};

// Begins the lines of usage.
const TITLE: &str = "Usage: ";
// Stands between two of them.
const NEXT_LINE: &str = "\n       ";

// How an option or an operand is written.
#[derive(Clone, Copy)]
enum Form {
    // By a letter.
    Letter(char),
    // By a letter, and then a value, which is shown by the name.
    LetterAndValue(char),
    // By the name.
    Name,
    // By the name, and then a value, which is shown by this.
    NameAndValue(&'static str),
    // As an operand that is never missing.
    Operand,
    // As an operand that may be missing.
    OptionalOperand,
}

// An option or an operand, as help describes it.
#[derive(Clone, Copy)]
struct Described {
    name: &'static str,
    form: Form,
    help: &'static str,
}

// The options of `step`, `replay` and `run`.
const OF_RUNS: [Described; 9] = [
    Described {
        name: "POLICY",
        form: Form::LetterAndValue('f'),
        help: "a file of policies; up to eight, each read after those before it",
    },
    Described {
        name: "enforce",
        form: Form::Letter('a'),
        help: "denies a call that no filter decides, as is done without it",
    },
    Described {
        name: "learn",
        form: Form::Letter('A'),
        help: "learns such a call instead: a filter that permits just this call is kept",
    },
    Described {
        name: "ask",
        form: Form::Letter('t'),
        help: "asks the operator about it instead, whose next reply in the script is kept as a filter",
    },
    Described {
        name: "inherit",
        form: Form::Letter('i'),
        help: "lets a process keep its policy when it executes another binary",
    },
    Described {
        name: "unaliased",
        form: Form::Letter('u'),
        help: "judges each call under its own name, and not as fsread or fswrite",
    },
    Described {
        name: "U:G",
        form: Form::LetterAndValue('c'),
        help: "the user and the group of each traced process, as decimals;{n}\
               with them filters may grant ids, by 'as'",
    },
    Described {
        name: "N",
        form: Form::LetterAndValue('w'),
        help: "how many workers copy and judge the arguments of calls, 1 to 8; without it 1",
    },
    LINUX,
];

// An option of each command but `gen`.
const LINUX: Described = Described {
    name: "linux",
    form: Form::Name,
    help: "programs and policies are those of Linux: 'Emulation: linux' and 'linux-CALL', open{n}\
           with Linux's flags, and Linux's numbers of errors in the audit",
};

// An option of `step` and of `run` alone.
const PRINT: Described = Described {
    name: "print",
    form: Form::NameAndValue("KIND"),
    help: "audit: a line for each call of a traced process, as without it{n}\
           trace: a line for each thing that happens{n}\
           schedule: the choices that were made, as a schedule{n}\
           policy: the policies, with the filters that were kept after those that were read",
};

const SCRIPT: Described = Described {
    name: "SCRIPT",
    form: Form::Operand,
    help: "the users, the files, the processes with their threads, and what each thread does:{n}\
           words that it stores in memory, and system calls that it makes; and what the{n}\
           operator replies",
};

const SCHEDULE: Described = Described {
    name: "SCHEDULE",
    form: Form::Operand,
    help: "for step, who moves when: lines 'thread N', 'worker N' and 'operator', after which{n}\
           a count may stand, and 'rest', which goes on until nobody can move",
};

const TRACE: Described = Described {
    name: "TRACE",
    form: Form::Operand,
    help: "for replay, what happened: a trace as --print trace writes it",
};

const OF_CHECK: [Described; 4] = [
    Described {
        name: "U:G",
        form: Form::LetterAndValue('c'),
        help: "lets the filters of the policy grant ids",
    },
    LINUX,
    Described {
        name: "POLICY",
        form: Form::Operand,
        help: "for a binary, which of its system calls are permitted, and which are denied",
    },
    Described {
        name: "SCRIPT",
        form: Form::OptionalOperand,
        help: "gives the names of users and groups",
    },
];

const OF_GEN: [Described; 1] = [Described {
    name: "N",
    form: Form::Operand,
    help: "how many rounds each of its four threads goes, 1 to 512",
}];

// What is answered if it stands alone.
const ANSWERED: [Described; 2] = [
    Described {
        name: "help",
        form: Form::Name,
        help: "prints this, alone",
    },
    Described {
        name: "version",
        form: Form::Name,
        help: "prints the version, alone",
    },
];

fn arg_of<'a>(alloc: Global, described: &Described) -> Arg<'a> {
    let name = described.name;
    let arg = Arg::new(alloc, name).help(described.help);
    match described.form {
        Form::Letter(letter) => arg.short(letter).action(ArgAction::SetTrue),
        Form::LetterAndValue(letter) => arg.short(letter).value_name(name),
        Form::Name => arg.long(name).action(ArgAction::SetTrue),
        Form::NameAndValue(value) => arg.long(name).value_name(value),
        Form::Operand => arg.required(true),
        Form::OptionalOperand => arg,
    }
}

// Adds options and operands to a command.
fn with_all<'a>(
    alloc: Global,
    mut command: Command<'a>,
    all: &[Described],
) -> Result<Command<'a>, AllocError> {
    for described in all {
        command = command.arg(arg_of(alloc, described))?;
    }
    Ok(command)
}

// A command of this name. Its usage begins with `shown`.
fn named<'a>(
    alloc: Global,
    name: &'a str,
    shown: &str,
    about: &'a str,
) -> Result<Command<'a>, AllocError> {
    Ok(
        Command::new(alloc, name)
            .bin_name(shown)?
            .about(about)
            .disable_help_flag(true)
            .disable_version_flag(true)
            .disable_help_subcommand(true),
    )
}

fn step<'a>(alloc: Global) -> Result<Command<'a>, AllocError> {
    let command = named(
        alloc,
        "step",
        "systrace step",
        "runs a script under policies, in the order of a schedule",
    )?;
    let command = with_all(alloc, command, &OF_RUNS)?;
    with_all(alloc, command, &[PRINT, SCRIPT, SCHEDULE])
}

fn replay<'a>(alloc: Global) -> Result<Command<'a>, AllocError> {
    let command = named(
        alloc,
        "replay",
        "systrace replay",
        "checks that a printed trace is lawful: that a run of a script can be so",
    )?;
    let command = with_all(alloc, command, &OF_RUNS)?;
    with_all(alloc, command, &[SCRIPT, TRACE])
}

fn check<'a>(alloc: Global) -> Result<Command<'a>, AllocError> {
    let command = named(
        alloc,
        "check",
        "systrace check",
        "reads a policy, and writes it in its canonical form",
    )?;
    with_all(alloc, command, &OF_CHECK)
}

fn run<'a>(alloc: Global) -> Result<Command<'a>, AllocError> {
    let command = named(
        alloc,
        "run",
        "systrace run",
        "runs a script under policies, by threads of the host",
    )?;
    let command = with_all(alloc, command, &OF_RUNS)?;
    with_all(alloc, command, &[PRINT, SCRIPT])
}

fn generated<'a>(alloc: Global) -> Result<Command<'a>, AllocError> {
    let command = named(
        alloc,
        "gen",
        "systrace gen",
        "runs a generated script under a generated policy, and counts its calls",
    )?;
    with_all(alloc, command, &OF_GEN)
}

// The commands, in the order in which they are shown.
fn commands<'a>(alloc: Global) -> Result<Vec<Command<'a>>, AllocError> {
    let mut commands = Vec::new(alloc);
    commands.push(step(alloc)?)?;
    commands.push(run(alloc)?)?;
    commands.push(replay(alloc)?)?;
    commands.push(check(alloc)?)?;
    commands.push(generated(alloc)?)?;
    Ok(commands)
}

fn program<'a>(alloc: Global) -> Result<Command<'a>, AllocError> {
    let command = named(
        alloc,
        "systrace",
        "systrace",
        "systrace runs the system calls of a script under policies, and prints what became of each.",
    )?
    .after_help(
        "Options stand before the operands, in any order, each once but for -f.{n}\
         The exit status is 0 where all was written. Else a line on standard error says why not.",
    )
    .subcommand_required(true)
    .subcommands(commands(alloc)?)?;
    with_all(alloc, command, &ANSWERED)
}

// How a command is written, without the title.
fn usage_of(alloc: Global, mut command: Command<'_>) -> Result<String, AllocError> {
    let usage = command.render_usage()?;
    let line = usage.as_str();
    String::from_str(alloc, line.strip_prefix(TITLE).unwrap_or(line))
}

// How `step`, `run` and `replay` are written, without the title.
fn usage_of_runs(alloc: Global) -> Result<String, AllocError> {
    let mut usage = usage_of(alloc, step(alloc)?)?;
    usage.push_str(NEXT_LINE)?;
    usage.push_str(usage_of(alloc, run(alloc)?)?.as_str())?;
    usage.push_str(NEXT_LINE)?;
    usage.push_str(usage_of(alloc, replay(alloc)?)?.as_str())?;
    Ok(usage)
}

// Appends the help of a command, after an empty line.
fn append_help(text: &mut Text, mut command: Command<'_>) -> Result<(), AllocError> {
    text.push(b'\n')?;
    text.append(command.render_help()?.as_bytes())
}

// Appends the help of `step`, `run` and `replay`, after an empty line. They have the same options, but for one, and the same script.
fn append_help_of_runs(alloc: Global, text: &mut Text) -> Result<(), AllocError> {
    let usage = usage_of_runs(alloc)?;
    let command = step(alloc)?
        .about(
            "runs a script under policies: step in the order of a schedule, run by threads of the host;{n}\
             replay checks that a printed trace is lawful: that a run of the script can be so",
        )
        .override_usage(usage.as_str());
    append_help(text, with_all(alloc, command, &[TRACE])?)
}

/// What `--help` prints: the program, then each command.
pub fn help_text(alloc: Global) -> Result<Text, AllocError> {
    let mut text = Text::of(alloc, program(alloc)?.render_help()?.as_bytes())?;
    append_help_of_runs(alloc, &mut text)?;
    append_help(&mut text, check(alloc)?)?;
    append_help(&mut text, generated(alloc)?)?;
    Ok(text)
}

/// Appends how the commands are written, without the last newline.
pub fn append_usage(alloc: Global, lines: &mut Text) -> Result<(), AllocError> {
    lines.append(TITLE.as_bytes())?;
    for command in commands(alloc)? {
        lines.append(usage_of(alloc, command)?.as_bytes())?;
        lines.append(NEXT_LINE.as_bytes())?;
    }
    lines.append(b"systrace --help")
}
