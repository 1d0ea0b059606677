//! The commands with their options and operands, as messages name them.

/// A command, by its name.
#[derive(Clone, Copy)]
pub enum CommandName {
    Step,
    Replay,
    Check,
    Run,
    Gen,
}

/// Whether an option says what becomes of a call that no filter decides.
pub fn is_mode(word: &[u8]) -> bool {
    word == b"-a".as_slice() || word == b"-A".as_slice() || word == b"-t".as_slice()
}

/// What an option takes as its value; none where a word is an option without a value, or no option.
pub fn value_of(word: &[u8]) -> Option<&'static str> {
    if word == b"-f".as_slice() {
        Some("the name of a policy file")
    } else if word == b"-c".as_slice() {
        Some("U:G, two decimals below 4294967296 without a zero in front")
    } else if word == b"-w".as_slice() {
        Some("1 to 8")
    } else if word == b"--print".as_slice() {
        Some("audit, trace, schedule or policy")
    } else {
        None
    }
}

// Whether an option says that the programs are those of Linux.
fn is_linux(word: &[u8]) -> bool {
    word == b"--linux".as_slice()
}

// Whether a word is an option of `step` and of `run`. All but one are options of `replay`.
fn is_of_runs(word: &[u8]) -> bool {
    is_mode(word)
        || word == b"-i".as_slice()
        || word == b"-u".as_slice()
        || is_linux(word)
        || value_of(word).is_some()
}

impl CommandName {
    /// The command of this name.
    pub fn of(word: &[u8]) -> Option<Self> {
        if word == b"step".as_slice() {
            Some(CommandName::Step)
        } else if word == b"replay".as_slice() {
            Some(CommandName::Replay)
        } else if word == b"check".as_slice() {
            Some(CommandName::Check)
        } else if word == b"run".as_slice() {
            Some(CommandName::Run)
        } else if word == b"gen".as_slice() {
            Some(CommandName::Gen)
        } else {
            None
        }
    }

    /// Whether a word is an option of the command.
    pub fn has_option(self, word: &[u8]) -> bool {
        match self {
            CommandName::Step | CommandName::Run => is_of_runs(word),
            CommandName::Replay => is_of_runs(word) && word != b"--print".as_slice(),
            CommandName::Check => word == b"-c".as_slice() || is_linux(word),
            CommandName::Gen => false,
        }
    }

    /// The most operands that the command has.
    pub fn most_operands(self) -> u32 {
        match self {
            CommandName::Step | CommandName::Replay | CommandName::Check => 2,
            CommandName::Run | CommandName::Gen => 1,
        }
    }

    /// The operand that is missing after so many others; none where they are enough.
    pub fn missing_after(self, count: u32) -> Option<&'static str> {
        match (self, count) {
            (CommandName::Step | CommandName::Replay | CommandName::Run, 0) => Some("SCRIPT"),
            (CommandName::Step, 1) => Some("SCHEDULE"),
            (CommandName::Replay, 1) => Some("TRACE"),
            (CommandName::Check, 0) => Some("POLICY"),
            (CommandName::Gen, 0) => Some("N"),
            _ => None,
        }
    }

    /// What is wrong with a word that begins with a dash, and is no option of the command.
    pub fn not_an_option(self) -> &'static str {
        match self {
            CommandName::Step => " is no option of step",
            CommandName::Replay => " is no option of replay",
            CommandName::Check => " is no option of check",
            CommandName::Run => " is no option of run",
            CommandName::Gen => " is no option of gen",
        }
    }

    /// What is wrong with an option after an operand.
    pub fn option_too_late(self) -> &'static str {
        match self {
            CommandName::Step | CommandName::Replay | CommandName::Run => {
                " stands after SCRIPT; options stand before it"
            }
            CommandName::Check => " stands after POLICY; options stand before it",
            CommandName::Gen => " stands after N; gen has no option",
        }
    }

    /// What is wrong with an operand after the most that the command has.
    pub fn operand_too_many(self) -> &'static str {
        match self {
            CommandName::Step => " is an operand too many after SCRIPT and SCHEDULE",
            CommandName::Replay => " is an operand too many after SCRIPT and TRACE",
            CommandName::Check => " is an operand too many after POLICY and SCRIPT",
            CommandName::Run => " is an operand too many after SCRIPT",
            CommandName::Gen => " is an operand too many after N",
        }
    }
}
