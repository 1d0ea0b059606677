use st_base::Sequence;
use st_filter::{Policies, Reply};
use st_trace::{Choice, Start};

/// The input of a run: the policies that were read and those of the script, the script's start, the operator's replies, and the options.
#[derive(Debug)]
pub struct Input {
    pub policies: Policies,
    pub start: Start,
    /// The script's replies to questions, counted from 1.
    pub replies: Sequence<Reply>,
    pub options: Options,
}

// Written out, so that another crate that drops one calls this, and doesn't drop its parts one by one.
impl Drop for Input {
    fn drop(self) {
        let Self {
            policies: _,
            start: _,
            replies: _,
            options: _,
        } = self;
    }
}

/// What happens to a call that no filter decides, by the options of systrace(1).
#[derive(Clone, Copy, Debug, PartialEq, Eq)]
pub enum Mode {
    /// The call is denied (`-a`).
    Enforce,
    /// The call is permitted, and a filter that permits it is added to the session (`-A`).
    Learn,
    /// The script's next reply for it is added to the session (`-t`).
    AskText,
}

/// The options of a run.
#[derive(Clone, Copy, Debug, PartialEq, Eq)]
pub struct Options {
    pub mode: Mode,
    /// Whether a process keeps its policy over execve (`-i`).
    pub inherit: bool,
    /// Whether some calls on files are judged as `fsread` and `fswrite`; `-u` turns this off.
    pub aliasing: bool,
    /// The real and effective user and group of each traced process of the script (`-c`).
    pub ids: Option<(u32, u32)>,
    /// The number of workers, 1 to 8.
    pub workers: u32,
}

/// A schedule file: its lines in order, without blank ones, up to the first line that doesn't match the grammar.
#[derive(Debug, Drop)]
pub struct ReadSchedule {
    pub lines: Sequence<ScheduleLine>,
    /// The first line that doesn't match the grammar, counted from 1.
    pub bad: Option<u32>,
}

/// The largest number of times that one line of a schedule can repeat its choice.
pub const MOST_TIMES: u32 = 1_000_000;

/// A line of a schedule.
#[derive(Clone, Copy, Debug, PartialEq, Eq)]
pub struct ScheduleLine {
    pub what: What,
    /// How many times it is repeated, 1 to `MOST_TIMES`.
    pub count: u32,
    /// The line's number in its file, counted from 1.
    pub line: u32,
}

/// What a line of a schedule asks for.
#[derive(Clone, Copy, Debug, PartialEq, Eq)]
pub enum What {
    /// This choice.
    Choose(Choice),
    /// The first enabled choice, again and again, until none is enabled.
    Rest,
}
