ghost use Rattle.std.specs.Prelude.{◌≡◌};
ghost use Rattle.st_command.specs.Command.{check_options};

use crate::given::Print;
use st_base::{Sequence, Text};
use st_emulation::Emulation;
use st_law::{Mode, Options};
use std::marker::Model;

/// What `step` is asked to do.
#[derive(Debug, Drop)]
pub struct StepWords<'a> {
    /// The names of the policy files, in order.
    pub policies: Sequence<&'a Text>,
    pub script: &'a Text,
    pub schedule: &'a Text,
    pub options: Options,
    pub print: Print,
    pub emulation: Emulation,
}

impl<'a> Model for StepWords<'a> {
    ghost use Rattle.std.specs.Prelude.{map};
    ghost use Rattle.st_command.specs.Command as command;

    ghost Value = { command.StepWords };

    ghost view = { λ s. record { policies = map (λ name. name.now) s.policies; script = s.script.now; schedule = s.schedule.now; options = s.options; print = s.print; emulation = s.emulation } };
}

/// What `replay` is asked to do.
#[derive(Debug, Drop)]
pub struct ReplayWords<'a> {
    /// The names of the policy files, in order.
    pub policies: Sequence<&'a Text>,
    pub script: &'a Text,
    pub trace: &'a Text,
    pub options: Options,
    pub emulation: Emulation,
}

impl<'a> Model for ReplayWords<'a> {
    ghost use Rattle.std.specs.Prelude.{map};
    ghost use Rattle.st_command.specs.Command as command;

    ghost Value = { command.ReplayWords };

    ghost view = { λ r. record { policies = map (λ name. name.now) r.policies; script = r.script.now; trace = r.trace.now; options = r.options; emulation = r.emulation } };
}

/// What `run` is asked to do.
#[derive(Debug, Drop)]
pub struct RunWords<'a> {
    /// The names of the policy files, in order.
    pub policies: Sequence<&'a Text>,
    pub script: &'a Text,
    pub options: Options,
    pub print: Print,
    pub emulation: Emulation,
}

impl<'a> Model for RunWords<'a> {
    ghost use Rattle.std.specs.Prelude.{map};
    ghost use Rattle.st_command.specs.Command as command;

    ghost Value = { command.RunWords };

    ghost view = { λ r. record { policies = map (λ name. name.now) r.policies; script = r.script.now; options = r.options; print = r.print; emulation = r.emulation } };
}

/// What `check` is asked to do.
#[derive(Debug, Drop)]
pub struct CheckWords<'a> {
    pub policy: &'a Text,
    pub script: Option<&'a Text>,
    /// The ids of `-c`, with which filters may grant ids.
    pub ids: Option<(u32, u32)>,
    pub emulation: Emulation,
}

impl<'a> Model for CheckWords<'a> {
    ghost use Rattle.std.specs.Prelude.{option_copied};
    ghost use Rattle.st_command.specs.Command as command;

    ghost Value = { command.CheckWords };

    ghost view = { λ c. record { policy = c.policy.now; script = option_copied c.script; ids = c.ids; emulation = c.emulation } };
}

impl CheckWords<'_> {
    /// The options that its script is read with. Nothing runs, so they are the defaults, except for the ids.
    pub fn options(&self) -> Options
        ensures { result ≡ check_options self.now }
    {
        Options {
            mode: Mode::Enforce,
            inherit: false,
            aliasing: true,
            ids: self.ids,
            workers: 1,
        }
    }
}

/// A command that words spell.
#[derive(Debug, Drop)]
pub enum Command<'a> {
    /// `check OPTIONS POLICY [SCRIPT]`
    Check(CheckWords<'a>),
    /// `step OPTIONS SCRIPT SCHEDULE`
    Step(StepWords<'a>),
    /// `replay OPTIONS SCRIPT TRACE`
    Replay(ReplayWords<'a>),
}
