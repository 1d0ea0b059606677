// How a call of `run` ends, with the choices that its threads made.
ghost use Rattle.std.specs.Prelude.{◌≡◌, [], IfOk};
ghost use Rattle.st_report.specs.ScheduleText.{spelled_choices};

use crate::status::Status;
use st_report::Repeat;
use std::alloc::{AllocError, Global};
use std::marker::Model;

/// The choices of a run, in order.
#[derive(Debug, Drop)]
pub struct Schedule {
    /// The choices, with equal consecutive ones joined.
    pub choices: Vec<Repeat>,
}

impl Model for Schedule {
    ghost use Rattle.std.specs.Prelude.{List};
    ghost use Rattle.st_trace.specs.declared.entry.Choice.{Choice};
    ghost use Rattle.st_report.specs.ScheduleText.{spelled_choices};

    ghost Value = { List Choice };

    ghost view = { λ schedule. spelled_choices schedule.choices.items };
}

impl Schedule {
    /// No choices, which takes no memory.
    pub fn new(alloc: Global) -> Self
        ensures { result ≡ [] }
    {
        Schedule {
            choices: Vec::new(alloc),
        }
    }

    /// The choices that these lines spell.
    pub fn of(alloc: Global, lines: &[Repeat]) -> Result<Self, AllocError>
        ensures { IfOk result (λ schedule. schedule ≡ spelled_choices lines.now) }
    {
        let choices = Vec::from_slice(alloc, lines)?;
        Ok(Schedule { choices })
    }
}

/// How a call of `run` ends.
#[derive(Debug, Drop)]
pub struct Ended {
    pub status: Status,
    /// The choices that its threads made; none unless the status is Done.
    pub schedule: Schedule,
}

impl Ended {
    /// A call that ends with this status and no choices.
    pub fn without(alloc: Global, status: Status) -> Self
        ensures status { result.status ≡ status }
        ensures schedule { result.schedule ≡ [] }
    {
        Ended {
            status,
            schedule: Schedule::new(alloc),
        }
    }
}
