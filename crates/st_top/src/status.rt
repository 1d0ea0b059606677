ghost use Rattle.std.specs.Prelude.{◌≡◌};
ghost use Rattle.st_top.specs.Number.{number_of_status};

use st_grammar::PolicyRefusal;
use st_kernel::PlayFault;
use st_reading::{Refusal, Which};
use st_script_faults::ScriptFault;
use std::alloc::AllocError;

/// How a call of the program ends.
#[derive(Clone, Copy, Debug, PartialEq, Eq)]
pub enum Status {
    /// The whole text was written.
    Done,
    /// No file has that name.
    Missing(Which),
    /// The words spell no command.
    Usage,
    /// The policy file of this number, from 1, is refused, with its leftmost fault.
    Policy(u32, PolicyRefusal),
    /// The script is refused, with its first fault.
    Script(ScriptFault),
    /// A file could not be read.
    ReadFault,
    /// The text could not be written; what was written is a front of it.
    WriteFault,
    NoMemory,
    /// This line of the schedule, from 1, is the first that isn't in the grammar or whose choice isn't enabled at its turn.
    Schedule(u32),
    /// The file holds more than 1,048,576 bytes.
    TooLong(Which),
    /// This line of the printed trace, from 1, is the first that is no entry's or whose entry isn't lawful after those before it.
    Illegal(u32),
}

impl Status {
    /// The exit status of the program, as a number.
    pub fn number(self) -> u8
        ensures { result ≡ number_of_status self }
    {
        match self {
            Status::Done => 0,
            Status::Missing(_) => 1,
            Status::Usage => 2,
            Status::Policy(_, _) => 3,
            Status::Script(_) => 4,
            Status::ReadFault => 5,
            Status::WriteFault => 6,
            Status::NoMemory => 7,
            Status::Schedule(_) => 8,
            Status::TooLong(_) => 9,
            Status::Illegal(_) => 10,
        }
    }
}

impl From<AllocError> for Status {
    ghost use Rattle.st_top.specs.declared.status.Status.TheVariants.{NoMemory};

    ghost from_gives = { λ _ status. status ≡ NoMemory };

    fn from(_error: AllocError) -> Self {
        Status::NoMemory
    }
}

impl From<Refusal> for Status {
    ghost use Rattle.st_top.specs.Outcome.{status_of};

    ghost from_gives = { λ refusal status. status ≡ status_of refusal };

    fn from(refusal: Refusal) -> Self {
        match refusal {
            Refusal::Missing(which) => Status::Missing(which),
            Refusal::TooLong(which) => Status::TooLong(which),
            Refusal::ReadFault => Status::ReadFault,
            Refusal::Script(fault) => Status::Script(fault),
            Refusal::Policy(file, fault) => Status::Policy(file, fault),
            Refusal::NoMemory => Status::NoMemory,
        }
    }
}

impl From<PlayFault> for Status {
    ghost use Rattle.st_top.specs.Outcome.{status_of_play};

    ghost from_gives = { λ fault status. status ≡ status_of_play fault };

    fn from(fault: PlayFault) -> Self {
        match fault {
            PlayFault::BadLine(line) => Status::Schedule(line),
            PlayFault::NoMemory => Status::NoMemory,
        }
    }
}
