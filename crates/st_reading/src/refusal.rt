ghost use Rattle.std.specs.Prelude.{◌≡◌};

use st_grammar::PolicyRefusal;
use st_script_faults::ScriptFault;
use std::alloc::AllocError;

/// A file that a command names.
#[derive(Clone, Copy, Debug, PartialEq, Eq)]
pub enum Which {
    /// The policy file of this number, from 1.
    Policy(u32),
    Script,
    Schedule,
    /// The printed trace of `replay`.
    Trace,
}

/// Why a command was not read.
#[derive(Clone, Copy, Debug, PartialEq, Eq)]
pub enum Refusal {
    /// No file has that name.
    Missing(Which),
    /// The file holds more than 1,048,576 bytes.
    TooLong(Which),
    /// A file could not be read.
    ReadFault,
    /// The script is refused, with its first fault.
    Script(ScriptFault),
    /// The policy file of this number, from 1, is refused, with its leftmost fault and the fault's place in the grammar.
    Policy(u32, PolicyRefusal),
    NoMemory,
}

impl From<AllocError> for Refusal {
    ghost use Rattle.st_reading.specs.declared.refusal.Refusal.TheVariants.{NoMemory};

    ghost from_gives = { λ _ refusal. refusal ≡ NoMemory };

    fn from(_error: AllocError) -> Self {
        Refusal::NoMemory
    }
}
