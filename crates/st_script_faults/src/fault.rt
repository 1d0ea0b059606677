ghost use Rattle.std.specs.Prelude.{◌≡◌};

use st_lex::LexFault;
use std::alloc::AllocError;
use thiserror::Error;

/// Why a script was not read; each line is counted from 1.
#[derive(Clone, Copy, Debug, PartialEq, Eq, Drop, Error)]
pub enum ScriptFault {
    /// No token begins there.
    #[error("not a token")]
    Lex(LexFault),
    /// The line isn't in the grammar.
    #[error("not expected here")]
    Expected(u32),
    /// The line names a directory, a process, a thread or a policy that doesn't exist.
    #[error("not a known name")]
    UnknownName(u32),
    /// The line defines a name that is defined already, or starts a thread that is started already.
    #[error("given already")]
    Duplicate(u32),
    /// There are too many rows, instructions, filters or bytes.
    #[error("too many")]
    TooMany(u32),
    /// Out of memory.
    #[error("out of memory")]
    NoMemory,
    /// The line is a reload, and policies are learnt.
    #[error("no reload with -A")]
    ReloadWithLearn(u32),
}

impl From<AllocError> for ScriptFault {
    ghost use Rattle.st_script_faults.specs.declared.fault.ScriptFault.TheVariants.{NoMemory};

    ghost from_gives = { λ _ fault. fault ≡ NoMemory };

    fn from(_error: AllocError) -> Self {
        ScriptFault::NoMemory
    }
}
