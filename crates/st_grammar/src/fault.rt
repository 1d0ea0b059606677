ghost use Rattle.std.specs.Prelude.{◌≡◌};

use crate::place::Place;
use st_lex::LexFault;
use std::alloc::AllocError;
use thiserror::Error;

/// A part of the language that isn't supported.
#[derive(Clone, Copy, Debug, PartialEq, Eq)]
pub enum Unsupported {
    /// The operator `re`, which tests by a regular expression.
    Re,
    /// Another word than that of the environment's emulation.
    Emulation,
}

/// Why a policy wasn't read. Each number is the offset in the text, in bytes from 0, of the token at fault.
#[derive(Clone, Copy, Debug, PartialEq, Eq, Drop, Error)]
pub enum PolicyFault {
    /// No token begins there.
    #[error("not a token")]
    Lex(LexFault),
    /// The token doesn't fit the grammar.
    #[error("not expected here")]
    Expected(u32),
    /// The filter's name isn't the emulation's prefix, as `native-`, and one or more letters, digits or `_`.
    #[error("not the name of a call")]
    UnknownCall(u32),
    /// The call has no argument of this label and index.
    #[error("not an argument of the call")]
    UnknownArgument(u32),
    /// The word isn't the name of an error.
    #[error("not an error")]
    UnknownError(u32),
    /// The id is neither a number nor a known name.
    #[error("not a known user or group")]
    UnknownUser(u32),
    /// The binary has a policy already.
    #[error("the binary has a policy already")]
    DuplicatePolicy(u32),
    /// Ids are granted, but `-c` isn't given, so that there are no ids to grant them over.
    #[error("ids are granted without -c")]
    ElevateWithoutIds(u32),
    /// Ids are granted to a call that sets ids.
    #[error("ids are granted to a call that sets ids")]
    ElevateOnSetId(u32),
    /// It is part of the language and isn't supported.
    #[error("not supported")]
    NotSupported(u32, Unsupported),
    /// A filter asks, and policies are learnt.
    #[error("a policy that is learnt can't ask")]
    AskWithLearn(u32),
    /// There are more than 4,096 filters, or more than 64 of `not`, `and`, `or` and `(` in one filter.
    #[error("too many")]
    TooMany(u32),
    /// Out of memory.
    #[error("out of memory")]
    NoMemory,
}

impl From<AllocError> for PolicyFault {
    ghost use Rattle.st_grammar.specs.declared.fault.PolicyFault.TheVariants.{NoMemory};

    ghost from_gives = { λ _ fault. fault ≡ NoMemory };

    fn from(_error: AllocError) -> Self {
        PolicyFault::NoMemory
    }
}

/// Why a policy is refused, and the place in the grammar where the faulty token is.
#[derive(Clone, Copy, Debug, PartialEq, Eq)]
pub struct PolicyRefusal {
    pub fault: PolicyFault,
    pub place: Place,
}

impl From<AllocError> for PolicyRefusal {
    ghost use Rattle.st_grammar.specs.declared.fault.PolicyFault.TheVariants.{NoMemory};

    ghost from_gives = { λ _ refused. refused.fault ≡ NoMemory };

    fn from(_error: AllocError) -> Self {
        PolicyRefusal {
            fault: PolicyFault::NoMemory,
            place: Place::Start,
        }
    }
}
