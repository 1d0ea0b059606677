ghost use Rattle.std.specs.Prelude.{◌≡◌};

use st_base::Errno;
use st_resolve::WalkFault;
use std::alloc::AllocError;
use thiserror::Error;

// Why an argument has no text.
#[derive(Clone, Copy, Debug, PartialEq, Eq, Drop, Error)]
pub(crate) enum ArgFault {
    #[error("the argument can't be read")]
    Os(Errno),
    #[error("out of memory")]
    NoMemory,
}

impl From<AllocError> for ArgFault {
    ghost use Rattle.st_arguments.specs.declared.fault.ArgFault.TheVariants.{NoMemory};

    ghost from_gives = { λ _ fault. fault ≡ NoMemory };

    fn from(_error: AllocError) -> Self {
        ArgFault::NoMemory
    }
}

impl From<WalkFault> for ArgFault {
    ghost use Rattle.st_arguments.specs.Parts.{fault_of_walk};

    ghost from_gives = { λ fault given. given ≡ fault_of_walk fault };

    fn from(fault: WalkFault) -> Self {
        match fault {
            WalkFault::Os(errno) => ArgFault::Os(errno),
            WalkFault::NoMemory => ArgFault::NoMemory,
        }
    }
}
