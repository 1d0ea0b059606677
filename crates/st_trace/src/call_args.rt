ghost use Rattle.std.specs.Prelude.{◌≡◌};

use st_base::{Sequence, Shared};
use st_calls::{ArgText, Snapshot};
use std::marker::Model;

/// The arguments with which a call is made.
#[derive(Debug, Drop)]
pub struct CallArgs {
    held: HeldArgs,
}

/// Where the arguments are stored.
#[derive(Debug, Drop)]
enum HeldArgs {
    /// In a list of the call's own.
    Own(Sequence<ArgText>),
    /// In the snapshot that was judged.
    Judged(Shared<Snapshot>),
}

impl Model for CallArgs {
    ghost use Rattle.std.specs.Prelude.{List};
    ghost use Rattle.st_calls.specs.declared.argument.ArgText.{ArgText};
    ghost use Rattle.st_trace.specs.CallArgs.{args_held};

    ghost Value = { List ArgText };

    ghost view = { λ c. args_held c.held };
}

impl CallArgs {
    /// Arguments that are stored for this call alone.
    pub fn own(args: Sequence<ArgText>) -> Self
        ensures { result ≡ args }
    {
        CallArgs {
            held: HeldArgs::Own(args),
        }
    }

    /// The arguments of this snapshot, in which they stay stored.
    pub fn judged(copies: Shared<Snapshot>) -> Self
        ensures { result ≡ copies.parts }
    {
        CallArgs {
            held: HeldArgs::Judged(copies),
        }
    }

    /// The arguments, in order.
    pub fn as_slice(&self) -> &[ArgText]
        ensures { result.now ≡ self.now }
    {
        match &self.held {
            HeldArgs::Own(args) => args.as_slice(),
            HeldArgs::Judged(copies) => copies.get().parts.as_slice(),
        }
    }
}
