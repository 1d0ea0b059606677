ghost use Rattle.std.specs.Prelude.{◌≡◌, true, IsErrOf, IfOk};
ghost use Rattle.st_arguments.specs.Arguments.{arguments_progress};
ghost use Rattle.st_arguments.specs.Parts.{surroundings};
ghost use Rattle.st_arguments.specs.declared.fault.ArgFault.TheVariants.{Os};
ghost use Rattle.st_base.specs.declared.errno.Errno.{Errno};
ghost use Rattle.st_effects.specs.Progress.{Ready, Stuck};
ghost use Rattle.st_law.specs.Arguments.{arguments_in};
ghost use Rattle.st_memory.specs.Memory.{is_space_live};

use crate::asked::Asked;
use crate::fault::ArgFault;
use crate::part::argument;
use st_base::{Errno, Sequence, Space};
use st_calls::{ArgText, args_of};
use st_memory::Spaces;
use st_tree::Tree;
use std::alloc::{AllocError, Global};

/// The texts of a call's arguments, or the error of one of them.
#[derive(Debug, Drop)]
pub enum Arguments {
    /// The texts, in order; that of a name is absolute and normalised.
    Ready(Sequence<ArgText>),
    /// The error of the first argument that has no text.
    Stuck(Errno),
}

// The texts of all arguments, or the first fault.
fn texts(
    alloc: Global,
    tree: &Tree,
    spaces: &Spaces,
    space: Space,
    asked: &Asked<'_>,
) -> Result<Sequence<ArgText>, ArgFault>
    requires { is_space_live spaces.now space ≡ true }
    ensures args { IfOk result (λ args. arguments_in asked.now (surroundings tree.now spaces.now space) ≡ Ready args) }
    ensures fault { (errno : Errno) → IsErrOf result (Os errno) → arguments_in asked.now (surroundings tree.now spaces.now space) ≡ Stuck errno }
{
    let mut args = Sequence::new(alloc);
    for spec in args_of(asked.rule) {
        args.push(argument(alloc, tree, spaces, space, asked, *spec)?)?;
    }
    Ok(args)
}

/// The arguments of a call, in one step: each is copied from this memory space, and a name is resolved in the tree, as both are
/// now. The first argument with a fault decides.
pub fn arguments_in(
    alloc: Global,
    tree: &Tree,
    spaces: &Spaces,
    space: Space,
    asked: &Asked<'_>,
) -> Result<Arguments, AllocError>
    requires { is_space_live spaces.now space ≡ true }
    ensures { IfOk result (λ arguments. arguments_in asked.now (surroundings tree.now spaces.now space) ≡ arguments_progress arguments) }
{
    match texts(alloc, tree, spaces, space, asked) {
        Ok(args) => Ok(Arguments::Ready(args)),
        Err(ArgFault::Os(errno)) => Ok(Arguments::Stuck(errno)),
        Err(ArgFault::NoMemory) => Err(AllocError),
    }
}
