// Errors that can only be out of memory.
ghost use Rattle.std.specs.Prelude.{◌≡◌, ◌≢◌, MatchResult};
ghost use Rattle.st_base.specs.declared.errno.Errno.{Errno};
ghost use Rattle.st_tree.specs.declared.tree.TreeFault.TheVariants.{NoMemory, Os};

use st_tree::TreeFault;
use std::alloc::AllocError;

/// The result of a change of the tree that can't be refused: its only error is out of memory.
pub fn unrefused<T>(given: Result<T, TreeFault>) -> Result<T, AllocError>
    requires { (errno : Errno) → given ≢ Err (Os errno) }
    ensures { MatchResult result (λ value. given ≡ Ok value) (λ _. given ≡ Err NoMemory) }
{
    match given {
        Ok(value) => Ok(value),
        Err(TreeFault::NoMemory) => Err(AllocError),
        Err(TreeFault::Os(_)) => unreachable!(),
    }
}
