ghost use Rattle.std.specs.Prelude.{◌≡◌, IsErrOf, IfOk};
ghost use Rattle.st_base.specs.declared.errno.Errno.{Errno};
ghost use Rattle.st_model.specs.Walk.{Fault, Name, resolve};
ghost use Rattle.st_resolve.specs.declared.walk.WalkFault.TheVariants.{Os};

use st_names::AbsName;
use st_resolve::{Walk, WalkFault, WalkStep};
use st_tree::Tree;
use std::alloc::Global;

/// The name that a text means, from this directory on, over the tree as it is; `follow` says whether a link that is last is
/// followed. The errors are those of the walk.
pub fn resolve(
    alloc: Global,
    tree: &Tree,
    cwd: &AbsName,
    text: &[u8],
    follow: bool,
) -> Result<AbsName, WalkFault>
    ensures name { IfOk result (λ name. resolve tree.now cwd.now text.now follow ≡ Name name) }
    ensures fault { (errno : Errno) → IsErrOf result (Os errno) → resolve tree.now cwd.now text.now follow ≡ Fault errno }
{
    let mut walk = Walk::begin(alloc, text, cwd, follow)?;
    while let Some(name) = walk.next_look(alloc)? {
        if let WalkStep::Fault(errno) = walk.advance(alloc, tree.look(&name))? {
            return Err(WalkFault::Os(errno));
        }
    }
    Ok(walk.into_name())
}
