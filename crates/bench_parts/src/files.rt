ghost use Rattle.std.specs.Prelude.{IfOk};
ghost use Rattle.st_tree.specs.Refusals.{IsFile};

use st_base::{Obj, Text};
use st_model::{NewKind, NewNode};
use st_names::AbsName;
use st_tree::{Tree, TreeFault};
use std::alloc::{AllocError, Global};

const LEN: usize = 4096;

fn with_file(alloc: Global) -> Result<(Tree, Obj), AllocError>
    ensures { IfOk result (λ made. IsFile made.0 made.1) }
{
    let mut tree = Tree::new(alloc)?;
    let name = AbsName::of(alloc, b"/file")?;
    let new = NewNode {
        kind: NewKind::File(Text::of(alloc, &[1; LEN])?),
        uid: 0,
        gid: 0,
        mode: 0o644,
    };
    match tree.add(alloc, &name, new) {
        Ok(obj) => Ok((tree, obj)),
        Err(_) => Err(AllocError),
    }
}

/// The number of bytes read by reading 4,096 bytes this many times.
pub fn reads(alloc: Global, count: u64) -> Result<u64, AllocError> {
    let (tree, obj) = with_file(alloc)?;
    let mut sum: u64 = 0;
    for _ in 0..count {
        let text = tree.read(alloc, obj, 0, LEN as u64)?;
        sum = sum.wrapping_add(text.len() as u64);
    }
    Ok(sum)
}

/// The size of a file after 4,096 bytes were written to it this many times.
pub fn writes(alloc: Global, count: u64) -> Result<u64, AllocError> {
    let (mut tree, obj) = with_file(alloc)?;
    for _ in 0..count {
        match tree.write(obj, 0, &[2; LEN]) {
            Ok(()) | Err(TreeFault::Os(_)) => {}
            Err(TreeFault::NoMemory) => return Err(AllocError),
        }
    }
    Ok(tree.node(obj).size)
}
