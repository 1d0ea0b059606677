use st_base::Errno;
use st_exec_objects::resolve;
use st_model::{NewKind, NewNode};
use st_names::{AbsName, Seen};
use st_resolve::WalkFault;
use st_tree::Tree;
use std::alloc::{AllocError, Global};

const DEPTH: u32 = 16;

const TEXT: &[u8] =
    b"/part/part/part/part/part/part/part/part/part/part/part/part/part/part/part/part";

fn directory() -> NewNode {
    NewNode {
        kind: NewKind::Dir,
        uid: 0,
        gid: 0,
        mode: 0o755,
    }
}

// A tree of nested directories, and the name of the innermost.
fn nested(alloc: Global) -> Result<(Tree, AbsName), AllocError> {
    let mut tree = Tree::new(alloc)?;
    let mut name = AbsName::root(alloc);
    for _ in 0..DEPTH {
        name.push(b"part")?;
        let _ = tree.add(alloc, &name, directory());
    }
    Ok((tree, name))
}

/// How often a name of 16 components was seen, with this many looks.
pub fn looks(alloc: Global, count: u64) -> Result<u64, AllocError> {
    let (tree, name) = nested(alloc)?;
    let mut seen: u64 = 0;
    for _ in 0..count {
        if let Seen::Dir = tree.look(&name) {
            seen = seen.wrapping_add(1);
        }
    }
    Ok(seen)
}

/// How often a text of 16 components was resolved, with this many walks.
pub fn walks(alloc: Global, count: u64) -> Result<u64, AllocError> {
    let (tree, _) = nested(alloc)?;
    let cwd = AbsName::root(alloc);
    let mut found: u64 = 0;
    for _ in 0..count {
        match resolve(alloc, &tree, &cwd, TEXT, true) {
            Ok(name) => found = found.wrapping_add(name.len() as u64),
            Err(WalkFault::Os(Errno::ENOENT)) => {}
            Err(_) => return Err(AllocError),
        }
    }
    Ok(found)
}
