// The calls on descriptors that move no bytes.
ghost use Rattle.std.specs.Prelude.{◌≡◌, true};
ghost use Rattle.st_effects.specs.System as effects;
ghost use Rattle.st_effects.specs.Descriptors.{close_outcome, dup_outcome, lseek_outcome, offset_in_file, seek_offset, signed_sum};
ghost use Rattle.st_fds.specs.Table.{KeepsTables};
ghost use Rattle.st_model.specs.Descriptors.{has_table};
ghost use Rattle.st_model.specs.Tree.{Tree};
ghost use Rattle.st_request.specs.Ready.{AreValidOpenFiles, IsValidOpenFile};
ghost use Rattle.st_request.specs.Outcome.{outcome_of, with_descriptors, with_tree};

use st_base::Errno;
use st_fds::{FdFault, Fds};
use st_model::{FileKind, LONGEST_FILE, OpenFile};
use st_request::{Outcome, Request};
use st_tree::{Kind, Tree};
use std::alloc::Global;

/// close(fd): closes a descriptor. Takes no memory.
pub fn close(fds: &mut Fds, alloc: Global, request: &Request<'_>) -> Outcome
    requires { has_table fds.old request.now.pid ≡ true }
    ensures outcome { (system : effects.System) → outcome_of result fds.new ≡ close_outcome (with_descriptors system fds.old) request.now }
    ensures tables { KeepsTables fds.old fds.new }
    ensures real { (tree : Tree) → AreValidOpenFiles tree fds.old → AreValidOpenFiles tree fds.new }
{
    match fds.close(request.pid, request.register(0)) {
        Ok(()) => Outcome::value(alloc, 0),
        Err(errno) => Outcome::failure(alloc, errno),
    }
}

/// dup(fd): makes one more descriptor refer to the same open file. Takes no memory.
pub fn dup(fds: &mut Fds, alloc: Global, request: &Request<'_>) -> Outcome
    requires { has_table fds.old request.now.pid ≡ true }
    ensures outcome { (system : effects.System) → outcome_of result fds.new ≡ dup_outcome (with_descriptors system fds.old) request.now }
    ensures tables { KeepsTables fds.old fds.new }
    ensures real { (tree : Tree) → AreValidOpenFiles tree fds.old → AreValidOpenFiles tree fds.new }
{
    match fds.dup(request.pid, request.register(0)) {
        Ok(fd) => Outcome::value(alloc, u64::from(fd)),
        Err(FdFault::Os(errno)) => Outcome::failure(alloc, errno),
        Err(FdFault::NoMemory) => unreachable!(),
    }
}

// The sum of a number and a signed offset of 64 bits, if it is an offset in a file.
fn place_in_file(base: u64, offset: u64) -> Option<u64>
    ensures { result ≡ offset_in_file (signed_sum base offset) }
{
    let place = if offset < 1 << 63 {
        base.saturating_add(offset)
    } else {
        base.checked_sub(u64::MAX - offset + 1)?
    };
    if place > LONGEST_FILE {
        return None;
    }
    Some(place)
}

// The offset that lseek(2) moves to; `None` if there is no such offset, or if the open file isn't that of a file.
fn seek_offset(tree: &Tree, request: &Request<'_>, file: &OpenFile) -> Option<u64>
    requires { IsValidOpenFile tree.now file.now }
    ensures { result ≡ seek_offset tree.now request.now file.now file.now.kind }
{
    let FileKind::Node(obj) = file.kind else {
        return None;
    };
    let node = tree.node(obj);
    if node.kind != Kind::File {
        return None;
    }
    let base = match request.register(2) {
        0 => 0,
        1 => file.offset,
        2 => node.size,
        _ => return None,
    };
    place_in_file(base, request.register(1))
}

/// lseek(fd, offset, whence): moves the offset of a descriptor's open file. Takes no memory.
pub fn lseek(tree: &Tree, fds: &mut Fds, alloc: Global, request: &Request<'_>) -> Outcome
    requires table { has_table fds.old request.now.pid ≡ true }
    requires real { AreValidOpenFiles tree.now fds.old }
    ensures outcome { (system : effects.System) → outcome_of result fds.new ≡ lseek_outcome (with_descriptors (with_tree system tree.now) fds.old) request.now }
    ensures tables { KeepsTables fds.old fds.new }
    ensures real { AreValidOpenFiles tree.now fds.new }
{
    let Some(file) = fds.get(request.pid, request.register(0)) else {
        return Outcome::failure(alloc, Errno::EBADF);
    };
    let Some(offset) = seek_offset(tree, request, &file) else {
        return Outcome::failure(alloc, Errno::EINVAL);
    };
    let _ = fds.seek(request.pid, request.register(0), offset);
    Outcome::value(alloc, offset)
}
