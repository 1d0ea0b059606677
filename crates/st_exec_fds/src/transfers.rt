// The calls that move bytes between open files and memory.
ghost use Rattle.std.specs.Prelude.{◌≡◌, ℕ, ◌+◌, ◌^◌, ◌<◌, ◌≤◌, [], ◌∷◌, length, true, false, Some, IfOk, IfSome, OnOk, OnErr};
ghost use Rattle.std.specs.Result.{result_err};
ghost use Rattle.st_effects.specs.System as effects;
ghost use Rattle.st_effects.specs.Changes.{memory_after, tree_after};
ghost use Rattle.st_effects.specs.Descriptors.{buffer_fault, bytes_read, is_open_directory, is_socket, put_changes, read_outcome, write_offset, write_outcome};
ghost use Rattle.st_fds.specs.Table.{KeepsTables};
ghost use Rattle.st_memory.specs.Memory.{byte_in, is_space_live, KeepsSpaces};
ghost use Rattle.st_model.specs.Descriptors.{has_table};
ghost use Rattle.st_model.specs.Memory.{bytes_from};
ghost use Rattle.st_model.specs.Processes.{IsPid, process_at};
ghost use Rattle.st_model.specs.Tree as model;
ghost use Rattle.st_tree.specs.Answers.{KeepsKinds};
ghost use Rattle.st_tree.specs.Refusals.{IsFile, IsObjectNumber};
ghost use Rattle.st_model.specs.declared.limits.TheConstants.{LONGEST_FILE, SPACE_BYTES};
ghost use Rattle.st_request.specs.Ready.{AreValidOpenFiles, IsValidOpenFile};
ghost use Rattle.st_request.specs.Outcome.{outcome_of, assembled_system};
ghost use Rattle.st_exec_fds.specs.Transfers.{IsPlainFile, bytes_moved, read_refused, write_refused};

use st_base::{Errno, Obj, Space, Text};
use st_fds::Fds;
use st_memory::{MemFault, Spaces};
use st_model::{FileKind, LONGEST_FILE, OpenFile, SPACE_BYTES};
use st_procs::Procs;
use st_request::{Outcome, Request, put_bytes, unrefused};
use st_trace::{CallResult, Change};
use st_tree::{Kind, Tree};
use std::alloc::{AllocError, Global};

// `count` bytes of a memory, from byte `at` on.
#[derive(Clone, Copy)]
struct Buffer {
    space: Space,
    at: u64,
    count: u64,
}

// Whether an open file is a socket.
fn is_socket(file: &OpenFile) -> bool
    ensures { result ≡ is_socket file.now.kind }
{
    match file.kind {
        FileKind::Socket { .. } => true,
        FileKind::Console | FileKind::Node(_) => false,
    }
}

// Whether an open file is that of a directory.
fn is_open_directory(tree: &Tree, file: &OpenFile) -> bool
    requires { IsValidOpenFile tree.now file.now }
    ensures { result ≡ is_open_directory tree.now file.now.kind }
{
    match file.kind {
        FileKind::Node(obj) => tree.node(obj).kind == Kind::Dir,
        FileKind::Console | FileKind::Socket { .. } => false,
    }
}

// Checks that `count` bytes from byte `at` on are in memory; EFAULT if not.
fn test_buffer(at: u64, count: u64) -> Result<(), Errno>
    ensures refused { result_err result ≡ buffer_fault at count }
    ensures inside { OnOk result (at + count ≤ SPACE_BYTES) }
{
    if at.saturating_add(count) > SPACE_BYTES {
        return Err(Errno::EFAULT);
    }
    Ok(())
}

// The open file, if `count` bytes can be read from it to byte `at` of memory; otherwise the error of the call.
fn file_to_read(tree: &Tree, file: Option<OpenFile>, at: u64, count: u64) -> Result<OpenFile, Errno>
    requires { IfSome file (IsValidOpenFile tree.now) }
    ensures file { IfOk result (λ found. file ≡ Some found) }
    ensures plain { IfOk result (λ found. IsPlainFile tree.now found.kind) }
    ensures inside { OnOk result (at + count ≤ SPACE_BYTES) }
    ensures refused { result_err result ≡ read_refused tree.now file at count }
{
    let file = file.ok_or(Errno::EBADF)?;
    if !file.read {
        return Err(Errno::EBADF);
    }
    if is_socket(&file) {
        return Err(Errno::EINVAL);
    }
    if is_open_directory(tree, &file) {
        return Err(Errno::EISDIR);
    }
    test_buffer(at, count)?;
    Ok(file)
}

// The open file, if `count` bytes can be written to it from byte `at` of memory; otherwise the error of the call.
fn file_to_write(file: Option<OpenFile>, at: u64, count: u64) -> Result<OpenFile, Errno>
    ensures file { IfOk result (λ found. file ≡ Some found) }
    ensures plain { (tree : model.Tree) → IfSome file (IsValidOpenFile tree) → IfOk result (λ found. IsPlainFile tree found.kind) }
    ensures no_socket { IfOk result (λ found. is_socket found.kind ≡ false) }
    ensures inside { OnOk result (at + count ≤ SPACE_BYTES) }
    ensures refused { result_err result ≡ write_refused file at count }
{
    let file = file.ok_or(Errno::EBADF)?;
    if !file.write {
        return Err(Errno::EBADF);
    }
    if is_socket(&file) {
        return Err(Errno::EINVAL);
    }
    test_buffer(at, count)?;
    Ok(file)
}

// At most `count` bytes of an open file, from its offset on; the console has none.
fn bytes_read(tree: &Tree, alloc: Global, file: &OpenFile, count: u64) -> Result<Text, AllocError>
    requires { IsPlainFile tree.now file.now.kind }
    ensures bytes { IfOk result (λ text. text ≡ bytes_read tree.now file.now count) }
    ensures few { IfOk result (λ text. length text ≤ count) }
    ensures end { IfOk result (λ text. 0 < length text → file.now.offset + length text < 2 ^ 64) }
{
    match file.kind {
        FileKind::Node(obj) => tree.read(alloc, obj, file.offset, count),
        FileKind::Console | FileKind::Socket { .. } => Ok(Text::new(alloc)),
    }
}

// The bytes that the first change of a call puts or writes.
fn bytes_moved(outcome: &Outcome) -> &[u8]
    ensures { result.now ≡ bytes_moved outcome.now.changes }
{
    match outcome.changes.as_slice().first() {
        Some(Change::Put { bytes, .. } | Change::Written { bytes, .. }) => bytes.bytes(),
        _ => b"",
    }
}

// Puts bytes into memory, where they fit. If there are none, nothing changes.
fn put(
    spaces: &mut Spaces,
    alloc: Global,
    space: Space,
    at: u64,
    bytes: Text,
) -> Result<Outcome, AllocError>
    requires live { is_space_live spaces.old space ≡ true }
    requires inside { at + length bytes ≤ SPACE_BYTES }
    ensures result { IfOk result (λ outcome. outcome.result ≡ CallResult.Value (length bytes)) }
    ensures changes { IfOk result (λ outcome. outcome.changes ≡ put_changes space at bytes) }
    ensures memory { IfOk result (λ outcome. (s b : ℕ) → byte_in spaces.new s b ≡ memory_after space (byte_in spaces.old) outcome.changes s b) }
    ensures spaces { KeepsSpaces spaces.old spaces.new }
    ensures err { OnErr result (spaces.new ≡ spaces.old) }
{
    if bytes.is_empty() {
        return Ok(Outcome::value(alloc, 0));
    }
    let count = bytes.len() as u64;
    put_bytes(spaces, alloc, space, at, bytes.bytes(), count)
}

/// read(fd, at, count): reads bytes of an open file into memory, from the file's offset on, and moves the offset past them. If
/// memory runs out, nothing changes.
pub fn read(
    tree: &Tree,
    fds: &mut Fds,
    procs: &Procs,
    spaces: &mut Spaces,
    alloc: Global,
    request: &Request<'_>,
) -> Result<Outcome, AllocError>
    requires table { has_table fds.old request.now.pid ≡ true }
    requires process { IsPid procs.now request.now.pid }
    requires space { is_space_live spaces.old (process_at procs.now request.now.pid).space ≡ true }
    requires real { AreValidOpenFiles tree.now fds.old }
    ensures outcome { IfOk result (λ outcome. (system : effects.System) → outcome_of outcome fds.new ≡ read_outcome (assembled_system system tree.now fds.old procs.now spaces.old) request.now) }
    ensures memory { IfOk result (λ outcome. (s b : ℕ) → byte_in spaces.new s b ≡ memory_after (process_at procs.now request.now.pid).space (byte_in spaces.old) outcome.changes s b) }
    ensures spaces { KeepsSpaces spaces.old spaces.new }
    ensures tables { KeepsTables fds.old fds.new }
    ensures real { AreValidOpenFiles tree.now fds.new }
    ensures err_fds { OnErr result (fds.new ≡ fds.old) }
    ensures err_spaces { OnErr result (spaces.new ≡ spaces.old) }
{
    let (fd, at, count) = (
        request.register(0),
        request.register(1),
        request.register(2),
    );
    let file = match file_to_read(tree, fds.get(request.pid, fd), at, count) {
        Ok(file) => file,
        Err(errno) => return Ok(Outcome::failure(alloc, errno)),
    };
    let bytes = bytes_read(tree, alloc, &file, count)?;
    let offset = file.offset + bytes.len() as u64;
    let outcome = put(spaces, alloc, procs.space(request.pid), at, bytes)?;
    let _ = fds.seek(request.pid, fd, offset);
    Ok(outcome)
}

// The offset that a write begins at: with append the size of the file, otherwise the offset of the open file.
fn write_offset(tree: &Tree, obj: Obj, file: &OpenFile) -> u64
    requires { IsObjectNumber tree.now obj }
    ensures { result ≡ write_offset tree.now obj file.now }
{
    if file.append {
        tree.node(obj).size
    } else {
        file.offset
    }
}

// Writes bytes of memory into a file, from byte `start` of the file on.
fn write_object(
    tree: &mut Tree,
    spaces: &Spaces,
    alloc: Global,
    buffer: Buffer,
    obj: Obj,
    start: u64,
) -> Result<Outcome, AllocError>
    requires live { is_space_live spaces.now buffer.space ≡ true }
    requires inside { buffer.at + buffer.count ≤ SPACE_BYTES }
    requires file { IsFile tree.old obj }
    requires fits { start + buffer.count ≤ LONGEST_FILE }
    ensures result { IfOk result (λ outcome. outcome.result ≡ CallResult.Value buffer.count) }
    ensures changes { IfOk result (λ outcome. outcome.changes ≡ Change.Written obj start (bytes_from (byte_in spaces.now buffer.space) buffer.at buffer.count) ∷ []) }
    ensures tree { IfOk result (λ outcome. tree.new ≡ tree_after tree.old outcome.changes) }
    ensures kinds { KeepsKinds tree.old tree.new }
    ensures err { OnErr result (tree.new ≡ tree.old) }
{
    let bytes = match spaces.bytes(alloc, buffer.space, buffer.at, buffer.count) {
        Ok(bytes) => bytes,
        Err(MemFault::NoMemory) => return Err(AllocError),
        Err(MemFault::Outside) => unreachable!(),
    };
    let written = Change::Written {
        obj,
        at: start,
        bytes,
    };
    let outcome = Outcome::change(alloc, buffer.count, written)?;
    unrefused(tree.write(obj, start, bytes_moved(&outcome)))?;
    Ok(outcome)
}

/// write(fd, at, count): writes bytes of memory to an open file, from its offset on or, with append, from its end, and moves the
/// offset past them. If memory runs out, nothing changes.
pub fn write(
    tree: &mut Tree,
    fds: &mut Fds,
    procs: &Procs,
    spaces: &Spaces,
    alloc: Global,
    request: &Request<'_>,
) -> Result<Outcome, AllocError>
    requires table { has_table fds.old request.now.pid ≡ true }
    requires process { IsPid procs.now request.now.pid }
    requires space { is_space_live spaces.now (process_at procs.now request.now.pid).space ≡ true }
    requires real { AreValidOpenFiles tree.old fds.old }
    ensures outcome { IfOk result (λ outcome. (system : effects.System) → outcome_of outcome fds.new ≡ write_outcome (assembled_system system tree.old fds.old procs.now spaces.now) request.now) }
    ensures tree { IfOk result (λ outcome. tree.new ≡ tree_after tree.old outcome.changes) }
    ensures tables { KeepsTables fds.old fds.new }
    ensures real { AreValidOpenFiles tree.new fds.new }
    ensures err_tree { OnErr result (tree.new ≡ tree.old) }
    ensures err_fds { OnErr result (fds.new ≡ fds.old) }
{
    let (fd, at, count) = (
        request.register(0),
        request.register(1),
        request.register(2),
    );
    let file = match file_to_write(fds.get(request.pid, fd), at, count) {
        Ok(file) => file,
        Err(errno) => return Ok(Outcome::failure(alloc, errno)),
    };
    let FileKind::Node(obj) = file.kind else {
        return Ok(Outcome::value(alloc, count));
    };
    if count == 0 {
        return Ok(Outcome::value(alloc, 0));
    }
    let start = write_offset(tree, obj, &file);
    if start.saturating_add(count) > LONGEST_FILE {
        return Ok(Outcome::failure(alloc, Errno::ENOSPC));
    }
    let buffer = Buffer {
        space: procs.space(request.pid),
        at,
        count,
    };
    let outcome = write_object(tree, spaces, alloc, buffer, obj, start)?;
    let _ = fds.seek(request.pid, fd, start + count);
    Ok(outcome)
}
