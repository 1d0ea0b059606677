// Calls that report what an object is.
ghost use Rattle.std.specs.Prelude.{◌≡◌, ◌+◌, ◌≤◌, ℕ, [], ◌∷◌, length, nat_lt, take, true, IfOk, OnOk, OnErr};
ghost use Rattle.std.specs.List.{flat_map};
ghost use Rattle.std.specs.Int.{w64, to_le_bytes};
ghost use Rattle.st_effects.specs.Changes.{memory_after};
ghost use Rattle.st_effects.specs.Names.{number_of_kind, readlink_outcome, stat_outcome, stat_words};
ghost use Rattle.st_effects.specs.System.{arg_name_at, register, space_of_caller, success, System};
ghost use Rattle.st_memory.specs.Memory.{byte_in, is_space_live, KeepsSpaces};
ghost use Rattle.st_model.specs.Processes.{process_at, IsPid};
ghost use Rattle.st_model.specs.Tree.{node_with_number};
ghost use Rattle.st_model.specs.declared.limits.TheConstants.{SPACE_BYTES};
ghost use Rattle.st_tree.specs.Refusals.{IsObjectNumber};
ghost use Rattle.st_request.specs.Outcome.{outcome_of, unless_err, with_processes, with_tree};
ghost use Rattle.st_exec_objects.specs.Walking.{object_made};

use crate::walking;
use st_base::{Errno, Obj, Text};
use st_memory::{SPACE_BYTES, Spaces};
use st_names::AbsName;
use st_procs::Procs;
use st_request::{Outcome, Request, put_bytes};
use st_trace::Change;
use st_tree::{Kind, Tree};
use std::alloc::{AllocError, Global};

// Whether `count` bytes from byte `at` on go past the end of memory.
fn is_outside(at: u64, count: u64) -> bool
    ensures { result ≡ nat_lt SPACE_BYTES (at + count) }
{
    at.saturating_add(count) > SPACE_BYTES
}

// The number of a kind of objects in stat(2).
fn number_of_kind(kind: Kind) -> u64
    ensures { result ≡ number_of_kind kind }
{
    match kind {
        Kind::Dir => 1,
        Kind::File => 2,
        Kind::Link => 3,
    }
}

// The bytes of words, the lowest byte first.
fn bytes_of_words(alloc: Global, words: &[u64]) -> Result<Text, AllocError>
    ensures { IfOk result (λ text. text ≡ flat_map (to_le_bytes w64) words.now) }
{
    let mut text = Text::new(alloc);
    for word in words {
        text.append(&word.to_le_bytes())?;
    }
    Ok(text)
}

// The bytes that stat(2) reports of an object.
fn stat_words(tree: &Tree, alloc: Global, obj: Obj) -> Result<Text, AllocError>
    requires { IsObjectNumber tree.now obj }
    ensures words { IfOk result (λ text. text ≡ stat_words tree.now (object_made tree.now obj)) }
    ensures len { IfOk result (λ text. length text ≡ 40) }
{
    let node = tree.node(obj);
    let words = [
        number_of_kind(node.kind),
        u64::from(node.mode),
        u64::from(node.uid),
        u64::from(node.gid),
        node.size,
    ];
    bytes_of_words(alloc, &words)
}

// The object that stat(2) reports, or the error of the call.
fn may_stat(tree: &Tree, request: &Request<'_>, name: &AbsName) -> Result<Obj, Errno>
    requires { name.now ≡ arg_name_at request.now 0 }
    ensures made { IfOk result (IsObjectNumber tree.now) }
    ensures inside { OnOk result (register request.now 1 + 40 ≤ SPACE_BYTES) }
    ensures outcome { (system : System) → stat_outcome (with_tree system tree.now) request.now ≡ unless_err system result (λ obj. success system 0 (Change.Put (space_of_caller system request.now) (register request.now 1) (stat_words tree.now (object_made tree.now obj)) ∷ [])) }
{
    let obj = walking::find(tree, request.ids, name)?;
    let at = request.register(1);
    if at % 8 != 0 || is_outside(at, 40) {
        return Err(Errno::EFAULT);
    }
    Ok(obj)
}

/// stat(name, at): puts five words into memory, which are the kind of the name's object, its mode, owner, group and size. It is
/// lstat(name, at) too, whose name wasn't resolved through a link at its end.
pub fn stat(
    tree: &Tree,
    procs: &Procs,
    spaces: &mut Spaces,
    alloc: Global,
    request: &Request<'_>,
) -> Result<Outcome, AllocError>
    requires process { IsPid procs.now request.now.pid }
    requires space { is_space_live spaces.old (process_at procs.now request.now.pid).space ≡ true }
    ensures outcome { IfOk result (λ outcome. (system : System) → outcome_of outcome system.descriptors ≡ stat_outcome (with_tree (with_processes system procs.now) tree.now) request.now) }
    ensures memory { IfOk result (λ outcome. (s b : ℕ) → byte_in spaces.new s b ≡ memory_after (process_at procs.now request.now.pid).space (byte_in spaces.old) outcome.changes s b) }
    ensures spaces { KeepsSpaces spaces.old spaces.new }
    ensures err { OnErr result (spaces.new ≡ spaces.old) }
{
    let name = request.name(alloc, 0)?;
    let obj = match may_stat(tree, request, &name) {
        Ok(obj) => obj,
        Err(errno) => return Ok(Outcome::failure(alloc, errno)),
    };
    let words = stat_words(tree, alloc, obj)?;
    let space = procs.space(request.pid);
    put_bytes(spaces, alloc, space, request.register(1), words.bytes(), 0)
}

// The first `count` bytes, or all if there are fewer.
fn front(bytes: &[u8], count: u64) -> &[u8]
    ensures { result.now ≡ take count bytes.now }
{
    let end = bytes.len().min(count as usize);
    &bytes[..end]
}

// The link that readlink(2) reads, or the error of the call.
fn may_read_link(tree: &Tree, request: &Request<'_>, name: &AbsName) -> Result<Obj, Errno>
    requires { name.now ≡ arg_name_at request.now 0 }
    ensures made { IfOk result (IsObjectNumber tree.now) }
    ensures inside { OnOk result (register request.now 1 + register request.now 2 ≤ SPACE_BYTES) }
    ensures outcome { (system : System) → readlink_outcome (with_tree system tree.now) request.now ≡ unless_err system result (λ obj. let target = take (register request.now 2) (node_with_number tree.now obj).content in success system (length target) (Change.Put (space_of_caller system request.now) (register request.now 1) target ∷ [])) }
{
    let obj = walking::find(tree, request.ids, name)?;
    match tree.node(obj).kind {
        Kind::Link => {}
        Kind::Dir | Kind::File => return Err(Errno::EINVAL),
    }
    if is_outside(request.register(1), request.register(2)) {
        return Err(Errno::EFAULT);
    }
    Ok(obj)
}

/// readlink(name, at, count): puts the first bytes of a link's target, at most `count`, into memory, and returns how many it put.
pub fn readlink(
    tree: &Tree,
    procs: &Procs,
    spaces: &mut Spaces,
    alloc: Global,
    request: &Request<'_>,
) -> Result<Outcome, AllocError>
    requires process { IsPid procs.now request.now.pid }
    requires space { is_space_live spaces.old (process_at procs.now request.now.pid).space ≡ true }
    ensures outcome { IfOk result (λ outcome. (system : System) → outcome_of outcome system.descriptors ≡ readlink_outcome (with_tree (with_processes system procs.now) tree.now) request.now) }
    ensures memory { IfOk result (λ outcome. (s b : ℕ) → byte_in spaces.new s b ≡ memory_after (process_at procs.now request.now.pid).space (byte_in spaces.old) outcome.changes s b) }
    ensures spaces { KeepsSpaces spaces.old spaces.new }
    ensures err { OnErr result (spaces.new ≡ spaces.old) }
{
    let name = request.name(alloc, 0)?;
    let obj = match may_read_link(tree, request, &name) {
        Ok(obj) => obj,
        Err(errno) => return Ok(Outcome::failure(alloc, errno)),
    };
    let target = front(tree.content(obj), request.register(2));
    let len = target.len() as u64;
    let space = procs.space(request.pid);
    put_bytes(spaces, alloc, space, request.register(1), target, len)
}
