// The calls that open and truncate files.
ghost use Rattle.std.specs.Prelude.{◌≡◌, ◌∷◌, ◌+◌, ◌<◌, ◌≤◌, ◌&&◌, [], length, not, true, false, Some, None, IfOk, IfSome, OnOk, OnErr};
ghost use Rattle.std.specs.Result.{result_err};
ghost use Rattle.st_base.specs.Errno.{error_if, first_error};
ghost use Rattle.st_base.specs.declared.errno.Errno.TheVariants.{EACCES, EEXIST, EISDIR, ENOENT};
ghost use Rattle.st_calls.specs.Call.{follows, has_flag};
ghost use Rattle.st_effects.specs.System as effects;
ghost use Rattle.st_effects.specs.Changes.{tree_after};
ghost use Rattle.st_effects.specs.Descriptors.{is_for_reading, is_for_writing, may_open, open_file_of, open_outcome};
ghost use Rattle.st_effects.specs.Names.{truncate_outcome};
ghost use Rattle.st_effects.specs.NameTests.{no_space_left, parent_not_writable};
ghost use Rattle.st_names.specs.Name.{Components};
ghost use Rattle.st_calls.specs.declared.call.SysCall.TheVariants.{Open};
ghost use Rattle.st_fds.specs.Table.{KeepsTables};
ghost use Rattle.st_model.specs.DescriptorCalls.{open_refused};
ghost use Rattle.st_model.specs.Descriptors.{has_table, Table};
ghost use Rattle.st_model.specs.Tree.{is_directory, node_with_number};
ghost use Rattle.st_calls.specs.declared.flags.TheConstants.{O_CREAT, O_EXCL, O_TRUNC};
ghost use Rattle.st_tree.specs.Answers.{KeepsKinds};
ghost use Rattle.st_model.specs.declared.limits.TheConstants.{LONGEST_FILE, MOST_OBJECTS};
ghost use Rattle.st_tree.specs.Refusals.{IsFile, IsObjectNumber};
ghost use Rattle.st_model.specs.Adding.{add_refused};
ghost use Rattle.st_exec_fs.specs.Open.{is_changing, open_changes, opened_object, opened_outcome, CanOpen, IsNoLink};
ghost use Rattle.st_request.specs.Ready.{IsOpenable, AreValidOpenFiles, KeepsObjects};
ghost use Rattle.st_request.specs.Outcome.{outcome_of, unless_err, with_descriptors, with_tree};
ghost use Rattle.st_exec_objects.specs.Walking.{IsPlaceOfName};

use st_base::{Errno, Ids, Obj, Text};
use st_calls::{O_APPEND, O_CREAT, O_EXCL, O_TRUNC, has_flag};
use st_exec_names::{make_object, owned_node};
use st_exec_objects::walking::{self, Place};
use st_fds::Fds;
use st_model::{FileKind, LONGEST_FILE, MOST_OBJECTS, OpenFile};
use st_names::AbsName;
use st_request::{Outcome, Request, unrefused};
use st_trace::{CallResult, Change};
use st_tree::{NewKind, Tree, Want};
use std::alloc::{AllocError, Global};

// Whether the flags of an open ask for reading.
fn is_for_reading(flags: u64) -> bool
    ensures { result ≡ is_for_reading flags }
{
    flags % 4 != 1
}

// Whether the flags of an open ask for writing.
fn is_for_writing(flags: u64) -> bool
    ensures { result ≡ is_for_writing flags }
{
    flags % 4 != 0
}

// Whether the flags of an open ask for writing or truncation.
fn is_changing(flags: u64) -> bool
    ensures { result ≡ is_changing flags }
{
    is_for_writing(flags) || has_flag(flags, O_TRUNC)
}

// The open file of an object that is opened with these flags.
fn open_file(obj: Obj, flags: u64) -> OpenFile
    ensures { result ≡ open_file_of obj flags }
{
    OpenFile {
        kind: FileKind::Node(obj),
        read: is_for_reading(flags),
        write: is_for_writing(flags),
        append: has_flag(flags, O_APPEND),
        offset: 0,
    }
}

// The file that truncate(2) truncates, or the error of the call.
fn may_truncate(tree: &Tree, request: &Request<'_>, name: &AbsName) -> Result<Obj, Errno>
    requires name { name.now ≡ effects.arg_name_at request.now 0 }
    requires no_link { IsNoLink tree.now name.now }
    ensures file { IfOk result (IsFile tree.now) }
    ensures fits { OnOk result (effects.register request.now 1 ≤ LONGEST_FILE) }
    ensures outcome { (system : effects.System) → truncate_outcome (with_tree system tree.now) request.now ≡ unless_err system result (λ obj. effects.success system 0 (Change.Cut obj (effects.register request.now 1) ∷ [])) }
{
    if request.register(1) > LONGEST_FILE {
        return Err(Errno::EINVAL);
    }
    let obj = walking::find(tree, request.ids, name)?;
    if walking::is_directory(tree, obj) {
        return Err(Errno::EISDIR);
    }
    if !tree.allowed(obj, request.ids.euid, request.ids.egid, Want::Write) {
        return Err(Errno::EACCES);
    }
    Ok(obj)
}

// Sets the length of a file, and returns the outcome of a call whose result is this number. If memory runs out, nothing changes.
fn cut(
    tree: &mut Tree,
    alloc: Global,
    obj: Obj,
    len: u64,
    value: u64,
) -> Result<Outcome, AllocError>
    requires file { IsFile tree.old obj }
    requires fits { len ≤ LONGEST_FILE }
    ensures result { IfOk result (λ outcome. outcome.result ≡ CallResult.Value value) }
    ensures changes { IfOk result (λ outcome. outcome.changes ≡ Change.Cut obj len ∷ []) }
    ensures tree { IfOk result (λ outcome. tree.new ≡ tree_after tree.old outcome.changes) }
    ensures kinds { KeepsKinds tree.old tree.new }
    ensures err { OnErr result (tree.new ≡ tree.old) }
{
    let outcome = Outcome::change(alloc, value, Change::Cut { obj, len })?;
    unrefused(tree.cut(obj, len))?;
    Ok(outcome)
}

/// truncate(name, len): sets the length of a file; new bytes are zeros. If memory runs out, nothing changes.
pub fn truncate(
    tree: &mut Tree,
    alloc: Global,
    request: &Request<'_>,
) -> Result<Outcome, AllocError>
    requires { IsNoLink tree.old (effects.arg_name_at request.now 0) }
    ensures outcome { IfOk result (λ outcome. (system : effects.System) → outcome_of outcome system.descriptors ≡ truncate_outcome (with_tree system tree.old) request.now) }
    ensures tree { IfOk result (λ outcome. tree.new ≡ tree_after tree.old outcome.changes) }
    ensures real { (table : Table) → AreValidOpenFiles tree.old table → AreValidOpenFiles tree.new table }
    ensures err { OnErr result (tree.new ≡ tree.old) }
{
    let name = request.name(alloc, 0)?;
    match may_truncate(tree, request, &name) {
        Ok(obj) => cut(tree, alloc, obj, request.register(1), 0),
        Err(errno) => Ok(Outcome::failure(alloc, errno)),
    }
}

// Checks that a file may be made under a name that no object has; otherwise gives the error of the call.
fn may_make(tree: &Tree, request: &Request<'_>, place: Place) -> Result<(), Errno>
    requires { IfSome place.holder (IsObjectNumber tree.now) }
    ensures room { OnOk result (length tree.now.objects < MOST_OBJECTS) }
    ensures refused { (name : Components) → IsPlaceOfName tree.now name place → result_err result ≡ first_error (error_if (not (has_flag (effects.register request.now 1) O_CREAT)) ENOENT ∷ parent_not_writable tree.now request.now.ids name ∷ no_space_left tree.now ∷ []) }
{
    if !has_flag(request.register(1), O_CREAT) {
        return Err(Errno::ENOENT);
    }
    walking::may_write_holder(tree, request.ids, place)?;
    if tree.made() as usize >= MOST_OBJECTS {
        return Err(Errno::ENOSPC);
    }
    Ok(())
}

// Whether the ids have the access that the flags of an open ask for; truncation needs write access.
fn may_access(tree: &Tree, ids: Ids, obj: Obj, flags: u64) -> bool
    requires { IsObjectNumber tree.now obj }
    ensures { result ≡ may_open (node_with_number tree.now obj) ids flags }
{
    let may = |want| tree.allowed(obj, ids.euid, ids.egid, want);
    (!is_for_reading(flags) || may(Want::Read)) && (!is_changing(flags) || may(Want::Write))
}

// Checks that an object that exists may be opened; otherwise gives the error of the call.
fn may_open_object(tree: &Tree, request: &Request<'_>, obj: Obj) -> Result<(), Errno>
    requires { IsObjectNumber tree.now obj }
    ensures exclusive { OnOk result (follows Open request.now.regs 0 ≡ true) }
    ensures no_directory { OnOk result (is_changing (effects.register request.now 1) ≡ true → is_directory (node_with_number tree.now obj).kind ≡ false) }
    ensures refused { let flags = effects.register request.now 1 in let node = node_with_number tree.now obj in result_err result ≡ first_error (error_if (has_flag flags O_CREAT && has_flag flags O_EXCL) EEXIST ∷ error_if (is_directory node.kind && is_changing flags) EISDIR ∷ error_if (not (may_open node request.now.ids flags)) EACCES ∷ []) }
{
    let flags = request.register(1);
    if has_flag(flags, O_CREAT) && has_flag(flags, O_EXCL) {
        return Err(Errno::EEXIST);
    }
    if walking::is_directory(tree, obj) && is_changing(flags) {
        return Err(Errno::EISDIR);
    }
    if !may_access(tree, request.ids, obj, flags) {
        return Err(Errno::EACCES);
    }
    Ok(())
}

// The object that open(2) opens, `None` if it makes one, or the error of the call.
fn may_open(
    tree: &Tree,
    fds: &Fds,
    request: &Request<'_>,
    name: &AbsName,
) -> Result<Option<Obj>, Errno>
    requires table { has_table fds.now request.now.pid ≡ true }
    requires name { name.now ≡ effects.arg_name_at request.now 0 }
    requires no_link { follows Open request.now.regs 0 ≡ true → IsNoLink tree.now name.now }
    ensures room { OnOk result (open_refused fds.now request.now.pid ≡ None) }
    ensures object { IfOk result (λ found. IfSome found (CanOpen tree.now (effects.register request.now 1))) }
    ensures may { IfOk result (λ found. found ≡ None → add_refused tree.now name.now ≡ None) }
    ensures outcome { (system : effects.System) → let before = with_descriptors (with_tree system tree.now) fds.now in open_outcome before request.now ≡ unless_err before result (opened_outcome before request.now) }
{
    if request.register(1) % 4 == 3 {
        return Err(Errno::EINVAL);
    }
    if fds.is_full(request.pid) {
        return Err(Errno::EMFILE);
    }
    let place = walking::walk(tree, request.ids, name)?;
    match place.object {
        Some(obj) => may_open_object(tree, request, obj)?,
        None => may_make(tree, request, place)?,
    }
    Ok(place.object)
}

// Makes an empty file under the ids of a request, and returns the outcome of a call whose result is this number. If memory runs
// out, nothing changes.
fn make_file(
    tree: &mut Tree,
    alloc: Global,
    request: &Request<'_>,
    name: AbsName,
    value: u64,
) -> Result<Outcome, AllocError>
    requires name { name ≡ effects.arg_name_at request.now 0 }
    requires may { add_refused tree.old name ≡ None }
    ensures result { IfOk result (λ outcome. outcome.result ≡ CallResult.Value value) }
    ensures changes { IfOk result (λ outcome. outcome.changes ≡ open_changes tree.old request.now None) }
    ensures tree { IfOk result (λ outcome. tree.new ≡ tree_after tree.old outcome.changes) }
    ensures made { OnOk result (IsFile tree.new (length tree.old.objects + 1)) }
    ensures err { OnErr result (tree.new ≡ tree.old) }
{
    let kind = NewKind::File(Text::new(alloc));
    let new = owned_node(request.ids, kind, request.mode(2));
    make_object(tree, alloc, name, new, value)
}

// Changes the tree as open(2) does: makes a file, or truncates one that exists if the flags ask for it. Returns the outcome of a
// call whose result is this number. If memory runs out, nothing changes.
fn change_tree(
    tree: &mut Tree,
    alloc: Global,
    request: &Request<'_>,
    name: AbsName,
    found: Option<Obj>,
    value: u64,
) -> Result<Outcome, AllocError>
    requires name { name ≡ effects.arg_name_at request.now 0 }
    requires object { IfSome found (CanOpen tree.old (effects.register request.now 1)) }
    requires may { found ≡ None → add_refused tree.old name ≡ None }
    ensures result { IfOk result (λ outcome. outcome.result ≡ CallResult.Value value) }
    ensures changes { IfOk result (λ outcome. outcome.changes ≡ open_changes tree.old request.now found) }
    ensures tree { IfOk result (λ outcome. tree.new ≡ tree_after tree.old outcome.changes) }
    ensures objects { KeepsObjects tree.old tree.new }
    ensures opened { OnOk result (IsOpenable tree.new (is_for_writing (effects.register request.now 1)) (opened_object tree.old found)) }
    ensures err { OnErr result (tree.new ≡ tree.old) }
{
    let Some(obj) = found else {
        return make_file(tree, alloc, request, name, value);
    };
    if !has_flag(request.register(1), O_TRUNC) {
        return Ok(Outcome::value(alloc, value));
    }
    cut(tree, alloc, obj, 0, value)
}

// The object that open(2) opens: the one that was found, otherwise the one that it makes.
fn opened_object(tree: &Tree, found: Option<Obj>) -> Obj
    ensures { result ≡ opened_object tree.now found }
{
    match found {
        Some(obj) => obj,
        None => tree.made() + 1,
    }
}

/// open(name, flags, mode): makes the least free descriptor refer to the object of a name, or to a new file, and returns the
/// descriptor. If memory runs out, nothing changes.
pub fn open(
    tree: &mut Tree,
    fds: &mut Fds,
    alloc: Global,
    request: &Request<'_>,
) -> Result<Outcome, AllocError>
    requires table { has_table fds.old request.now.pid ≡ true }
    requires no_link { follows Open request.now.regs 0 ≡ true → IsNoLink tree.old (effects.arg_name_at request.now 0) }
    ensures outcome { IfOk result (λ outcome. (system : effects.System) → outcome_of outcome fds.new ≡ open_outcome (with_descriptors (with_tree system tree.old) fds.old) request.now) }
    ensures tree { IfOk result (λ outcome. tree.new ≡ tree_after tree.old outcome.changes) }
    ensures tables { KeepsTables fds.old fds.new }
    ensures real { AreValidOpenFiles tree.old fds.old → AreValidOpenFiles tree.new fds.new }
    ensures err_tree { OnErr result (tree.new ≡ tree.old) }
    ensures err_fds { OnErr result (fds.new ≡ fds.old) }
{
    let name = request.name(alloc, 0)?;
    let found = match may_open(tree, fds, request, &name) {
        Ok(found) => found,
        Err(errno) => return Ok(Outcome::failure(alloc, errno)),
    };
    let file = open_file(opened_object(tree, found), request.register(1));
    // The descriptor comes first: unlike a new object it can be taken back.
    let Ok(fd) = fds.open(request.pid, file) else {
        return Err(AllocError);
    };
    let opened = change_tree(tree, alloc, request, name, found, u64::from(fd));
    if opened.is_err() {
        fds.unopen(request.pid, fd);
    }
    opened
}
