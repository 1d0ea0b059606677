//! What is wrong with a row that is one too many, or has too much in it.

use st_base::Text;
use st_row_diagnostics::given::{Kind, count_given};
use st_row_diagnostics::refused_row::{Misfit, RefusedRow};
use st_row_diagnostics::slot::append_shorter_name;
use st_script_names::names::store_count;
use st_script_names::{MOST_PROCESSES, MOST_TREE_ROWS};
use st_statements::parts::is_long;
use st_statements::{ScriptProcess, Statement};
use st_trace::NewKind;
use std::alloc::{AllocError, Global};

const INSTRUCTIONS: &str = "at most 4096 instructions in all";

// The token of this number is a name that is too long.
fn long_name(alloc: Global, index: usize, what: &str, name: &[u8]) -> Result<Misfit, AllocError> {
    let mut expected = Text::new(alloc);
    append_shorter_name(&mut expected, what, name)?;
    Ok(Misfit { index, expected })
}

// An object whose path is short has a content or a target that is too long.
fn large_object(alloc: Global, kind: &NewKind) -> Result<Option<Misfit>, AllocError> {
    let misfit = match kind {
        NewKind::Dir => return Ok(None),
        NewKind::File(_) => Misfit::at(alloc, 5, "a content of at most 65536 bytes")?,
        NewKind::Link(_) => Misfit::at(alloc, 4, "a target of at most 255 bytes")?,
    };
    Ok(Some(misfit))
}

fn of_object(
    alloc: Global,
    refused: &RefusedRow<'_>,
    path: &[u8],
    kind: &NewKind,
) -> Result<Option<Misfit>, AllocError> {
    if count_given(refused.above, Kind::Object) >= MOST_TREE_ROWS {
        let most = "at most 4095 directories, files and links";
        return Ok(Some(Misfit::at(alloc, 0, most)?));
    }
    if is_long(path) {
        return Ok(Some(long_name(alloc, 1, "a path", path)?));
    }
    large_object(alloc, kind)
}

fn of_process(
    alloc: Global,
    refused: &RefusedRow<'_>,
    process: &ScriptProcess,
) -> Result<Misfit, AllocError> {
    if count_given(refused.above, Kind::Process) >= MOST_PROCESSES {
        return Misfit::at(alloc, 0, "at most 64 processes");
    }
    if is_long(process.binary.bytes()) {
        return long_name(alloc, 3, "a binary", process.binary.bytes());
    }
    long_name(alloc, 6, "a directory", process.cwd.bytes())
}

fn of_put(alloc: Global, bytes: &[u8]) -> Result<Misfit, AllocError> {
    let mut misfit = Misfit::at(alloc, 0, INSTRUCTIONS)?;
    misfit.expected.append(b"; this one counts as ")?;
    misfit.expected.append_number(store_count(bytes))?;
    Ok(misfit)
}

/// What is wrong with a reply whose binary is too long.
pub fn long_binary(alloc: Global, binary: &[u8]) -> Result<Misfit, AllocError> {
    long_name(alloc, 1, "a binary", binary)
}

/// What is wrong with a row that is one too many, or has too much in it, unless it is a reply.
pub fn too_much(alloc: Global, refused: &RefusedRow<'_>) -> Result<Option<Misfit>, AllocError> {
    let misfit = match refused.says {
        Some(Statement::Object { path, new }) => {
            return of_object(alloc, refused, path.bytes(), &new.kind);
        }
        Some(Statement::Process(process)) => of_process(alloc, refused, process)?,
        Some(Statement::Thread { .. }) => Misfit::at(alloc, 0, "at most 64 threads")?,
        Some(Statement::Put(_, bytes)) => of_put(alloc, bytes.bytes())?,
        Some(Statement::Filter(_)) => Misfit::at(alloc, 0, "at most 4096 filters in all")?,
        Some(Statement::Store(_, _) | Statement::Call(_, _)) => {
            Misfit::at(alloc, 0, INSTRUCTIONS)?
        }
        Some(Statement::Fork(_) | Statement::Reload(_)) => Misfit::at(alloc, 0, INSTRUCTIONS)?,
        _ => return Ok(None),
    };
    Ok(Some(misfit))
}
