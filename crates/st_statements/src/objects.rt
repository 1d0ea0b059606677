ghost use Rattle.std.specs.Prelude.{◌≡◌, IfOk};
ghost use Rattle.st_statements.specs.Objects.{new_node, object_statement, new_file, link_to, link_at, dir_row, file_node, file_row, link_row};

use crate::parts::{place_at, quoted_at};
use crate::statement::Statement;
use crate::values::{id_at, mode_at};
use st_base::Text;
use st_lex::Token;
use st_trace::{NewKind, NewNode};
use std::alloc::{AllocError, Global};

/// The mode of every link.
pub const LINK_MODE: u32 = 0o777;

// A new object, if its kind, owner, group and mode were read.
fn node_of(
    kind: Option<NewKind>,
    uid: Option<u32>,
    gid: Option<u32>,
    mode: Option<u32>,
) -> Option<NewNode>
    ensures { result ≡ new_node kind uid gid mode }
{
    match (kind, uid, gid, mode) {
        (Some(kind), Some(uid), Some(gid), Some(mode)) => Some(NewNode {
            kind,
            uid,
            gid,
            mode,
        }),
        _ => None,
    }
}

// An object at a path, if both were read.
fn object_of(path: Option<Text>, new: Option<NewNode>) -> Option<Statement>
    ensures { result ≡ object_statement path new }
{
    match (path, new) {
        (Some(path), Some(new)) => Some(Statement::Object { path, new }),
        _ => None,
    }
}

fn file_at(alloc: Global, text: &[u8], content: &Token) -> Result<Option<NewKind>, AllocError>
    ensures { IfOk result (λ found. found ≡ new_file text.now content.now) }
{
    let content = quoted_at(alloc, text, content)?;
    Ok(content.map(NewKind::File))
}

fn link_to(target: Text) -> Option<NewKind>
    ensures { result ≡ link_to target }
{
    if target.is_empty() {
        None
    } else {
        Some(NewKind::Link(target))
    }
}

// A link to a quoted target that isn't empty.
fn link_at(alloc: Global, text: &[u8], target: &Token) -> Result<Option<NewKind>, AllocError>
    ensures { IfOk result (λ found. found ≡ link_at text.now target.now) }
{
    match quoted_at(alloc, text, target)? {
        Some(target) => Ok(link_to(target)),
        None => Ok(None),
    }
}

/// A directory: `"PATH" UID GID MODE`.
pub fn dir_row(alloc: Global, text: &[u8], row: &[Token]) -> Result<Option<Statement>, AllocError>
    ensures { IfOk result (λ found. found ≡ dir_row text.now row.now) }
{
    let [path, uid, gid, mode] = row else {
        return Ok(None);
    };
    let path = place_at(alloc, text, path)?;
    let (uid, gid, mode) = (id_at(text, uid), id_at(text, gid), mode_at(text, mode));
    Ok(object_of(path, node_of(Some(NewKind::Dir), uid, gid, mode)))
}

// A file with this owner, group, mode and content.
fn file_node(
    alloc: Global,
    text: &[u8],
    uid: &Token,
    gid: &Token,
    mode: &Token,
    content: &Token,
) -> Result<Option<NewNode>, AllocError>
    ensures { IfOk result (λ found. found ≡ file_node text.now uid.now gid.now mode.now content.now) }
{
    let kind = file_at(alloc, text, content)?;
    let (uid, gid, mode) = (id_at(text, uid), id_at(text, gid), mode_at(text, mode));
    Ok(node_of(kind, uid, gid, mode))
}

/// A file: `"PATH" UID GID MODE "CONTENT"`.
pub fn file_row(alloc: Global, text: &[u8], row: &[Token]) -> Result<Option<Statement>, AllocError>
    ensures { IfOk result (λ found. found ≡ file_row text.now row.now) }
{
    let [path, uid, gid, mode, content] = row else {
        return Ok(None);
    };
    let path = place_at(alloc, text, path)?;
    let new = file_node(alloc, text, uid, gid, mode, content)?;
    Ok(object_of(path, new))
}

/// A link: `"PATH" UID GID "TARGET"`.
pub fn link_row(alloc: Global, text: &[u8], row: &[Token]) -> Result<Option<Statement>, AllocError>
    ensures { IfOk result (λ found. found ≡ link_row text.now row.now) }
{
    let [path, uid, gid, target] = row else {
        return Ok(None);
    };
    let path = place_at(alloc, text, path)?;
    let (uid, gid) = (id_at(text, uid), id_at(text, gid));
    let kind = link_at(alloc, text, target)?;
    Ok(object_of(path, node_of(kind, uid, gid, Some(LINK_MODE))))
}
