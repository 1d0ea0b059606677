ghost use Rattle.std.specs.Prelude.{◌≡◌, IfOk};
ghost use Rattle.st_statements.specs.Accounts.{user_row, group_row};

use crate::parts::{quoted_at, word_at};
use crate::statement::Statement;
use crate::values::id_at;
use st_base::Text;
use st_lex::Token;
use st_trace::{GroupRow, UserRow};
use std::alloc::{AllocError, Global};

/// A user: `NAME UID GID "HOME"`.
pub fn user_row(alloc: Global, text: &[u8], row: &[Token]) -> Result<Option<Statement>, AllocError>
    ensures { IfOk result (λ found. found ≡ user_row text.now row.now) }
{
    let [name, uid, gid, home] = row else {
        return Ok(None);
    };
    let (Some(name), Some(uid), Some(gid)) = (
        word_at(text, name),
        id_at(text, uid),
        id_at(text, gid),
    ) else {
        return Ok(None);
    };
    let Some(home) = quoted_at(alloc, text, home)? else {
        return Ok(None);
    };
    let name = Text::of(alloc, name)?;
    Ok(Some(Statement::User(UserRow {
        name,
        uid,
        gid,
        home,
    })))
}

/// A group: `NAME GID`.
pub fn group_row(alloc: Global, text: &[u8], row: &[Token]) -> Result<Option<Statement>, AllocError>
    ensures { IfOk result (λ found. found ≡ group_row text.now row.now) }
{
    let [name, gid] = row else {
        return Ok(None);
    };
    let (Some(name), Some(gid)) = (word_at(text, name), id_at(text, gid)) else {
        return Ok(None);
    };
    let name = Text::of(alloc, name)?;
    Ok(Some(Statement::Group(GroupRow { name, gid })))
}
