ghost use Rattle.std.specs.Prelude.{◌≡◌};
ghost use Rattle.st_filter.specs.Judging.{stands_in, is_path_prefix, is_on_way, compares, compares_ids};

use crate::filter::{Cmp, Op};
use memchr::memmem;
use st_base::is_same_text;
use st_glob::glob;

// Whether a text occurs in an argument.
fn stands_in(text: &[u8], argument: &[u8]) -> bool
    ensures { result ≡ stands_in text.now argument.now }
{
    memmem::find(argument, text).is_some()
}

// Whether an argument is a prefix of a path, after which the path ends or goes on with a slash.
fn is_path_prefix(argument: &[u8], path: &[u8]) -> bool
    ensures { result ≡ is_path_prefix argument.now path.now }
{
    let mut rest = path;
    for byte in argument {
        match rest {
            [first, following @ ..] => {
                if byte != first {
                    return false;
                }
                rest = following;
            }
            [] => return false,
        }
    }
    match rest {
        [first, ..] => *first == b'/',
        [] => true,
    }
}

// Whether an argument is a path, or a directory on the way to it.
fn is_on_way(argument: &[u8], path: &[u8]) -> bool
    ensures { result ≡ is_on_way argument.now path.now }
{
    is_path_prefix(argument, path) || (argument == b"/".as_slice() && path.starts_with(b"/"))
}

/// Whether an argument and the text of a test compare as the operator says.
pub fn compares(op: Op, argument: &[u8], text: &[u8]) -> bool
    ensures { result ≡ compares op argument.now text.now }
{
    match op {
        Op::Match => glob(text, argument),
        Op::Eq => is_same_text(argument, text),
        Op::Neq => !is_same_text(argument, text),
        Op::Sub => stands_in(text, argument),
        Op::Nsub => !stands_in(text, argument),
        Op::Inpath => is_on_way(argument, text),
    }
}

/// Whether an id and that of a predicate compare as the predicate says.
pub fn compares_ids(cmp: Cmp, id: u32, other: u32) -> bool
    ensures { result ≡ compares_ids cmp id other }
{
    match cmp {
        Cmp::Same => id == other,
        Cmp::Other => id != other,
        Cmp::Below => id < other,
        Cmp::Above => id > other,
    }
}
