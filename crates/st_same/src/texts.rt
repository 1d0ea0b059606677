// Whether two names, results of looks, arguments or new objects are the same.
ghost use Rattle.std.specs.Prelude.{◌≡◌, ◌↔◌, length, IsTrue};

use st_base::is_same_text;
use st_calls::ArgText;
use st_names::{AbsName, SeenText};
use st_trace::NewKind;

// Whether two names are the same: each begins the other.
pub(crate) fn is_same_name(one: &AbsName, other: &AbsName) -> bool
    ensures { IsTrue result ↔ (one.now ≡ other.now) }
{
    one.begins(other) && other.begins(one)
}

// Whether two looks saw the same.
pub(crate) fn is_same_seen(one: &SeenText, other: &SeenText) -> bool
    ensures { IsTrue result ↔ (one.now ≡ other.now) }
{
    match (one, other) {
        (SeenText::Missing, SeenText::Missing) => true,
        (SeenText::NotDir, SeenText::NotDir) => true,
        (SeenText::Dir, SeenText::Dir) => true,
        (SeenText::File, SeenText::File) => true,
        (SeenText::Link(one), SeenText::Link(other)) => is_same_text(one.bytes(), other.bytes()),
        _ => false,
    }
}

// Whether two new objects have the same kind and content.
pub(crate) fn is_same_kind(one: &NewKind, other: &NewKind) -> bool
    ensures { IsTrue result ↔ (one.now ≡ other.now) }
{
    match (one, other) {
        (NewKind::Dir, NewKind::Dir) => true,
        (NewKind::File(one), NewKind::File(other)) => is_same_text(one.bytes(), other.bytes()),
        (NewKind::Link(one), NewKind::Link(other)) => is_same_text(one.bytes(), other.bytes()),
        _ => false,
    }
}

// Whether two arguments are the same.
fn is_same_argument(one: &ArgText, other: &ArgText) -> bool
    ensures { IsTrue result ↔ (one.now ≡ other.now) }
{
    one.label == other.label
        && one.index == other.index
        && is_same_text(one.text.bytes(), other.text.bytes())
}

// Whether the arguments of two lists of the same length are the same, each at its place.
fn is_each_argument_same(one: &[ArgText], other: &[ArgText]) -> bool
    requires { length one.now ≡ length other.now }
    ensures { IsTrue result ↔ (one.now ≡ other.now) }
{
    let mut left = one.len();
    while left > 0 {
        left -= 1;
        if !is_same_argument(&one[left], &other[left]) {
            return false;
        }
    }
    true
}

// Whether two lists have the same arguments, in the same order.
pub(crate) fn are_same_arguments(one: &[ArgText], other: &[ArgText]) -> bool
    ensures { IsTrue result ↔ (one.now ≡ other.now) }
{
    one.len() == other.len() && is_each_argument_same(one, other)
}
