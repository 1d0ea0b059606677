// Stores the entry of a step. Dropping the entry that was stored before has a case for each kind of entry, so it is done only here.
ghost use Rattle.std.specs.Prelude.{◌≡◌, None, Some};

use st_trace::Entry;

// Stores the entry that a step adds.
#[inline(always)]
pub(crate) fn leave(added: &mut Option<Entry>, entry: Entry)
    ensures { added.new ≡ Some entry }
{
    *added = Some(entry);
}

// Stores that a step adds no entry.
#[inline(always)]
pub(crate) fn leave_none(added: &mut Option<Entry>)
    ensures { added.new ≡ None }
{
    *added = None;
}
