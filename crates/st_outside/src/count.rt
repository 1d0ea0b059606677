ghost use Rattle.std.specs.Prelude.{◌≡◌};
ghost use Rattle.st_outside.specs.Count.{next_count, is_one_of};

// The count plus one, saturating at 2^64 - 1.
pub(crate) fn one_more(count: u64) -> u64
    ensures { result ≡ next_count count }
{
    count.saturating_add(1)
}

// Whether the call with this number is among `calls`. No call there has a number above 2^32 - 1.
pub(crate) fn contains_call(calls: &[u32], number: u64) -> bool
    ensures { result ≡ is_one_of calls.now number }
{
    calls.iter().any(|&call| u64::from(call) == number)
}
