// The first filter of a rule that holds of a call, found by the texts that filters ask for first.
ghost use Rattle.std.specs.Prelude.{◌≡◌, ◌≤◌, ◌<◌, Bool, length, Some, IfOk};
ghost use Rattle.std.specs.List.{All};
ghost use Rattle.st_filter.specs.Formula.{FilterValue};
ghost use Rattle.st_filter.specs.Judging.{verdict};
ghost use Rattle.st_filter.specs.declared.set.TheConstants.{MOST_FILTERS};
ghost use Rattle.st_compile.specs.Arguments.{AreAtPlaces};
ghost use Rattle.st_compile.specs.Holding.{HoldsAt, IsFirstHolding, IsIndexOf, NoneHoldsBefore};
ghost use Rattle.st_compile.specs.Places.{places_from};

use crate::filter::CompiledFilter;
use crate::places::Places;
use st_calls::{Snapshot, Verdict};
use std::alloc::{AllocError, Global};

// So many filters have to ask for texts before they are found by them. Fewer are tried faster than a text is looked up.
const FEWEST_ASKING: usize = 16;

// How many filters ask for a text.
fn asking(filters: &[CompiledFilter<'_>]) -> usize {
    filters
        .iter()
        .filter(|filter| !filter.asked_text().is_empty())
        .count()
}

/// The indices of the filters that ask for each text first; none if few filters ask for one.
pub fn index_of(alloc: Global, filters: &[CompiledFilter<'_>]) -> Result<Option<Places>, AllocError>
    ensures { IfOk result (IsIndexOf filters.now) }
{
    if asking(filters) < FEWEST_ASKING {
        return Ok(None);
    }
    let mut texts = Places::new(alloc);
    for place in 0..filters.len() {
        texts.add(alloc, filters[place].asked_text(), place)?;
    }
    Ok(Some(texts))
}

// The first of these indices whose filter holds of a call, if it is below a limit; otherwise the limit.
fn first_below(
    filters: &[CompiledFilter<'_>],
    places: &[usize],
    limit: usize,
    copies: &Snapshot,
    at_places: bool,
) -> usize
    requires limit { limit ≤ length filters.now }
    requires places { All (AreAtPlaces at_places copies.now) filters.now }
    ensures within { result ≤ limit }
    ensures holds { result < limit → HoldsAt filters.now copies.now result }
    ensures none { (is : FilterValue → Bool) → places.now ≡ places_from is 0 filters.now → NoneHoldsBefore filters.now copies.now is result }
{
    for place in places {
        if *place >= limit {
            return limit;
        }
        if filters[*place].holds(copies, at_places) {
            return *place;
        }
    }
    limit
}

// The index of the first filter that holds of a call, or the number of filters. A filter that asks for a text first holds of no call
// without an argument of that text.
fn first_holding(
    filters: &[CompiledFilter<'_>],
    texts: &Places,
    copies: &Snapshot,
    at_places: bool,
) -> usize
    requires texts { IsIndexOf filters.now (Some texts.now) }
    requires places { All (AreAtPlaces at_places copies.now) filters.now }
    ensures { IsFirstHolding filters.now copies.now result }
{
    let mut first = filters.len();
    for part in copies.parts.as_slice() {
        let places = texts.of(part.text.bytes());
        first = first_below(filters, places, first, copies, at_places);
    }
    first_below(filters, texts.of(&[]), first, copies, at_places)
}

/// What the first of these filters that holds says of a call. Those that ask for a text are found by it.
pub fn verdict_by_text(
    filters: &[CompiledFilter<'_>],
    texts: &Places,
    copies: &Snapshot,
    at_places: bool,
) -> Verdict
    requires few { length filters.now ≤ MOST_FILTERS }
    requires places { All (AreAtPlaces at_places copies.now) filters.now }
    requires texts { IsIndexOf filters.now (Some texts.now) }
    ensures { result ≡ verdict filters.now copies.now }
{
    let first = first_holding(filters, texts, copies, at_places);
    match filters.get(first) {
        Some(filter) => filter.verdict(first as u32 + 1, copies.ids),
        None => Verdict::Unmatched,
    }
}
