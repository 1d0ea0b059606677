// The filters of one rule of a policy.
ghost use Rattle.std.specs.Prelude.{◌≡◌, ◌≤◌, ◌<◌, ◌++◌, ◌∷◌, [], length, option_copied, OnOk};
ghost use Rattle.std.specs.List.{All};
ghost use Rattle.st_base.specs.Numbered.{item_at_number};
ghost use Rattle.st_filter.specs.Judging.{verdict};
ghost use Rattle.st_filter.specs.declared.set.TheConstants.{MOST_FILTERS};
ghost use Rattle.st_compile.specs.Arguments.{AreAtPlaces};

use crate::argument::{are_at_places, args_of_name};
use crate::filter::CompiledFilter;
use crate::index::{index_of, verdict_by_text};
use crate::places::Places;
use st_calls::{ArgSpec, Snapshot, Verdict};
use st_filter::Filter;
use std::alloc::{AllocError, Global};
use std::marker::Model;

/// The filters of one rule, in order.
#[derive(Debug, Drop)]
pub struct RuleFilters<'a> {
    filters: Vec<CompiledFilter<'a>>,
    // The indices of the filters by the texts that they ask for first, if many ask for one.
    texts: Option<Places>,
    // The arguments of their rule.
    specs: &'static [ArgSpec],
}

impl<'a> Model for RuleFilters<'a> {
    ghost use Rattle.std.specs.Prelude.{◌≡◌, ◌≤◌, List, length};
    ghost use Rattle.std.specs.List.{All};
    ghost use Rattle.std.specs.Coded.{codes};
    ghost use Rattle.st_filter.specs.Formula.{FilterValue};
    ghost use Rattle.st_filter.specs.FormulaCode.{formula_code};
    ghost use Rattle.st_filter.specs.declared.set.TheConstants.{MOST_FILTERS};
    ghost use Rattle.st_compile.specs.Arguments.{args_of_name};
    ghost use Rattle.st_compile.specs.Holding.{IsIndexOf};

    ghost Value = { List FilterValue };

    ghost coded = { Prim.hlevel (codes, formula_code) };

    ghost view = { λ r. r.filters.items };

    ghost invariant = { λ r. (length r.filters.items ≤ MOST_FILTERS) × IsIndexOf r.filters.items r.texts × All (λ f. args_of_name f.name ≡ r.specs.now) r.filters.items };
}

// What the first of these filters that holds says of a call. They are numbered from 1.
fn verdict_in_order(filters: &[CompiledFilter<'_>], copies: &Snapshot, at_places: bool) -> Verdict
    requires few { length filters.now ≤ MOST_FILTERS }
    requires places { All (AreAtPlaces at_places copies.now) filters.now }
    ensures { result ≡ verdict filters.now copies.now }
{
    let mut number = 0;
    for filter in filters {
        number += 1;
        if filter.holds(copies, at_places) {
            return filter.verdict(number, copies.ids);
        }
    }
    Verdict::Unmatched
}

impl<'a> RuleFilters<'a> {
    /// No filters. It takes no memory.
    pub fn none(alloc: Global) -> Self
        ensures { result ≡ [] }
    {
        RuleFilters {
            filters: Vec::new(alloc),
            texts: None,
            specs: &[],
        }
    }

    /// Appends a filter. All filters are for one rule. They are found by their texts only after `find_by_text`.
    pub fn add(&mut self, alloc: Global, filter: &'a Filter) -> Result<(), AllocError>
        requires few { length self.old < MOST_FILTERS }
        requires rule { All (λ f. f.name ≡ filter.now.name) self.old }
        ensures { OnOk result (self.new ≡ self.old ++ filter.now ∷ []) }
    {
        let one = CompiledFilter::new(alloc, filter)?;
        self.filters.push(one)?;
        self.specs = args_of_name(filter.name());
        self.texts = None;
        Ok(())
    }

    /// Lets the filters be found by the texts that they ask for first, if many ask for one.
    pub fn find_by_text(&mut self, alloc: Global) -> Result<(), AllocError>
        ensures { self.new ≡ self.old }
    {
        self.texts = index_of(alloc, &self.filters)?;
        Ok(())
    }

    /// How many filters there are.
    pub fn len(&self) -> usize
        ensures is { result ≡ length self.now }
        ensures few { result ≤ MOST_FILTERS }
    {
        self.filters.len()
    }

    /// The filter with this number. The filters are numbered from 1.
    pub fn filter(&self, number: u32) -> Option<&'a Filter>
        ensures { option_copied result ≡ item_at_number self.now number }
    {
        let before = number.checked_sub(1)?;
        match self.filters.get(before as usize) {
            Some(one) => Some(one.filter()),
            None => None,
        }
    }

    /// What the first filter that holds says of a call, by the copies of its arguments. The filters are numbered from 1.
    pub fn verdict(&self, copies: &Snapshot) -> Verdict
        ensures { result ≡ verdict self.now copies.now }
    {
        let at_places = are_at_places(self.specs, copies.parts.as_slice());
        match &self.texts {
            Some(texts) => verdict_by_text(&self.filters, texts, copies, at_places),
            None => verdict_in_order(&self.filters, copies, at_places),
        }
    }
}
