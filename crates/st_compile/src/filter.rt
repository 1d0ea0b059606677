// Filters as they are tried.
ghost use Rattle.std.specs.Prelude.{◌≡◌, IfOk};
ghost use Rattle.st_filter.specs.Judging.{holds, verdict_by};
ghost use Rattle.st_compile.specs.Arguments.{AreAtPlaces};
ghost use Rattle.st_compile.specs.Asked.{asked_text};

use crate::argument::args_of_name;
use crate::asked::asked_text;
use crate::expr::{CompiledExpr, compiled, is_true};
use st_base::Ids;
use st_calls::{Snapshot, Verdict};
use st_filter::{Filter, holds, ids_match, verdict_of};
use std::alloc::{AllocError, Global};
use std::marker::Model;

/// A filter with its expression compiled.
#[derive(Debug, Drop)]
pub struct CompiledFilter<'a> {
    expr: CompiledExpr<'a>,
    filter: &'a Filter,
}

impl<'a> Model for CompiledFilter<'a> {
    ghost use Rattle.std.specs.Coded.{codes};
    ghost use Rattle.st_filter.specs.Formula.{FilterValue};
    ghost use Rattle.st_filter.specs.FormulaCode.{formula_code};
    ghost use Rattle.st_compile.specs.Arguments.{args_of_name};
    ghost use Rattle.st_compile.specs.Compiling.{HasTruthOf};

    ghost Value = { FilterValue };

    ghost coded = { Prim.hlevel (codes, formula_code) };

    ghost view = { λ c. c.filter.now };

    ghost invariant = { λ c. HasTruthOf (args_of_name c.filter.now.name) c.filter.now.formula c.expr };
}

impl<'a> CompiledFilter<'a> {
    /// The filter with its expression compiled.
    pub fn new(alloc: Global, filter: &'a Filter) -> Result<Self, AllocError>
        ensures { IfOk result (λ one. one ≡ filter.now) }
    {
        Ok(CompiledFilter {
            expr: compiled(alloc, args_of_name(filter.name()), filter.expr())?,
            filter,
        })
    }

    /// The filter as it was read.
    pub fn filter(&self) -> &'a Filter
        ensures { result.now ≡ self.now }
    {
        self.filter
    }

    /// The text that the filter asks for first. Empty if it asks for none.
    pub fn asked_text(&self) -> &[u8]
        ensures { result.now ≡ asked_text self.now.formula }
    {
        asked_text(self.filter.expr())
    }

    /// Whether the filter holds of a call, by the copies of its arguments. The caller says whether these are those of the filter's rule, in
    /// order. If not, they are found by their labels.
    pub fn holds(&self, copies: &Snapshot, at_places: bool) -> bool
        requires { AreAtPlaces at_places copies.now self.now }
        ensures { result ≡ holds self.now copies.now }
    {
        if !at_places {
            return holds(self.filter, copies);
        }
        is_true(&self.expr, copies.parts.as_slice())
            && ids_match(self.filter.predicate(), copies.ids)
    }

    /// What the filter with this number says of a call with these ids, if it holds.
    pub fn verdict(&self, number: u32, ids: Ids) -> Verdict
        ensures { result ≡ verdict_by number self.now.grant ids self.now.action }
    {
        verdict_of(self.filter, number, ids)
    }
}
