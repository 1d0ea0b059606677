ghost use Rattle.std.specs.Prelude.{◌≡◌};
ghost use Rattle.st_law.specs.Sessions.{is_kept_for};
ghost use Rattle.st_learn.specs.Kept.{filter_of};

use crate::kept_filter::KeptFilter;
use st_base::{Shared, Text, is_same_text};
use st_calls::Rule;
use st_filter::Filter;
use std::marker::Model;

/// A filter of a session, with its policy and its rule.
#[derive(Debug, Drop)]
pub struct AddedFilter<'a> {
    policy: Shared<Text>,
    rule: Rule,
    filter: KeptFilter<'a>,
}

impl<'a> Model for AddedFilter<'a> {
    ghost use Rattle.std.specs.Coded.{codes};
    ghost use Rattle.st_filter.specs.FormulaCode.{formula_code};
    ghost use Rattle.st_law.specs.Sessions.{SessionFilter};
    ghost use Rattle.st_learn.specs.Kept.{filter_of};

    ghost Value = { SessionFilter };

    ghost coded = { Prim.hlevel (codes, formula_code) };

    ghost view = { λ k. record { policy = k.policy; rule = k.rule; filter = filter_of k.filter } };
}

impl<'a> AddedFilter<'a> {
    /// A filter for this policy and rule.
    pub fn new(policy: Shared<Text>, rule: Rule, filter: KeptFilter<'a>) -> Self
        ensures { result ≡ record { policy = policy; rule = rule; filter = filter_of filter.entry } }
    {
        AddedFilter {
            policy,
            rule,
            filter,
        }
    }

    /// The binary of its policy.
    pub fn policy(&self) -> &[u8]
        ensures { result.now ≡ self.now.policy }
    {
        self.policy.get().bytes()
    }

    /// Its rule.
    pub fn rule(&self) -> Rule
        ensures { result ≡ self.now.rule }
    {
        self.rule
    }

    /// Whether it is for this policy and rule.
    pub fn is_for(&self, policy: &[u8], rule: Rule) -> bool
        ensures { result ≡ is_kept_for policy.now rule self.now }
    {
        self.rule == rule && is_same_text(self.policy.get().bytes(), policy)
    }

    /// The filter.
    pub fn filter(&self) -> &Filter
        ensures { result.now ≡ self.now.filter }
    {
        self.filter.get()
    }
}
