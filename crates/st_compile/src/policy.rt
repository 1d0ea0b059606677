// The filters of one policy, by their rules.
ghost use Rattle.std.specs.Prelude.{◌≡◌, ◌≤◌, ◌<◌, ◌++◌, ◌∷◌, List, [], length, set, IfOk, OnOk};
ghost use Rattle.st_calls.specs.Call.{every_rule, index_of_rule};
ghost use Rattle.st_filter.specs.Formula.{FilterValue};
ghost use Rattle.st_filter.specs.Policies.{filters_of};
ghost use Rattle.st_filter.specs.declared.set.TheConstants.{MOST_FILTERS};
ghost use Rattle.st_compile.specs.Compiling.{AreListed};

use crate::rule::RuleFilters;
use st_calls::{RULES, Rule};
use st_filter::{Filter, FilterName, Policy};
use std::alloc::{AllocError, Global};
use std::marker::Model;

// The filters of each rule that has some.
#[derive(Debug, Drop)]
struct Lists<'a> {
    // The first list is empty: it is that of every rule without filters.
    lists: Vec<RuleFilters<'a>>,
    // For each rule, by its index, the place of its list.
    places: Vec<u16>,
}

impl<'a> Lists<'a> {
    // No filters.
    fn new(alloc: Global) -> Result<Self, AllocError>
        ensures { IfOk result (λ none. AreListed [] none.lists.items none.places.items) }
    {
        let mut lists = Vec::new(alloc);
        lists.push(RuleFilters::none(alloc))?;
        let places = vec![in alloc; 0; RULES]?;
        Ok(Lists { lists, places })
    }

    // Adds the first filter of a rule.
    fn begin(&mut self, alloc: Global, rule: Rule, filter: &'a Filter) -> Result<(), AllocError>
        requires few { length self.old.lists.items ≤ MOST_FILTERS }
        requires rules { length self.old.places.items ≡ length every_rule }
        ensures lists { OnOk result (self.new.lists.items ≡ self.old.lists.items ++ (filter.now ∷ []) ∷ []) }
        ensures places { OnOk result (self.new.places.items ≡ set self.old.places.items (index_of_rule rule) (length self.old.lists.items)) }
    {
        let place = self.lists.len() as u16;
        let mut list = RuleFilters::none(alloc);
        list.add(alloc, filter)?;
        self.lists.push(list)?;
        self.places[rule.index()] = place;
        Ok(())
    }

    // Adds a filter for a rule, after the others for it.
    fn add_for(&mut self, alloc: Global, rule: Rule, filter: &'a Filter) -> Result<(), AllocError>
        requires name { filter.now.name ≡ FilterName.Rule rule }
        requires listed { (filters : List FilterValue) × ((length filters < MOST_FILTERS) × AreListed filters self.old.lists.items self.old.places.items) }
        ensures { OnOk result ((filters : List FilterValue) → AreListed filters self.old.lists.items self.old.places.items → AreListed (filters ++ filter.now ∷ []) self.new.lists.items self.new.places.items) }
    {
        let place = usize::from(self.places[rule.index()]);
        if place == 0 {
            return self.begin(alloc, rule, filter);
        }
        let list = &mut self.lists[place];
        list.add(alloc, filter)
    }

    // Adds a filter. One for a call outside the model is left out.
    fn add(&mut self, alloc: Global, filter: &'a Filter) -> Result<(), AllocError>
        requires { (filters : List FilterValue) × ((length filters < MOST_FILTERS) × AreListed filters self.old.lists.items self.old.places.items) }
        ensures { OnOk result ((filters : List FilterValue) → AreListed filters self.old.lists.items self.old.places.items → AreListed (filters ++ filter.now ∷ []) self.new.lists.items self.new.places.items) }
    {
        match filter.name() {
            FilterName::Rule(rule) => self.add_for(alloc, *rule, filter),
            FilterName::Other(_) => Ok(()),
        }
    }

    // Adds the filters of a policy to none.
    fn add_all(&mut self, alloc: Global, policy: &'a Policy) -> Result<(), AllocError>
        requires few { length policy.now ≤ MOST_FILTERS }
        requires none { AreListed [] self.old.lists.items self.old.places.items }
        ensures { OnOk result (AreListed policy.now self.new.lists.items self.new.places.items) }
    {
        for filter in policy.as_slice() {
            self.add(alloc, filter)?;
        }
        Ok(())
    }

    // Lets the filters of each rule be found by their texts.
    fn find_by_text(&mut self, alloc: Global) -> Result<(), AllocError>
        ensures lists { self.new.lists.items ≡ self.old.lists.items }
        ensures places { self.new.places.items ≡ self.old.places.items }
    {
        for i in 0..self.lists.len() {
            let list = &mut self.lists[i];
            list.find_by_text(alloc)?;
        }
        Ok(())
    }
}

/// The filters of one policy, by their rules. Those of a rule are found without passing over the filters of others.
#[derive(Debug, Drop)]
pub struct PolicyFilters<'a> {
    policy: &'a Policy,
    lists: Lists<'a>,
}

impl<'a> Model for PolicyFilters<'a> {
    ghost use Rattle.std.specs.Prelude.{List};
    ghost use Rattle.std.specs.Coded.{codes};
    ghost use Rattle.st_filter.specs.Formula.{FilterValue};
    ghost use Rattle.st_filter.specs.FormulaCode.{formula_code};
    ghost use Rattle.st_compile.specs.Compiling.{AreListed};

    ghost Value = { List FilterValue };

    ghost coded = { Prim.hlevel (codes, formula_code) };

    ghost view = { λ p. p.policy.now };

    ghost invariant = { λ p. AreListed p.policy.now p.lists.lists.items p.lists.places.items };
}

impl<'a> PolicyFilters<'a> {
    /// The filters of a policy, by their rules. The policy is passed over once.
    pub fn of(alloc: Global, policy: &'a Policy) -> Result<Self, AllocError>
        requires { length policy.now ≤ MOST_FILTERS }
        ensures { IfOk result (λ filters. filters ≡ policy.now) }
    {
        let mut lists = Lists::new(alloc)?;
        lists.add_all(alloc, policy)?;
        lists.find_by_text(alloc)?;
        Ok(PolicyFilters { policy, lists })
    }

    /// The filters of a rule.
    pub fn of_rule(&self, rule: Rule) -> &RuleFilters<'a>
        ensures { result.now ≡ filters_of rule self.now }
    {
        let place = self.lists.places[rule.index()];
        &self.lists.lists[usize::from(place)]
    }
}
