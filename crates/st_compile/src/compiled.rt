ghost use Rattle.std.specs.Prelude.{◌≡◌, ◌≤◌, ◌<◌, length, map, option_copied, IfOk};
ghost use Rattle.st_base.specs.Numbered.{item_at_number};
ghost use Rattle.st_filter.specs.Judged.{verdict_under};
ghost use Rattle.st_filter.specs.Policies.{filters_in, filters_in_force, filters_of, filters_of_block, read_filters};
ghost use Rattle.st_filter.specs.declared.set.TheConstants.{MOST_FILTERS};

use crate::policy::PolicyFilters;
use crate::rule::RuleFilters;
use st_base::is_same_text;
use st_calls::{Rule, Snapshot, Verdict};
use st_filter::{BinaryPolicy, Filter, Policies, PolicySet};
use std::alloc::{AllocError, Global};
use std::marker::Model;

/// The policies of a run, compiled: a verdict on a call takes no look at filters of other policies, versions and rules.
#[derive(Debug)]
pub struct Compiled<'a> {
    policies: &'a Policies,
    // The filters of each policy that was read, by its index in the set.
    rows: Vec<PolicyFilters<'a>>,
    // The filters of each policy of the script. Those of version N are at index N - 1.
    blocks: Vec<PolicyFilters<'a>>,
    // Those of a binary without a policy.
    none: RuleFilters<'a>,
}

// Written out, so that another crate that drops one calls this, and doesn't drop its parts one by one.
impl<'a> Drop for Compiled<'a> {
    fn drop(self) {
        let Self {
            policies: _,
            rows: _,
            blocks: _,
            none: _,
        } = self;
    }
}

impl<'a> Model for Compiled<'a> {
    ghost use Rattle.std.specs.Prelude.{◌≡◌, [], map};
    ghost use Rattle.std.specs.Coded.{codes};
    ghost use Rattle.st_filter.specs.FormulaCode.{formula_code};
    ghost use Rattle.st_filter.specs.Policies.{PoliciesValue};

    ghost Value = { PoliciesValue };

    ghost coded = { Prim.hlevel (codes, formula_code) };

    ghost view = { λ c. c.policies.now };

    ghost invariant = { λ c. (c.none ≡ []) × (c.rows.items ≡ map (λ p. p.filters) c.policies.now.read) × (c.blocks.items ≡ map (λ p. p.filters) c.policies.now.blocks) };
}

// The filters of each policy of a set.
fn rows_of_set<'a>(alloc: Global, set: &'a PolicySet) -> Result<Vec<PolicyFilters<'a>>, AllocError>
    ensures { IfOk result (λ rows. rows.items ≡ map (λ p. p.filters) set.now) }
{
    let mut rows = Vec::new(alloc);
    for i in 0..set.len() {
        rows.push(PolicyFilters::of(alloc, set.policy(i))?)?;
    }
    Ok(rows)
}

// The filters of each policy of the script.
fn rows_of_blocks<'a>(
    alloc: Global,
    blocks: &'a [BinaryPolicy],
) -> Result<Vec<PolicyFilters<'a>>, AllocError>
    requires { filters_in blocks.now ≤ MOST_FILTERS }
    ensures { IfOk result (λ rows. rows.items ≡ map (λ p. p.filters) blocks.now) }
{
    let mut rows = Vec::new(alloc);
    for block in blocks {
        rows.push(PolicyFilters::of(alloc, &block.filters)?)?;
    }
    Ok(rows)
}

impl<'a> Compiled<'a> {
    /// Policies compiled.
    pub fn build(alloc: Global, policies: &'a Policies) -> Result<Self, AllocError>
        ensures { IfOk result (λ compiled. compiled ≡ policies.now) }
    {
        Ok(Compiled {
            policies,
            rows: rows_of_set(alloc, policies.read())?,
            blocks: rows_of_blocks(alloc, policies.blocks())?,
            none: RuleFilters::none(alloc),
        })
    }

    /// The policies.
    pub fn policies(&self) -> &'a Policies
        ensures { result.now ≡ self.now }
    {
        self.policies
    }

    // The filters that were read for a policy and a rule.
    fn read_filters(&self, policy: &[u8], rule: Rule) -> &RuleFilters<'a>
        ensures { result.now ≡ read_filters self.now.read policy.now rule }
    {
        match self.policies.read().row_of(policy) {
            Some(row) => self.rows[row].of_rule(rule),
            None => &self.none,
        }
    }

    // The filters of the script's policy with this number, for a policy and a rule.
    fn block_filters(&self, policy: &[u8], version: u32, rule: Rule) -> &RuleFilters<'a>
        ensures { result.now ≡ filters_of rule (filters_of_block (item_at_number self.now.blocks version) policy.now) }
    {
        let Some(block) = self.policies.block(version) else {
            return &self.none;
        };
        if !is_same_text(block.binary.bytes(), policy) {
            return &self.none;
        }
        self.blocks[version as usize - 1].of_rule(rule)
    }

    // The filters in force for a policy and a rule at a version.
    fn filters(&self, policy: &[u8], version: u32, rule: Rule) -> &RuleFilters<'a>
        ensures { result.now ≡ filters_in_force self.now policy.now version rule }
    {
        if version == 0 {
            self.read_filters(policy, rule)
        } else {
            self.block_filters(policy, version, rule)
        }
    }

    /// What the policies say of a held call, by the copies of its arguments and its version of its policy. It takes no memory.
    pub fn decide(&self, copies: &Snapshot) -> Verdict
        ensures { result ≡ verdict_under self.now copies.now }
    {
        self.filters(copies.policy.get().bytes(), copies.version, copies.rule)
            .verdict(copies)
    }

    /// How many filters are in force for a policy and a rule at a version. None is counted.
    pub fn filter_count(&self, policy: &[u8], version: u32, rule: Rule) -> u32
        ensures is { result ≡ length (filters_in_force self.now policy.now version rule) }
        ensures few { result ≤ MOST_FILTERS }
    {
        self.filters(policy, version, rule).len() as u32
    }

    /// The filter with this number among those that are in force for a policy and a rule at a version. They are numbered from 1.
    pub fn filter(&self, policy: &[u8], version: u32, rule: Rule, number: u32) -> Option<&'a Filter>
        ensures { option_copied result ≡ item_at_number (filters_in_force self.now policy.now version rule) number }
    {
        self.filters(policy, version, rule).filter(number)
    }
}
