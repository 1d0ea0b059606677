ghost use Rattle.std.specs.Prelude.{◌≡◌, [], ◌∷◌, ◌++◌, ◌<◌, ◌≤◌, false, length, take, option_map, OnOk, OnErr, None, Some, IfSome, slice_get};
ghost use Rattle.std.specs.List.{position};
ghost use Rattle.std.specs.Str.{bytes_eq};
ghost use Rattle.st_filter.specs.Policies.{has_policy, policy_of};

use crate::filter::{Filter, Policy};
use crate::rows::row_in;
use indexmap::IndexMap;
use st_base::Text;
use std::alloc::{AllocError, Global};
use std::marker::Model;

/// The most filters that a set may have.
pub const MOST_FILTERS: usize = 4_096;

/// The policy of one binary.
#[derive(Debug, Drop)]
pub struct BinaryPolicy {
    pub binary: Text,
    pub filters: Policy,
}

/// A script's answer to a question: the filter that the operator adds to the policy of that binary.
#[derive(Debug, Drop)]
pub struct Reply {
    pub binary: Text,
    pub filter: Filter,
}

/// The policies that were read, in order.
#[derive(Debug, Drop)]
pub struct PolicySet {
    // By their binaries, in the order in which these first appear.
    policies: IndexMap<Vec<u8>, Policy>,
    // How many filters all policies have.
    filters: usize,
    empty: Policy,
}

impl Model for PolicySet {
    ghost use Rattle.std.specs.Prelude.{◌≡◌, ◌≤◌, List, []};
    ghost use Rattle.st_filter.specs.PolicyEntries.{represented_policies};
    ghost use Rattle.std.specs.Coded.{codes};
    ghost use Rattle.st_filter.specs.declared.set.BinaryPolicy.{BinaryPolicy};
    ghost use Rattle.st_filter.specs.FormulaCode.{formula_code};
    ghost use Rattle.st_filter.specs.Policies.{filters_in};
    ghost use Rattle.st_filter.specs.declared.set.TheConstants.{MOST_FILTERS};

    ghost Value = { List BinaryPolicy };

    ghost coded = { Prim.hlevel (codes, formula_code) };

    ghost view = { λ s. represented_policies s.policies.entries };

    ghost invariant = { λ s. (s.empty ≡ []) × (s.filters ≡ filters_in (represented_policies s.policies.entries)) × (s.filters ≤ MOST_FILTERS) };
}

impl PolicySet {
    ghost use Rattle.st_filter.specs.Policies.{policy_of, has_policy, filters_in, add_filter};
    ghost use Rattle.st_filter.specs.declared.set.TheConstants.{MOST_FILTERS};

    /// A set without policies, which takes no memory.
    pub fn new(alloc: Global) -> Self
        ensures { result ≡ [] }
    {
        PolicySet {
            policies: IndexMap::new(alloc),
            filters: 0,
            empty: Policy::new(alloc),
        }
    }

    /// How many policies there are.
    pub fn len(&self) -> usize
        ensures { result ≡ length self.now }
    {
        self.policies.len()
    }

    /// How many filters all policies have: at most 4,096.
    pub fn filters(&self) -> usize
        ensures is { result ≡ filters_in self.now }
        ensures few { result ≤ MOST_FILTERS }
    {
        self.filters
    }

    /// The binary of the policy at this index.
    pub fn binary(&self, i: usize) -> &[u8]
        requires { i < length self.now }
        ensures { option_map (λ p. p.binary) (slice_get self.now i) ≡ Some result.now }
    {
        match self.policies.get_index(i) {
            Some((binary, _)) => binary.as_slice(),
            None => unreachable!(),
        }
    }

    /// The filters of the policy at this index.
    pub fn policy(&self, i: usize) -> &Policy
        requires { i < length self.now }
        ensures is { option_map (λ p. p.filters) (slice_get self.now i) ≡ Some result.now }
        ensures few { length result.now ≤ MOST_FILTERS }
    {
        match self.policies.get_index(i) {
            Some((_, filters)) => filters,
            None => unreachable!(),
        }
    }

    /// The index of the policy of a binary, if it has one.
    pub fn row_of(&self, binary: &[u8]) -> Option<usize>
        ensures index { result ≡ position (λ p. bytes_eq p.binary binary.now) self.now }
        ensures none { result ≡ None → policy_of self.now binary.now ≡ [] }
        ensures some { IfSome result (λ row. option_map (λ p. p.filters) (slice_get self.now row) ≡ Some (policy_of self.now binary.now)) }
    {
        row_in(&self.policies, binary)
    }

    /// Whether a binary has a policy.
    pub fn has(&self, binary: &[u8]) -> bool
        ensures { result ≡ has_policy self.now binary.now }
    {
        self.policies.contains_key(binary)
    }

    /// The filters of a binary: those of its policy, or none if it has no policy.
    pub fn get(&self, binary: &[u8]) -> &Policy
        ensures is { result.now ≡ policy_of self.now binary.now }
        ensures few { length result.now ≤ MOST_FILTERS }
    {
        match self.policies.get(binary) {
            Some(filters) => filters,
            None => &self.empty,
        }
    }

    /// Begins a policy without filters, for a binary that has no policy. If memory runs out, nothing changes.
    pub fn begin(&mut self, alloc: Global, binary: Text) -> Result<(), AllocError>
        requires { has_policy self.old binary ≡ false }
        ensures ok { OnOk result (self.new ≡ self.old ++ record { binary = binary; filters = [] } ∷ []) }
        ensures err { OnErr result (self.new ≡ self.old) }
    {
        self.policies
            .insert(binary.into_bytes(), Policy::new(alloc))?;
        Ok(())
    }

    /// Appends a filter to the last policy. If memory runs out, nothing changes.
    pub fn add_filter(&mut self, filter: Filter) -> Result<(), AllocError>
        requires { filters_in self.old < MOST_FILTERS }
        ensures ok { OnOk result (self.new ≡ add_filter self.old filter) }
        ensures err { OnErr result (self.new ≡ self.old) }
    {
        let len = self.policies.len();
        if len > 0 {
            let filters = &mut self.policies[len - 1];
            filters.push(filter)?;
            self.filters += 1;
        }
        Ok(())
    }

    /// Keeps the first `len` policies, and drops the rest.
    #[tactic(auto, using(crate::proofs::Entries::counted_before, crate::proofs::Entries::front_before))]
    pub fn truncate(&mut self, len: usize)
        ensures { self.new ≡ take len self.old }
    {
        while self.policies.len() > len {
            if let Some((_, filters)) = self.policies.pop() {
                self.filters -= filters.len();
            }
        }
    }
}
