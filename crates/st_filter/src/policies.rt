ghost use Rattle.std.specs.Prelude.{◌≡◌, ◌≤◌, ◌<◌, ◌^◌, length, option_map, None, Some, IfSome};
ghost use Rattle.st_base.specs.Numbered.{item_at_number};

use crate::filter::Policy;
use crate::set::{BinaryPolicy, PolicySet};
use st_base::{Sequence, is_same_text};
use std::alloc::Global;
use std::marker::Model;

/// The policies of a run: those that were read, and those of the script, which a reload puts in force. At version 0 the policy of a binary
/// is the one that was read for it, at version N the script's policy N.
#[derive(Debug, Drop)]
pub struct Policies {
    read: PolicySet,
    // Counted from 1.
    blocks: Sequence<BinaryPolicy>,
    empty: Policy,
}

impl Model for Policies {
    ghost use Rattle.std.specs.Prelude.{◌≡◌, ◌≤◌, ◌<◌, ◌^◌, [], length};
    ghost use Rattle.std.specs.Coded.{codes};
    ghost use Rattle.st_filter.specs.FormulaCode.{formula_code};
    ghost use Rattle.st_filter.specs.Policies.{PoliciesValue, filters_in};
    ghost use Rattle.st_filter.specs.declared.set.TheConstants.{MOST_FILTERS};

    ghost Value = { PoliciesValue };

    ghost coded = { Prim.hlevel (codes, formula_code) };

    ghost view = { λ p. record { read = p.read; blocks = p.blocks } };

    ghost invariant = { λ p. (p.empty ≡ []) × (filters_in p.blocks ≤ MOST_FILTERS) × (length p.blocks < 2 ^ 31) };
}

impl Policies {
    ghost use Rattle.st_filter.specs.Policies.{filters_in, in_force};
    ghost use Rattle.st_filter.specs.declared.set.TheConstants.{MOST_FILTERS};

    /// The policies that were read and the script's, which have at most 4,096 filters together. It takes no memory.
    pub fn new(alloc: Global, read: PolicySet, blocks: Sequence<BinaryPolicy>) -> Self
        requires filters { filters_in blocks ≤ MOST_FILTERS }
        requires few { length blocks < 2 ^ 31 }
        ensures { result ≡ record { read = read; blocks = blocks } }
    {
        Policies {
            read,
            blocks,
            empty: Policy::new(alloc),
        }
    }

    /// The policies that were read.
    pub fn read(&self) -> &PolicySet
        ensures { result.now ≡ self.now.read }
    {
        &self.read
    }

    /// The script's policies, counted from 1.
    pub fn blocks(&self) -> &[BinaryPolicy]
        ensures are { result.now ≡ self.now.blocks }
        ensures filters { filters_in result.now ≤ MOST_FILTERS }
        ensures few { length result.now < 2 ^ 31 }
    {
        self.blocks.as_slice()
    }

    /// The script's policy with this number, if it has one.
    pub fn block(&self, version: u32) -> Option<&BinaryPolicy>
        ensures none { result ≡ None → item_at_number self.now.blocks version ≡ None }
        ensures some { IfSome result (λ block. item_at_number self.now.blocks version ≡ Some block.now) }
        ensures few { IfSome result (λ block. length block.now.filters ≤ MOST_FILTERS) }
    {
        if version == 0 {
            None
        } else {
            self.blocks.as_slice().get((version - 1) as usize)
        }
    }

    /// The filters in force for a binary at a version: those that were read for it, or those of the script's policy with this number. A
    /// policy of another binary has none for it.
    pub fn in_force(&self, binary: &[u8], version: u32) -> &Policy
        ensures is { result.now ≡ in_force self.now binary.now version }
        ensures few { length result.now ≤ MOST_FILTERS }
    {
        if version == 0 {
            return self.read.get(binary);
        }
        match self.block(version) {
            Some(block) if is_same_text(block.binary.bytes(), binary) => &block.filters,
            _ => &self.empty,
        }
    }
}
