//! The replies and the policies of a script, as they are read.

ghost use Rattle.std.specs.Prelude.{◌≡◌, OnOk};
ghost use Rattle.st_filter.specs.Policies.{add_filter};
ghost use Rattle.st_script_faults.specs.Faults.{no_filters, with_value};

use crate::row_value::RowValue;
use st_base::{Sequence, Text};
use st_filter::{BinaryPolicy, Filter, Policy, Reply};
use std::alloc::{AllocError, Global};
use std::marker::Model;

/// The replies and the policies of a script, each in order.
#[derive(Drop)]
pub struct ScriptFilters {
    replies: Sequence<Reply>,
    // The last policy gets the filters that follow it.
    blocks: Vec<BinaryPolicy>,
}

impl Model for ScriptFilters {
    ghost use Rattle.std.specs.Coded.{codes};
    ghost use Rattle.st_filter.specs.FormulaCode.{formula_code};
    ghost use Rattle.st_script_faults.specs.Faults.{ScriptFiltersValue};

    ghost Value = { ScriptFiltersValue };

    ghost coded = { Prim.hlevel (codes, formula_code) };

    ghost view = { λ h. record { replies = h.replies; blocks = h.blocks.items } };
}

impl ScriptFilters {
    /// No replies and no policies; it takes no memory.
    pub fn new(alloc: Global) -> Self
        ensures { result ≡ no_filters }
    {
        ScriptFilters {
            replies: Sequence::new(alloc),
            blocks: Vec::new(alloc),
        }
    }

    /// The replies and the policies.
    pub fn into_parts(self) -> (Sequence<Reply>, Sequence<BinaryPolicy>)
        ensures replies { result.0 ≡ self.replies }
        ensures blocks { result.1 ≡ self.blocks }
    {
        let ScriptFilters { replies, blocks } = self;
        (replies, Sequence::of(blocks))
    }

    // Begins a policy without filters.
    fn begin(&mut self, alloc: Global, binary: Text) -> Result<(), AllocError>
        ensures { OnOk result (self.new ≡ with_value self.old (RowValue.Policy binary)) }
    {
        self.blocks.push(BinaryPolicy {
            binary,
            filters: Policy::new(alloc),
        })?;
        Ok(())
    }

    // Adds a filter to the last policy.
    fn add_filter(&mut self, filter: Filter) -> Result<(), AllocError>
        ensures { OnOk result (self.new ≡ with_value self.old (RowValue.Filter filter)) }
    {
        let len = self.blocks.len();
        if len > 0 {
            self.blocks[len - 1].filters.push(filter)?;
        }
        Ok(())
    }

    /// Adds what a row is read as.
    pub fn add(&mut self, alloc: Global, value: RowValue) -> Result<(), AllocError>
        ensures { OnOk result (self.new ≡ with_value self.old value) }
    {
        match value {
            RowValue::Reply(reply) => self.replies.push(reply),
            RowValue::Policy(binary) => self.begin(alloc, binary),
            RowValue::Filter(filter) => self.add_filter(filter),
            RowValue::Nothing | RowValue::Invalid => Ok(()),
        }
    }
}
