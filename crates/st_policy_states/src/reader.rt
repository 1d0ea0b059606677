ghost use Rattle.std.specs.Prelude.{◌≡◌, ◌+◌, [], Some, false, IfOk, OnOk};
ghost use Rattle.st_filter.specs.Formula.{formula};
ghost use Rattle.st_filter.specs.Policies.{has_policy};
ghost use Rattle.st_grammar.specs.Diagram.{IsStepped, fresh, only, step_to, step_name, step_binary, with_joint, waits, completed, concluded};
ghost use Rattle.st_grammar.specs.Expression.{close_group, joins_both, joins_either};
ghost use Rattle.st_grammar.specs.Reading.{binaries, filter_of, taken};
ghost use Rattle.st_policy_states.specs.Stack.{pending_value};

use crate::stack::{PendingOperand, Stack};
use st_base::Text;
use st_calls::Rule;
use st_filter::{
    Action, Cmp, Expr, Filter, FilterName, Grant, MOST_FILTERS, Op, PolicySet, Predicate,
};
use st_grammar::words::call_after_prefix;
use st_grammar::{Env, Place, PolicyFault};
use std::alloc::{AllocError, Global};
use std::marker::Model;
use std::mem::replace;

// How many of `not`, `and`, `or` and `(` one filter may have.
const MOST_JOINS: u32 = 64;

/// How far a text has been read, except for its policies: the place in the grammar, and the parts of the current row. Parts of the text are
/// borrowed and not copied.
#[derive(Drop)]
pub struct Reader<'a> {
    pub(crate) place: Place,
    // How many filters have been read, those of earlier files and the current one included.
    pub(crate) filters: usize,
    // The filter's name after the emulation's prefix, and its rule, unless it is a call outside the model.
    pub(crate) name: &'a [u8],
    pub(crate) rule: Option<Rule>,
    // The current label, its offset in the text, and its index.
    pub(crate) label: &'a [u8],
    pub(crate) label_at: u32,
    pub(crate) index: u32,
    pub(crate) op: Op,
    // How many parentheses are open, and how many joins the filter's expression has.
    pub(crate) parens: u32,
    pub(crate) joins: u32,
    pub(crate) pending: Stack,
    // The operand that was read last.
    pub(crate) expr: Expr,
    pub(crate) action: Action,
    pub(crate) grant: Option<Grant>,
    pub(crate) log: bool,
    pub(crate) cmp: Cmp,
    pub(crate) predicate: Option<Predicate>,
}

impl<'a> Model for Reader<'a> {
    ghost use Rattle.std.specs.Prelude.{◌≤◌};
    ghost use Rattle.std.specs.Coded.{codes};
    ghost use Rattle.st_filter.specs.Formula.{formula};
    ghost use Rattle.st_filter.specs.FormulaCode.{formula_code};
    ghost use Rattle.st_grammar.specs.Words.{name_by};
    ghost use Rattle.st_grammar.specs.Diagram.{GrammarState};
    ghost use Rattle.st_grammar.specs.Expression.{reduced};

    ghost Value = { GrammarState };

    ghost coded = { Prim.hlevel (codes, formula_code) };

    ghost view = { λ r. record { place = r.place; filters = r.filters; name = name_by r.name.now r.rule; label = r.label.now; label_at = r.label_at; index = r.index; op = r.op; parens = r.parens; joins = r.joins; expression = reduced r.pending (formula r.expr); action = r.action; grant = r.grant; log = r.log; cmp = r.cmp; predicate = r.predicate } };

    ghost invariant = { λ r. (r.parens ≤ r.joins) × (r.joins ≤ 64) };
}

impl<'a> Reader<'a> {
    /// The beginning of a text, with this many filters read before it. It takes no memory.
    pub fn new(alloc: Global, filters: usize) -> Self
        ensures { result ≡ fresh Place.Start filters (FilterName.Other []) }
    {
        Reader {
            place: Place::Start,
            filters,
            name: &[],
            rule: None,
            label: &[],
            label_at: 0,
            index: 0,
            op: Op::Eq,
            parens: 0,
            joins: 0,
            pending: Stack::new(alloc),
            expr: Expr::True,
            action: Action::Permit,
            grant: None,
            log: false,
            cmp: Cmp::Same,
            predicate: None,
        }
    }

    /// The place of the next token.
    pub fn place(&self) -> Place
        ensures { result ≡ self.now.place }
    {
        self.place
    }

    // The beginning of the next row. The memory of the pending operands is kept, so that rows of deep expressions don't allocate it anew.
    fn clear(&mut self)
        ensures { self.new ≡ taken self.old }
    {
        self.place = Place::Row;
        self.label = &[];
        self.label_at = 0;
        self.index = 0;
        self.op = Op::Eq;
        self.parens = 0;
        self.joins = 0;
        self.pending.clear();
        self.expr = Expr::True;
        self.action = Action::Permit;
        self.grant = None;
        self.log = false;
        self.cmp = Cmp::Same;
        self.predicate = None;
    }

    // The symbol may occur here, and it adds nothing.
    #[inline]
    pub(crate) fn go(&mut self, next: Place) -> Result<(), PolicyFault>
        ensures { IsStepped result self.new (step_to self.old next) }
    {
        self.place = next;
        Ok(())
    }

    // Only one symbol may occur here.
    pub(crate) fn only(&mut self, at: u32, fits: bool, next: Place) -> Result<(), PolicyFault>
        ensures { IsStepped result self.new (only self.old at fits next) }
    {
        if !fits {
            return Err(PolicyFault::Expected(at));
        }
        self.place = next;
        Ok(())
    }

    /// After `Policy:`, where this binary is named.
    pub fn begin_policy(
        &mut self,
        known: &PolicySet,
        at: u32,
        binary: &[u8],
    ) -> Result<(), PolicyFault>
        ensures ok { IsStepped result self.new (step_binary (binaries known.now) self.old at (Some binary.now)) }
        ensures new { OnOk result (has_policy known.now binary.now ≡ false) }
    {
        if known.has(binary) {
            return Err(PolicyFault::DuplicatePolicy(at));
        }
        self.place = Place::Comma;
        Ok(())
    }

    /// At the beginning of a row, at a filter's name.
    pub fn begin_filter(&mut self, env: &Env, at: u32, word: &'a [u8]) -> Result<(), PolicyFault>
        ensures { IsStepped result self.new (step_name env.now self.old at word.now) }
    {
        let Some(name) = call_after_prefix(word, env.emulation) else {
            return Err(PolicyFault::UnknownCall(at));
        };
        if self.filters >= MOST_FILTERS {
            return Err(PolicyFault::TooMany(at));
        }
        self.clear();
        self.place = Place::NameColon;
        self.filters += 1;
        self.name = name;
        self.rule = Rule::of_word(name);
        Ok(())
    }

    // The name of the current filter.
    fn filter_name(&self, alloc: Global) -> Result<FilterName, AllocError>
        ensures { IfOk result (λ name. name ≡ self.now.name) }
    {
        match self.rule {
            Some(rule) => Ok(FilterName::Rule(rule)),
            None => Ok(FilterName::Other(Text::of(alloc, self.name)?)),
        }
    }

    /// Takes the filter that was read. The next token is at the beginning of a row.
    pub fn take_filter(&mut self, alloc: Global) -> Result<Filter, AllocError>
        ensures filter { IfOk result (λ filter. filter ≡ filter_of self.old) }
        ensures taken { OnOk result (self.new ≡ taken self.old) }
    {
        let name = self.filter_name(alloc)?;
        let filter = Filter::new(
            name,
            replace(&mut self.expr, Expr::True),
            self.action,
            self.grant,
            self.log,
            self.predicate,
        );
        self.clear();
        Ok(filter)
    }
}

// Expressions.
impl<'a> Reader<'a> {
    // One more of `not`, `and` and `or`.
    pub(crate) fn join(&mut self, at: u32) -> Result<(), PolicyFault>
        ensures { IsStepped result self.new (with_joint self.old at) }
    {
        if self.joins >= MOST_JOINS {
            return Err(PolicyFault::TooMany(at));
        }
        self.place = Place::Operand;
        self.joins += 1;
        Ok(())
    }

    // One more `(`.
    pub(crate) fn open(&mut self, at: u32) -> Result<(), PolicyFault>
        ensures { IsStepped result self.new (with_joint (record self.old { parens = self.old.parens + 1 }) at) }
    {
        if self.joins >= MOST_JOINS {
            return Err(PolicyFault::TooMany(at));
        }
        self.place = Place::Operand;
        self.joins += 1;
        self.parens += 1;
        Ok(())
    }

    // Adds a pending operand.
    pub(crate) fn wait(&mut self, pending: PendingOperand) -> Result<(), AllocError>
        ensures { OnOk result (self.new ≡ waits (pending_value pending) self.old) }
    {
        self.pending.push(pending)
    }

    // An operand is complete.
    pub(crate) fn complete(&mut self, alloc: Global, operand: Expr) -> Result<(), AllocError>
        ensures { OnOk result (self.new ≡ completed (formula operand) self.old) }
    {
        self.place = Place::Joint;
        self.expr = operand;
        self.pending.settle(alloc, &mut self.expr)
    }

    // A conjunction is complete, because `or`, `)` or `then` follows.
    pub(crate) fn conclude(&mut self, alloc: Global) -> Result<(), AllocError>
        ensures { OnOk result (self.new ≡ concluded self.old) }
    {
        self.pending.close_either(alloc, &mut self.expr)
    }

    // `and` joins what was read with what follows.
    pub(crate) fn join_both(&mut self, alloc: Global) -> Result<(), AllocError>
        ensures { OnOk result (self.new ≡ record self.old { expression = joins_both self.old.expression }) }
    {
        let left = replace(&mut self.expr, Expr::True);
        self.pending
            .push(PendingOperand::Both(Box::new(alloc, left)?))
    }

    // `or` joins a complete conjunction with what follows.
    pub(crate) fn join_either(&mut self, alloc: Global) -> Result<(), AllocError>
        ensures { OnOk result (self.new ≡ record self.old { expression = joins_either self.old.expression }) }
    {
        let left = replace(&mut self.expr, Expr::True);
        self.pending
            .push(PendingOperand::Either(Box::new(alloc, left)?))
    }

    // A parenthesis is closed after a complete conjunction.
    pub(crate) fn close_group(&mut self, alloc: Global) -> Result<(), AllocError>
        ensures { OnOk result (self.new ≡ record self.old { expression = close_group self.old.expression }) }
    {
        self.pending.leave_group();
        self.pending.settle(alloc, &mut self.expr)
    }
}
