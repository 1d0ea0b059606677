ghost use Rattle.std.specs.Prelude.{◌≡◌, ◌∷◌, [], Some, OnOk, IfOk, IfSome, IfNone};
ghost use Rattle.st_filter.specs.Formula.{formula};
ghost use Rattle.st_policy_states.specs.Stack.{pending_value, takes, newest, with_right_operand};
ghost use Rattle.st_grammar.specs.Expression.{reduced, settle, close_either, without_group};

use st_filter::Expr;
use std::alloc::{AllocError, Global};
use std::marker::Model;
use std::mem::replace;

/// A pending operand: an operator that waits for its right operand, or a parenthesis that isn't closed yet.
#[derive(Drop)]
pub(crate) enum PendingOperand {
    Negation,
    Group,
    /// Joined by `and` with what follows.
    Both(Box<Expr>),
    /// Joined by `or` with what follows.
    Either(Box<Expr>),
}

/// What a pending operand takes.
#[derive(Clone, Copy)]
pub(crate) enum Takes {
    Operand,
    Conjunction,
    /// The expression between its parentheses.
    Expression,
}

impl PendingOperand {
    // What the pending operand takes once it is complete.
    fn takes(&self) -> Takes
        ensures { result ≡ takes (pending_value self.now) }
    {
        match self {
            PendingOperand::Negation => Takes::Operand,
            PendingOperand::Group => Takes::Expression,
            PendingOperand::Both(_) => Takes::Operand,
            PendingOperand::Either(_) => Takes::Conjunction,
        }
    }

    // The expression of the pending operand with its right operand.
    fn with_right_operand(self, alloc: Global, right: Expr) -> Result<Expr, AllocError>
        ensures { IfOk result (λ e. formula e ≡ with_right_operand (pending_value self) (formula right)) }
    {
        match self {
            PendingOperand::Negation => Ok(Expr::Not(Box::new(alloc, right)?)),
            PendingOperand::Group => Ok(right),
            PendingOperand::Both(left) => Ok(Expr::And(left, Box::new(alloc, right)?)),
            PendingOperand::Either(left) => Ok(Expr::Or(left, Box::new(alloc, right)?)),
        }
    }
}

/// All pending operands.
#[derive(Drop)]
pub(crate) struct Stack {
    // The newest last.
    items: Vec<PendingOperand>,
}

impl Model for Stack {
    ghost use Rattle.std.specs.Prelude.{List};
    ghost use Rattle.std.specs.Coded.{codes};
    ghost use Rattle.st_filter.specs.FormulaCode.{formula_code};
    ghost use Rattle.st_grammar.specs.Expression.{PendingOperand};
    ghost use Rattle.st_policy_states.specs.Stack.{stack_of};

    ghost Value = { List PendingOperand };

    ghost coded = { Prim.hlevel (codes, formula_code) };

    ghost view = { λ s. stack_of s.items.items };
}

impl Stack {
    /// A stack without pending operands; it takes no memory.
    pub(crate) fn new(alloc: Global) -> Self
        ensures { result ≡ [] }
    {
        Stack {
            items: Vec::new(alloc),
        }
    }

    /// Drops all pending operands; the memory is kept for the next row.
    pub(crate) fn clear(&mut self)
        ensures { self.new ≡ [] }
    {
        self.items.clear();
    }

    pub(crate) fn push(&mut self, pending: PendingOperand) -> Result<(), AllocError>
        ensures { OnOk result (self.new ≡ pending_value pending ∷ self.old) }
    {
        self.items.push(pending)?;
        Ok(())
    }

    fn pop(&mut self) -> Option<PendingOperand>
        ensures some { IfSome result (λ p. self.old ≡ pending_value p ∷ self.new) }
        ensures none { IfNone result (self.old ≡ []) }
    {
        self.items.pop()
    }

    // What the newest pending operand takes.
    fn newest(&self) -> Option<Takes>
        ensures { result ≡ newest self.now }
    {
        self.items.last().map(PendingOperand::takes)
    }

    // The pending operands that bind take the operand. Not inlined, since mostly there is none.
    #[inline(never)]
    #[tactic(auto, using(crate::proofs::Settling::settle_binds, crate::proofs::Settling::settle_stops))]
    fn bind(&mut self, alloc: Global, operand: &mut Expr) -> Result<(), AllocError>
        ensures { OnOk result (reduced self.new (formula operand.new) ≡ settle self.old (formula operand.old)) }
    {
        while let Some(Takes::Operand) = self.newest() {
            let Some(pending) = self.pop() else {
                unreachable!()
            };
            let right = replace(operand, Expr::True);
            *operand = pending.with_right_operand(alloc, right)?;
        }
        Ok(())
    }

    /// An operand is complete: the pending operands that bind take it.
    #[inline]
    #[tactic(auto, using(crate::proofs::Settling::settle_stops))]
    pub(crate) fn settle(&mut self, alloc: Global, operand: &mut Expr) -> Result<(), AllocError>
        ensures { OnOk result (reduced self.new (formula operand.new) ≡ settle self.old (formula operand.old)) }
    {
        match self.newest() {
            Some(Takes::Operand) => self.bind(alloc, operand),
            _ => Ok(()),
        }
    }

    // A pending `or` takes the conjunction. Not inlined, like `bind`.
    #[inline(never)]
    #[tactic(auto, using(crate::proofs::Settling::close_either_joins))]
    fn bind_either(&mut self, alloc: Global, conjunction: &mut Expr) -> Result<(), AllocError>
        requires { newest self.old ≡ Some Takes.Conjunction }
        ensures { OnOk result (reduced self.new (formula conjunction.new) ≡ close_either self.old (formula conjunction.old)) }
    {
        let Some(pending) = self.pop() else {
            unreachable!()
        };
        let right = replace(conjunction, Expr::True);
        *conjunction = pending.with_right_operand(alloc, right)?;
        Ok(())
    }

    /// A conjunction is complete: a pending `or` takes it.
    #[inline]
    #[tactic(auto, using(crate::proofs::Settling::close_either_stops))]
    pub(crate) fn close_either(
        &mut self,
        alloc: Global,
        conjunction: &mut Expr,
    ) -> Result<(), AllocError>
        ensures { OnOk result (reduced self.new (formula conjunction.new) ≡ close_either self.old (formula conjunction.old)) }
    {
        match self.newest() {
            Some(Takes::Conjunction) => self.bind_either(alloc, conjunction),
            _ => Ok(()),
        }
    }

    /// The innermost parenthesis is closed.
    #[tactic(auto, using(crate::proofs::Settling::without_group_first, crate::proofs::Settling::without_group_none))]
    pub(crate) fn leave_group(&mut self)
        ensures { self.new ≡ without_group self.old }
    {
        if let Some(Takes::Expression) = self.newest() {
            let _ = self.pop();
        }
    }
}
