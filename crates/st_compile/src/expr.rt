// Expressions whose tests know the places of their arguments.
ghost use Rattle.std.specs.Prelude.{◌≡◌, List, IfOk, true};
ghost use Rattle.st_filter.specs.Formula.{formula, Test};
ghost use Rattle.st_compile.specs.Arguments.{are_distinct};
ghost use Rattle.st_compile.specs.Compiling.{HasTruthOf, is_true_at};

use crate::argument::place_called;
use crate::passing::{passes, shared_len};
use st_calls::{ArgSpec, ArgText};
use st_filter::{Expr, Op};
use std::alloc::{AllocError, Global};

/// An expression of a filter whose tests know the places of their arguments. Its texts are the filter's.
#[derive(Debug, Drop)]
pub enum CompiledExpr<'a> {
    True,
    /// A test of an argument that the rule's calls lack.
    Never,
    Test {
        place: usize,
        /// The argument begins with so many bytes of the text, if it passes.
        shared: usize,
        op: Op,
        text: &'a [u8],
    },
    Not(Box<CompiledExpr<'a>>),
    And(Box<CompiledExpr<'a>>, Box<CompiledExpr<'a>>),
    Or(Box<CompiledExpr<'a>>, Box<CompiledExpr<'a>>),
}

// A test of the argument with a label of this name and this index, among those of a rule.
fn compiled_test<'a>(
    specs: &[ArgSpec],
    label: &[u8],
    index: u32,
    op: Op,
    text: &'a [u8],
) -> CompiledExpr<'a>
    requires { are_distinct specs.now ≡ true }
    ensures { HasTruthOf specs.now (Test label.now index op text.now) result }
{
    match place_called(specs, label, index) {
        Some(place) => CompiledExpr::Test {
            place,
            shared: shared_len(op, text),
            op,
            text,
        },
        None => CompiledExpr::Never,
    }
}

/// An expression whose tests know the places of their arguments among those of a rule: true of the same calls.
pub fn compiled<'a>(
    alloc: Global,
    specs: &[ArgSpec],
    expr: &'a Expr,
) -> Result<CompiledExpr<'a>, AllocError>
    requires { are_distinct specs.now ≡ true }
    ensures { IfOk result (HasTruthOf specs.now (formula expr.now)) }
{
    Ok(match expr {
        Expr::True => CompiledExpr::True,
        Expr::Test {
            label,
            index,
            op,
            text,
        } => compiled_test(specs, label.bytes(), *index, *op, text.bytes()),
        Expr::Not(operand) => CompiledExpr::Not(Box::new(alloc, compiled(alloc, specs, operand)?)?),
        Expr::And(left, right) => CompiledExpr::And(
            Box::new(alloc, compiled(alloc, specs, left)?)?,
            Box::new(alloc, compiled(alloc, specs, right)?)?,
        ),
        Expr::Or(left, right) => CompiledExpr::Or(
            Box::new(alloc, compiled(alloc, specs, left)?)?,
            Box::new(alloc, compiled(alloc, specs, right)?)?,
        ),
    })
}

/// Whether an expression is true of a call's arguments. No label is looked at.
pub fn is_true(expr: &CompiledExpr<'_>, arguments: &[ArgText]) -> bool
    ensures { result ≡ is_true_at expr.now arguments.now }
{
    match expr {
        CompiledExpr::True => true,
        CompiledExpr::Never => false,
        CompiledExpr::Test {
            place,
            shared,
            op,
            text,
        } => passes(*op, *shared, text, arguments.get(*place)),
        CompiledExpr::Not(operand) => !is_true(operand, arguments),
        CompiledExpr::And(left, right) => is_true(left, arguments) && is_true(right, arguments),
        CompiledExpr::Or(left, right) => is_true(left, arguments) || is_true(right, arguments),
    }
}
