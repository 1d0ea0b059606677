ghost use Rattle.std.specs.Prelude.{◌≡◌, IfOk};
ghost use Rattle.std.specs.List.{fold};
ghost use Rattle.st_filter.specs.Formula.{formula, And};
ghost use Rattle.st_law.specs.Sessions.{learnt_filter, learnt_formula, test_of};

use st_base::Text;
use st_calls::{ArgText, Snapshot};
use st_filter::{Action, Expr, Filter, FilterName, Op};
use std::alloc::{AllocError, Global};

// The test that an argument has exactly this text.
fn test_of(alloc: Global, arg: &ArgText) -> Result<Expr, AllocError>
    ensures { IfOk result (λ test. formula test ≡ test_of arg.now) }
{
    Ok(Expr::Test {
        label: Text::of(alloc, arg.label.word())?,
        index: arg.index,
        op: Op::Eq,
        text: arg.text.copy(alloc)?,
    })
}

// The conjunction of two expressions.
fn both(alloc: Global, left: Expr, right: Expr) -> Result<Expr, AllocError>
    ensures { IfOk result (λ expr. formula expr ≡ And (formula left) (formula right)) }
{
    Ok(Expr::And(Box::new(alloc, left)?, Box::new(alloc, right)?))
}

// The conjunction of an expression and the tests of further arguments, from the left.
fn with_tests(alloc: Global, first: Expr, rest: &[ArgText]) -> Result<Expr, AllocError>
    ensures { IfOk result (λ expr. formula expr ≡ fold (λ joined arg. And joined (test_of arg)) (formula first) rest.now) }
{
    let mut expr = first;
    for arg in rest {
        expr = both(alloc, expr, test_of(alloc, arg)?)?;
    }
    Ok(expr)
}

// The conjunction of the tests of all arguments; true of every call if there are none.
fn learnt_expr(alloc: Global, args: &[ArgText]) -> Result<Expr, AllocError>
    ensures { IfOk result (λ expr. formula expr ≡ learnt_formula args.now) }
{
    match args.split_first() {
        Some((first, rest)) => with_tests(alloc, test_of(alloc, first)?, rest),
        None => Ok(Expr::True),
    }
}

/// The filter that is learnt from the copies of a call: a plain permit of its rule, for the calls whose arguments have exactly these texts.
pub fn learnt_filter(alloc: Global, copies: &Snapshot) -> Result<Filter, AllocError>
    ensures { IfOk result (λ filter. filter ≡ learnt_filter copies.now) }
{
    Ok(Filter::new(
        FilterName::Rule(copies.rule),
        learnt_expr(alloc, copies.parts.as_slice())?,
        Action::Permit,
        None,
        false,
        None,
    ))
}
