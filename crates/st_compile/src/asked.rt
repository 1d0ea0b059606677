// The text that a filter asks for first.
ghost use Rattle.std.specs.Prelude.{◌≡◌};
ghost use Rattle.st_filter.specs.Formula.{formula};
ghost use Rattle.st_compile.specs.Asked.{asked_text};

use st_filter::{Expr, Op};

/// The text that an expression asks for first: the expression is true of no call without an argument of this text. Empty if it asks for
/// none. A learnt filter asks for the text of its call's first argument.
pub fn asked_text(expr: &Expr) -> &[u8]
    ensures { result.now ≡ asked_text (formula expr.now) }
{
    match expr {
        Expr::And(left, _) => asked_text(left),
        Expr::Test {
            op: Op::Eq,
            text,
            ..
        } => text.bytes(),
        _ => &[],
    }
}
