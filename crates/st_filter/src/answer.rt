ghost use Rattle.std.specs.Prelude.{◌≡◌};
ghost use Rattle.st_filter.specs.Fast.{fast_answer, first_answer};
ghost use Rattle.st_filter.specs.Policies.{filters_of};

use crate::filter::{Action, Expr, Filter, Policy};
use st_calls::{FastAnswer, Rule};

/// The kernel's own answer if this filter is the first of its rule, as in systrace(4): permit for a plain permit without `as`,
/// `log` and `if`, refuse for a plain denial without `log` and `if`, otherwise ask.
pub fn fast_answer(filter: &Filter) -> FastAnswer
    ensures { result ≡ fast_answer filter.now }
{
    if filter.log() || filter.predicate().is_some() {
        return FastAnswer::Ask;
    }
    if !matches!(filter.expr(), Expr::True) {
        return FastAnswer::Ask;
    }
    match (filter.action(), filter.grant()) {
        (Action::Permit, None) => FastAnswer::Permit,
        (Action::Deny(errno), _) => FastAnswer::Refuse(errno),
        _ => FastAnswer::Ask,
    }
}

/// The kernel's own answer for a rule under these filters, by the first filter for the rule; `None` if there is no such filter.
pub fn first_answer(policy: &Policy, rule: Rule) -> Option<FastAnswer>
    ensures { result ≡ first_answer (filters_of rule policy.now) }
{
    for filter in policy.as_slice() {
        if filter.is_for(rule) {
            return Some(fast_answer(filter));
        }
    }
    None
}
