ghost use Rattle.std.specs.Prelude.{◌≡◌, ◌<◌, ◌^◌, length};
ghost use Rattle.std.specs.List.{list_any};
ghost use Rattle.st_filter.specs.Formula.{formula};
ghost use Rattle.st_filter.specs.Judging.{test_holds_of, is_true, id_of, ids_match, holds, granted, verdict_by, verdict};
ghost use Rattle.st_filter.specs.Policies.{filters_of};

use crate::compare::{compares, compares_ids};
use crate::filter::{Action, Expr, Filter, Grant, Op, Policy, Predicate, Who};
use st_base::{Ids, is_same_text};
use st_calls::{ArgText, Snapshot, Verdict};

// Whether an argument has this label and index, and compares with a text as the operator says.
fn test_holds_of(label: &[u8], index: u32, op: Op, text: &[u8], argument: &ArgText) -> bool
    ensures { result ≡ test_holds_of label.now index op text.now argument.now }
{
    // Many filters of one rule mostly differ in their texts, so the label is compared last.
    argument.index == index
        && compares(op, argument.text.bytes(), text)
        && is_same_text(argument.label.word(), label)
}

// Whether one of the arguments passes the test.
fn one_passes(label: &[u8], index: u32, op: Op, text: &[u8], arguments: &[ArgText]) -> bool
    ensures { result ≡ list_any (test_holds_of label.now index op text.now) arguments.now }
{
    arguments
        .iter()
        .any(|argument| test_holds_of(label, index, op, text, argument))
}

// Whether an expression is true of a call's arguments.
fn is_true(expr: &Expr, arguments: &[ArgText]) -> bool
    ensures { result ≡ is_true (formula expr.now) arguments.now }
{
    match expr {
        Expr::True => true,
        Expr::Test {
            label,
            index,
            op,
            text,
        } => one_passes(label.bytes(), *index, *op, text.bytes(), arguments),
        Expr::Not(operand) => !is_true(operand, arguments),
        Expr::And(left, right) => is_true(left, arguments) && is_true(right, arguments),
        Expr::Or(left, right) => is_true(left, arguments) || is_true(right, arguments),
    }
}

// The effective id that a predicate looks at.
fn id_of(who: Who, ids: Ids) -> u32
    ensures { result ≡ id_of who ids }
{
    match who {
        Who::User => ids.euid,
        Who::Group => ids.egid,
    }
}

/// Whether the effective ids are as a predicate requires; any are, if there is none.
pub fn ids_match(predicate: Option<Predicate>, ids: Ids) -> bool
    ensures { result ≡ ids_match predicate ids }
{
    match predicate {
        None => true,
        Some(predicate) => compares_ids(predicate.cmp, id_of(predicate.who, ids), predicate.id),
    }
}

/// Whether a filter holds of a call, by the copies of its arguments: its expression is true of them, and its predicate of the
/// effective ids.
pub fn holds(filter: &Filter, copies: &Snapshot) -> bool
    ensures { result ≡ holds filter.now copies.now }
{
    is_true(filter.expr(), copies.parts.as_slice()) && ids_match(filter.predicate(), copies.ids)
}

// The ids of a call under a grant.
fn granted(grant: Option<Grant>, ids: Ids) -> Ids
    ensures { result ≡ granted grant ids }
{
    match grant {
        None => ids,
        Some(grant) => Ids {
            euid: grant.user.unwrap_or(ids.euid),
            egid: grant.group.unwrap_or(ids.egid),
            ..ids
        },
    }
}

/// What the filter with this number says of a call with these ids, if it holds; a filter that asks decides nothing.
pub fn verdict_of(filter: &Filter, number: u32, ids: Ids) -> Verdict
    ensures { result ≡ verdict_by number filter.now.grant ids filter.now.action }
{
    match filter.action() {
        Action::Permit => Verdict::Permit(number, granted(filter.grant(), ids)),
        Action::Deny(errno) => Verdict::Refuse(number, errno),
        Action::Ask => Verdict::Unmatched,
    }
}

/// What a policy says of a held call, by the copies of its arguments: what the first filter of the call's rule that holds says. The
/// filters are numbered from 1.
pub fn decide(policy: &Policy, copies: &Snapshot) -> Verdict
    requires { length policy.now < 2 ^ 32 }
    ensures { result ≡ verdict (filters_of copies.now.rule policy.now) copies.now }
{
    let mut number = 0;
    for filter in policy.as_slice() {
        if filter.is_for(copies.rule) {
            number += 1;
            if holds(filter, copies) {
                return verdict_of(filter, number, copies.ids);
            }
        }
    }
    Verdict::Unmatched
}
