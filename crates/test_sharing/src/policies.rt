//! Policies, and what is judged and answered by them.

use crate::is_shareable;
use st_compile::{Compiled, FastTable, OwnAnswers, Places};
use st_filter::{
    Action, BinaryPolicy, Cmp, Expr, Filter, FilterName, Grant, Judged, Op, Policies, Policy,
    PolicySet, Predicate, Reply, Who,
};
use st_law::Input;
use st_learn::{AddedFilter, Answers, KeptFilter, Operator, Session};

/// Parts of filters, and tables of answers.
pub fn parts_of_filters_are_shareable() {
    is_shareable::<FilterName>();
    is_shareable::<Op>();
    is_shareable::<Action>();
    is_shareable::<Grant>();
    is_shareable::<Predicate>();
    is_shareable::<Who>();
    is_shareable::<Cmp>();
    is_shareable::<FastTable>();
    is_shareable::<OwnAnswers>();
    is_shareable::<Places>();
}

/// Policies that were read, and what is judged by them.
pub fn policies_are_shareable() {
    is_shareable::<Expr>();
    is_shareable::<Filter>();
    is_shareable::<Policy>();
    is_shareable::<BinaryPolicy>();
    is_shareable::<PolicySet>();
    is_shareable::<Policies>();
    is_shareable::<Reply>();
    is_shareable::<Input>();
    is_shareable::<Judged<'_>>();
    is_shareable::<Compiled<'_>>();
}

/// Filters that were added to those that were read, and what the kernel answers by both.
pub fn sessions_are_shareable() {
    is_shareable::<AddedFilter<'_>>();
    is_shareable::<KeptFilter<'_>>();
    is_shareable::<Session<'_>>();
    is_shareable::<Operator<'_>>();
    is_shareable::<Answers<'_>>();
}
