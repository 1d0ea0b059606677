// What decided on a held call.
ghost use Rattle.std.specs.Prelude.{◌≡◌, option_copied};
ghost use Rattle.st_audit.specs.FromHistory.{decided_after, decided_by_policy, decided_by_session};
ghost use Rattle.st_audit.specs.How.{decided_with, marks_of};

use crate::marks::Marks;
use st_calls::{ArgText, Snapshot, Verdict};
use st_compile::Compiled;
use st_filter::{Action, Filter};
use st_learn::Session;
use std::marker::Model;

/// What an audit says of a held call: its arguments, and the number and marks of the filter that decided.
#[derive(Drop)]
pub struct Decided<'a> {
    parts: &'a [ArgText],
    number: u64,
    marks: Marks,
}

impl<'a> Model for Decided<'a> {
    ghost use Rattle.st_audit.specs.How.{Decided, decided_with};

    ghost Value = { Decided };

    ghost view = { λ d. decided_with d.parts.now d.number d.marks };
}

impl<'a> Decided<'a> {
    // A held call with these copies, decided by this filter, if there is one.
    fn by(copies: &'a Snapshot, number: u64, filter: Option<&Filter>) -> Self
        ensures { result ≡ decided_with copies.now.parts number (marks_of (option_copied filter.entry)) }
    {
        Decided {
            parts: copies.parts.as_slice(),
            number,
            marks: Marks::of(filter),
        }
    }

    /// The arguments that were judged.
    pub fn parts(&self) -> &'a [ArgText]
        ensures { result.now ≡ self.now.parts }
    {
        self.parts
    }

    /// The number of the filter that decided; 0 if none did.
    pub fn number(&self) -> u64
        ensures { result ≡ self.now.number }
    {
        self.number
    }

    /// What an audit says of that filter.
    pub fn marks(&self) -> Marks
        ensures { result ≡ self.now.marks }
    {
        self.marks
    }
}

/// The filters of a run.
#[derive(Clone, Copy)]
pub struct RunFilters<'a, 'p, 's> {
    /// Those of its policies.
    pub policies: &'a Compiled<'p>,
    /// Those that the run has added.
    pub session: &'a Session<'s>,
}

// What an audit says of a held call with these copies, if the filter with this number among those in force decides.
fn decided_by_policy<'c>(policies: &Compiled<'_>, copies: &'c Snapshot, number: u32) -> Decided<'c>
    ensures { result ≡ decided_by_policy policies.now copies.now number }
{
    let binary = copies.policy.get().bytes();
    let filter = policies.filter(binary, copies.version, copies.rule, number);
    Decided::by(copies, u64::from(number), filter)
}

// What an audit says of a held call with these copies, if no filter in force decides.
fn decided_by_session<'c>(filters: &RunFilters<'_, '_, '_>, copies: &'c Snapshot) -> Decided<'c>
    ensures { result ≡ decided_by_session filters.now.policies.now filters.now.session.now.filters copies.now }
{
    let Some((number, filter)) = filters.session.deciding(copies) else {
        return Decided::by(copies, 0, None);
    };
    match filter.action() {
        Action::Permit | Action::Deny(_) => {
            let binary = copies.policy.get().bytes();
            let before = filters
                .policies
                .filter_count(binary, copies.version, copies.rule);
            Decided::by(copies, u64::from(before) + u64::from(number), Some(filter))
        }
        Action::Ask => Decided::by(copies, 0, None),
    }
}

/// What an audit says of a held call with these copies, if the filters in force say this of it.
pub fn decided_after<'c>(
    filters: &RunFilters<'_, '_, '_>,
    copies: &'c Snapshot,
    verdict: Verdict,
) -> Decided<'c>
    ensures { result ≡ decided_after filters.now.policies.now filters.now.session.now.filters copies.now verdict }
{
    match verdict {
        Verdict::Permit(number, _) | Verdict::Refuse(number, _) => {
            decided_by_policy(filters.policies, copies, number)
        }
        Verdict::Unmatched => decided_by_session(filters, copies),
    }
}
