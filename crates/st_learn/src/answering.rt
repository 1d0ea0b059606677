// The session's filters on a held call: which one decides, and its verdict.
ghost use Rattle.std.specs.Prelude.{◌≡◌, ◌≤◌, ◌^◌, ℕ, suc, length, None, IfSome};
ghost use Rattle.st_calls.specs.declared.judged.Verdict.TheVariants.{Unmatched};
ghost use Rattle.st_filter.specs.Judging.{verdict_from};
ghost use Rattle.st_filter.specs.Policies.{filters_in_force};
ghost use Rattle.st_law.specs.Sessions.{session_filters};
ghost use Rattle.st_learn.specs.Deciding.{IsDeciding, NoneHolds};
ghost use Rattle.st_learn.specs.Sessions.{version_of};

use crate::session::Session;
use st_calls::{Snapshot, Verdict};
use st_compile::Compiled;
use st_filter::{Filter, verdict_of};

impl Session<'_> {
    /// The session's filter that decides on a held call, by the copies of its arguments: the first for its policy and rule that holds, even
    /// if it asks. Also returns its number among the session's filters for them, from 1. None if no filter holds.
    pub fn deciding(&self, copies: &Snapshot) -> Option<(u32, &Filter)>
        ensures few { IfSome result (λ found. found.0 ≤ 2 ^ 31) }
        ensures none { result ≡ None → NoneHolds (session_filters self.now.filters copies.now.policy copies.now.rule) copies.now }
        ensures some { IfSome result (λ found. IsDeciding (session_filters self.now.filters copies.now.policy copies.now.rule) copies.now found.0 found.1.now) }
        ensures unmatched { result ≡ None → (read : ℕ) → verdict_from read (session_filters self.now.filters copies.now.policy copies.now.rule) copies.now ≡ Unmatched }
    {
        let place = self.first_deciding(copies)?;
        Some((self.number_before(place) + 1, self.kept(place).filter()))
    }

    /// The verdict of the session's filters on a held call that the filters in force don't decide, by the copies of its arguments. The
    /// first filter for its policy and rule that holds decides; filters are numbered on after those in force.
    pub fn verdict(&self, compiled: &Compiled<'_>, copies: &Snapshot) -> Verdict
        ensures { result ≡ verdict_from (suc (length (filters_in_force compiled.now copies.now.policy (version_of self.now.reloads copies.now.policy) copies.now.rule))) (session_filters self.now.filters copies.now.policy copies.now.rule) copies.now }
    {
        match self.deciding(copies) {
            Some((number, filter)) => {
                let policy = copies.policy.get().bytes();
                let before = compiled.filter_count(policy, self.version(policy), copies.rule);
                verdict_of(filter, before + number, copies.ids)
            }
            None => Verdict::Unmatched,
        }
    }
}
