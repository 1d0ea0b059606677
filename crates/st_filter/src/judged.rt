ghost use Rattle.std.specs.Prelude.{◌≡◌};
ghost use Rattle.st_filter.specs.Judged.{verdict_under};

use crate::judging::decide;
use crate::policies::Policies;
use st_base::Shared;
use st_calls::{Snapshot, Verdict};
use std::marker::Model;

/// A held call with the verdict of the policies of a run. The verdict is that of the call's own policy at its version, whoever found it.
#[derive(Debug, Drop)]
pub struct Judged<'a> {
    policies: &'a Policies,
    snapshot: Shared<Snapshot>,
    verdict: Verdict,
}

impl<'a> Model for Judged<'a> {
    ghost use Rattle.std.specs.Prelude.{◌≡◌};
    ghost use Rattle.std.specs.Coded.{codes};
    ghost use Rattle.st_filter.specs.FormulaCode.{formula_code};
    ghost use Rattle.st_filter.specs.Judged.{JudgedCall, verdict_under};

    ghost Value = { JudgedCall };

    ghost coded = { Prim.hlevel (codes, formula_code) };

    ghost view = { λ j. record { policies = j.policies.now; snapshot = j.snapshot; verdict = j.verdict } };

    ghost invariant = { λ j. j.verdict ≡ verdict_under j.policies.now j.snapshot };
}

impl<'a> Judged<'a> {
    /// Judges a call by its version of the policy of its binary. It takes no memory.
    pub fn judge(policies: &'a Policies, snapshot: Shared<Snapshot>) -> Self
        ensures policies { result.policies ≡ policies.now }
        ensures snapshot { result.snapshot ≡ snapshot }
    {
        let call = snapshot.get();
        let policy = policies.in_force(call.policy.get().bytes(), call.version);
        let verdict = decide(policy, call);
        Judged::with(policies, snapshot, verdict)
    }

    /// A call with its verdict, which was found before. It takes no memory.
    pub fn with(policies: &'a Policies, snapshot: Shared<Snapshot>, verdict: Verdict) -> Self
        requires { verdict ≡ verdict_under policies.now snapshot }
        ensures { result ≡ record { policies = policies.now; snapshot = snapshot; verdict = verdict } }
    {
        Judged {
            policies,
            snapshot,
            verdict,
        }
    }

    /// The call.
    pub fn snapshot(&self) -> &Snapshot
        ensures { result.now ≡ self.now.snapshot }
    {
        self.snapshot.get()
    }

    /// The verdict on the call.
    pub fn verdict(&self) -> Verdict
        ensures is { result ≡ self.now.verdict }
        ensures under { result ≡ verdict_under self.now.policies self.now.snapshot }
    {
        self.verdict
    }
}
