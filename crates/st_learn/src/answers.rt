ghost use Rattle.std.specs.Prelude.{◌≡◌, IfOk};
ghost use Rattle.st_compile.specs.Answers.{AllFilters, AreAnswersUnder};
ghost use Rattle.st_filter.specs.Fast.{fast};
ghost use Rattle.st_law.specs.Machine.{first_state};
ghost use Rattle.st_law.specs.declared.input.Input.{Input};
ghost use Rattle.st_learn.specs.Answers.{AreAnswersIn};

use st_calls::{FastAnswer, Rule};
use st_compile::{Compiled, FastTable};
use st_filter::Policies;
use std::alloc::{AllocError, Global};
use std::marker::Model;

/// What answers calls: held calls are judged by the policies of the run, compiled; the kernel's own answers are by the filters in force and
/// the session's, from a table.
#[derive(Debug, Drop)]
pub struct Answers<'a> {
    pub(crate) compiled: Compiled<'a>,
    pub(crate) own: FastTable,
}

impl<'a> Model for Answers<'a> {
    ghost use Rattle.std.specs.Coded.{codes};
    ghost use Rattle.st_filter.specs.FormulaCode.{formula_code};
    ghost use Rattle.st_learn.specs.Answers.{Answers};

    ghost Value = { Answers };

    ghost coded = { Prim.hlevel (codes, formula_code) };

    ghost view = { λ a. record { policies = a.compiled; own = a.own } };
}

impl<'a> Answers<'a> {
    /// What answers calls before a session has filters or reloads.
    pub fn build(alloc: Global, policies: &'a Policies) -> Result<Self, AllocError>
        ensures { IfOk result (λ answers. (input : Input) → input.policies ≡ policies.now → AreAnswersIn input (first_state input) answers) }
    {
        let compiled = Compiled::build(alloc, policies)?;
        let own = FastTable::build(alloc, policies.read())?;
        Ok(Answers { compiled, own })
    }

    /// The policies of the run, compiled.
    pub fn compiled(&self) -> &Compiled<'a>
        ensures { result.now ≡ self.now.policies }
    {
        &self.compiled
    }

    /// The kernel's own answer for a policy and a rule.
    pub fn own(&self, policy: &[u8], rule: Rule) -> FastAnswer
        ensures { (filters : AllFilters) → AreAnswersUnder filters self.now.own → result ≡ fast (filters policy.now rule) }
    {
        self.own.get(policy, rule)
    }
}
