// The kernel's own answers of one binary.
ghost use Rattle.std.specs.Prelude.{◌≡◌, List, length, IfOk};
ghost use Rattle.st_calls.specs.Call.{every_rule};
ghost use Rattle.st_calls.specs.declared.rule.Rule.{Rule};
ghost use Rattle.st_filter.specs.Fast.{fast_answer};
ghost use Rattle.st_filter.specs.Formula.{FilterValue};
ghost use Rattle.st_filter.specs.Policies.{filters_of};
ghost use Rattle.st_compile.specs.Answers.{answer_at, with_filter_for, AreAnswersBy};
ghost use Rattle.st_compile.specs.Table.{first_answers};

use st_calls::{FastAnswer, Rule};
use st_filter::{Policy, first_answer};
use std::alloc::{AllocError, Global};
use std::marker::Model;

/// The answers under the filters of one binary.
pub fn answers_under(alloc: Global, policy: &Policy) -> Result<Vec<Option<FastAnswer>>, AllocError>
    ensures { IfOk result (λ answers. answers.items ≡ first_answers policy.now) }
{
    Rule::ALL
        .iter()
        .map(|&rule| first_answer(policy, rule))
        .collect(alloc)
}

/// The answer for a rule by the answers of its binary.
pub fn answer_at(answers: &[Option<FastAnswer>], rule: Rule) -> Option<FastAnswer>
    ensures { result ≡ answer_at answers.now rule }
{
    match answers.get(rule.index()) {
        Some(answer) => *answer,
        None => None,
    }
}

/// The kernel's own answers under the filters of one binary, by the rules. A rule that no filter is for has no answer.
#[derive(Debug, Drop)]
pub struct OwnAnswers {
    // By the indices of the rules.
    answers: Vec<Option<FastAnswer>>,
}

impl Model for OwnAnswers {
    ghost use Rattle.std.specs.Prelude.{◌≡◌, List, Option, length};
    ghost use Rattle.st_calls.specs.Call.{every_rule};
    ghost use Rattle.st_calls.specs.declared.rule.FastAnswer.{FastAnswer};

    ghost Value = { List (Option FastAnswer) };

    ghost view = { λ a. a.answers.items };

    ghost invariant = { λ a. length a.answers.items ≡ length every_rule };
}

impl OwnAnswers {
    /// The answers under a policy.
    pub fn under(alloc: Global, policy: &Policy) -> Result<Self, AllocError>
        ensures { IfOk result (AreAnswersBy (λ rule. filters_of rule policy.now)) }
    {
        let answers = answers_under(alloc, policy)?;
        Ok(OwnAnswers { answers })
    }

    /// Takes a filter with this answer into account that was appended for a rule. Only the first filter for a rule makes a difference. It
    /// takes no memory.
    pub fn appended(&mut self, rule: Rule, answer: FastAnswer)
        ensures { (filters : Rule → List FilterValue) (f : FilterValue) → fast_answer f ≡ answer → AreAnswersBy filters self.old → AreAnswersBy (with_filter_for filters rule f) self.new }
    {
        if answer_at(&self.answers, rule).is_none() {
            self.answers[rule.index()] = Some(answer);
        }
    }

    /// The answers, by the indices of the rules.
    pub fn into_vec(self) -> Vec<Option<FastAnswer>>
        ensures are { result.items ≡ self }
        ensures whole { length result.items ≡ length every_rule }
    {
        self.answers
    }
}
