ghost use Rattle.std.specs.Prelude.{◌≡◌, ℕ, List, None, Some, IfOk, OnOk, map};
ghost use Rattle.st_calls.specs.Call.{every_rule};
ghost use Rattle.st_calls.specs.declared.rule.Rule.{Rule};
ghost use Rattle.st_filter.specs.Fast.{fast, fast_answer};
ghost use Rattle.st_filter.specs.Formula.{FilterValue};
ghost use Rattle.st_filter.specs.Policies.{read_filters};
ghost use Rattle.st_compile.specs.Answers.{answer_in, answers_in, with_appended, with_policy_filters, AllFilters, AreAnswersBy, AreAnswersUnder, ChangesAnswer, KeepsAnswers};
ghost use Rattle.st_compile.specs.Table.{answer_row, first_answers, Gains, IsTableOf};

use crate::own_answers::{OwnAnswers, answer_at, answers_under};
use indexmap::IndexMap;
use st_base::Text;
use st_calls::{FastAnswer, Rule};
use st_filter::{Policy, PolicySet, row_in};
use std::alloc::{AllocError, Global};
use std::marker::Model;

/// The kernel's own answers under the filters in force, by the binary and the rule. An answer takes one lookup, however many filters there
/// are. A rule that no filter is for has no answer.
#[derive(Debug, Drop)]
pub struct FastTable {
    // For each binary, the answers by the indices of the rules.
    tables: IndexMap<Vec<u8>, Vec<Option<FastAnswer>>>,
}

impl Model for FastTable {
    ghost use Rattle.std.specs.Prelude.{List};
    ghost use Rattle.st_compile.specs.Table.{represented_table, AreTables, BinaryAnswers};

    ghost Value = { List BinaryAnswers };

    ghost view = { λ t. represented_table t.tables.entries };

    ghost invariant = { λ t. AreTables (represented_table t.tables.entries) };
}

// The answers under each policy of a set.
fn table_of(alloc: Global, policies: &PolicySet) -> Result<FastTable, AllocError>
    ensures { IfOk result (λ table. IsTableOf policies.now table) }
{
    let mut table = FastTable {
        tables: IndexMap::new(alloc),
    };
    for i in 0..policies.len() {
        table.add(alloc, policies.binary(i), policies.policy(i))?;
    }
    Ok(table)
}

// No answer for any rule.
fn no_answers(alloc: Global) -> Result<Vec<Option<FastAnswer>>, AllocError>
    ensures { IfOk result (λ answers. answers.items ≡ map (λ rule. None) every_rule) }
{
    Rule::ALL.iter().map(|_| None).collect(alloc)
}

impl FastTable {
    /// The answers under all policies of a set.
    pub fn build(alloc: Global, policies: &PolicySet) -> Result<Self, AllocError>
        ensures { IfOk result (AreAnswersUnder (read_filters policies.now)) }
    {
        let table = table_of(alloc, policies)?;
        Ok(table)
    }

    // Adds the answers under the policy of a binary, unless the binary has answers.
    fn add(&mut self, alloc: Global, binary: &[u8], policy: &Policy) -> Result<(), AllocError>
        ensures { OnOk result (Gains self.old binary.now (first_answers policy.now) self.new) }
    {
        if self.tables.contains_key(binary) {
            return Ok(());
        }
        let answers = answers_under(alloc, policy)?;
        self.tables
            .insert(Text::of(alloc, binary)?.into_bytes(), answers)?;
        Ok(())
    }

    // The answers of a binary; empty if it has none.
    fn answers(&self, binary: &[u8]) -> &[Option<FastAnswer>]
        ensures { result.now ≡ answers_in self.now binary.now }
    {
        match row_in(&self.tables, binary) {
            Some(row) => self.tables[row].as_slice(),
            None => &[],
        }
    }

    /// The kernel's own answer for a binary and a rule, by the first filter in force.
    pub fn get(&self, binary: &[u8], rule: Rule) -> FastAnswer
        ensures { (filters : AllFilters) → AreAnswersUnder filters self.now → result ≡ fast (filters binary.now rule) }
    {
        answer_at(self.answers(binary), rule).unwrap_or(FastAnswer::Ask)
    }

    /// The row of a binary, which is made if there is none. The answers don't change, even if memory runs out.
    pub fn make_row(&mut self, alloc: Global, binary: &[u8]) -> Result<usize, AllocError>
        ensures row { IfOk result (λ row. answer_row self.new binary.now ≡ Some row) }
        ensures kept { KeepsAnswers self.old self.new }
    {
        match row_in(&self.tables, binary) {
            Some(row) => Ok(row),
            None => {
                let answers = no_answers(alloc)?;
                let key = Text::of(alloc, binary)?.into_bytes();
                let (row, _) = self.tables.insert_full(key, answers)?;
                Ok(row)
            }
        }
    }

    // The answer in a row for a rule.
    fn answer_in(&self, row: usize, rule: Rule) -> Option<FastAnswer>
        requires { (binary : List ℕ) × (answer_row self.now binary ≡ Some row) }
        ensures { (binary : List ℕ) → answer_row self.now binary ≡ Some row → result ≡ answer_in self.now binary rule }
    {
        answer_at(self.tables[row].as_slice(), rule)
    }

    // Gives a row and a rule an answer.
    fn set_answer(&mut self, row: usize, rule: Rule, answer: FastAnswer)
        requires { (binary : List ℕ) × (answer_row self.old binary ≡ Some row) }
        ensures { (binary : List ℕ) → answer_row self.old binary ≡ Some row → ChangesAnswer self.old binary rule answer self.new }
    {
        let answers = &mut self.tables[row];
        answers[rule.index()] = Some(answer);
    }

    /// Takes a filter with this answer into account that was appended for the binary of a row and a rule. Only the first filter for them
    /// makes a difference. It takes no memory.
    pub fn appended(&mut self, row: usize, rule: Rule, answer: FastAnswer)
        requires { (binary : List ℕ) × (answer_row self.old binary ≡ Some row) }
        ensures { (filters : AllFilters) (binary : List ℕ) (f : FilterValue) → answer_row self.old binary ≡ Some row → fast_answer f ≡ answer → AreAnswersUnder filters self.old → AreAnswersUnder (with_appended filters binary rule f) self.new }
    {
        if self.answer_in(row, rule).is_none() {
            self.set_answer(row, rule, answer);
        }
    }

    /// Gives the binary of a row these answers, such as those under a policy that a reload puts in force. It takes no memory.
    pub fn reload(&mut self, row: usize, answers: OwnAnswers)
        requires { (binary : List ℕ) × (answer_row self.old binary ≡ Some row) }
        ensures { (filters : AllFilters) (binary : List ℕ) (own : Rule → List FilterValue) → answer_row self.old binary ≡ Some row → AreAnswersBy own answers → AreAnswersUnder filters self.old → AreAnswersUnder (with_policy_filters filters binary own) self.new }
    {
        self.tables[row] = answers.into_vec();
    }
}
