// The kernel's own answers while filters are appended and policies are reloaded.
use crate::filters::{filter_for, rule_near};
use crate::policies::{BINARIES, BLOCKS, any_binary};
use crate::random::Random;
use st_base::Text;
use st_calls::{FastAnswer, Rule};
use st_compile::{FastTable, OwnAnswers};
use st_filter::{Filter, Policies, Reply, fast_answer, first_answer};
use std::alloc::{AllocError, Global};

// So many filters are appended to each set of policies, and before each of them a policy may be reloaded.
const APPENDED: u32 = 6;

/// How many answers the filters give, how many are missing since no filter is for the rule, and how many of the table's are different.
#[derive(Clone, Copy)]
pub struct AnswerCounts {
    pub permitted: u64,
    pub refused: u64,
    pub asked: u64,
    pub missing: u64,
    pub different: u64,
}

impl AnswerCounts {
    /// No answers yet.
    pub fn new() -> Self {
        AnswerCounts {
            permitted: 0,
            refused: 0,
            asked: 0,
            missing: 0,
            different: 0,
        }
    }

    fn add(&mut self, answer: Option<FastAnswer>, same: bool) {
        match answer {
            Some(FastAnswer::Permit) => self.permitted = self.permitted.wrapping_add(1),
            Some(FastAnswer::Refuse(_)) => self.refused = self.refused.wrapping_add(1),
            Some(FastAnswer::Ask) => self.asked = self.asked.wrapping_add(1),
            None => self.missing = self.missing.wrapping_add(1),
        }
        if !same {
            self.different = self.different.wrapping_add(1);
        }
    }
}

// Takes a filter that was appended into account.
fn append_filter(answers: &mut OwnAnswers, filter: &Filter) {
    for rule in Rule::ALL {
        if filter.is_for(rule) {
            answers.appended(rule, fast_answer(filter));
        }
    }
}

// Policies, the filters appended and the policies reloaded since, and the table that has to know of all.
#[derive(Drop)]
struct Tried<'a> {
    policies: &'a Policies,
    session: Vec<Reply>,
    reloads: Vec<u32>,
    table: FastTable,
}

impl<'a> Tried<'a> {
    // The answer of the first filter that was appended for a binary and a rule.
    fn first_appended(&self, binary: &[u8], rule: Rule) -> Option<FastAnswer> {
        for reply in self.session.as_slice() {
            if reply.binary.bytes() == binary && reply.filter.is_for(rule) {
                return Some(fast_answer(&reply.filter));
            }
        }
        None
    }

    // Whether a reload of this number puts a policy of this binary in force.
    fn is_reload_of(&self, number: u32, binary: &[u8]) -> bool {
        match self.policies.block(number) {
            Some(block) => block.binary.bytes() == binary,
            None => false,
        }
    }

    // The version of a binary's policy that is in force: that of its last reload.
    fn version(&self, binary: &[u8]) -> u32 {
        let mut version = 0;
        for number in self.reloads.as_slice() {
            if self.is_reload_of(*number, binary) {
                version = *number;
            }
        }
        version
    }

    // The answer of the first filter for a binary and a rule, of those in force and then of the session's.
    fn first(&self, binary: &[u8], rule: Rule) -> Option<FastAnswer> {
        match first_answer(self.policies.in_force(binary, self.version(binary)), rule) {
            Some(answer) => Some(answer),
            None => self.first_appended(binary, rule),
        }
    }

    // Compares the table's answers for a binary with those of the filters.
    fn compare(&self, binary: &[u8], counts: &mut AnswerCounts) {
        for rule in Rule::ALL {
            let first = self.first(binary, rule);
            let answer = first.unwrap_or(FastAnswer::Ask);
            counts.add(first, self.table.get(binary, rule) == answer);
        }
    }

    // Takes the filters that were appended for a binary into account.
    fn append_again(&self, binary: &[u8], answers: &mut OwnAnswers) {
        for reply in self.session.as_slice() {
            if reply.binary.bytes() == binary {
                append_filter(answers, &reply.filter);
            }
        }
    }

    // Puts the policy of this number in force for its binary.
    fn reload(&mut self, alloc: Global, version: u32) -> Result<(), AllocError> {
        let policies: &'a Policies = self.policies;
        let Some(block) = policies.block(version) else {
            return Ok(());
        };
        let mut answers = OwnAnswers::under(alloc, &block.filters)?;
        self.append_again(block.binary.bytes(), &mut answers);
        let row = self.table.make_row(alloc, block.binary.bytes())?;
        self.table.reload(row, answers);
        self.reloads.push(version)?;
        Ok(())
    }

    // Appends a filter, mostly for this rule.
    fn append(&mut self, random: &mut Random, alloc: Global, rule: Rule) -> Result<(), AllocError> {
        let binary = any_binary(random);
        let rule = rule_near(random, rule);
        let filter = filter_for(random, alloc, rule)?;
        let row = self.table.make_row(alloc, binary)?;
        self.table.appended(row, rule, fast_answer(&filter));
        self.session.push(Reply {
            binary: Text::of(alloc, binary)?,
            filter,
        })?;
        Ok(())
    }

    // Reloads a policy or not, and appends a filter.
    fn change(&mut self, random: &mut Random, alloc: Global, rule: Rule) -> Result<(), AllocError> {
        if random.is_one_in(3) {
            self.reload(alloc, random.below(BLOCKS) + 1)?;
        }
        self.append(random, alloc, rule)
    }

    // Compares the table's answers with those of the filters after each of some changes.
    fn compare_changed(
        &mut self,
        random: &mut Random,
        alloc: Global,
        rule: Rule,
        counts: &mut AnswerCounts,
    ) -> Result<(), AllocError> {
        for _ in 0..APPENDED {
            self.change(random, alloc, rule)?;
            self.compare(BINARIES[0], counts);
            self.compare(BINARIES[1], counts);
            self.compare(BINARIES[2], counts);
        }
        Ok(())
    }
}

/// Compares the answers for all binaries and rules after each of some appends, with reloads between them.
pub fn compare_answers(
    random: &mut Random,
    alloc: Global,
    policies: &Policies,
    rule: Rule,
    counts: &mut AnswerCounts,
) -> Result<(), AllocError> {
    let mut tried = Tried {
        policies,
        session: Vec::new(alloc),
        reloads: Vec::new(alloc),
        table: FastTable::build(alloc, policies.read())?,
    };
    tried.compare_changed(random, alloc, rule, counts)
}
