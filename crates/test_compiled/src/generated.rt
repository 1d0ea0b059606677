// Generated calls under generated policies.
use crate::answers::{AnswerCounts, compare_answers};
use crate::both::Both;
use crate::policies::{call_near, policies_near};
use crate::random::Random;
use st_base::Text;
use st_calls::{Rule, Snapshot, Verdict};
use st_filter::Policies;
use std::alloc::{AllocError, Global};

// So many calls are judged by each set of policies.
const CALLS: u32 = 8;

// How many verdicts the policies give, and how many of the compiled policies' are different.
#[derive(Clone, Copy)]
struct CallCounts {
    permitted: u64,
    denied: u64,
    unmatched: u64,
    different: u64,
}

impl CallCounts {
    fn new() -> Self {
        CallCounts {
            permitted: 0,
            denied: 0,
            unmatched: 0,
            different: 0,
        }
    }

    fn judge(&mut self, both: &Both<'_>, call: &Snapshot) {
        let verdict = both.plain(call);
        match verdict {
            Verdict::Permit(..) => self.permitted = self.permitted.wrapping_add(1),
            Verdict::Refuse(..) => self.denied = self.denied.wrapping_add(1),
            Verdict::Unmatched => self.unmatched = self.unmatched.wrapping_add(1),
        }
        if both.compiled(call) != verdict {
            self.different = self.different.wrapping_add(1);
        }
    }

    // Judges calls, mostly under one rule, by policies.
    fn judge_calls(
        &mut self,
        random: &mut Random,
        alloc: Global,
        policies: &Policies,
        rule: Rule,
    ) -> Result<(), AllocError> {
        let both = Both::new(alloc, policies)?;
        for _ in 0..CALLS {
            let call = call_near(random, alloc, rule)?;
            self.judge(&both, &call);
        }
        Ok(())
    }
}

// Judges calls by policies, and compares the kernel's own answers under them.
fn judge_set(
    random: &mut Random,
    alloc: Global,
    calls: &mut CallCounts,
    answers: &mut AnswerCounts,
) -> Result<(), AllocError> {
    let rule = random.rule();
    let policies = policies_near(random, alloc, rule)?;
    calls.judge_calls(random, alloc, &policies, rule)?;
    compare_answers(random, alloc, &policies, rule, answers)
}

// Appends lines, each of which says how many there are of something.
fn append_counts(out: &mut Text, counts: &[(u64, &[u8])]) -> Result<(), AllocError> {
    for (count, what) in counts {
        out.append_number(*count)?;
        out.append(what)?;
        out.push(b'\n')?;
    }
    Ok(())
}

// Appends what the policies say.
fn append_result(
    sets: u64,
    calls: &CallCounts,
    answers: &AnswerCounts,
    out: &mut Text,
) -> Result<(), AllocError> {
    append_counts(
        out,
        &[
            (sets, b" sets of policies"),
            (calls.permitted, b" calls permitted"),
            (calls.denied, b" denied"),
            (calls.unmatched, b" unmatched"),
            (calls.different, b" judged differently when compiled"),
            (answers.permitted, b" answers permit"),
            (answers.refused, b" refuse"),
            (answers.asked, b" ask"),
            (answers.missing, b" missing"),
            (answers.different, b" different in the table"),
        ],
    )
}

/// Makes so many sets of policies with calls under each, and writes what the policies say. Whether the compiled ones always say the same.
pub fn judge_generated(alloc: Global, sets: u64, out: &mut Text) -> Result<bool, AllocError> {
    let mut random = Random::new();
    let mut answers = AnswerCounts::new();
    let mut calls = CallCounts::new();
    for _ in 0..sets {
        judge_set(&mut random, alloc, &mut calls, &mut answers)?;
    }
    append_result(sets, &calls, &answers, out)?;
    Ok(calls.different == 0 && answers.different == 0)
}
