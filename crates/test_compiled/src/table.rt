//! A table of calls. A line has the binary whose policy judges the call, the call's rule, the number of its user and group, the texts of
//! its arguments, and after `=` what the policies have to say. A line that describes no call is a heading.

use crate::both::{Both, append_verdict};
use crate::calls::{argument, held_call};
use st_base::number::number_of;
use st_base::{Sequence, Text};
use st_calls::{ArgText, Rule, Snapshot, Verdict, args_of};
use st_filter::{Policies, PolicySet};
use st_grammar::{Env, NamedId};
use st_policy::read_policies;
use std::alloc::{AllocError, Global};

// The longest text of policies that is read.
const MOST_BYTES: usize = 1_048_576;

// Adds a user with this name and this id.
fn add_user(
    alloc: Global,
    name: &[u8],
    id: u32,
    users: &mut Sequence<NamedId>,
) -> Result<(), AllocError> {
    let name = Text::of(alloc, name)?;
    users.push(NamedId { name, id })
}

// Adds the users that the policies name.
fn add_users(alloc: Global, users: &mut Sequence<NamedId>) -> Result<(), AllocError> {
    add_user(alloc, b"root", 0, users)?;
    add_user(alloc, b"www", 67, users)
}

// The users that the policies name, with leave to grant ids.
fn environment(alloc: Global) -> Result<Env, AllocError> {
    let mut env = Env::new(alloc);
    add_users(alloc, &mut env.users)?;
    env.elevate = true;
    Ok(env)
}

// Reads policies into a set. Whether they aren't refused.
fn are_read(alloc: Global, text: &[u8], set: &mut PolicySet) -> Result<bool, AllocError> {
    let env = environment(alloc)?;
    Ok(text.len() <= MOST_BYTES && read_policies(alloc, text, &env, set).is_ok())
}

/// The policies of a text; nothing if it is refused.
pub fn read_set(alloc: Global, text: &[u8]) -> Result<Option<Policies>, AllocError> {
    let mut set = PolicySet::new(alloc);
    if are_read(alloc, text, &mut set)? {
        Ok(Some(Policies::new(alloc, set, Sequence::new(alloc))))
    } else {
        Ok(None)
    }
}

// The words of some bytes, with blanks between them.
fn words_of(alloc: Global, bytes: &[u8]) -> Result<Vec<Text>, AllocError> {
    let mut words = Vec::new(alloc);
    for word in bytes.split(|byte| *byte == b' ') {
        if !word.is_empty() {
            words.push(Text::of(alloc, word)?)?;
        }
    }
    Ok(words)
}

// The arguments of a rule that have these texts, in order.
fn arguments(alloc: Global, rule: Rule, texts: &[Text]) -> Result<Sequence<ArgText>, AllocError> {
    let mut parts = Sequence::new(alloc);
    for (spec, text) in args_of(rule).iter().zip(texts) {
        parts.push(argument(alloc, spec, text.bytes())?)?;
    }
    Ok(parts)
}

// The id that a word spells; 0 if it spells none.
fn id_of(word: &[u8]) -> u32 {
    match number_of(word) {
        Some(number) if number <= u64::from(u32::MAX) => number as u32,
        _ => 0,
    }
}

// The call that words describe.
fn call_of(alloc: Global, words: &[Text]) -> Result<Option<Snapshot>, AllocError> {
    let [binary, rule, id, texts @ ..] = words else {
        return Ok(None);
    };
    let Some(rule) = Rule::of_word(rule.bytes()) else {
        return Ok(None);
    };
    let parts = arguments(alloc, rule, texts)?;
    let call = held_call(alloc, (binary.bytes(), 0), rule, id_of(id.bytes()), parts)?;
    Ok(Some(call))
}

// The state of a table after the lines so far, and what was written of them.
#[derive(Drop)]
struct Table<'a> {
    alloc: Global,
    both: Both<'a>,
    calls: u64,
    // How many calls both say of what the table states.
    right: u64,
    written: Text,
}

impl<'a> Table<'a> {
    // The table before its first line.
    fn new(alloc: Global, policies: &'a Policies) -> Result<Self, AllocError> {
        Ok(Table {
            alloc,
            both: Both::new(alloc, policies)?,
            calls: 0,
            right: 0,
            written: Text::new(alloc),
        })
    }

    // Writes a verdict after a word. Whether it is the one that is stated.
    fn write_verdict(
        &mut self,
        word: &[u8],
        verdict: Verdict,
        stated: &[u8],
    ) -> Result<bool, AllocError> {
        let mut text = Text::of(self.alloc, b" ")?;
        append_verdict(&mut text, verdict)?;
        self.written.append(word)?;
        self.written.append(text.bytes())?;
        Ok(text.bytes() == stated)
    }

    // Judges a call in both ways.
    fn judge(&mut self, call: &Snapshot, stated: &[u8]) -> Result<(), AllocError> {
        let plain = self.both.plain(call);
        let compiled = self.both.compiled(call);
        let first = self.write_verdict(b" | decide:", plain, stated)?;
        let second = self.write_verdict(b" | compiled:", compiled, stated)?;
        self.calls = self.calls.wrapping_add(1);
        if first && second {
            self.right = self.right.wrapping_add(1);
        }
        Ok(())
    }

    // Writes a line, and judges its call.
    fn judge_line(&mut self, line: &[u8]) -> Result<(), AllocError> {
        self.written.append(line)?;
        let mut halves = line.split(|byte| *byte == b'=');
        if let (Some(front), Some(stated)) = (halves.next(), halves.next()) {
            let words = words_of(self.alloc, front)?;
            if let Some(call) = call_of(self.alloc, words.as_slice())? {
                self.judge(&call, stated)?;
            }
        }
        self.written.push(b'\n')
    }

    // Judges the calls of all lines.
    fn judge_lines(&mut self, lines: &[u8]) -> Result<(), AllocError> {
        for line in lines.split(|byte| *byte == b'\n') {
            if !line.is_empty() {
                self.judge_line(line)?;
            }
        }
        Ok(())
    }

    // Appends what was written, and how many calls are as stated. Whether all are.
    fn append_result(&self, out: &mut Text) -> Result<bool, AllocError> {
        out.append(self.written.bytes())?;
        out.append_number(self.calls)?;
        out.append(b" calls, ")?;
        out.append_number(self.right)?;
        out.append(b" of them as stated\n")?;
        Ok(self.calls > 0 && self.right == self.calls)
    }
}

/// Judges the calls of a table, and writes each line with both verdicts after it. Whether all are as stated.
pub fn judge_table(
    alloc: Global,
    policies: &Policies,
    lines: &[u8],
    out: &mut Text,
) -> Result<bool, AllocError> {
    let mut table = Table::new(alloc, policies)?;
    table.judge_lines(lines)?;
    table.append_result(out)
}
