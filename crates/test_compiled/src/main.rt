//! Compares what policies and compiled policies say of calls: of those of tables, which state what the policies have to say, and of
//! generated ones. A word that is a number makes that many sets of policies, with calls under each; another names a table, with its
//! policies in `WORD.policy` and its calls in `WORD.calls`.
#![tactic(auto)]

mod answers;
mod both;
mod calls;
mod filters;
mod generated;
mod policies;
mod random;
mod table;

use crate::generated::judge_generated;
use crate::table::{judge_table, read_set};
use st_base::Text;
use st_base::number::number_of;
use st_outside::{Files, StdFiles, StdSink, write_all};
use std::alloc::{AllocError, Global};
use std::process::ExitCode;
use std::{env, rt};

// The text of the file whose name is that of a table with this end; empty if it can't be read.
fn fetched<R: rt::Files>(
    rt: &R,
    alloc: Global,
    table: &[u8],
    end: &[u8],
) -> Result<Text, AllocError> {
    let mut name = Text::of(alloc, table)?;
    name.append(end)?;
    match StdFiles::new(rt).fetch(alloc, &name) {
        Ok(text) => Ok(text),
        Err(_) => Ok(Text::new(alloc)),
    }
}

// Judges the calls of a table, and writes the result. Whether all verdicts are as stated.
fn judge_named<R: rt::Files>(
    rt: &R,
    alloc: Global,
    table: &[u8],
    out: &mut Text,
) -> Result<bool, AllocError> {
    let policies = fetched(rt, alloc, table, b".policy")?;
    let calls = fetched(rt, alloc, table, b".calls")?;
    match read_set(alloc, policies.bytes())? {
        Some(policies) => judge_table(alloc, &policies, calls.bytes(), out),
        None => {
            out.append(b"no policies\n")?;
            Ok(false)
        }
    }
}

// Judges what a word names, and writes the result. Whether all is as it has to be.
fn judge_word<R: rt::Files>(
    rt: &R,
    alloc: Global,
    word: &[u8],
    out: &mut Text,
) -> Result<bool, AllocError> {
    match number_of(word) {
        Some(sets) => judge_generated(alloc, sets, out),
        None => judge_named(rt, alloc, word, out),
    }
}

// Judges what all words name, and writes the results. Whether all is as it has to be.
fn judge_words<R: rt::Env + rt::Files + AllocGlobal>(
    rt: &R,
    out: &mut Text,
) -> Result<bool, AllocError> {
    let mut right = true;
    if let Ok(words) = env::args(rt) {
        for word in words.skip(1) {
            if !judge_word(rt, rt.alloc(), word.as_bytes(), out)? {
                right = false;
            }
        }
    }
    Ok(right)
}

fn main(rt: HostRuntime) -> ExitCode {
    let mut out = Text::new(rt.alloc());
    match judge_words(&rt, &mut out) {
        Ok(right) => match write_all(&mut StdSink::new(&rt), out.bytes()) {
            Ok(()) => ExitCode::from(if right { 0 } else { 1 }),
            Err(_) => ExitCode::from(6),
        },
        Err(_) => ExitCode::from(7),
    }
}
