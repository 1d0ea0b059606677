//! Measures the cost of proved parts: `bench_parts KIND COUNT` does one kind of work COUNT times.
#![tactic(auto)]

mod claims;
mod files;
mod names;
mod spaces;

use st_base::number::number_of;
use std::alloc::AllocError;
use std::env;
use std::process::ExitCode;
use std::rt::Env;

// The result of a kind of work done this many times; nothing if the word names no kind.
fn work<R: AllocGlobal>(rt: &R, kind: &[u8], count: u64) -> Result<Option<u64>, AllocError> {
    let alloc = rt.alloc();
    if kind == b"look".as_slice() {
        return Ok(Some(names::looks(alloc, count)?));
    }
    if kind == b"walk".as_slice() {
        return Ok(Some(names::walks(alloc, count)?));
    }
    if kind == b"claim".as_slice() {
        return Ok(Some(claims::claims(alloc, count)?));
    }
    if kind == b"read".as_slice() {
        return Ok(Some(files::reads(alloc, count)?));
    }
    if kind == b"write".as_slice() {
        return Ok(Some(files::writes(alloc, count)?));
    }
    if kind == b"fork".as_slice() {
        return Ok(Some(spaces::copies(alloc, count)?));
    }
    Ok(None)
}

fn word_of<R: Env + AllocGlobal>(rt: &R, place: usize) -> Option<u64> {
    let word = env::args(rt).ok()?.nth(place)?;
    number_of(word.as_bytes())
}

fn run<R: Env + AllocGlobal>(rt: &R) -> Result<Option<u64>, AllocError> {
    let Some(count) = word_of(rt, 2) else {
        return Ok(None);
    };
    match env::args(rt) {
        Ok(mut words) => match words.nth(1) {
            Some(kind) => work(rt, kind.as_bytes(), count),
            None => Ok(None),
        },
        Err(_) => Ok(None),
    }
}

fn main(rt: HostRuntime) -> ExitCode {
    match run(&rt) {
        Ok(Some(answer)) => match println!(rt; "{answer}") {
            Ok(()) => ExitCode::from(0),
            Err(_) => ExitCode::from(6),
        },
        Ok(None) => ExitCode::from(2),
        Err(_) => ExitCode::from(7),
    }
}
