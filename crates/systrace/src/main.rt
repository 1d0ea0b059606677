//! The program `systrace`, which runs a top call on the words of the command line: that of `run` if they begin with it. It writes the text to
//! standard output and the reason of a refusal to standard error, and ends with the status's number.
#![tactic(auto)]

ghost use Rattle.std.specs.Prelude.{◌≡◌};
ghost use Rattle.std.specs.Process.{exit_status};
ghost use Rattle.st_top.specs.Number.{number_of_status};

mod kept;

use crate::kept::{Kept, KeptFiles};
use st_base::Text;
use st_diagnostics::{OUT_OF_MEMORY, line_of, unread_message};
use st_outside::{StdFiles, StdSink, Unread};
use st_top::{OpenGate, Status, systrace_plain, systrace_run};
use st_usage::{Answer, answer_of, answer_text};
use st_wrong_words::no_text_message;
use std::alloc::{AllocError, Global};
use std::process::ExitCode;
use std::rt::{Env, Files};
use std::sync::Wait;
use std::thread::Threads;
use std::{env, io};

// The words after the program's name.
fn words_of<R: Env + AllocGlobal>(rt: &R) -> io::Result<Vec<Text>> {
    let alloc = rt.alloc();
    let mut words = Vec::new(alloc);
    for word in env::args(rt)?.skip(1) {
        words
            .push(Text::of(alloc, word.as_bytes())?)
            .map_err(AllocError::from)?;
    }
    Ok(words)
}

// The message about a status, with what was kept of the files. A file that could not be read has its reason.
fn message_of(
    alloc: Global,
    status: Status,
    words: &[Text],
    kept: &mut Kept,
    reason: Unread,
) -> Result<Text, AllocError> {
    if matches!(status, Status::ReadFault)
        && let Some(name) = &kept.failed
    {
        return unread_message(alloc, name.bytes(), reason);
    }
    line_of(alloc, &mut kept.files, words, status)
}

// Whether words begin with the command that moves the machine by threads.
fn is_run(words: &[Text]) -> bool {
    match words.first() {
        Some(word) => word.bytes() == b"run".as_slice(),
        None => false,
    }
}

// Serves words that a top call is for. Gives the status, and the message about it.
fn serve<R: Files + Print + AllocGlobal + Threads + Wait + Sync>(
    rt: &R,
    words: &[Text],
) -> (Status, Result<Text, AllocError>) {
    let alloc = rt.alloc();
    let mut files = KeptFiles::new(alloc, StdFiles::new(rt));
    let mut out = StdSink::new(rt);
    let status = if is_run(words) {
        systrace_run(rt, alloc, words, &mut files, &mut out, &OpenGate).status
    } else {
        systrace_plain(alloc, words, &mut files, &mut out)
    };
    let reason = files.files().reason();
    let mut kept = files.into_kept();
    let message = message_of(alloc, status, words, &mut kept, reason);
    (status, message)
}

// Prints an answer. Gives the status, and the message about it.
fn print<R: Print + AllocGlobal>(
    rt: &R,
    words: &[Text],
    answer: Answer,
) -> (Status, Result<Text, AllocError>) {
    let alloc = rt.alloc();
    let status = match answer_text(alloc, answer) {
        Ok(text) => match rt.write_all(text.bytes()) {
            Ok(()) => Status::Done,
            Err(_) => Status::WriteFault,
        },
        Err(_) => Status::NoMemory,
    };
    let message = message_of(alloc, status, words, &mut Kept::new(alloc), Unread::Other);
    (status, message)
}

// Runs the program on these words. Gives the status, and the message about it.
fn run<R: Files + Print + AllocGlobal + Threads + Wait + Sync>(
    rt: &R,
    words: &[Text],
) -> (Status, Result<Text, AllocError>) {
    match answer_of(words) {
        Some(answer) => print(rt, words, answer),
        None => serve(rt, words),
    }
}

// The status if the words can't be read, and the message about it. A word that isn't valid text is no word of a command.
fn without_words(alloc: Global, error: &io::Error) -> (Status, Result<Text, AllocError>) {
    match error.kind() {
        io::ErrorKind::InvalidData => (Status::Usage, no_text_message(alloc)),
        _ => (Status::NoMemory, Err(AllocError)),
    }
}

// Writes a message to standard error. A failed write is ignored, since there is no one else to report it to.
fn report(err: &impl Print, message: Result<Text, AllocError>) {
    let _ = match message {
        Ok(mut lines) => match lines.push(b'\n') {
            Ok(()) => err.write_all(lines.bytes()),
            Err(_) => err.println(OUT_OF_MEMORY),
        },
        Err(_) => err.println(OUT_OF_MEMORY),
    };
}

// Reports a status other than the first, and gives the exit status of the program.
fn end(err: &impl Print, status: Status, message: Result<Text, AllocError>) -> ExitCode
    ensures { exit_status result ≡ number_of_status status }
{
    if status != Status::Done {
        report(err, message);
    }
    ExitCode::from(status.number())
}

fn main(rt: HostRuntime) -> ExitCode {
    let err = rt.stderr();
    let (status, message) = match words_of(&rt) {
        Ok(words) => run(&rt, words.as_slice()),
        Err(error) => without_words(rt.alloc(), &error),
    };
    end(&err, status, message)
}
