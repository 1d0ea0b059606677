//! Options of a run, as they are read and as they are shown.

use st_base::Text;
use st_command::{read_run_words, read_words};
use st_usage::{Answer, answer_text};
use std::alloc::{AllocError, Global};

// The words of a command with an option and a script.
fn words_with(alloc: Global, name: &[u8], option: &[Text]) -> Result<Vec<Text>, AllocError> {
    let mut words = Vec::new(alloc);
    words.push(Text::of(alloc, name)?)?;
    for word in option {
        words.push(word.copy(alloc)?)?;
    }
    words.push(Text::of(alloc, b"script")?)?;
    Ok(words)
}

fn is_read_by_run(alloc: Global, option: &[Text]) -> Result<bool, AllocError> {
    let words = words_with(alloc, b"run", option)?;
    let run = read_run_words(alloc, words.as_slice())?;
    Ok(run.is_some())
}

fn is_read_by_step(alloc: Global, option: &[Text]) -> Result<bool, AllocError> {
    let mut words = words_with(alloc, b"step", option)?;
    words.push(Text::of(alloc, b"schedule")?)?;
    let command = read_words(alloc, words.as_slice())?;
    Ok(command.is_some())
}

/// Whether words are an option of `step` and of `run`, with its value if it takes one.
pub fn is_read(alloc: Global, option: &[Text]) -> Result<bool, AllocError> {
    Ok(is_read_by_step(alloc, option)? && is_read_by_run(alloc, option)?)
}

/// Whether a line that `--help` prints begins with an option, after blanks.
pub fn is_shown(alloc: Global, option: &[u8]) -> Result<bool, AllocError> {
    let help = answer_text(alloc, Answer::Help)?;
    for line in help.bytes().split(|byte| *byte == b'\n') {
        if line.trim_ascii_start().starts_with(option) {
            return Ok(true);
        }
    }
    Ok(false)
}
