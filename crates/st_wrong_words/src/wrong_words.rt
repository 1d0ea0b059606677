//! What is wrong with words that are no command: the first of them, from the left, with which no command can go on, or what is missing
//! after the last.

use crate::options::{CommandName, is_mode, value_of};
use st_base::{Sequence, Text};
use st_command::reading::MOST_POLICIES;
use st_command::{read_gen_words, read_words};
use st_policy_diagnostics::shown::append_shown;
use st_usage::usage::append_usage;
use std::alloc::{AllocError, Global};

// The words after a command's name, as far as they were read.
#[derive(Drop)]
struct Reader<'a> {
    command: CommandName,
    options: Sequence<&'a [u8]>,
    // The option whose value is the next word.
    open: Option<&'a [u8]>,
    operands: u32,
}

// Appends a word of the command line and what is wrong with it.
fn append_wrong(line: &mut Text, word: &[u8], why: &str) -> Result<bool, AllocError> {
    append_shown(line, word)?;
    line.append(why.as_bytes())?;
    Ok(true)
}

// Appends an option and what is wrong with how it is given.
fn append_misused(line: &mut Text, option: &[u8], why: &str) -> Result<bool, AllocError> {
    line.append(option)?;
    line.append(why.as_bytes())?;
    Ok(true)
}

// Appends that two options exclude each other.
fn append_both(line: &mut Text, option: &[u8], other: &[u8]) -> Result<bool, AllocError> {
    append_shown(line, option)?;
    line.append(b" and ")?;
    append_wrong(line, other, " exclude each other")
}

// The words of a command that has this option with this value.
fn words_with(alloc: Global, option: &[u8], value: &[u8]) -> Result<Vec<Text>, AllocError> {
    let mut words = Vec::new(alloc);
    for word in [
        b"step".as_slice(),
        option,
        value,
        b"script".as_slice(),
        b"schedule".as_slice(),
    ] {
        words.push(Text::of(alloc, word)?)?;
    }
    Ok(words)
}

// Whether an option can have a value: they are read where they are given alone.
fn is_value(alloc: Global, option: &[u8], value: &[u8]) -> Result<bool, AllocError> {
    let words = words_with(alloc, option, value)?;
    let command = read_words(alloc, words.as_slice())?;
    Ok(command.is_some())
}

// Appends what an option takes instead of this word, and says whether that is wrong.
fn append_wrong_value(
    alloc: Global,
    line: &mut Text,
    option: &[u8],
    word: &[u8],
) -> Result<bool, AllocError> {
    if is_value(alloc, option, word)? {
        return Ok(false);
    }
    line.append(option)?;
    line.append(b" takes ")?;
    line.append(value_of(option).unwrap_or("no value").as_bytes())?;
    line.append(b", not ")?;
    append_wrong(line, word, "")
}

// Whether a word is a number of rounds: it is read where it is given to `gen`.
fn is_rounds(alloc: Global, word: &[u8]) -> Result<bool, AllocError> {
    let mut words = Vec::new(alloc);
    for word in [b"gen".as_slice(), word] {
        words.push(Text::of(alloc, word)?)?;
    }
    Ok(read_gen_words(words.as_slice()).is_some())
}

// Appends what `gen` takes instead of this word, and says whether that is wrong.
fn append_wrong_rounds(alloc: Global, line: &mut Text, word: &[u8]) -> Result<bool, AllocError> {
    if is_rounds(alloc, word)? {
        return Ok(false);
    }
    line.append(b"N is 1 to 512, not ")?;
    append_wrong(line, word, "")
}

// Each of these appends what is wrong, and says whether anything is.
impl<'a> Reader<'a> {
    fn read_all(
        &mut self,
        alloc: Global,
        line: &mut Text,
        words: &'a [Text],
    ) -> Result<bool, AllocError> {
        for word in words {
            if self.read(alloc, line, word.bytes())? {
                return Ok(true);
            }
        }
        self.append_missing(line)
    }

    fn read(&mut self, alloc: Global, line: &mut Text, word: &'a [u8]) -> Result<bool, AllocError> {
        if let Some(option) = self.open {
            self.open = None;
            append_wrong_value(alloc, line, option, word)
        } else if word.starts_with(b"-") {
            self.read_option(line, word)
        } else {
            self.read_operand(alloc, line, word)
        }
    }

    fn read_option(&mut self, line: &mut Text, word: &'a [u8]) -> Result<bool, AllocError> {
        if !self.command.has_option(word) {
            return append_wrong(line, word, self.command.not_an_option());
        }
        if self.operands > 0 {
            return append_wrong(line, word, self.command.option_too_late());
        }
        if self.append_excluded(line, word)? {
            return Ok(true);
        }
        self.options.push(word)?;
        if value_of(word).is_some() {
            self.open = Some(word);
        }
        Ok(false)
    }

    // By the options before it.
    fn append_excluded(&self, line: &mut Text, option: &[u8]) -> Result<bool, AllocError> {
        if is_mode(option) {
            self.append_second_mode(line, option)
        } else if option == b"-f".as_slice() {
            self.append_ninth_policy(line, option)
        } else {
            self.append_second(line, option)
        }
    }

    fn append_second_mode(&self, line: &mut Text, option: &[u8]) -> Result<bool, AllocError> {
        match self.mode() {
            Some(mode) if mode == option => append_misused(line, option, " is given twice"),
            Some(mode) => append_both(line, mode, option),
            None => Ok(false),
        }
    }

    fn append_ninth_policy(&self, line: &mut Text, option: &[u8]) -> Result<bool, AllocError> {
        if self.count_of(option) < MOST_POLICIES {
            return Ok(false);
        }
        append_misused(line, option, " is given more than 8 times")
    }

    fn append_second(&self, line: &mut Text, option: &[u8]) -> Result<bool, AllocError> {
        if self.count_of(option) == 0 {
            return Ok(false);
        }
        append_misused(line, option, " is given twice")
    }

    fn read_operand(
        &mut self,
        alloc: Global,
        line: &mut Text,
        word: &[u8],
    ) -> Result<bool, AllocError> {
        if self.operands >= self.command.most_operands() {
            return append_wrong(line, word, self.command.operand_too_many());
        }
        self.operands = self.operands.saturating_add(1);
        match self.command {
            CommandName::Gen => append_wrong_rounds(alloc, line, word),
            _ => Ok(false),
        }
    }

    // The option that was given of those that exclude each other.
    fn mode(&self) -> Option<&'a [u8]> {
        for option in self.options.as_slice() {
            if is_mode(*option) {
                return Some(*option);
            }
        }
        None
    }

    // How often an option was given.
    fn count_of(&self, option: &[u8]) -> usize {
        self.options
            .as_slice()
            .iter()
            .filter(|other| **other == option)
            .count()
    }

    // After the last word.
    fn append_missing(&self, line: &mut Text) -> Result<bool, AllocError> {
        if let Some(option) = self.open {
            line.append(option)?;
            line.append(b" has no value: it takes ")?;
            line.append(value_of(option).unwrap_or("no value").as_bytes())?;
            return Ok(true);
        }
        match self.command.missing_after(self.operands) {
            Some(operand) => append_misused(line, operand.as_bytes(), " is missing"),
            None => Ok(false),
        }
    }
}

// Appends what is wrong with the words after the name of a command, and says whether anything is.
fn append_wrong_after(
    alloc: Global,
    line: &mut Text,
    command: CommandName,
    words: &[Text],
) -> Result<bool, AllocError> {
    let mut reader = Reader {
        command,
        options: Sequence::new(alloc),
        open: None,
        operands: 0,
    };
    reader.read_all(alloc, line, words)
}

// Appends what is wrong where no command is named.
fn append_no_command(line: &mut Text, first: &[u8], words: &[Text]) -> Result<bool, AllocError> {
    match words {
        [word, ..] if first == b"--help".as_slice() => append_wrong(
            line,
            word.bytes(),
            " is a word too many after --help",
        ),
        [word, ..] if first == b"--version".as_slice() => append_wrong(
            line,
            word.bytes(),
            " is a word too many after --version",
        ),
        _ => append_wrong(line, first, " is no command"),
    }
}

// Appends what is wrong with the words of a call, and says whether anything is.
fn append_wrong_words(alloc: Global, line: &mut Text, words: &[Text]) -> Result<bool, AllocError> {
    let Some((first, rest)) = words.split_first() else {
        return append_misused(line, b"a command", " is missing");
    };
    match CommandName::of(first.bytes()) {
        Some(command) => append_wrong_after(alloc, line, command, rest),
        None => append_no_command(line, first.bytes(), rest),
    }
}

/// The lines for words that are no command, without the last newline: what is wrong with them, and how a command is written.
pub fn usage_message(alloc: Global, words: &[Text]) -> Result<Text, AllocError> {
    let mut line = Text::of(alloc, b"systrace: ")?;
    if append_wrong_words(alloc, &mut line, words)? {
        line.push(b'\n')?;
    } else {
        line.truncate(0);
    }
    append_usage(alloc, &mut line)?;
    Ok(line)
}

/// The lines for words of which one is no UTF-8 text, without the last newline.
pub fn no_text_message(alloc: Global) -> Result<Text, AllocError> {
    let mut line = Text::of(alloc, b"systrace: a word is no UTF-8 text\n")?;
    append_usage(alloc, &mut line)?;
    Ok(line)
}
