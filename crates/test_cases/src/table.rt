//! A table of calls, line by line. The first byte of a line says what the rest is:
//!
//! | Byte | Rest |
//! |---|---|
//! | `#` | a remark |
//! | `@` | nothing: all files are dropped, and no read or write fails any more |
//! | `=` | a name: a file begins, which exists from the next call on |
//! | `|` | a line of the file |
//! | `.` | bytes of the file, without a newline |
//! | `x` | how often the next such line or bytes are repeated in the file |
//! | `b` | nothing: the file so far is kept, for files that have lines of it |
//! | `<`, `>` | a number, from 1: the kept lines before this one; those from it on |
//! | `f` | which fetch of a file fails |
//! | `r`, `s`, `w` | how much room there is for what is written; which write takes one byte; which write fails |
//! | `n` | a number, of a status, of a reason, or of lines |
//! | `$`, `&`, `%`, `?`, `!`, `^` | words, each after a blank: a call |
//! | `:` | words that end with the status of the number, if no file can be read |
//! | `u` | a name, after a blank: a file that can't be read, for the reason of the number |
//! | `a` | words: whether they are answered, as `--help` and `--version` are |
//! | `o` | words: whether they are an option of `step` and of `run`, and whether `--help` shows it |
//!
//! What is written of a call, after its line: for `$` its output, the number that it ends with, and its message; for `&` its output, and
//! its status; for `%` the last lines of its output, as many as the number says, and its status; for `?` its message, for `!` the first
//! line of the message, and for `^` the other lines.

use crate::call::{Ended, call, tell_status};
use crate::lines::{
    count_of, first_line, last_lines, lines_before, lines_from, other_lines, words_of,
};
use crate::options::{is_read, is_shown};
use crate::statuses::{reason_of, status_of};
use st_base::Text;
use st_diagnostics::unread_message;
use st_outside::MemoryFiles;
use st_usage::{answer_of, answer_text};
use std::alloc::{AllocError, Global};

/// The state of a table after the lines so far, and what was written of them.
#[derive(Drop)]
pub struct Table {
    alloc: Global,
    files: MemoryFiles,
    name: Text,
    content: Text,
    kept: Text,
    times: u32,
    number: u32,
    limits: Limits,
    written: Text,
}

/// How much room there is for what a call writes, which of its writes takes one byte, and which fails; 0 means none.
#[derive(Clone, Copy)]
pub struct Limits {
    pub room: u32,
    pub short: u32,
    pub fail: u32,
}

const AMPLE: Limits = Limits {
    room: 8000,
    short: 0,
    fail: 0,
};

impl Table {
    /// The state before the first line.
    pub fn new(alloc: Global) -> Self {
        Table {
            alloc,
            files: MemoryFiles::new(alloc),
            name: Text::new(alloc),
            content: Text::new(alloc),
            kept: Text::new(alloc),
            times: 1,
            number: 0,
            limits: AMPLE,
            written: Text::new(alloc),
        }
    }

    /// What was written so far.
    pub fn written(&self) -> &[u8] {
        self.written.bytes()
    }

    /// Writes a line, or lines.
    pub fn write_line(&mut self, line: &[u8]) -> Result<(), AllocError> {
        self.written.append(line)?;
        self.written.push(b'\n')
    }

    /// Serves a line.
    pub fn serve_line(&mut self, line: &[u8]) -> Result<(), AllocError> {
        match line.split_first() {
            Some((mark, rest)) => self.serve(*mark, line, rest),
            None => Ok(()),
        }
    }

    fn serve(&mut self, mark: u8, line: &[u8], rest: &[u8]) -> Result<(), AllocError> {
        match mark {
            b'#' => Ok(()),
            b'@' => {
                self.forget();
                Ok(())
            }
            b'=' => self.begin(rest),
            b'|' => self.add(rest, b"\n"),
            b'.' => self.add(rest, b""),
            b'b' => self.keep(),
            b'<' | b'>' => self.add_kept(mark, count_of(rest)),
            b'f' => self.files.fail_at(count_of(rest)),
            b'x' | b'n' | b'r' | b's' | b'w' => {
                self.set(mark, count_of(rest));
                Ok(())
            }
            _ => {
                self.write_line(line)?;
                self.serve_words(mark, rest)
            }
        }
    }

    fn forget(&mut self) {
        self.files = MemoryFiles::new(self.alloc);
        self.name.truncate(0);
        self.limits = AMPLE;
    }

    fn set(&mut self, mark: u8, count: u32) {
        match mark {
            b'x' => self.times = count,
            b'n' => self.number = count,
            b'r' => self.limits.room = count,
            b's' => self.limits.short = count,
            _ => self.limits.fail = count,
        }
    }

    // Adds the file that has begun.
    fn hold(&mut self) -> Result<(), AllocError> {
        if self.name.is_empty() {
            return Ok(());
        }
        let name = self.name.copy(self.alloc)?;
        let content = self.content.copy(self.alloc)?;
        self.name.truncate(0);
        self.files.add(name, content)
    }

    fn begin(&mut self, name: &[u8]) -> Result<(), AllocError> {
        self.hold()?;
        self.name.append(name)?;
        self.content.truncate(0);
        Ok(())
    }

    fn add(&mut self, bytes: &[u8], end: &[u8]) -> Result<(), AllocError> {
        for _ in 0..self.times {
            self.content.append(bytes)?;
            self.content.append(end)?;
        }
        self.times = 1;
        Ok(())
    }

    // Keeps the file so far.
    fn keep(&mut self) -> Result<(), AllocError> {
        self.kept = self.content.copy(self.alloc)?;
        Ok(())
    }

    // Adds the kept lines before the line of this number, or those from it on.
    fn add_kept(&mut self, mark: u8, number: u32) -> Result<(), AllocError> {
        let kept = self.kept.bytes();
        self.content.append(if mark == b'<' {
            lines_before(kept, number)
        } else {
            lines_from(kept, number)
        })
    }

    fn serve_words(&mut self, mark: u8, line: &[u8]) -> Result<(), AllocError> {
        self.hold()?;
        let words = words_of(self.alloc, line)?;
        match mark {
            b'a' => self.answer(words.as_slice()),
            b'o' => self.tell_option(words.as_slice()),
            b':' => self.report(words.as_slice()),
            b'u' => self.tell_unread(words.as_slice()),
            b'$' | b'&' | b'%' | b'?' | b'!' | b'^' => self.call(mark, words.as_slice()),
            _ => self.write_line(b"no such line"),
        }
    }

    fn answer(&mut self, words: &[Text]) -> Result<(), AllocError> {
        match answer_of(words) {
            Some(answer) => {
                let text = answer_text(self.alloc, answer)?;
                self.written.append(text.bytes())
            }
            None => self.write_line(b"no answer"),
        }
    }

    // Writes whether words are an option, and whether it is shown.
    fn tell_option(&mut self, words: &[Text]) -> Result<(), AllocError> {
        let Some(option) = words.first() else {
            return self.write_line(b"no option");
        };
        self.written.append(if is_read(self.alloc, words)? {
            b"read, ".as_slice()
        } else {
            b"not read, ".as_slice()
        })?;
        self.write_line(if is_shown(self.alloc, option.bytes())? {
            b"shown".as_slice()
        } else {
            b"not shown".as_slice()
        })
    }

    // Writes the message for words that end with the status of the number, if no file can be read.
    fn report(&mut self, words: &[Text]) -> Result<(), AllocError> {
        let status = status_of(self.number);
        self.write_number(status.number())?;
        let known = tell_status(self.alloc, words, status)?;
        self.write_line(known.bytes())
    }

    // Tells of a file that can't be read.
    fn tell_unread(&mut self, words: &[Text]) -> Result<(), AllocError> {
        for name in words {
            let known = unread_message(self.alloc, name.bytes(), reason_of(self.number))?;
            self.write_line(known.bytes())?;
        }
        Ok(())
    }

    fn write_number(&mut self, number: u8) -> Result<(), AllocError> {
        self.written.append(b"= ")?;
        self.written.append_number(u64::from(number))?;
        self.written.push(b'\n')
    }

    fn call(&mut self, mark: u8, words: &[Text]) -> Result<(), AllocError> {
        let ended = call(self.alloc, words, &mut self.files, self.limits)?;
        self.show(mark, &ended)
    }

    // Writes the result of a call.
    fn show(&mut self, mark: u8, ended: &Ended) -> Result<(), AllocError> {
        match mark {
            b'$' => {
                self.written.append(ended.written.bytes())?;
                self.write_number(ended.status.number())?;
                self.write_line(ended.known.bytes())
            }
            b'&' => {
                self.written.append(ended.written.bytes())?;
                self.write_line(ended.shown.bytes())
            }
            b'%' => {
                self.written
                    .append(last_lines(ended.written.bytes(), self.number))?;
                self.write_line(ended.shown.bytes())
            }
            b'!' => self.write_line(first_line(ended.known.bytes())),
            b'^' => self.write_line(other_lines(ended.known.bytes())),
            _ => self.write_line(ended.known.bytes()),
        }
    }
}
