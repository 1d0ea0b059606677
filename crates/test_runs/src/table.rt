//! A table of runs, line by line. The first byte of a line says what the rest is:
//!
//! | Byte | Rest |
//! |---|---|
//! | `#` | a remark |
//! | `=` | a name: a file begins, which exists from the next run on |
//! | `|` | a line of the file |
//! | `$` | the words of a run that writes the same each time |
//! | `&` | the words of a run whose threads may move in any order |
//! | `!` | the words of a run of two held calls that wait for each other at a gate, and whose trace is printed |
//!
//! What is written of a run, after its line: for `$` its text; for each its status, and whether `step` makes the same run; for `!` what the
//! gate has shown.

use crate::again::{Made, is_played_again, make};
use crate::gate::test_gate;
use st_base::Text;
use st_outside::MemoryFiles;
use st_top::OpenGate;
use std::alloc::{AllocError, Global};
use std::sync::Wait;
use std::thread::Threads;

/// The files of a table after the lines so far, and what was written of its runs.
#[derive(Drop)]
pub struct Table {
    alloc: Global,
    files: MemoryFiles,
    name: Text,
    content: Text,
    written: Text,
}

impl Table {
    /// The state before the first line.
    pub fn new(alloc: Global) -> Self {
        Table {
            alloc,
            files: MemoryFiles::new(alloc),
            name: Text::new(alloc),
            content: Text::new(alloc),
            written: Text::new(alloc),
        }
    }

    /// What was written so far.
    pub fn written(&self) -> &[u8] {
        self.written.bytes()
    }

    /// Writes a line.
    pub fn write_line(&mut self, line: &[u8]) -> Result<(), AllocError> {
        self.written.append(line)?;
        self.written.push(b'\n')
    }

    /// Serves a line.
    pub fn serve_line<T: Threads + Wait + Sync>(
        &mut self,
        rt: &T,
        line: &[u8],
    ) -> Result<(), AllocError> {
        match line.split_first() {
            Some((mark, rest)) => self.serve(rt, *mark, line, rest),
            None => Ok(()),
        }
    }

    fn serve<T: Threads + Wait + Sync>(
        &mut self,
        rt: &T,
        mark: u8,
        line: &[u8],
        rest: &[u8],
    ) -> Result<(), AllocError> {
        match mark {
            b'#' => Ok(()),
            b'=' => self.begin(rest),
            b'|' => self.add(rest),
            _ => {
                self.hold()?;
                self.write_line(line)?;
                let words = words_of(self.alloc, rest)?;
                self.run(rt, mark, words.as_slice())
            }
        }
    }

    fn begin(&mut self, name: &[u8]) -> Result<(), AllocError> {
        self.hold()?;
        self.name.append(name)
    }

    fn add(&mut self, line: &[u8]) -> Result<(), AllocError> {
        self.content.append(line)?;
        self.content.push(b'\n')
    }

    // Adds the file that has begun, if one has.
    fn hold(&mut self) -> Result<(), AllocError> {
        if self.name.is_empty() {
            return Ok(());
        }
        let name = self.name.copy(self.alloc)?;
        let content = self.content.copy(self.alloc)?;
        self.name.truncate(0);
        self.content.truncate(0);
        self.files.add(name, content)
    }

    // Makes a run, and writes what came of it.
    fn run<T: Threads + Wait + Sync>(
        &mut self,
        rt: &T,
        mark: u8,
        words: &[Text],
    ) -> Result<(), AllocError> {
        match mark {
            b'$' => {
                let made = make(rt, self.alloc, words, &mut self.files, &OpenGate)?;
                self.written.append(made.written.bytes())?;
                self.tell(words, &made)
            }
            b'&' => {
                let made = make(rt, self.alloc, words, &mut self.files, &OpenGate)?;
                self.tell(words, &made)
            }
            b'!' => {
                let (made, seen) = test_gate(rt, self.alloc, words, &mut self.files)?;
                self.tell(words, &made)?;
                self.write_line(seen)
            }
            _ => self.write_line(b"no such line"),
        }
    }

    // Writes how a run ended, and whether `step` ends it so too.
    fn tell(&mut self, words: &[Text], made: &Made) -> Result<(), AllocError> {
        let same = is_played_again(self.alloc, words, &mut self.files, made)?;
        self.written.append(b"= ")?;
        self.written.append_number(u64::from(made.status.number()))?;
        self.write_line(if same {
            b", the same by step".as_slice()
        } else {
            b", another by step".as_slice()
        })
    }
}

// The words of a line, each after a blank.
fn words_of(alloc: Global, line: &[u8]) -> Result<Vec<Text>, AllocError> {
    let mut words = Vec::new(alloc);
    for word in line.split(|byte| *byte == b' ').skip(1) {
        words.push(Text::of(alloc, word)?)?;
    }
    Ok(words)
}
