ghost use Rattle.std.specs.Prelude.{◌≡◌, ◌≢◌, ℕ, ◌<◌, ◌≤◌, ◌↔◌, [], ◌∷◌, ◌++◌, length, IfOk, IfSome, IsUtf8};
ghost use Rattle.std.specs.IoError.{error_kind};
ghost use Rattle.st_outside.specs.Count.{HasRisen};
ghost use Rattle.st_outside.specs.Files.{CanHold, CanLack, CanExceed, CanFit};
ghost use Rattle.st_outside.specs.StdFiles.{unknown_contents};

use crate::count::one_more;
use crate::files::{FILE_LIMIT, FetchFault, Files};
use crate::history::History;
use st_base::Text;
use std::alloc::Global;
use std::io::{self, ErrorKind, Read};
use std::marker::Model;
use std::{fs, rt, str};

/// The host's files by name. The content of a name isn't known.
#[derive(Drop)]
pub struct StdFiles<'a, R: rt::Files> {
    rt: &'a R,
    faults: u64,
    // Of the last fetch that failed. No contract reads it: it is for messages alone.
    reason: Unread,
    asked: History<Text>,
}

/// Why the host gave no text of a file.
#[derive(Clone, Copy, Debug, PartialEq, Eq)]
pub enum Unread {
    Directory,
    /// The host doesn't let it be read.
    Denied,
    /// Any other reason.
    Other,
}

impl Unread {
    // The reason of an error.
    fn of(error: &io::Error) -> Self {
        match error.kind() {
            ErrorKind::IsADirectory => Unread::Directory,
            ErrorKind::PermissionDenied => Unread::Denied,
            _ => Unread::Other,
        }
    }
}

impl<'a, R: rt::Files> Model for StdFiles<'a, R> {
    ghost use Rattle.st_outside.specs.StdFiles.{HostFiles};

    ghost Value = { HostFiles };

    ghost view = { λ f. record { asked = f.asked.items; faults = f.faults } };
}

impl<'a, R: rt::Files> StdFiles<'a, R> {
    /// The files that this runtime opens.
    pub fn new(rt: &'a R) -> Self
        ensures { result ≡ record { asked = []; faults = 0 } }
    {
        StdFiles {
            rt,
            faults: 0,
            reason: Unread::Other,
            asked: History::new(),
        }
    }

    /// The number of faults so far, saturating at 2^64 - 1.
    pub fn faults(&self) -> u64
        ensures { result ≡ self.now.faults }
    {
        self.faults
    }

    /// Why the last fetch that failed did so.
    pub fn reason(&self) -> Unread {
        self.reason
    }
}

impl<'a, R: rt::Files> Files for StdFiles<'a, R> {
    ghost contents = { λ _. unknown_contents };

    ghost asked = { λ f. f.asked };

    ghost faults = { λ f. f.faults };

    fn fetch(&mut self, alloc: Global, name: &Text) -> Result<Text, FetchFault>
        ensures contents { unknown_contents ≡ unknown_contents }
        ensures asked { self.new.asked ≡ self.old.asked ++ name.now ∷ [] }
        ensures content { IfOk result (λ text. CanHold (unknown_contents name.now) text) }
        ensures within { IfOk result (λ text. length text ≤ FILE_LIMIT) }
        ensures missing { result ≡ Err FetchFault.Missing → CanLack (unknown_contents name.now) }
        ensures too_long { result ≡ Err FetchFault.TooLong → CanExceed (unknown_contents name.now) }
        ensures no_memory { result ≡ Err FetchFault.NoMemory → CanFit (unknown_contents name.now) }
        ensures failed { result ≡ Err FetchFault.Failed → HasRisen self.old.faults self.new.faults }
        ensures quiet { result ≢ Err FetchFault.Failed → self.new.faults ≡ self.old.faults }

        // The fetch of a name that isn't UTF-8 fails.
        ensures no_text { (IsUtf8 name.now → ⊥) → result ≡ Err FetchFault.Failed }
    {
        self.asked = self.asked.and(name);
        let result = read_named(self.rt, alloc, name, &mut self.reason);
        if matches!(&result, Err(FetchFault::Failed)) {
            self.faults = one_more(self.faults);
        }
        result
    }
}

// Why a file wasn't opened. It is missing exactly when the host reports `NotFound`; any other error is a failure.
fn fault_of_open(error: &io::Error) -> FetchFault
    ensures missing { (result ≡ FetchFault.Missing) ↔ (error_kind error.now ≡ ErrorKind.NotFound) }
    ensures failed { result ≢ FetchFault.Missing → result ≡ FetchFault.Failed }
{
    match error.kind() {
        ErrorKind::NotFound => FetchFault::Missing,
        _ => FetchFault::Failed,
    }
}

// Reads the file with this name. If the host fails, its reason is noted.
fn read_named<R: rt::Files>(
    rt: &R,
    alloc: Global,
    name: &Text,
    reason: &mut Unread,
) -> Result<Text, FetchFault>
    ensures within { IfOk result (λ text. length text ≤ FILE_LIMIT) }
    ensures no_text { (IsUtf8 name.now → ⊥) → result ≡ Err FetchFault.Failed }
{
    let Ok(path) = str::from_utf8(name.bytes()) else {
        *reason = Unread::Other;
        return Err(FetchFault::Failed);
    };
    match fs::open(rt, path) {
        Ok(mut file) => read_text(&mut file, alloc, reason),
        Err(error) => {
            *reason = Unread::of(&error);
            Err(fault_of_open(&error))
        }
    }
}

// Reads all remaining bytes, if they are within the limit. If the host fails, its reason is noted.
fn read_text<F: Read>(file: &mut F, alloc: Global, reason: &mut Unread) -> Result<Text, FetchFault>
    ensures content { IfOk result (λ text. IfSome (F.remaining file.old) (λ bytes. text ≡ bytes)) }
    ensures within { IfOk result (λ text. length text ≤ FILE_LIMIT) }
    ensures present { result ≢ Err FetchFault.Missing }
    ensures too_long { result ≡ Err FetchFault.TooLong → IfSome (F.remaining file.old) (λ bytes. FILE_LIMIT < length bytes) }
{
    let most = FILE_LIMIT as usize + 1;
    let mut text = Text::new(alloc);
    let mut buffer = [0; 4096];
    while text.bytes().len() < most {
        let room = buffer.len().min(most - text.bytes().len());
        let count = match file.read(&mut buffer[..room]) {
            Ok(count) => count,
            Err(error) => {
                *reason = Unread::of(&error);
                return Err(FetchFault::Failed);
            }
        };
        if count == 0 {
            return Ok(text);
        }
        text.append(&buffer[..count])
            .map_err(|_| FetchFault::NoMemory)?;
    }
    Err(FetchFault::TooLong)
}
