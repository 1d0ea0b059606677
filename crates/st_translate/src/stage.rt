ghost use Rattle.std.specs.Prelude.{◌≡◌, ℕ, ◌+◌, ◌/◌, ◌<◌, ◌≤◌, true, List, [], ◌∷◌, ◌++◌, length, vec_capacity, vec_len};
ghost use Rattle.std.specs.List.{list_any, prefix_len, take_while};
ghost use Rattle.st_model.specs.Spelling.{is_zero};
ghost use Rattle.st_translate.specs.Bytes.{ends_at, is_letter, letter_count, letters_at, next_word_byte};
ghost use Rattle.st_translate.specs.Copied.{asked_word, copy_fault, lies_in_memory};
ghost use Rattle.st_translate.specs.Stage.{NeedsNextWord, IsStageWithin, Reaches, ReadsWords, most_added, most_text, most_words, spelled_at, text_added};
ghost use Rattle.st_calls.specs.declared.argument.PartKind.{PartKind};
ghost use Rattle.st_model.specs.declared.limits.TheConstants.{SPACE_WORDS};

use crate::address::{is_internet, push_address};
use st_base::Errno;
use st_calls::PartKind;
use st_model::{ARGV_BYTES, ARGV_PARTS, LONGEST_TEXT, SPACE_BYTES, SPACE_WORDS};
use st_names::LONGEST_NAME;

/// The most words that a name, a plain text or an address takes.
pub const NAME_WORDS: usize = 129;

/// The most words that an argument vector takes.
pub const VECTOR_WORDS: usize = 193;

/// The capacity that every name, plain text and address fits in, with what one more word may add to it.
pub const NAME_ROOM: usize = 1_032;

/// The capacity that the text of every argument vector fits in, with what one more word may add to it.
pub const VECTOR_ROOM: usize = 1_072;

// An allocator has a fast path for small sizes. The words of the common kinds are small enough for it, and so is their text.
/// The most words that a part of this kind takes.
pub fn most_words(kind: PartKind) -> usize
    ensures { result ≡ most_words kind }
{
    match kind {
        PartKind::Argv => VECTOR_WORDS,
        _ => NAME_WORDS,
    }
}

/// The capacity that every text of a part of this kind fits in, with what one more word may add to it.
pub fn most_text(kind: PartKind) -> usize
    ensures { result ≡ most_text kind }
{
    match kind {
        PartKind::Argv => VECTOR_ROOM,
        _ => NAME_ROOM,
    }
}

/// How far an argument vector has been read.
#[derive(Clone, Copy, Debug, PartialEq, Eq)]
pub struct Vector {
    /// The byte of memory where its next pointer is.
    pub pointer: u32,
    /// How many of its parts have been read to their end.
    pub parts: usize,
    /// How many bytes of all its parts have been read.
    pub bytes: usize,
}

/// What the next word of a part is needed for, or how the part ended. `next` is the byte of memory that is read next.
#[derive(Clone, Copy, Debug, PartialEq, Eq)]
pub enum Stage {
    /// The next bytes of a text, of which `read` bytes have been read and at most `longest` may be.
    Text {
        next: u32,
        read: usize,
        longest: usize,
    },
    /// The word of an address.
    Address {
        next: u32,
    },
    /// The next pointer of an argument vector.
    Pointer {
        vector: Vector,
    },
    /// The next bytes of a part of an argument vector.
    Part {
        next: u32,
        vector: Vector,
    },
    Fault(Errno),
    Done,
}

// The first byte of the word after the word with this byte.
fn next_word_byte(next: u32) -> u32
    requires { next / 8 < SPACE_WORDS }
    ensures { result ≡ next_word_byte next }
{
    8 * (next / 8 + 1)
}

// Appends the bytes before the first zero byte. Returns their count, and whether a byte is zero.
#[inline]
fn push_until_zero(text: &mut Vec<u8>, bytes: &[u8]) -> (usize, bool)
    requires { vec_len text.old + length bytes.now ≤ vec_capacity text.old }
    ensures bytes { text.new.items ≡ text.old.items ++ take_while is_letter bytes.now }
    ensures count { result.0 ≡ prefix_len is_letter bytes.now }
    ensures ended { result.1 ≡ list_any is_zero bytes.now }
    ensures capacity { vec_capacity text.new ≡ vec_capacity text.old }
{
    for (count, byte) in bytes.iter().enumerate() {
        if *byte == 0 {
            return (count, true);
        }
        text.push_reserved(*byte);
    }
    (bytes.len(), false)
}

// Appends the bytes of a word, from this byte of memory on, that come before the first zero byte. Returns their count, and whether
// a byte is zero.
fn push_letters(text: &mut Vec<u8>, next: u32, word: u64) -> (usize, bool)
    requires { vec_len text.old + 8 ≤ vec_capacity text.old }
    ensures bytes { text.new.items ≡ text.old.items ++ letters_at next word }
    ensures count { result.0 ≡ letter_count next word }
    ensures ended { result.1 ≡ ends_at next word }
    ensures capacity { vec_capacity text.new ≡ vec_capacity text.old }
{
    let bytes = word.to_le_bytes();
    let skipped = (next % 8) as usize;
    if skipped == 0 {
        // The common word. Here its slice is known to have eight bytes, so that the loop over them is unrolled.
        push_until_zero(text, &bytes)
    } else {
        push_until_zero(text, &bytes[skipped..])
    }
}

// Appends the blank between two parts of an argument vector, if this is the pointer of a part after the first.
fn push_blank(text: &mut Vec<u8>, vector: Vector, word: u64)
    requires { vec_len text.old < vec_capacity text.old }
    ensures bytes { text.new.items ≡ text.old.items ++ text_added (Stage.Pointer vector) word }
    ensures capacity { vec_capacity text.new ≡ vec_capacity text.old }
{
    if word != 0 && vector.parts != 0 {
        text.push_reserved(b' ');
    }
}

// The stage of a text after one more word, which has this many letters and may end the text.
fn after_text(next: u32, read: usize, longest: usize, letters: usize, ended: bool) -> Stage
    requires asks { NeedsNextWord (Stage.Text next read longest) }
    requires few { letters ≤ 8 }
    ensures { (kind : PartKind) (at word : ℕ) (words text : List ℕ) → letters ≡ letter_count next word → ended ≡ ends_at next word → ReadsWords kind at words text (Stage.Text next read longest) → Reaches kind at (words ++ word ∷ []) (text ++ letters_at next word) result }
{
    let read = read + letters;
    if read > longest {
        Stage::Fault(Errno::ENAMETOOLONG)
    } else if ended {
        Stage::Done
    } else {
        let next = next_word_byte(next);
        Stage::Text {
            next,
            read,
            longest,
        }
        .inside()
    }
}

// The stage of an address after its word.
fn after_address(next: u32, word: u64) -> Stage
    requires { NeedsNextWord (Stage.Address next) }
    ensures { (kind : PartKind) (at : ℕ) (words text : List ℕ) → ReadsWords kind at words text (Stage.Address next) → Reaches kind at (words ++ word ∷ []) (text ++ text_added (Stage.Address next) word) result }
{
    if is_internet(word) {
        Stage::Done
    } else {
        Stage::Fault(Errno::EINVAL)
    }
}

// The stage of an argument vector after one more pointer.
fn after_pointer(vector: Vector, word: u64) -> Stage
    requires { NeedsNextWord (Stage.Pointer vector) }
    ensures { (kind : PartKind) (at : ℕ) (words text : List ℕ) → ReadsWords kind at words text (Stage.Pointer vector) → Reaches kind at (words ++ word ∷ []) (text ++ text_added (Stage.Pointer vector) word) result }
{
    if word == 0 {
        Stage::Done
    } else if vector.parts >= ARGV_PARTS {
        Stage::Fault(Errno::E2BIG)
    } else if word >= SPACE_BYTES {
        Stage::Fault(Errno::EFAULT)
    } else {
        let pointer = vector.pointer + 8;
        Stage::Part {
            next: word as u32,
            vector: Vector { pointer, ..vector },
        }
    }
}

// The stage of an argument vector after one more word of a part, which has this many letters and may end the part.
fn after_part(next: u32, vector: Vector, letters: usize, ended: bool) -> Stage
    requires asks { NeedsNextWord (Stage.Part next vector) }
    requires few { letters ≤ 8 }
    ensures { (kind : PartKind) (at word : ℕ) (words text : List ℕ) → letters ≡ letter_count next word → ended ≡ ends_at next word → ReadsWords kind at words text (Stage.Part next vector) → Reaches kind at (words ++ word ∷ []) (text ++ letters_at next word) result }
{
    let bytes = vector.bytes + letters;
    if bytes > ARGV_BYTES {
        Stage::Fault(Errno::E2BIG)
    } else if ended {
        let parts = vector.parts + 1;
        let vector = Vector {
            parts,
            bytes,
            ..vector
        };
        Stage::Pointer { vector }.inside()
    } else {
        let next = next_word_byte(next);
        let vector = Vector { bytes, ..vector };
        Stage::Part { next, vector }.inside()
    }
}

impl Stage {
    /// The stage of a part before its first word. The part begins at this byte of memory.
    pub fn start(kind: PartKind, at: u64) -> Self
        requires { lies_in_memory kind ≡ true }
        ensures { Reaches kind at [] [] result }
    {
        if at >= SPACE_BYTES {
            return Stage::Fault(Errno::EFAULT);
        }
        let next = at as u32;
        match kind {
            PartKind::Name => Stage::Text {
                next,
                read: 0,
                longest: LONGEST_NAME,
            },
            PartKind::Plain => Stage::Text {
                next,
                read: 0,
                longest: LONGEST_TEXT,
            },
            PartKind::Addr if at % 8 == 0 => Stage::Address { next },
            PartKind::Argv if at % 8 == 0 => Stage::Pointer {
                vector: Vector {
                    pointer: next,
                    parts: 0,
                    bytes: 0,
                },
            },
            _ => Stage::Fault(Errno::EFAULT),
        }
    }

    /// The index of the word that is needed next.
    pub fn place(self) -> Option<u32>
        ensures { (text : List ℕ) → result ≡ asked_word (spelled_at self text) }
    {
        match self {
            Stage::Text { next, .. } | Stage::Address { next } | Stage::Part { next, .. } => Some(
                next / 8,
            ),
            Stage::Pointer { vector } => Some(vector.pointer / 8),
            Stage::Fault(_) | Stage::Done => None,
        }
    }

    /// The fault of the part, if it has one.
    pub fn fault(self) -> Option<Errno>
        ensures { (text : List ℕ) → result ≡ copy_fault (spelled_at self text) }
    {
        if let Stage::Fault(errno) = self {
            Some(errno)
        } else {
            None
        }
    }

    // The stage itself, or a fault if the next word is past the end of memory.
    fn inside(self) -> Self
        requires { IsStageWithin self }
        ensures { (kind : PartKind) (at : ℕ) (words text : List ℕ) → ReadsWords kind at words text self → Reaches kind at words text result }
    {
        let Some(place) = self.place() else {
            return self;
        };
        if place < SPACE_WORDS {
            self
        } else {
            Stage::Fault(Errno::EFAULT)
        }
    }

    /// Takes one more word, and appends to a text what the word adds to it.
    #[inline]
    pub fn take(&mut self, text: &mut Vec<u8>, word: u64)
        requires room { vec_len text.old + most_added self.old ≤ vec_capacity text.old }
        requires asks { NeedsNextWord self.old }
        ensures stage { (kind : PartKind) (at : ℕ) (words : List ℕ) → Reaches kind at words text.old.items self.old → Reaches kind at (words ++ word ∷ []) text.new.items self.new }
        ensures capacity { vec_capacity text.new ≡ vec_capacity text.old }
    {
        *self = match *self {
            Stage::Text {
                next,
                read,
                longest,
            } => {
                let (letters, ended) = push_letters(text, next, word);
                after_text(next, read, longest, letters, ended)
            }
            Stage::Address { next } => {
                push_address(text, word);
                after_address(next, word)
            }
            Stage::Pointer { vector } => {
                push_blank(text, vector, word);
                after_pointer(vector, word)
            }
            Stage::Part { next, vector } => {
                let (letters, ended) = push_letters(text, next, word);
                after_part(next, vector, letters, ended)
            }
            Stage::Fault(_) | Stage::Done => return,
        };
    }
}
