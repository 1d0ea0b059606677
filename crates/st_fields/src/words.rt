ghost use Rattle.std.specs.Prelude.{◌≡◌, ◌≤◌, ℕ, List, length, find, option_map, IfSome};
ghost use Rattle.std.specs.List.{prefix_len};
ghost use Rattle.std.specs.Str.{bytes_eq};
ghost use Rattle.st_base.specs.Errno.{name_of_error};
ghost use Rattle.st_lex.specs.Quoted.{closing_len};
ghost use Rattle.st_lex.specs.Unquote.{byte_of_hex};
ghost use Rattle.st_fields.specs.Reads.{Gives};
ghost use Rattle.st_fields.specs.Words.{is_inner, after_byte, number_of_16, number_of_32, number_of_64, octal_number, error_of_name, rule_after_prefix, seq_of_word, result_of_word, bytes_of_digits, bytes_of_word, kind_of_word};

use crate::LineFault;
use st_base::number::numeral_up_to;
use st_base::{Errno, Seq, Text, is_same_text};
use st_calls::{Rule, emulation_prefix};
use st_model::NewKind;
use st_trace::CallResult;
use std::alloc::{AllocError, Global};

/// How many bytes there are up to the first blank or comma.
pub fn word_len(bytes: &[u8]) -> usize
    ensures is { result ≡ prefix_len is_inner bytes.now }
    ensures within { result ≤ length bytes.now }
{
    bytes
        .iter()
        .take_while(|byte| !matches!(**byte, b' ' | b','))
        .count()
}

/// The bytes after this byte, if they begin with it.
pub fn after_byte(byte: u8, bytes: &[u8]) -> Option<&[u8]>
    ensures { option_map (λ rest. rest.now) result ≡ after_byte byte bytes.now }
{
    match bytes {
        [] => None,
        [first, rest @ ..] => { if *first == byte { Some(rest) } else { None } }
    }
}

/// The number of 16 bits that a word spells.
pub fn number_of_16(word: &[u8]) -> Option<u16>
    ensures { result ≡ number_of_16 word.now }
{
    let number = numeral_up_to(u64::from(u16::MAX), 10, word)?;
    Some(number as u16)
}

/// The number of 32 bits that a word spells.
pub fn number_of_32(word: &[u8]) -> Option<u32>
    ensures { result ≡ number_of_32 word.now }
{
    let number = numeral_up_to(u64::from(u32::MAX), 10, word)?;
    Some(number as u32)
}

/// The number of 64 bits that a word spells.
pub fn number_of_64(word: &[u8]) -> Option<u64>
    ensures { result ≡ number_of_64 word.now }
{
    numeral_up_to(u64::MAX, 10, word)
}

/// The number that a word spells in octal digits.
pub fn octal_number(word: &[u8]) -> Option<u32>
    ensures { result ≡ octal_number word.now }
{
    let number = numeral_up_to(u64::from(u32::MAX), 8, word)?;
    Some(number as u32)
}

// The first of these errors that has this name.
fn first_named(errors: &[Errno], name: &[u8]) -> Option<Errno>
    ensures { result ≡ find (λ errno. bytes_eq (name_of_error errno) name.now) errors.now }
{
    errors
        .iter()
        .copied()
        .find(|errno| is_same_text(errno.name(), name))
}

/// The error whose name in capital letters is this word.
pub fn error_of_name(word: &[u8]) -> Option<Errno>
    ensures { result ≡ error_of_name word.now }
{
    first_named(&Errno::ALL, word)
}

/// The rule whose name follows the emulation's prefix.
pub fn rule_after_prefix(word: &[u8]) -> Option<Rule>
    ensures { result ≡ rule_after_prefix word.now }
{
    let prefix = emulation_prefix();
    if word.starts_with(prefix) {
        Rule::of_word(&word[prefix.len()..])
    } else {
        None
    }
}

/// The number of a held call, or none for `-`.
pub fn seq_of_word(word: &[u8]) -> Option<Option<Seq>>
    ensures { result ≡ seq_of_word word.now }
{
    if is_same_text(word, b"-") {
        return Some(None);
    }
    let seq = number_of_16(word)?;
    Some(Some(seq))
}

/// The result of a call: a number, or the name of an error.
pub fn result_of_word(word: &[u8]) -> Option<CallResult>
    ensures { result ≡ result_of_word word.now }
{
    match number_of_64(word) {
        Some(number) => Some(CallResult::Value(number)),
        None => {
            let errno = error_of_name(word)?;
            Some(CallResult::Failed(errno))
        }
    }
}

// The byte that two hexadecimal digits spell.
fn hex_byte(high: u8, low: u8) -> Option<u8>
    ensures { result ≡ byte_of_hex high low }
{
    let high = char::from(high).to_digit(16)?;
    let low = char::from(low).to_digit(16)?;
    Some((high * 16 + low) as u8)
}

// The bytes that pairs of hexadecimal digits spell.
fn bytes_of_digits(alloc: Global, digits: &[u8]) -> Result<Text, LineFault>
    ensures { Gives result (bytes_of_digits digits.now) }
{
    let mut bytes = Text::new(alloc);
    let mut rest = digits;
    while let [high, low, after @ ..] = rest {
        let Some(byte) = hex_byte(*high, *low) else {
            return Err(LineFault::NotInGrammar);
        };
        bytes.push(byte)?;
        rest = after;
    }
    if rest.is_empty() {
        Ok(bytes)
    } else {
        Err(LineFault::NotInGrammar)
    }
}

/// Bytes as one word of hexadecimal digits, `-` if there are none.
pub fn bytes_of_word(alloc: Global, word: &[u8]) -> Result<Text, LineFault>
    ensures { Gives result (bytes_of_word word.now) }
{
    if is_same_text(word, b"-") {
        Ok(Text::new(alloc))
    } else {
        bytes_of_digits(alloc, word)
    }
}

/// The kind of an object that is made, by its word and the target of a link. A file that is made is empty.
pub fn kind_of_word(alloc: Global, word: &[u8], target: Text) -> Option<NewKind>
    ensures { result ≡ kind_of_word word.now target }
{
    if is_same_text(word, b"dir") {
        Some(NewKind::Dir)
    } else if is_same_text(word, b"file") {
        Some(NewKind::File(Text::new(alloc)))
    } else if is_same_text(word, b"link") {
        Some(NewKind::Link(target))
    } else {
        None
    }
}

/// The number of bytes after an opening quote, up to and including the closing quote.
pub fn closing_len(bytes: &[u8]) -> Option<usize>
    ensures is { result ≡ closing_len bytes.now }
    ensures within { IfSome result (λ count. count ≤ length bytes.now) }
{
    let mut escaped = false;
    for (index, &byte) in bytes.iter().enumerate() {
        if byte == b'\n' {
            return None;
        }
        if escaped {
            escaped = false;
        } else if byte == b'"' {
            return Some(index + 1);
        } else {
            escaped = byte == b'\\';
        }
    }
    None
}
