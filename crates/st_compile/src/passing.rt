// Tests of an argument's text. A look at one byte often decides.
ghost use Rattle.std.specs.Prelude.{◌≡◌, ◌==◌, option_copied};
ghost use Rattle.std.specs.List.{list_any};
ghost use Rattle.st_filter.specs.Judging.{compares};
ghost use Rattle.st_compile.specs.Passing.{agree_before, are_same, has_byte, is_end, is_literal, literal_len, may_pass, passes, shared_len};

use st_calls::ArgText;
use st_filter::{Op, compares};

// Whether a byte of a pattern only matches itself, wherever it is outside a class.
fn is_literal(byte: u8) -> bool
    ensures { result ≡ is_literal byte }
{
    !(byte == b'*' || byte == b'?' || byte == b'[' || byte == b'\\')
}

// How many bytes at the beginning of a pattern only match themselves.
fn literal_len(pattern: &[u8]) -> usize
    ensures { result ≡ literal_len pattern.now }
{
    let mut len = 0;
    for byte in pattern {
        if !is_literal(*byte) {
            return len;
        }
        len += 1;
    }
    len
}

/// How many bytes at the beginning of a test's text each text that passes the test begins with.
pub fn shared_len(op: Op, text: &[u8]) -> usize
    ensures { result ≡ shared_len op text.now }
{
    match op {
        Op::Eq => text.len(),
        Op::Match => literal_len(text),
        _ => 0,
    }
}

// Whether there are two bytes, and they are the same.
fn are_same(first: Option<&u8>, second: Option<&u8>) -> bool
    ensures { result ≡ are_same (option_copied first.entry) (option_copied second.entry) }
{
    match (first, second) {
        (Some(a), Some(b)) => a == b,
        _ => false,
    }
}

// Whether an argument and a text have the same byte right before this place. If there is none before it, nothing is looked at.
fn agree_before(place: usize, argument: &[u8], text: &[u8]) -> bool
    ensures { result ≡ agree_before place argument.now text.now }
{
    match place.checked_sub(1) {
        Some(last) => are_same(argument.get(last), text.get(last)),
        None => true,
    }
}

// Whether a path may have a component's end at a place.
fn is_end(byte: Option<&u8>) -> bool
    ensures { result ≡ is_end (option_copied byte.entry) }
{
    match byte {
        Some(byte) => *byte == b'/',
        None => true,
    }
}

// Whether a byte is one of these.
fn is_among(byte: u8, bytes: &[u8]) -> bool
    ensures { result ≡ list_any (λ each. each == byte) bytes.now }
{
    bytes.iter().any(|each| *each == byte)
}

// Whether an argument has a byte. Any has none.
fn has_byte(byte: Option<&u8>, argument: &[u8]) -> bool
    ensures { result ≡ has_byte (option_copied byte.entry) argument.now }
{
    match byte {
        Some(byte) => is_among(*byte, argument),
        None => true,
    }
}

// Whether a look at single bytes leaves it open that an argument passes a test.
fn may_pass(op: Op, shared: usize, argument: &[u8], text: &[u8]) -> bool
    ensures { result ≡ may_pass op shared argument.now text.now }
{
    match op {
        Op::Inpath => argument.len() == 1 || is_end(text.get(argument.len())),
        Op::Sub => has_byte(text.first(), argument),
        _ => agree_before(shared, argument, text),
    }
}

/// Whether an optional argument passes a test.
pub fn passes(op: Op, shared: usize, text: &[u8], argument: Option<&ArgText>) -> bool
    ensures { result ≡ passes op shared text.now (option_copied argument.entry) }
{
    match argument {
        Some(argument) => {
            let bytes = argument.text.bytes();
            may_pass(op, shared, bytes, text) && compares(op, bytes, text)
        }
        None => false,
    }
}
