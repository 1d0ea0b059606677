ghost use Rattle.std.specs.Prelude.{◌≡◌, ◌==◌, ◌+◌, ◌≤◌, slice_index, ◌++◌, decimal, vec_capacity, vec_len};
ghost use Rattle.std.specs.Int.{w64, to_le_bytes};
ghost use Rattle.st_model.specs.Spelling.{address_text, internet};

use crate::buffer::{push_all, push_number};

/// The family of internet addresses.
const INTERNET: u8 = 2;

/// Whether the address in a word is of the family of internet addresses.
pub fn is_internet(word: u64) -> bool
    ensures { result ≡ (slice_index (to_le_bytes w64 word) 1 == internet) }
{
    word.to_le_bytes()[1] == INTERNET
}

// Appends a byte of an address, which takes at most three digits.
fn push_octet(text: &mut Vec<u8>, octet: u8)
    requires { vec_len text.old + 3 ≤ vec_capacity text.old }
    ensures bytes { text.new.items ≡ text.old.items ++ decimal octet }
    ensures len { vec_len text.new ≤ vec_len text.old + 3 }
    ensures capacity { vec_capacity text.new ≡ vec_capacity text.old }
{
    push_number(text, u64::from(octet));
}

// Appends a port, which takes at most five digits.
fn push_port(text: &mut Vec<u8>, port: u16)
    requires { vec_len text.old + 5 ≤ vec_capacity text.old }
    ensures bytes { text.new.items ≡ text.old.items ++ decimal port }
    ensures capacity { vec_capacity text.new ≡ vec_capacity text.old }
{
    push_number(text, u64::from(port));
}

/// Appends the text of the address in a word, which takes at most 28 bytes.
// A function of its own, since addresses are rare and their code is long: the words of texts are taken without the space and the
// registers that it needs.
#[inline(never)]
pub fn push_address(text: &mut Vec<u8>, word: u64)
    requires { vec_len text.old + 28 ≤ vec_capacity text.old }
    ensures bytes { text.new.items ≡ text.old.items ++ address_text (to_le_bytes w64 word) }
    ensures capacity { vec_capacity text.new ≡ vec_capacity text.old }
{
    let bytes = word.to_le_bytes();
    push_all(text, b"inet-[");
    push_octet(text, bytes[4]);
    push_all(text, b".");
    push_octet(text, bytes[5]);
    push_all(text, b".");
    push_octet(text, bytes[6]);
    push_all(text, b".");
    push_octet(text, bytes[7]);
    push_all(text, b"]:");
    push_port(text, u16::from_be_bytes([bytes[2], bytes[3]]));
}
