// Appending to a text that has enough capacity already.
ghost use Rattle.std.specs.Prelude.{◌≡◌, ◌+◌, ◌≤◌, ◌++◌, decimal, length, vec_capacity, vec_len};

use itoa::Buffer;

/// Appends bytes.
pub fn push_all(text: &mut Vec<u8>, bytes: &[u8])
    requires { vec_len text.old + length bytes.now ≤ vec_capacity text.old }
    ensures bytes { text.new.items ≡ text.old.items ++ bytes.now }
    ensures len { vec_len text.new ≡ vec_len text.old + length bytes.now }
    ensures capacity { vec_capacity text.new ≡ vec_capacity text.old }
{
    for byte in bytes {
        text.push_reserved(*byte);
    }
}

/// Appends a number in decimal digits.
pub fn push_number(text: &mut Vec<u8>, number: u64)
    requires { vec_len text.old + length (decimal number) ≤ vec_capacity text.old }
    ensures bytes { text.new.items ≡ text.old.items ++ decimal number }
    ensures len { vec_len text.new ≡ vec_len text.old + length (decimal number) }
    ensures capacity { vec_capacity text.new ≡ vec_capacity text.old }
{
    let mut buffer = Buffer::new();
    push_all(text, buffer.format(number).as_bytes());
}
