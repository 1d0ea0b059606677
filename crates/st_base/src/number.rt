ghost use Rattle.std.specs.Prelude.{◌≡◌, ℕ, ◌+◌, ◌*◌, ◌^◌, ◌<◌, ◌≤◌, IfSome, IfNone};
ghost use Rattle.std.specs.Char.{digit_value};
ghost use Rattle.st_base.specs.Number.{numeral_up_to, number_in, mode_in};

// The number with one more digit appended, if the byte is a digit of the radix and the new number is below 2^64.
fn with_digit(radix: u32, value: u64, byte: u8) -> Option<u64>
    requires low { 2 ≤ radix }
    requires high { radix ≤ 36 }
    ensures found { IfSome result (λ next. (digit_value byte < radix) × (next ≡ value * radix + digit_value byte)) }
    ensures none { IfNone result (digit_value byte < radix → 2 ^ 64 ≤ value * radix + digit_value byte) }
{
    let digit = char::from(byte).to_digit(radix)?;
    value
        .checked_mul(u64::from(radix))?
        .checked_add(u64::from(digit))
}

/// The number that these digits of the radix spell, if it is at most `most`.
pub fn numeral_up_to(most: u64, radix: u32, digits: &[u8]) -> Option<u64>
    requires low { 2 ≤ radix }
    requires high { radix ≤ 36 }
    ensures { result ≡ numeral_up_to most radix digits.now }
{
    if digits.is_empty() {
        return None;
    }
    let mut value = 0;
    for &byte in digits {
        value = with_digit(radix, value, byte)?;
    }
    if value <= most { Some(value) } else { None }
}

/// The number that a word spells: decimal digits, or `0x` and one to sixteen hexadecimal digits; below 2^64.
pub fn number_of(word: &[u8]) -> Option<u64>
    ensures { result ≡ number_in word.now }
{
    if word.starts_with(b"0x") {
        if word.len() <= 18 {
            numeral_up_to(u64::MAX, 16, &word[2..])
        } else {
            None
        }
    } else {
        numeral_up_to(u64::MAX, 10, word)
    }
}

/// The mode that a word spells: one to four octal digits, at most 777.
pub fn mode_of(word: &[u8]) -> Option<u32>
    ensures { result ≡ mode_in word.now }
{
    if word.len() > 4 {
        return None;
    }
    let value = numeral_up_to(0o777, 8, word)?;
    Some(value as u32)
}
