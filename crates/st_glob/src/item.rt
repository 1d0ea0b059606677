ghost use Rattle.std.specs.Prelude.{◌≡◌, ◌≤◌, ◌∷◌, true, length, IfSome, if◌then◌else◌};
ghost use Rattle.st_glob.specs.Items.{to_bracket, first_item, bracket_item, is_negated, Within, Without};
ghost use Rattle.st_glob.specs.Glob.{matches_byte};
ghost use Rattle.st_glob.specs.Taken.{taken_len};

use crate::class::{class_len, is_listed};

// Whether a class begins with the sign that negates it.
fn is_negated(following: &[u8]) -> bool
    ensures { result ≡ is_negated following.now }
{
    !following.is_empty() && (following[0] == b'!' || following[0] == b'^')
}

// Whether a class, negated or not, matches a byte.
fn class_takes(class: &[u8], negated: bool, byte: u8) -> bool
    ensures { result ≡ (if negated then matches_byte (Without class.now) byte else matches_byte (Within class.now) byte) }
{
    byte != b'/' && is_listed(class, byte) != negated
}

// If the class after an opening bracket matches the byte, the number of bytes that spell it after the bracket. An unclosed bracket
// matches itself.
fn bracket_taken_len(following: &[u8], byte: u8) -> Option<usize>
    ensures is { result ≡ taken_len (bracket_item following.now) byte }
    ensures within { IfSome result (λ len. len ≤ length following.now) }
{
    let negated = is_negated(following);
    let from = if negated { 1 } else { 0 };
    let class = &following[from..];
    match class_len(class) {
        None => (byte == b'[').then_some(0),
        Some(len) => {
            let takes = class_takes(&class[..len], negated, byte);
            takes.then_some(from + len + 1)
        }
    }
}

/// If the first item of a pattern matches the byte, the number of bytes that spell the item after its first byte. If `unclosed` is
/// true, the caller knows that no closing bracket follows, and no class is searched for.
pub fn taken_len(first: u8, following: &[u8], byte: u8, unclosed: bool) -> Option<usize>
    requires { unclosed ≡ true → to_bracket (first ∷ following.now) ≡ None }
    ensures is { result ≡ taken_len (first_item first following.now) byte }
    ensures within { IfSome result (λ len. len ≤ length following.now) }
{
    match first {
        b'*' => None,
        b'?' => (byte != b'/').then_some(0),
        b'[' if unclosed => (byte == b'[').then_some(0),
        b'[' => bracket_taken_len(following, byte),
        b'\\' => match following {
            [] => (byte == b'\\').then_some(0),
            [second, ..] => (byte == *second).then_some(1),
        },
        _ => (byte == first).then_some(0),
    }
}
