ghost use Rattle.std.specs.Prelude.{◌≡◌, ℕ, ◌<◌, ◌≤◌, ◌==◌, ◌||◌, ◌∷◌, length, drop, IfSome};
ghost use Rattle.st_glob.specs.Items.{members, member_len, in_range, is_listed, to_bracket, class_len};

// The bytes from `low` to `high`, and the number of bytes of a class that spell this range.
#[derive(Drop)]
struct Range {
    low: u8,
    high: u8,
    len: usize,
}

// The first member of a class, and the number of bytes that spell it: two if a backslash escapes it, otherwise one.
fn member(class: &[u8]) -> (u8, usize)
    requires { 0 < length class.now }
    ensures first { members class.now ≡ record { byte = result.0; bare = result.1 == 1 } ∷ members (drop result.1 class.now) }
    ensures len { result.1 ≡ member_len class.now }
    ensures some { 0 < result.1 }
    ensures within { result.1 ≤ length class.now }
{
    match class {
        [b'\\', byte, ..] => (*byte, 2),
        _ => (class[0], 1),
    }
}

// The first range of a class, or its first member as a range of one byte.
fn first_range(class: &[u8]) -> Range
    requires { 0 < length class.now }
    ensures first { (c : ℕ) → is_listed class.now c ≡ (in_range result.low result.high c || is_listed (drop result.len class.now) c) }
    ensures some { 0 < result.len }
    ensures within { result.len ≤ length class.now }
{
    let (low, len) = member(class);
    let following = &class[len..];
    if following.len() < 2 || following[0] != b'-' {
        return Range {
            low,
            high: low,
            len,
        };
    }
    let (high, more) = member(&following[1..]);
    Range {
        low,
        high,
        len: len + 1 + more,
    }
}

/// Whether a class lists a byte.
pub fn is_listed(class: &[u8], byte: u8) -> bool
    ensures { result ≡ is_listed class.now byte }
{
    let mut rest = class;
    while !rest.is_empty() {
        let range = first_range(rest);
        if range.low <= byte && byte <= range.high {
            return true;
        }
        rest = &rest[range.len..];
    }
    false
}

/// The number of bytes before the first closing bracket that no backslash escapes.
pub fn to_bracket(bytes: &[u8]) -> Option<usize>
    ensures is { result ≡ to_bracket bytes.now }
    ensures within { IfSome result (λ count. count < length bytes.now) }
{
    let mut count: usize = 0;
    let mut rest = bytes;
    while !rest.is_empty() {
        if rest[0] == b']' {
            return Some(count);
        }
        let (_, len) = member(rest);
        count += len;
        rest = &rest[len..];
    }
    None
}

/// The number of bytes that a class has before its closing bracket.
pub fn class_len(bytes: &[u8]) -> Option<usize>
    ensures is { result ≡ class_len bytes.now }
    ensures within { IfSome result (λ count. count < length bytes.now) }
{
    match bytes {
        [b']', following @ ..] => match to_bracket(following) {
            Some(count) => Some(1 + count),
            None => None,
        },
        _ => to_bracket(bytes),
    }
}
