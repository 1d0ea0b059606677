ghost use Rattle.std.specs.Prelude.{◌≡◌, ◌≤◌, ◌<◌, ◌^◌, length, IfSome};
ghost use Rattle.std.specs.List.{prefix_len};
ghost use Rattle.st_command.specs.Words.{has_dash, decimal_in, most_id, is_no_colon, group_in, ids_in, positive_in, workers_in, rounds_in};

use st_base::number::numeral_up_to;

/// Whether a word begins with a dash, so that it is no operand.
pub(crate) fn has_dash(word: &[u8]) -> bool
    ensures { result ≡ has_dash word.now }
{
    word.starts_with(b"-")
}

// The number that decimal digits without a leading zero spell, if it is at most this.
fn decimal_in(most: u32, digits: &[u8]) -> Option<u32>
    ensures { result ≡ decimal_in most digits.now }
{
    if digits == b"0".as_slice() || !digits.starts_with(b"0") {
        let number = numeral_up_to(u64::from(most), 10, digits)?;
        Some(number as u32)
    } else {
        None
    }
}

// The number of bytes before the first colon.
fn user_len(word: &[u8]) -> usize
    ensures is { result ≡ prefix_len is_no_colon word.now }
    ensures within { result ≤ length word.now }
{
    word.iter().take_while(|byte| **byte != b':').count()
}

// The group after a colon.
fn group_in(bytes: &[u8]) -> Option<u32>
    ensures { result ≡ group_in bytes.now }
{
    match bytes {
        [_, group @ ..] => decimal_in(u32::MAX, group),
        [] => None,
    }
}

/// The user and the group that a word `U:G` spells.
pub(crate) fn ids_in(word: &[u8]) -> Option<(u32, u32)>
    ensures { result ≡ ids_in word.now }
{
    let len = user_len(word);
    let uid = decimal_in(u32::MAX, &word[..len])?;
    let gid = group_in(&word[len..])?;
    Some((uid, gid))
}

// The number that a word spells, if it is at least 1 and at most this.
fn positive_in(most: u32, word: &[u8]) -> Option<u32>
    ensures { result ≡ positive_in most word.now }
{
    let number = decimal_in(most, word)?;
    if 1 <= number { Some(number) } else { None }
}

/// The number of workers that a word spells: 1 to 8.
pub(crate) fn workers_in(word: &[u8]) -> Option<u32>
    ensures { result ≡ workers_in word.now }
{
    positive_in(8, word)
}

/// The number of rounds that a word spells: 1 to 512.
pub(crate) fn rounds_in(word: &[u8]) -> Option<u32>
    ensures { result ≡ rounds_in word.now }
{
    positive_in(512, word)
}
