ghost use Rattle.std.specs.Prelude.{◌≡◌, ◌↔◌, [], IsTrue};
ghost use Rattle.st_glob.specs.Glob.{matches, matches_after_run, glob};
ghost use Rattle.st_glob.specs.Items.{items};
ghost use Rattle.st_glob.specs.Fills.{FillsFront};
ghost use Rattle.st_glob.specs.Taken.{IsFront, IsShorter};

use crate::class::to_bracket;
use crate::item::taken_len;

// The result of matching a pattern against a text up to the pattern's first star.
enum Front<'a> {
    // The pattern has no star and matches.
    Whole,
    // The items up to a star matched: the pattern after the star, and the rest of the text.
    Run(&'a [u8], &'a [u8]),
    Differs,
}

// Whether the rest of a text is empty or begins with a slash, so that a match may end there.
fn is_end(text: &[u8]) -> bool
    ensures { result ≡ matches [] text.now }
{
    text.is_empty() || text[0] == b'/'
}

// Matches items and bytes one by one, up to the first star. After a bracket that nothing closes, no closing bracket is searched for
// again.
fn match_front<'a>(pattern: &'a [u8], text: &'a [u8]) -> Front<'a>
    ensures is { IsFront pattern.now text.now result }
    ensures shorter { IsShorter pattern.now text.now result }
{
    let mut items = pattern;
    let mut left = text;
    let mut unclosed = false;
    while let [first, following @ ..] = items {
        if *first == b'*' {
            return Front::Run(following, left);
        }
        let [byte, more @ ..] = left else {
            return Front::Differs;
        };
        unclosed = unclosed || (*first == b'[' && to_bracket(items).is_none());
        let Some(len) = taken_len(*first, following, *byte, unclosed) else {
            return Front::Differs;
        };
        items = &following[len..];
        left = more;
    }
    if is_end(left) {
        Front::Whole
    } else {
        Front::Differs
    }
}

// Whether the pattern matches after some run of bytes without a slash. When the next star is reached, the offset of the current star
// is dropped, because a longer run of the current star couldn't lead to more matches.
fn glob_after_run(pattern: &[u8], text: &[u8]) -> bool
    ensures { result ≡ matches_after_run (glob pattern.now) text.now }
{
    let mut items = pattern;
    let mut rest = text;
    loop {
        match match_front(items, rest) {
            Front::Whole => return true,
            Front::Run(after, left) => {
                items = after;
                rest = left;
            }
            Front::Differs => {
                if is_end(rest) {
                    return false;
                }
                rest = &rest[1..];
            }
        }
    }
}

/// Whether a pattern matches a text, or a prefix of it that a slash follows. It allocates no memory, and reads the pattern's bytes at
/// most a few times for each byte of the text.
pub fn glob(pattern: &[u8], text: &[u8]) -> bool
    ensures is { result ≡ glob pattern.now text.now }
    ensures fills { IsTrue result ↔ FillsFront (items pattern.now) text.now }
{
    match match_front(pattern, text) {
        Front::Whole => true,
        Front::Differs => false,
        Front::Run(after, rest) => glob_after_run(after, rest),
    }
}
