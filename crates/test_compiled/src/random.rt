ghost use Rattle.std.specs.Prelude.{◌<◌};

use st_base::Errno;
use st_calls::Rule;

// Not zero, which the generator never leaves.
const SEED: u64 = 0x9e37_79b9_7f4a_7c15;

// Texts of arguments, of which tests ask for some.
const TEXTS: [&[u8]; 10] = [
    b"/", b"/a", b"/a/b", b"/a/b/c", b"/a/bc", b"/ab", b"/b", b"/b/a", b"", b"644",
];

// What only tests have: patterns, parts of names, and one that no argument has.
const PATTERNS: [&[u8]; 10] = [
    b"/*",
    b"/a/*",
    b"/?/b",
    b"/[ab]",
    b"/[!a]*/*",
    b"*",
    b"/a/\\b",
    b"a/",
    b"[",
    b"/none",
];

/// A generator of numbers that look random, and are the same in each run: xorshift.
#[derive(Drop)]
pub struct Random {
    state: u64,
}

impl Random {
    /// The generator at its beginning.
    pub fn new() -> Self {
        Random { state: SEED }
    }

    fn next(&mut self) -> u64 {
        self.state ^= self.state << 13;
        self.state ^= self.state >> 7;
        self.state ^= self.state << 17;
        self.state >> 32
    }

    /// A number below a limit.
    pub fn below(&mut self, limit: u32) -> u32
        requires { 0 < limit }
        ensures { result < limit }
    {
        (self.next() % u64::from(limit)) as u32
    }

    /// True once in so many times.
    pub fn is_one_in(&mut self, times: u32) -> bool
        requires { 0 < times }
    {
        self.below(times) == 0
    }

    /// A rule.
    pub fn rule(&mut self) -> Rule {
        Rule::ALL[self.below(36) as usize]
    }

    /// An error.
    pub fn errno(&mut self) -> Errno {
        Errno::ALL[self.below(21) as usize]
    }

    /// A text of an argument.
    pub fn text(&mut self) -> &'static [u8] {
        TEXTS[self.below(10) as usize]
    }

    /// A text that a test asks for.
    pub fn tested_text(&mut self) -> &'static [u8] {
        if self.is_one_in(2) {
            self.text()
        } else {
            PATTERNS[self.below(10) as usize]
        }
    }
}
