ghost use Rattle.std.specs.Prelude.{◌≡◌, ◌<◌, ℕ, List, length, find};
ghost use Rattle.std.specs.Str.{bytes_eq};
ghost use Rattle.st_calls.specs.Argument.{has_argument, has_label};
ghost use Rattle.st_calls.specs.Call.{reads_alone, alias_of, rule_of, name_of_rule, rule_named, index_of_rule};

use crate::argument::args_of;
use crate::call::SysCall;
use crate::flags::{O_ACCMODE, O_CREAT, O_TRUNC, has_flag};
use st_base::{Errno, is_same_text};

/// The number of rules.
pub const RULES: usize = 36;

/// The name under which a policy judges a call.
#[derive(Clone, Copy, Debug, PartialEq, Eq)]
pub enum Rule {
    /// The call's own name.
    Call(SysCall),
    /// The alias `fsread` of systrace(1): an open for reading only, stat, lstat, access and readlink.
    FsRead,
    /// The alias `fswrite` of systrace(1): every other open, unlink, mkdir and rmdir.
    FsWrite,
}

impl Rule {
    /// Every rule, each at its index.
    pub const ALL: [Rule; RULES] = [
        Rule::Call(SysCall::Open),
        Rule::Call(SysCall::Close),
        Rule::Call(SysCall::Read),
        Rule::Call(SysCall::Write),
        Rule::Call(SysCall::Lseek),
        Rule::Call(SysCall::Dup),
        Rule::Call(SysCall::Stat),
        Rule::Call(SysCall::Lstat),
        Rule::Call(SysCall::Access),
        Rule::Call(SysCall::Readlink),
        Rule::Call(SysCall::Unlink),
        Rule::Call(SysCall::Link),
        Rule::Call(SysCall::Symlink),
        Rule::Call(SysCall::Rename),
        Rule::Call(SysCall::Mkdir),
        Rule::Call(SysCall::Rmdir),
        Rule::Call(SysCall::Chdir),
        Rule::Call(SysCall::Chmod),
        Rule::Call(SysCall::Chown),
        Rule::Call(SysCall::Truncate),
        Rule::Call(SysCall::Fork),
        Rule::Call(SysCall::Execve),
        Rule::Call(SysCall::Exit),
        Rule::Call(SysCall::Kill),
        Rule::Call(SysCall::GetPid),
        Rule::Call(SysCall::GetUid),
        Rule::Call(SysCall::GetEuid),
        Rule::Call(SysCall::SetUid),
        Rule::Call(SysCall::SetEuid),
        Rule::Call(SysCall::SetGid),
        Rule::Call(SysCall::SetEgid),
        Rule::Call(SysCall::Socket),
        Rule::Call(SysCall::Bind),
        Rule::Call(SysCall::Connect),
        Rule::FsRead,
        Rule::FsWrite,
    ];

    /// The rule of a call with these registers. Without aliasing it is the call's own name.
    pub fn of(call: SysCall, regs: &[u64; 6], aliasing: bool) -> Self
        ensures { result ≡ rule_of call regs.now aliasing }
    {
        if aliasing {
            alias_of(call, regs)
        } else {
            Rule::Call(call)
        }
    }

    /// The rule's name, as a policy writes it after `native-`.
    pub fn word(self) -> &'static [u8]
        ensures { result.now ≡ name_of_rule self }
    {
        match self {
            Rule::Call(call) => call.word(),
            Rule::FsRead => b"fsread",
            Rule::FsWrite => b"fswrite",
        }
    }

    /// The rule whose name is this word: `fsread`, `fswrite`, or a call's name.
    pub fn of_word(word: &[u8]) -> Option<Rule>
        ensures { result ≡ rule_named word.now }
    {
        first_named(rules_of_len(word.len()), word)
    }

    /// The rule's index among all rules, from 0 and below `RULES`, for tables with an item for each rule.
    pub fn index(self) -> usize
        ensures value { result ≡ index_of_rule self }
        ensures within { result < RULES }
    {
        match self {
            Rule::Call(call) => call.index(),
            Rule::FsRead => 34,
            Rule::FsWrite => 35,
        }
    }

    /// Whether policies judge an argument with this label and index under the rule.
    pub fn has_argument(self, label: &[u8], index: u32) -> bool
        ensures { result ≡ has_argument self label.now index }
    {
        args_of(self).iter().any(|spec| is_same_text(spec.label.word(), label)
            && spec.index == index)
    }

    /// Whether policies judge an argument with this label, of any index, under the rule.
    pub fn has_label(self, label: &[u8]) -> bool
        ensures { result ≡ has_label self label.now }
    {
        args_of(self)
            .iter()
            .any(|spec| is_same_text(spec.label.word(), label))
    }
}

// Whether an open with these flags only reads: it requests no other access, and neither makes nor truncates a file.
fn reads_alone(flags: u64) -> bool
    ensures { result ≡ reads_alone flags }
{
    !has_flag(flags, O_ACCMODE) && !has_flag(flags, O_CREAT) && !has_flag(flags, O_TRUNC)
}

// The rule of a call with aliasing.
fn alias_of(call: SysCall, regs: &[u64; 6]) -> Rule
    ensures { result ≡ alias_of call regs.now }
{
    match call {
        SysCall::Open => {
            if reads_alone(regs[1]) {
                Rule::FsRead
            } else {
                Rule::FsWrite
            }
        }
        SysCall::Stat | SysCall::Lstat | SysCall::Access | SysCall::Readlink => Rule::FsRead,
        SysCall::Unlink | SysCall::Mkdir | SysCall::Rmdir => Rule::FsWrite,
        _ => Rule::Call(call),
    }
}

// The rules whose names have three bytes.
const THREE: [Rule; 1] = [Rule::Call(SysCall::Dup)];

// The rules whose names have four bytes.
const FOUR: [Rule; 8] = [
    Rule::Call(SysCall::Open),
    Rule::Call(SysCall::Read),
    Rule::Call(SysCall::Stat),
    Rule::Call(SysCall::Link),
    Rule::Call(SysCall::Fork),
    Rule::Call(SysCall::Exit),
    Rule::Call(SysCall::Kill),
    Rule::Call(SysCall::Bind),
];

// The rules whose names have five bytes.
const FIVE: [Rule; 9] = [
    Rule::Call(SysCall::Close),
    Rule::Call(SysCall::Write),
    Rule::Call(SysCall::Lseek),
    Rule::Call(SysCall::Lstat),
    Rule::Call(SysCall::Mkdir),
    Rule::Call(SysCall::Rmdir),
    Rule::Call(SysCall::Chdir),
    Rule::Call(SysCall::Chmod),
    Rule::Call(SysCall::Chown),
];

// The rules whose names have six bytes.
const SIX: [Rule; 10] = [
    Rule::Call(SysCall::Access),
    Rule::Call(SysCall::Unlink),
    Rule::Call(SysCall::Rename),
    Rule::Call(SysCall::Execve),
    Rule::Call(SysCall::GetPid),
    Rule::Call(SysCall::GetUid),
    Rule::Call(SysCall::SetUid),
    Rule::Call(SysCall::SetGid),
    Rule::Call(SysCall::Socket),
    Rule::FsRead,
];

// The rules whose names have seven bytes.
const SEVEN: [Rule; 6] = [
    Rule::Call(SysCall::Symlink),
    Rule::Call(SysCall::GetEuid),
    Rule::Call(SysCall::SetEuid),
    Rule::Call(SysCall::SetEgid),
    Rule::Call(SysCall::Connect),
    Rule::FsWrite,
];

// The rules whose names have eight bytes.
const EIGHT: [Rule; 2] = [Rule::Call(SysCall::Readlink), Rule::Call(SysCall::Truncate)];

// Rules that include any rule that a word of this length names, so that few names have to be compared.
fn rules_of_len(len: usize) -> &'static [Rule]
    ensures { (word : List ℕ) → length word ≡ len → find (λ rule. bytes_eq (name_of_rule rule) word) result.now ≡ rule_named word }
{
    match len {
        3 => &THREE,
        4 => &FOUR,
        5 => &FIVE,
        6 => &SIX,
        7 => &SEVEN,
        8 => &EIGHT,
        _ => &Rule::ALL,
    }
}

// The first of these rules that has this name.
fn first_named(rules: &[Rule], word: &[u8]) -> Option<Rule>
    ensures { result ≡ find (λ rule. bytes_eq (name_of_rule rule) word.now) rules.now }
{
    rules
        .iter()
        .copied()
        .find(|rule| is_same_text(rule.word(), word))
}

/// The kernel's own answer for a rule: permit, refuse or ask, as in systrace(4).
#[derive(Clone, Copy, Debug, PartialEq, Eq)]
pub enum FastAnswer {
    /// The call is made at once.
    Permit,
    /// The call is refused at once, with this error.
    Refuse(Errno),
    /// The filters have to be tried.
    Ask,
}
