ghost use Rattle.std.specs.Prelude.{◌≡◌, ◌↔◌, length, find, IsTrue};
ghost use Rattle.std.specs.Str.{bytes_eq};
ghost use Rattle.st_calls.specs.Argument.{args_of_call, args_of, name_of_label, label_named};

use crate::call::SysCall;
use crate::rule::Rule;
use st_base::{Text, is_same_text};

/// The name by which a policy refers to an argument of a call.
#[derive(Clone, Copy, Debug, PartialEq, Eq)]
pub enum Label {
    Filename,
    String,
    Mode,
    Uid,
    Gid,
    Argv,
    Pid,
    Signum,
    SockDom,
    SockType,
    SockAddr,
}

impl Label {
    /// Every label.
    pub const ALL: [Label; 11] = [
        Label::Filename,
        Label::String,
        Label::Mode,
        Label::Uid,
        Label::Gid,
        Label::Argv,
        Label::Pid,
        Label::Signum,
        Label::SockDom,
        Label::SockType,
        Label::SockAddr,
    ];

    /// The label's name, as a policy writes it.
    pub fn word(self) -> &'static [u8]
        ensures { result.now ≡ name_of_label self }
    {
        match self {
            Label::Filename => b"filename",
            Label::String => b"string",
            Label::Mode => b"mode",
            Label::Uid => b"uid",
            Label::Gid => b"gid",
            Label::Argv => b"argv",
            Label::Pid => b"pid",
            Label::Signum => b"signum",
            Label::SockDom => b"sockdom",
            Label::SockType => b"socktype",
            Label::SockAddr => b"sockaddr",
        }
    }

    /// The label whose name is this word.
    pub fn of_word(word: &[u8]) -> Option<Label>
        ensures { result ≡ label_named word.now }
    {
        first_named(&Label::ALL, word)
    }
}

// The first of these labels that has this name.
fn first_named(labels: &[Label], word: &[u8]) -> Option<Label>
    ensures { result ≡ find (λ label. bytes_eq (name_of_label label) word.now) labels.now }
{
    labels
        .iter()
        .copied()
        .find(|label| is_same_text(label.word(), word))
}

/// An argument of a call, with the text that policies judge.
#[derive(Debug, Drop)]
pub struct ArgText {
    pub label: Label,
    /// Which of the arguments with this label, from 0.
    pub index: u32,
    pub text: Text,
}

impl ArgText {
    // Whether two arguments are the same.
    fn is_same(&self, other: &ArgText) -> bool
        ensures { IsTrue result ↔ (self.now ≡ other.now) }
    {
        self.label == other.label
            && self.index == other.index
            && is_same_text(self.text.bytes(), other.text.bytes())
    }
}

// Whether two lists have the same arguments, in the same order.
pub(crate) fn are_same_arguments(one: &[ArgText], other: &[ArgText]) -> bool
    ensures { IsTrue result ↔ (one.now ≡ other.now) }
{
    one.len() == other.len() && is_each_same(one, other)
}

// Whether the arguments of two lists of the same length are the same, each at its place.
fn is_each_same(one: &[ArgText], other: &[ArgText]) -> bool
    requires { length one.now ≡ length other.now }
    ensures { IsTrue result ↔ (one.now ≡ other.now) }
{
    let mut left = one.len();
    while left > 0 {
        left -= 1;
        if !one[left].is_same(&other[left]) {
            return false;
        }
    }
    true
}

/// How an argument is passed in registers and memory, and which text it has.
#[derive(Clone, Copy, Debug, PartialEq, Eq)]
pub enum PartKind {
    /// A pointer to a name in memory that ends with a zero byte. Its text is the absolute name, without dots or links.
    Name,
    /// A pointer to a text in memory that ends with a zero byte. Its text is these bytes, unchanged.
    Plain,
    /// A pointer to a socket address of one word in memory: length, family, port and four bytes. Its text is `inet-[a.b.c.d]:port`.
    Addr,
    /// A pointer to words in memory, up to a zero word, each of which is a pointer to a text. Its text is these texts, separated by blanks.
    Argv,
    /// A number in the register. Its text is the number in decimal digits.
    Decimal,
    /// A mode in the register. Its text is the low nine bits in octal digits.
    Octal,
    /// An address family in the register. Its text is `AF_UNIX` for 1, `AF_INET` for 2, and decimal digits for other numbers.
    Domain,
    /// A socket type in the register. Its text is `SOCK_STREAM` for 1, `SOCK_DGRAM` for 2, and decimal digits for other numbers.
    SockType,
}

/// One argument of a call that policies judge.
#[derive(Clone, Copy, Debug, PartialEq, Eq)]
pub struct ArgSpec {
    pub label: Label,
    /// Which of the arguments with this label, from 0.
    pub index: u32,
    /// The register in which the argument is passed, from 0.
    pub register: u32,
    pub kind: PartKind,
}

// The argument with this label, index and kind that is passed in this register.
macro_rules! argument {
    ($label:ident, $index:literal, $register:literal, $kind:ident) => {
        ArgSpec {
            label: Label::$label,
            index: $index,
            register: $register,
            kind: PartKind::$kind,
        }
    };
}

const NAME: [ArgSpec; 1] = [argument!(Filename, 0, 0, Name)];

const TWO_NAMES: [ArgSpec; 2] = [
    argument!(Filename, 0, 0, Name),
    argument!(Filename, 1, 1, Name),
];

const TEXT_AND_NAME: [ArgSpec; 2] = [
    argument!(String, 0, 0, Plain),
    argument!(Filename, 0, 1, Name),
];

const NAME_AND_MODE: [ArgSpec; 2] = [
    argument!(Filename, 0, 0, Name),
    argument!(Mode, 0, 1, Octal),
];

const NAME_AND_IDS: [ArgSpec; 3] = [
    argument!(Filename, 0, 0, Name),
    argument!(Uid, 0, 1, Decimal),
    argument!(Gid, 0, 2, Decimal),
];

const NAME_AND_ARGV: [ArgSpec; 2] = [argument!(Filename, 0, 0, Name), argument!(Argv, 0, 1, Argv)];

const PID_AND_SIGNAL: [ArgSpec; 2] = [
    argument!(Pid, 0, 0, Decimal),
    argument!(Signum, 0, 1, Decimal),
];

const UID: [ArgSpec; 1] = [argument!(Uid, 0, 0, Decimal)];

const GID: [ArgSpec; 1] = [argument!(Gid, 0, 0, Decimal)];

const DOMAIN_AND_TYPE: [ArgSpec; 2] = [
    argument!(SockDom, 0, 0, Domain),
    argument!(SockType, 0, 1, SockType),
];

const ADDRESS: [ArgSpec; 1] = [argument!(SockAddr, 0, 1, Addr)];

/// The arguments that policies judge under a rule, in order.
pub fn args_of(rule: Rule) -> &'static [ArgSpec]
    ensures { result.now ≡ args_of rule }
{
    match rule {
        Rule::Call(call) => args_of_call(call),
        Rule::FsRead => &NAME,
        Rule::FsWrite => &NAME,
    }
}

// The arguments of a call that policies judge under its own name.
fn args_of_call(call: SysCall) -> &'static [ArgSpec]
    ensures { result.now ≡ args_of_call call }
{
    match call {
        SysCall::Open | SysCall::Stat | SysCall::Lstat | SysCall::Access | SysCall::Readlink =>
            &NAME,
        SysCall::Unlink | SysCall::Mkdir | SysCall::Rmdir | SysCall::Chdir | SysCall::Truncate =>
            &NAME,
        SysCall::Link | SysCall::Rename => &TWO_NAMES,
        SysCall::Symlink => &TEXT_AND_NAME,
        SysCall::Chmod => &NAME_AND_MODE,
        SysCall::Chown => &NAME_AND_IDS,
        SysCall::Execve => &NAME_AND_ARGV,
        SysCall::Kill => &PID_AND_SIGNAL,
        SysCall::SetUid | SysCall::SetEuid => &UID,
        SysCall::SetGid | SysCall::SetEgid => &GID,
        SysCall::Socket => &DOMAIN_AND_TYPE,
        SysCall::Bind | SysCall::Connect => &ADDRESS,
        _ => &[],
    }
}
