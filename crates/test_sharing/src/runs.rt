//! Texts, names and calls, and runs as data.

use crate::is_shareable;
use st_base::{Errno, Ids, Sequence, Shared, Text};
use st_calls::{ArgSpec, ArgText, FastAnswer, Label, PartKind, Rule, Snapshot, SysCall, Verdict};
use st_law::{Mode, Options, ReadSchedule, ScheduleLine, What};
use st_lex::token::Front;
use st_lex::{Dollars, LexFault, Lexed, Lexer, Token, TokenKind};
use st_names::{AbsName, NameFault, NameParts, Seen, SeenText, SlashParts};
use st_trace::{
    CallArgs, CallResult, Cause, Change, Choice, Entry, GroupRow, Instr, ProcessRow, Start,
    ThreadRow, TreeRow, UserRow, Way,
};

/// Texts, names and calls.
pub fn basic_types_are_shareable() {
    is_shareable::<Errno>();
    is_shareable::<Ids>();
    is_shareable::<Text>();
    is_shareable::<Sequence<Text>>();
    is_shareable::<Shared<Text>>();
    is_shareable::<Lexer<'_>>();
    is_shareable::<Lexed>();
    is_shareable::<Token>();
    is_shareable::<TokenKind>();
    is_shareable::<LexFault>();
    is_shareable::<Front>();
    is_shareable::<Dollars>();
    is_shareable::<AbsName>();
    is_shareable::<NameParts<'_>>();
    is_shareable::<NameFault>();
    is_shareable::<SlashParts<'_>>();
    is_shareable::<Seen<'_>>();
    is_shareable::<SeenText>();
    is_shareable::<SysCall>();
    is_shareable::<Rule>();
    is_shareable::<FastAnswer>();
    is_shareable::<Label>();
    is_shareable::<PartKind>();
    is_shareable::<ArgSpec>();
    is_shareable::<ArgText>();
    is_shareable::<Snapshot>();
    is_shareable::<Verdict>();
}

/// The start of a run, its choices and its entries.
pub fn runs_are_shareable() {
    is_shareable::<Start>();
    is_shareable::<UserRow>();
    is_shareable::<GroupRow>();
    is_shareable::<TreeRow>();
    is_shareable::<ProcessRow>();
    is_shareable::<ThreadRow>();
    is_shareable::<Instr>();
    is_shareable::<Choice>();
    is_shareable::<Entry>();
    is_shareable::<CallArgs>();
    is_shareable::<CallResult>();
    is_shareable::<Change>();
    is_shareable::<Cause>();
    is_shareable::<Way>();
    is_shareable::<Options>();
    is_shareable::<Mode>();
    is_shareable::<ReadSchedule>();
    is_shareable::<ScheduleLine>();
    is_shareable::<What>();
}
