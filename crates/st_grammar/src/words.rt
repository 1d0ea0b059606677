ghost use Rattle.std.specs.Prelude.{◌≡◌, ◌&&◌, nat_lt, length, find, option_copied, option_map};
ghost use Rattle.std.specs.List.{list_all};
ghost use Rattle.std.specs.Str.{bytes_eq};
ghost use Rattle.st_filter.specs.Policies.{names_set_id_call};
ghost use Rattle.st_grammar.specs.Grammar.{who_named};
ghost use Rattle.st_grammar.specs.Words.{call_after_prefix, is_label, is_name_byte, name_by, may_test, may_test_label, op_named, index_in, is_id_named, id_in, names_for};

use crate::env::{Env, NamedId};
use st_base::number::{number_of, numeral_up_to};
use st_calls::Rule;
use st_emulation::Emulation;
use st_filter::{Op, Who};

/// Whether a word is this keyword.
pub fn is_keyword(word: &[u8], keyword: &[u8]) -> bool
    ensures { result ≡ bytes_eq word.now keyword.now }
{
    word.iter().eq(keyword)
}

/// Whether a word is a label: any word but those of the grammar.
pub fn is_label(word: &[u8]) -> bool
    ensures { result ≡ is_label word.now }
{
    !(is_keyword(word, b"not")
        || is_keyword(word, b"true")
        || is_keyword(word, b"and")
        || is_keyword(word, b"or")
        || is_keyword(word, b"then")
        || is_keyword(word, b"permit")
        || is_keyword(word, b"deny")
        || is_keyword(word, b"ask"))
}

fn is_name_byte(byte: u8) -> bool
    ensures { result ≡ is_name_byte byte }
{
    byte.is_ascii_alphanumeric() || byte == b'_'
}

fn has_name_bytes(name: &[u8]) -> bool
    ensures { result ≡ list_all is_name_byte name.now }
{
    name.iter().all(|byte| is_name_byte(*byte))
}

fn is_name(name: &[u8]) -> bool
    ensures { result ≡ (nat_lt 0 (length name.now) && list_all is_name_byte name.now) }
{
    name.len() > 0 && has_name_bytes(name)
}

/// The rest of a word after the emulation's prefix, if it can be the name of a call.
pub fn call_after_prefix(word: &[u8], emulation: Emulation) -> Option<&[u8]>
    ensures { option_copied result ≡ call_after_prefix word.now emulation }
{
    let prefix = emulation.prefix();
    if !word.starts_with(prefix) {
        return None;
    }
    let name = &word[prefix.len()..];
    if is_name(name) { Some(name) } else { None }
}

/// Whether a filter for this rule, or for a call outside the model, may test the argument of this label and index.
pub fn may_test(name: &[u8], rule: Option<Rule>, label: &[u8], index: u32) -> bool
    ensures { result ≡ may_test (name_by name.now rule) label.now index }
{
    match rule {
        Some(rule) => rule.has_argument(label, index),
        None => true,
    }
}

/// Whether a filter for this rule, or for a call outside the model, may test an argument of this label with some index.
pub fn may_test_label(name: &[u8], rule: Option<Rule>, label: &[u8]) -> bool
    ensures { result ≡ may_test_label (name_by name.now rule) label.now }
{
    match rule {
        Some(rule) => rule.has_label(label),
        None => true,
    }
}

/// Whether a filter for this rule, or for a call outside the model, is for a call that sets ids, to which no ids may be granted.
pub fn sets_ids(name: &[u8], rule: Option<Rule>) -> bool
    ensures { result ≡ names_set_id_call (name_by name.now rule) }
{
    match rule {
        Some(Rule::Call(call)) => call.sets_ids(),
        _ => false,
    }
}

/// The operator that a word names.
pub fn op_named(word: &[u8]) -> Option<Op>
    ensures { result ≡ op_named word.now }
{
    if is_keyword(word, b"match") {
        Some(Op::Match)
    } else if is_keyword(word, b"eq") {
        Some(Op::Eq)
    } else if is_keyword(word, b"neq") {
        Some(Op::Neq)
    } else if is_keyword(word, b"sub") {
        Some(Op::Sub)
    } else if is_keyword(word, b"nsub") {
        Some(Op::Nsub)
    } else if is_keyword(word, b"inpath") {
        Some(Op::Inpath)
    } else {
        None
    }
}

/// Whose id a word names: the user's or the group's.
pub fn who_named(word: &[u8]) -> Option<Who>
    ensures { result ≡ who_named word.now }
{
    if is_keyword(word, b"user") {
        Some(Who::User)
    } else if is_keyword(word, b"group") {
        Some(Who::Group)
    } else {
        None
    }
}

/// The index that a word spells: a number below 2^32.
pub fn index_of(word: &[u8]) -> Option<u32>
    ensures { result ≡ index_in word.now }
{
    match number_of(word) {
        Some(number) => {
            if number <= u32::MAX as u64 {
                Some(number as u32)
            } else {
                None
            }
        }
        None => None,
    }
}

// The id of the first row with this name.
fn id_named(rows: &[NamedId], word: &[u8]) -> Option<u32>
    ensures { result ≡ option_map (λ row. row.id) (find (is_id_named word.now) rows.now) }
{
    rows.iter()
        .find(|row| row.name.bytes() == word)
        .map(|row| row.id)
}

/// The id that a word spells: a decimal number below 2^32, otherwise the id of the first user, or group, of this name.
pub fn id_of(rows: &[NamedId], word: &[u8]) -> Option<u32>
    ensures { result ≡ id_in rows.now word.now }
{
    match numeral_up_to(u32::MAX as u64, 10, word) {
        Some(id) => Some(id as u32),
        None => id_named(rows, word),
    }
}

/// The known names of users, or of groups, with their ids.
pub fn names_for(env: &Env, who: Who) -> &[NamedId]
    ensures { result.now ≡ names_for env.now who }
{
    match who {
        Who::User => env.users.as_slice(),
        Who::Group => env.groups.as_slice(),
    }
}
