//! What rows are read as with the environment of the script.

ghost use Rattle.std.specs.Prelude.{◌≡◌, IfOk, option_copied};
ghost use Rattle.st_grammar.specs.OneFilter.{filter_in};
ghost use Rattle.st_script_faults.specs.Faults.{filter_read, unless_ask, reply_filter, reply_for, reply_in, policy_binary, row_value, is_invalid, replied_binary};

use st_base::Text;
use st_filter::{Action, Filter, Reply};
use st_grammar::{Env, PolicyFault};
use st_lex::unquote;
use st_policy::read_filter;
use st_statements::parts::is_normal;
use st_statements::{FilterText, Statement};
use std::alloc::{AllocError, Global};

/// What a row is read as with the environment of the script, beside what it says.
#[derive(Debug, Drop)]
pub enum RowValue {
    /// Nothing.
    Nothing,
    /// A reply, a policy or a filter that isn't valid.
    Invalid,
    Reply(Reply),
    /// The binary of a policy that begins there.
    Policy(Text),
    /// A filter of the policy that is open there.
    Filter(Filter),
}

impl RowValue {
    /// Whether it isn't valid.
    pub fn is_invalid(&self) -> bool
        ensures { result ≡ is_invalid self.now }
    {
        matches!(self, RowValue::Invalid)
    }

    /// The binary of a reply.
    pub fn replied_binary(&self) -> Option<&Text>
        ensures { option_copied result ≡ replied_binary self.now }
    {
        match self {
            RowValue::Reply(reply) => Some(&reply.binary),
            _ => None,
        }
    }
}

// The filter that a text is, if it is in the policy language.
fn filter_read(alloc: Global, text: &FilterText, env: &Env) -> Result<Option<Filter>, AllocError>
    ensures { IfOk result (λ found. found ≡ filter_read (filter_in text.now env.now)) }
{
    match read_filter(alloc, text.bytes(), env) {
        Ok(filter) => Ok(Some(filter)),
        Err(PolicyFault::NoMemory) => Err(AllocError),
        Err(_) => Ok(None),
    }
}

// A filter, unless it asks.
fn unless_ask(filter: Filter) -> Option<Filter>
    ensures { result ≡ unless_ask filter filter.action }
{
    match filter.action() {
        Action::Permit => Some(filter),
        Action::Deny(_) => Some(filter),
        Action::Ask => None,
    }
}

// The filter of a reply, if it is read and doesn't ask.
fn reply_filter(alloc: Global, text: &FilterText, env: &Env) -> Result<Option<Filter>, AllocError>
    ensures { IfOk result (λ found. found ≡ reply_filter (filter_in text.now env.now)) }
{
    match filter_read(alloc, text, env)? {
        Some(filter) => Ok(unless_ask(filter)),
        None => Ok(None),
    }
}

// A reply to questions about this binary, if its name is normal.
fn reply_for(binary: Text, filter: Option<Filter>) -> Option<Reply>
    ensures { result ≡ reply_for binary filter }
{
    if !is_normal(binary.bytes()) {
        return None;
    }
    match filter {
        Some(filter) => Some(Reply { binary, filter }),
        None => None,
    }
}

// The reply of a row's quoted binary and filter, if they are valid.
fn reply_in(
    alloc: Global,
    env: &Env,
    binary: &Text,
    filter: &FilterText,
) -> Result<Option<Reply>, AllocError>
    ensures { IfOk result (λ found. found ≡ reply_in env.now binary.now filter.now) }
{
    let filter = reply_filter(alloc, filter, env)?;
    let binary = unquote(alloc, binary.bytes(), &env.dollars)?;
    Ok(reply_for(binary, filter))
}

// The binary of a policy, from its quoted text, if its name is absolute.
fn policy_binary(alloc: Global, env: &Env, binary: &Text) -> Result<Option<Text>, AllocError>
    ensures { IfOk result (λ found. found ≡ policy_binary env.now binary.now) }
{
    let binary = unquote(alloc, binary.bytes(), &env.dollars)?;
    if binary.bytes().starts_with(b"/") {
        Ok(Some(binary))
    } else {
        Ok(None)
    }
}

/// What a row is read as with this environment.
pub fn row_value(alloc: Global, env: &Env, statement: &Statement) -> Result<RowValue, AllocError>
    ensures { IfOk result (λ found. found ≡ row_value env.now statement.now) }
{
    match statement {
        Statement::Reply { binary, filter } => match reply_in(alloc, env, binary, filter)? {
            Some(reply) => Ok(RowValue::Reply(reply)),
            None => Ok(RowValue::Invalid),
        },
        Statement::Policy { binary, .. } => match policy_binary(alloc, env, binary)? {
            Some(binary) => Ok(RowValue::Policy(binary)),
            None => Ok(RowValue::Invalid),
        },
        Statement::Filter(text) => match filter_read(alloc, text, env)? {
            Some(filter) => Ok(RowValue::Filter(filter)),
            None => Ok(RowValue::Invalid),
        },
        _ => Ok(RowValue::Nothing),
    }
}
