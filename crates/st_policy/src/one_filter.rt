ghost use Rattle.std.specs.Prelude.{◌≡◌, ◌≢◌, ◌^◌, ◌<◌, ◌∷◌, false, Ok, Err, length, IfOk, IfErr};
ghost use Rattle.st_grammar.specs.Symbol.{seen, symbol_of};
ghost use Rattle.st_grammar.specs.Reading.{is_binary_place};
ghost use Rattle.st_grammar.specs.OneFilter.{after_filter, filter_at_end, begin_filter, filter_of_tokens, filter_in};

use crate::reader::lexical;
use st_filter::Filter;
use st_grammar::{Env, PolicyFault, Symbol};
use st_lex::{LexFault, Lexer, Token};
use st_policy_states::Reader;
use std::alloc::Global;

// Nothing may follow a filter's line.
fn after_filter(filter: Filter, lexer: &mut Lexer) -> Result<Filter, PolicyFault>
    ensures { result ≡ after_filter lexer.old.fault filter lexer.old.tokens }
{
    match lexer.next_token() {
        Ok(None) => Ok(filter),
        Ok(Some(token)) => Err(PolicyFault::Expected(token.at)),
        Err(fault) => Err(PolicyFault::Lex(fault)),
    }
}

// A filter begins with its name.
fn begin_filter<'a>(
    alloc: Global,
    env: &Env,
    at: u32,
    symbol: &Symbol<'a>,
) -> Result<Reader<'a>, PolicyFault>
    ensures ok { IfOk result (λ reader. begin_filter env.now at (seen symbol.now) ≡ Ok reader) }
    ensures fault { IfErr result (λ f. f ≢ PolicyFault.NoMemory → begin_filter env.now at (seen symbol.now) ≡ Err f) }
{
    let Symbol::Word(word) = *symbol else {
        return Err(PolicyFault::Expected(at));
    };
    let mut reader = Reader::new(alloc, 0);
    reader.begin_filter(env, at, word)?;
    Ok(reader)
}

// A filter at the end of its text's tokens: the text's end may end it. Bytes that form no token are a fault.
fn filter_at_end<'a>(
    reader: &mut Reader<'a>,
    alloc: Global,
    env: &Env,
    end: u32,
    broken: Option<LexFault>,
) -> Result<Filter, PolicyFault>
    requires { is_binary_place reader.old.place ≡ false }
    ensures ok { IfOk result (λ filter. filter_at_end env.now end reader.old broken ≡ Ok filter) }
    ensures fault { IfErr result (λ f. f ≢ PolicyFault.NoMemory → filter_at_end env.now end reader.old broken ≡ Err f) }
{
    match broken {
        None => {
            reader.step(alloc, env, end, &Symbol::Line)?;
            Ok(reader.take_filter(alloc)?)
        }
        Some(fault) => match reader.step(alloc, env, end, &Symbol::Broken) {
            Ok(()) => Err(PolicyFault::Lex(fault)),
            Err(found) => Err(lexical(fault, found)),
        },
    }
}

// The rest of the filter that begins with the token that was read, from the tokens that the lexer has left.
#[tactic(auto, using(crate::proofs::Cited::stands_elsewhere))]
fn rest_of_filter<'a>(
    reader: &mut Reader<'a>,
    alloc: Global,
    env: &Env,
    text: &'a [u8],
    first: &Token,
    lexer: &mut Lexer<'a>,
) -> Result<Filter, PolicyFault>
    requires small { length text.now < 2 ^ 32 }
    requires begun { begin_filter env.now first.now.at (symbol_of text.now first.now) ≡ Ok reader.old }
    ensures ok { IfOk result (λ filter. filter_of_tokens env.now text.now lexer.old.fault (first.now ∷ lexer.old.tokens) ≡ Ok filter) }
    ensures fault { IfErr result (λ f. f ≢ PolicyFault.NoMemory → filter_of_tokens env.now text.now lexer.old.fault (first.now ∷ lexer.old.tokens) ≡ Err f) }
{
    let broken = loop {
        let token = match lexer.next_token() {
            Ok(Some(token)) => token,
            Ok(None) => break None,
            Err(fault) => break Some(fault),
        };
        let symbol = Symbol::of(text, &token);
        reader.step(alloc, env, token.at, &symbol)?;
        if symbol.is_line() {
            return after_filter(reader.take_filter(alloc)?, lexer);
        }
    };
    filter_at_end(reader, alloc, env, text.len() as u32, broken)
}

// The filter that this token and those that the lexer has left spell.
fn filter_of_tokens<'a>(
    alloc: Global,
    env: &Env,
    text: &'a [u8],
    first: &Token,
    lexer: &mut Lexer<'a>,
) -> Result<Filter, PolicyFault>
    requires { length text.now < 2 ^ 32 }
    ensures ok { IfOk result (λ filter. filter_of_tokens env.now text.now lexer.old.fault (first.now ∷ lexer.old.tokens) ≡ Ok filter) }
    ensures fault { IfErr result (λ f. f ≢ PolicyFault.NoMemory → filter_of_tokens env.now text.now lexer.old.fault (first.now ∷ lexer.old.tokens) ≡ Err f) }
{
    let mut reader = begin_filter(alloc, env, first.at, &Symbol::of(text, first))?;
    rest_of_filter(&mut reader, alloc, env, text, first, lexer)
}

/// Reads one filter without a header. It succeeds exactly when the whole text is one filter, ended by a line or by the text's end.
/// Otherwise the fault is the leftmost, at its token.
pub fn read_filter(alloc: Global, text: &[u8], env: &Env) -> Result<Filter, PolicyFault>
    requires { length text.now < 2 ^ 32 }
    ensures ok { IfOk result (λ filter. filter_in text.now env.now ≡ Ok filter) }
    ensures fault { IfErr result (λ f. f ≢ PolicyFault.NoMemory → filter_in text.now env.now ≡ Err f) }
{
    let mut lexer = Lexer::new(text);
    match lexer.next_token() {
        Ok(Some(first)) => filter_of_tokens(alloc, env, text, &first, &mut lexer),
        Ok(None) => Err(PolicyFault::Expected(text.len() as u32)),
        Err(fault) => Err(PolicyFault::Lex(fault)),
    }
}
