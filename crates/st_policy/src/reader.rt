ghost use Rattle.std.specs.Prelude.{◌≡◌, ◌≢◌, ◌^◌, ◌<◌, ◌≤◌, true, false, Some, Ok, Err, IfOk, IfErr, OnOk, OnErr, length, take};
ghost use Rattle.st_grammar.specs.Symbol.{seen};
ghost use Rattle.st_grammar.specs.Grammar.{Reads, if_absolute, binary_of};
ghost use Rattle.st_filter.specs.Policies.{filters_in, add_filter};
ghost use Rattle.st_grammar.specs.Diagram.{lexical};
ghost use Rattle.st_grammar.specs.Reading.{is_between_rows, is_binary_place, ends_filter, filter_of, taken, as_reading, read_step, read_end, read_from, first_reading, set_of, policies_in, refusal_in};
ghost use Rattle.st_filter.specs.declared.set.TheConstants.{MOST_FILTERS};

use st_base::Text;
use st_filter::{Filter, PolicySet};
use st_grammar::{Env, PolicyFault, PolicyRefusal, Symbol};
use st_lex::{LexFault, Lexer, unquote};
use st_policy_states::Reader;
use std::alloc::{AllocError, Global};

fn if_absolute(name: Text) -> Option<Text>
    ensures { result ≡ if_absolute name }
{
    if name.bytes().starts_with(b"/") {
        Some(name)
    } else {
        None
    }
}

// The binary that a symbol spells.
pub(crate) fn binary_of(
    alloc: Global,
    env: &Env,
    symbol: &Symbol,
) -> Result<Option<Text>, AllocError>
    ensures { IfOk result (λ binary. binary ≡ binary_of env.now (seen symbol.now)) }
{
    match *symbol {
        Symbol::Word(word) => Ok(if_absolute(Text::of(alloc, word)?)),
        Symbol::Quoted(source) => Ok(if_absolute(unquote(alloc, source, &env.dollars)?)),
        _ => Ok(None),
    }
}

// The fault where no token begins: the lexical fault, if the grammar expected another symbol, otherwise the fault that was found.
pub(crate) fn lexical(fault: LexFault, found: PolicyFault) -> PolicyFault
    ensures is { result ≡ lexical fault found }
    ensures memory { result ≢ PolicyFault.NoMemory → found ≢ PolicyFault.NoMemory }
{
    match found {
        PolicyFault::Expected(_) => PolicyFault::Lex(fault),
        _ => found,
    }
}

// A symbol after `Policy:`. Not inlined, since few symbols are binaries.
#[inline(never)]
fn read_binary<'a>(
    reader: &mut Reader<'a>,
    alloc: Global,
    env: &Env,
    set: &mut PolicySet,
    at: u32,
    symbol: &Symbol<'a>,
) -> Result<(), PolicyFault>
    requires { is_binary_place reader.old.place ≡ true }
    ensures ok { OnOk result (read_step env.now (as_reading reader.old set.old) at (seen symbol.now) ≡ Ok (as_reading reader.new set.new)) }
    ensures fault { IfErr result (λ f. f ≢ PolicyFault.NoMemory → read_step env.now (as_reading reader.old set.old) at (seen symbol.now) ≡ Err f) }
    ensures same { OnErr result (set.new ≡ set.old) }
{
    let Some(binary) = binary_of(alloc, env, symbol)? else {
        return Err(PolicyFault::Expected(at));
    };
    reader.begin_policy(set, at, binary.bytes())?;
    set.begin(alloc, binary)?;
    Ok(())
}

// Adds the filter to the policies at the end of its row. Not inlined, since most symbols end no row.
#[inline(never)]
fn end_filter<'a>(
    reader: &mut Reader<'a>,
    alloc: Global,
    set: &mut PolicySet,
) -> Result<(), AllocError>
    requires { filters_in set.old < MOST_FILTERS }
    ensures ok { OnOk result (set.new ≡ add_filter set.old (filter_of reader.old)) }
    ensures taken { OnOk result (reader.new ≡ taken reader.old) }
    ensures same { OnErr result (set.new ≡ set.old) }
{
    let filter = reader.take_filter(alloc)?;
    set.add_filter(filter)
}

// A symbol at any other place. The end of a filter's row adds the filter to the policies.
#[inline]
fn read_other<'a>(
    reader: &mut Reader<'a>,
    alloc: Global,
    env: &Env,
    set: &mut PolicySet,
    at: u32,
    symbol: &Symbol<'a>,
) -> Result<(), PolicyFault>
    requires other { is_binary_place reader.old.place ≡ false }
    requires room { ends_filter reader.old.place ≡ true → filters_in set.old < MOST_FILTERS }
    ensures ok { OnOk result (read_step env.now (as_reading reader.old set.old) at (seen symbol.now) ≡ Ok (as_reading reader.new set.new)) }
    ensures fault { IfErr result (λ f. f ≢ PolicyFault.NoMemory → read_step env.now (as_reading reader.old set.old) at (seen symbol.now) ≡ Err f) }
    ensures same { OnErr result (set.new ≡ set.old) }
{
    let ends = symbol.is_line() && reader.place().ends_filter();
    reader.step(alloc, env, at, symbol)?;
    if ends {
        end_filter(reader, alloc, set)?;
    }
    Ok(())
}

// Reads one symbol.
#[inline]
fn read<'a>(
    reader: &mut Reader<'a>,
    alloc: Global,
    env: &Env,
    set: &mut PolicySet,
    at: u32,
    symbol: &Symbol<'a>,
) -> Result<(), PolicyFault>
    requires { ends_filter reader.old.place ≡ true → filters_in set.old < MOST_FILTERS }
    ensures ok { OnOk result (read_step env.now (as_reading reader.old set.old) at (seen symbol.now) ≡ Ok (as_reading reader.new set.new)) }
    ensures fault { IfErr result (λ f. f ≢ PolicyFault.NoMemory → read_step env.now (as_reading reader.old set.old) at (seen symbol.now) ≡ Err f) }
    ensures same { OnErr result (set.new ≡ set.old) }
{
    if reader.place().is_binary() {
        read_binary(reader, alloc, env, set, at, symbol)
    } else {
        read_other(reader, alloc, env, set, at, symbol)
    }
}

// Reads the text's end, which ends a row, or reports the bytes there that form no token.
fn end<'a>(
    reader: &mut Reader<'a>,
    alloc: Global,
    env: &Env,
    set: &mut PolicySet,
    text: &[u8],
    broken: Option<LexFault>,
) -> Result<(), PolicyFault>
    requires small { length text.now < 2 ^ 32 }
    requires room { ends_filter reader.old.place ≡ true → filters_in set.old < MOST_FILTERS }
    ensures ok { OnOk result (read_end env.now text.now broken (as_reading reader.old set.old) ≡ Ok (as_reading reader.new set.new)) }
    ensures fault { IfErr result (λ f. f ≢ PolicyFault.NoMemory → read_end env.now text.now broken (as_reading reader.old set.old) ≡ Err f) }
    ensures same { OnErr result (set.new ≡ set.old) }
{
    let at = text.len() as u32;
    match broken {
        None => read(reader, alloc, env, set, at, &Symbol::Line),
        Some(fault) => match read(reader, alloc, env, set, at, &Symbol::Broken) {
            Ok(()) => Ok(()),
            Err(found) => Err(lexical(fault, found)),
        },
    }
}

// Reads the tokens that the lexer has left. If that fails, the set contains the policies read up to the fault.
#[tactic(auto, using(crate::proofs::Cited::old_is_kept, crate::proofs::Cited::has_room))]
fn read_all<'a>(
    reader: &mut Reader<'a>,
    alloc: Global,
    text: &'a [u8],
    env: &Env,
    set: &mut PolicySet,
    lexer: &mut Lexer<'a>,
) -> Result<(), PolicyRefusal>
    requires small { length text.now < 2 ^ 32 }
    requires first { as_reading reader.old set.old ≡ first_reading set.old }
    requires few { filters_in set.old ≤ MOST_FILTERS }
    ensures ok { OnOk result (set_of (read_from env.now text.now lexer.old.fault (as_reading reader.old set.old) lexer.old.tokens) ≡ Ok set.new) }
    ensures fault { IfErr result (λ r. r.fault ≢ PolicyFault.NoMemory → read_from env.now text.now lexer.old.fault (as_reading reader.old set.old) lexer.old.tokens ≡ Err r) }
    ensures kept { OnErr result (take (length set.old) set.new ≡ set.old) }
{
    let broken = loop {
        let token = match lexer.next_token() {
            Ok(Some(token)) => token,
            Ok(None) => break None,
            Err(fault) => break Some(fault),
        };
        let symbol = Symbol::of(text, &token);
        let place = reader.place();
        // A blank line leaves everything as it is.
        if symbol.is_line() && place.is_between_rows() {
            continue;
        }
        if let Err(fault) = read(reader, alloc, env, set, token.at, &symbol) {
            return Err(PolicyRefusal { fault, place });
        }
    };
    let place = reader.place();
    match end(reader, alloc, env, set, text, broken) {
        Ok(()) => Ok(()),
        Err(fault) => Err(PolicyRefusal { fault, place }),
    }
}

// Reads a text. If that fails, the set contains the policies read up to the fault.
fn read_text(
    alloc: Global,
    text: &[u8],
    env: &Env,
    set: &mut PolicySet,
) -> Result<(), PolicyRefusal>
    requires { length text.now < 2 ^ 32 }
    ensures ok { OnOk result (policies_in text.now env.now set.old ≡ Ok set.new) }
    ensures fault { IfErr result (λ r. r.fault ≢ PolicyFault.NoMemory → policies_in text.now env.now set.old ≡ Err r) }
    ensures kept { OnErr result (take (length set.old) set.new ≡ set.old) }
    ensures few { OnOk result (filters_in set.old ≤ MOST_FILTERS) }
{
    let mut reader = Reader::new(alloc, set.filters());
    let mut lexer = Lexer::new(text);
    read_all(&mut reader, alloc, text, env, set, &mut lexer)
}

/// Reads the policies of a text, as in systrace(1), and appends them to the set. It succeeds exactly when the grammar has a reading of the
/// text, and gives that reading. Otherwise the fault is the leftmost, at its token, with its place in the grammar, and the set is
/// unchanged.
pub fn read_policies(
    alloc: Global,
    text: &[u8],
    env: &Env,
    set: &mut PolicySet,
) -> Result<(), PolicyRefusal>
    requires { length text.now < 2 ^ 32 }
    ensures ok { OnOk result (Reads text.now env.now set.old set.new) }
    ensures fault { IfErr result (λ r. r.fault ≢ PolicyFault.NoMemory → refusal_in text.now env.now set.old ≡ Some r) }
    ensures same { OnErr result (set.new ≡ set.old) }
{
    let len = set.len();
    match read_text(alloc, text, env, set) {
        Ok(()) => Ok(()),
        Err(refused) => {
            set.truncate(len);
            Err(refused)
        }
    }
}
