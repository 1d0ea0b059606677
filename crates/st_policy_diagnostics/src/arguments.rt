use crate::refusal::{FilterSource, Refusal};
use st_base::Text;
use st_calls::{ArgSpec, Rule, args_of};
use st_grammar::Place;
use st_grammar::words::call_after_prefix;
use std::alloc::AllocError;

// The rule of the filter whose row a fault stands in; none where its call isn't in the model.
fn rule_of(refusal: &Refusal<'_>) -> Option<Rule> {
    let name = refusal.row().first()?.text(refusal.text);
    Rule::of_word(call_after_prefix(name, refusal.env.emulation)?)
}

// Appends an argument as a policy names it: an index that is 0 isn't written.
fn append_argument(line: &mut Text, argument: &ArgSpec) -> Result<(), AllocError> {
    line.append(argument.label.word())?;
    if argument.index > 0 {
        line.push(b'[')?;
        line.append_number(u64::from(argument.index))?;
        line.push(b']')?;
    }
    Ok(())
}

// Appends which arguments there are.
fn append_arguments(line: &mut Text, arguments: &[ArgSpec]) -> Result<(), AllocError> {
    if arguments.is_empty() {
        return line.append(b", which has none");
    }
    let mut between = b": ".as_slice();
    for argument in arguments {
        line.append(between)?;
        append_argument(line, argument)?;
        between = b", ";
    }
    Ok(())
}

// What may be in the place of a label; after an index it is known to be a label.
fn beside_label(refusal: &Refusal<'_>) -> &'static str {
    if refusal.place == Place::Index {
        return "";
    }
    match refusal.row().last() {
        Some(token) if token.kind.is_colon() && refusal.source == FilterSource::Reply => {
            "'permit', 'deny', 'not', 'true', '(' or "
        }
        Some(token) if token.kind.is_colon() => "'permit', 'deny', 'ask', 'not', 'true', '(' or ",
        _ => "'not', 'true', '(' or ",
    }
}

/// Appends what was expected where the call has no argument of a label, or of a label and its index.
pub fn append_expected_argument(line: &mut Text, refusal: &Refusal<'_>) -> Result<(), AllocError> {
    line.append(beside_label(refusal).as_bytes())?;
    line.append(b"an argument of the call")?;
    match rule_of(refusal) {
        Some(rule) => append_arguments(line, args_of(rule)),
        None => Ok(()),
    }
}
