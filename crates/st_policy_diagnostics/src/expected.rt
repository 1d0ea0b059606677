use crate::forms::{
    filter_form, filter_or_end, filter_or_header, header_form, name_form, only_word, word_form,
};
use crate::refusal::FilterSource;
use crate::shown::token_for;
use st_emulation::Emulation;
use st_filter::Who;
use st_grammar::{Place, PolicyFault, Unsupported};

const ERROR: &str = "the name of an error in small letters, such as eacces";

/// What may stand at a place in the grammar of policies.
pub fn expected_at(place: Place, emulation: Emulation) -> &'static str {
    match place {
        Place::Start => header_form(emulation),
        Place::Row => filter_or_header(emulation),
        Place::PolicyColon | Place::EmulationColon | Place::NameColon => "':'",
        Place::Binary => "a binary that begins with '/'",
        Place::Comma => "','",
        Place::Emulation => "'Emulation'",
        Place::System => word_form(emulation),
        Place::HeaderEnd | Place::FilterEnd => "the end of the line",
        Place::Clause => "'permit', 'deny', 'ask', 'not', 'true', '(' or a label",
        Place::Operand => "'not', 'true', '(' or a label",
        Place::Label => "'[' or one of match, eq, neq, sub, nsub, inpath",
        Place::Index => "an index below 4294967296",
        Place::IndexEnd | Place::ErrorEnd => "']'",
        Place::Operator => "one of match, eq, neq, sub, nsub, inpath",
        Place::Text => "a quoted text",
        Place::Joint => "'and', 'or' or 'then'",
        Place::Action => "'permit', 'deny' or 'ask'",
        Place::Denial => "'[', 'log', ',' or the end of the line",
        Place::Error => ERROR,
        Place::Tail { grant, log } => after_action(grant, log),
        Place::Grant { .. } => "':' or the id of a user",
        Place::User { log } => after_user(log),
        Place::Group { .. } => "the id of a group",
        Place::If => "'if'",
        Place::Who => "'user' or 'group'",
        Place::Comparison(_) => "'=', '!=', '<' or '>'",
        Place::Id(Who::User) => "the id of a user",
        Place::Id(Who::Group) => "the id of a group",
    }
}

fn after_action(grant: bool, log: bool) -> &'static str {
    match (grant, log) {
        (true, true) => "'as', 'log', ',' or the end of the line",
        (true, false) => "'as', ',' or the end of the line",
        (false, true) => "'log', ',' or the end of the line",
        (false, false) => "',' or the end of the line",
    }
}

fn after_user(log: bool) -> &'static str {
    if log {
        "':', 'log', ',' or the end of the line"
    } else {
        "':', ',' or the end of the line"
    }
}

// How many there may be of what stands at a place.
fn at_most(place: Place) -> &'static str {
    match place {
        Place::Row => "at most 4096 filters in all",
        _ => "at most 64 of 'not', 'and', 'or' and '(' in a filter",
    }
}

/// What was expected where a policy has a fault at this place in the grammar.
pub fn expected_of(fault: PolicyFault, place: Place, emulation: Emulation) -> &'static str {
    match fault {
        PolicyFault::Lex(fault) => token_for(fault),
        PolicyFault::Expected(_) | PolicyFault::NoMemory => expected_at(place, emulation),
        PolicyFault::UnknownCall(_) => name_form(emulation),
        PolicyFault::UnknownArgument(_) => "an argument of the call",
        PolicyFault::UnknownError(_) => ERROR,
        PolicyFault::UnknownUser(_) => {
            "an id below 4294967296, or the name of a known user or group"
        }
        PolicyFault::DuplicatePolicy(_) => "a binary that has no policy yet",
        PolicyFault::ElevateWithoutIds(_) => "no 'as' where no ids are given by '-c U:G'",
        PolicyFault::ElevateOnSetId(_) => "no 'as' on a call that sets ids",
        PolicyFault::NotSupported(_, Unsupported::Re) => {
            "one of match, eq, neq, sub, nsub, inpath; 're' is not supported"
        }
        PolicyFault::NotSupported(_, Unsupported::Emulation) => only_word(emulation),
        PolicyFault::AskWithLearn(_) => "no 'ask' where policies are learnt",
        PolicyFault::TooMany(_) => at_most(place),
    }
}

/// What was expected in a filter of a script, where this isn't what a policy file may have: there is no header, and a reply doesn't ask.
pub fn expected_in_script(
    source: FilterSource,
    fault: PolicyFault,
    place: Place,
    emulation: Emulation,
) -> Option<&'static str> {
    match source {
        FilterSource::PolicyFile => None,
        FilterSource::Reply => expected_in_reply(fault, place, emulation),
        FilterSource::ScriptPolicy => match (fault, place) {
            (PolicyFault::Expected(_), Place::Row) => Some(filter_or_end(emulation)),
            _ => None,
        },
    }
}

// What was expected in the filter of a reply, where this isn't what a policy file may have.
fn expected_in_reply(
    fault: PolicyFault,
    place: Place,
    emulation: Emulation,
) -> Option<&'static str> {
    match (fault, place) {
        (PolicyFault::AskWithLearn(_), _) => Some("'permit' or 'deny': a reply doesn't ask"),
        (PolicyFault::Expected(_), Place::Row) => Some(filter_form(emulation)),
        (PolicyFault::Expected(_), Place::Clause) => {
            Some("'permit', 'deny', 'not', 'true', '(' or a label")
        }
        (PolicyFault::Expected(_), Place::Action) => Some("'permit' or 'deny'"),
        _ => None,
    }
}
