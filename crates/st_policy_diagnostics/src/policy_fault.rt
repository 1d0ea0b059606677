ghost use Rattle.std.specs.Prelude.{◌≤◌, length};
ghost use Rattle.st_outside.specs.declared.files.TheConstants.{FILE_LIMIT};

use crate::arguments::append_expected_argument;
use crate::caret::append_line_with_caret;
use crate::details::{append_first_policy, append_known, append_open_bracket, open_bracket};
use crate::expected::{expected_at, expected_in_script, expected_of};
use crate::position::position_in;
use crate::refusal::{FilterSource, Found, Refusal};
use crate::shown::found_at;
use st_base::Text;
use st_grammar::{Env, Place, PolicyFault, PolicyRefusal};
use st_lex::tokens;
use std::alloc::{AllocError, Global};

// Appends what was expected after an operand.
fn append_expected_joint(line: &mut Text, refusal: &Refusal<'_>) -> Result<(), AllocError> {
    match open_bracket(refusal.row()) {
        Some(open) => {
            line.append(b"'and', 'or' or ')'")?;
            append_open_bracket(line, refusal.text, open)
        }
        None => line.append(expected_at(Place::Joint, refusal.env.emulation).as_bytes()),
    }
}

// Appends what was expected in the place of what was found.
fn append_expected(
    alloc: Global,
    line: &mut Text,
    refusal: &Refusal<'_>,
    found: Found<'_>,
) -> Result<(), AllocError> {
    let emulation = refusal.env.emulation;
    if let Found::ByteOrderMark = found {
        return line.append(expected_at(Place::Start, emulation).as_bytes());
    }
    if let Some(expected) = expected_in_script(
        refusal.source,
        refusal.fault,
        refusal.place,
        emulation,
    ) {
        return line.append(expected.as_bytes());
    }
    match (refusal.fault, refusal.place) {
        (PolicyFault::UnknownArgument(_), _) => return append_expected_argument(line, refusal),
        (PolicyFault::Expected(_), Place::Joint) => return append_expected_joint(line, refusal),
        (fault, place) => line.append(expected_of(fault, place, emulation).as_bytes())?,
    }
    match refusal.fault {
        PolicyFault::UnknownUser(_) => append_known(line, refusal),
        PolicyFault::DuplicatePolicy(_) => append_first_policy(alloc, line, refusal),
        _ => Ok(()),
    }
}

/// The message about a refusal, in a file of this name.
pub fn refusal_message(
    alloc: Global,
    name: &[u8],
    refusal: &Refusal<'_>,
) -> Result<Text, AllocError> {
    let at = refusal.at();
    let found = refusal.found();
    let mut line = found_at(alloc, name, position_in(refusal.text, at))?;
    found.append_to(&mut line)?;
    line.append(b", expected ")?;
    append_expected(alloc, &mut line, refusal, found)?;
    append_line_with_caret(&mut line, refusal.text, at, found.len())?;
    Ok(line)
}

/// The message why a policy file is refused: a line, the file's line at fault, and one with a `^` under the fault, without the last
/// newline.
pub fn policy_message(
    alloc: Global,
    name: &[u8],
    text: &[u8],
    env: &Env,
    refused: PolicyRefusal,
) -> Result<Text, AllocError>
    requires { length text.now ≤ FILE_LIMIT }
{
    let lexed = tokens(alloc, text)?;
    let refusal = Refusal {
        text,
        tokens: lexed.tokens.as_slice(),
        env,
        fault: refused.fault,
        place: refused.place,
        source: FilterSource::PolicyFile,
    };
    refusal_message(alloc, name, &refusal)
}
