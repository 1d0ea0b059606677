ghost use Rattle.std.specs.Prelude.{◌≡◌, ◌++◌, codes, decimal, IfOk, OnOk};
ghost use Rattle.st_lex.specs.Quote.{quoted};
ghost use Rattle.st_audit.specs.How.{as_text, how_text, how_used, how_denied, permitted};

use crate::decided::Decided;
use st_base::{Ids, Seq, Text};
use st_lex::quote;
use st_trace::Cause;
use std::alloc::{AllocError, Global};

/// How a call went.
#[derive(Debug, Drop)]
pub enum How {
    /// The kernel permitted the call by itself.
    Fast,
    /// The kernel refused the call by itself, by the filter with this number.
    Barred(u32),
    /// The filter with this number permitted the call.
    Permit(u64),
    /// The filter with this number permitted the call, under these ids.
    PermitAs(u64, Ids),
    /// The filter with this number refused the call.
    Deny(u32),
    /// No filter decided.
    NoFilter,
    /// Copying or looking up an argument had a fault.
    Fault,
    /// At its use the call had a link in the way, which has this name.
    Link(Text),
}

// Permitted by the filter with this number, which may grant ids.
fn permitted(number: u64, grants: bool, ids: Ids) -> How
    ensures { result ≡ permitted number grants ids }
{
    if grants {
        How::PermitAs(number, ids)
    } else {
        How::Permit(number)
    }
}

impl How {
    /// How a call was made; a call without a message was permitted by the kernel itself.
    pub fn used(seq: Option<Seq>, decided: &Option<Decided<'_>>, ids: Ids) -> Self
        ensures { result ≡ how_used seq decided.now ids }
    {
        match (seq, decided) {
            (None, _) => How::Fast,
            (Some(_), None) => How::Permit(0),
            (Some(_), Some(decided)) => permitted(decided.number(), decided.marks().grants, ids),
        }
    }

    /// How a call was denied.
    pub fn denied(alloc: Global, seq: Option<Seq>, cause: &Cause) -> Result<Self, AllocError>
        ensures { IfOk result (λ how. how ≡ how_denied seq cause.now) }
    {
        Ok(match cause {
            Cause::Filter(number) => match seq {
                Some(_) => How::Deny(*number),
                None => How::Barred(*number),
            },
            Cause::NoFilter => How::NoFilter,
            Cause::Fault => How::Fault,
            Cause::Link(name) => How::Link(name.print(alloc)?),
        })
    }
}

fn append_number(text: &mut Text, word: &[u8], number: u64) -> Result<(), AllocError>
    ensures { OnOk result (text.new ≡ text.old ++ word.now ++ decimal number) }
{
    text.append(word)?;
    text.append_number(number)
}

// Appends the effective ids that a call was made under.
fn append_as(text: &mut Text, ids: Ids) -> Result<(), AllocError>
    ensures { OnOk result (text.new ≡ text.old ++ as_text ids) }
{
    append_number(text, b" as ", u64::from(ids.euid))?;
    append_number(text, b":", u64::from(ids.egid))
}

fn append_link(text: &mut Text, name: &Text) -> Result<(), AllocError>
    ensures { OnOk result (text.new ≡ text.old ++ (codes "link " ++ quoted name.now)) }
{
    text.append(b"link ")?;
    quote(name.bytes(), text)
}

/// Appends how a call went.
pub fn append_how(text: &mut Text, how: &How) -> Result<(), AllocError>
    ensures { OnOk result (text.new ≡ text.old ++ how_text how.now) }
{
    match how {
        How::Fast => text.append(b"fast"),
        How::Barred(number) => append_number(text, b"barred#", u64::from(*number)),
        How::Permit(number) => append_number(text, b"permit#", *number),
        How::PermitAs(number, ids) => {
            append_number(text, b"permit#", *number)?;
            append_as(text, *ids)
        }
        How::Deny(number) => append_number(text, b"deny#", u64::from(*number)),
        How::NoFilter => text.append(b"nofilter"),
        How::Fault => text.append(b"fault"),
        How::Link(name) => append_link(text, name),
    }
}
