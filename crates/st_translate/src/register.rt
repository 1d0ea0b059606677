ghost use Rattle.std.specs.Prelude.{◌≡◌, [], false, decimal, IfOk};
ghost use Rattle.st_model.specs.Spelling as spelling;
ghost use Rattle.st_model.specs.Spelling.{domain_text, mode_text, spell, type_text};
ghost use Rattle.st_translate.specs.Copied.{lies_in_memory};

use st_base::Text;
use st_calls::PartKind;
use std::alloc::{AllocError, Global};

// A number in decimal.
fn decimal_text(alloc: Global, number: u64) -> Result<Text, AllocError>
    ensures { IfOk result (λ text. text ≡ decimal number) }
{
    let mut text = Text::new(alloc);
    text.append_number(number)?;
    Ok(text)
}

// A mode's low nine bits in octal.
fn mode_text(alloc: Global, mode: u64) -> Result<Text, AllocError>
    ensures { IfOk result (λ text. text ≡ mode_text mode) }
{
    let low = mode % 512;
    let digits = format!(in alloc; "{low:o}")?;
    Text::of(alloc, digits.as_bytes())
}

// A domain of sockets by its name, otherwise in decimal.
fn domain_text(alloc: Global, domain: u64) -> Result<Text, AllocError>
    ensures { IfOk result (λ text. text ≡ domain_text domain) }
{
    match domain {
        1 => Text::of(alloc, b"AF_UNIX"),
        2 => Text::of(alloc, b"AF_INET"),
        _ => decimal_text(alloc, domain),
    }
}

// A type of sockets by its name, otherwise in decimal.
fn type_text(alloc: Global, number: u64) -> Result<Text, AllocError>
    ensures { IfOk result (λ text. text ≡ type_text number) }
{
    match number {
        1 => Text::of(alloc, b"SOCK_STREAM"),
        2 => Text::of(alloc, b"SOCK_DGRAM"),
        _ => decimal_text(alloc, number),
    }
}

/// The text of an argument whose value is in its register.
pub fn plain_text(alloc: Global, kind: PartKind, register: u64) -> Result<Text, AllocError>
    requires { lies_in_memory kind ≡ false }
    ensures { IfOk result (λ text. spell kind register [] ≡ spelling.Text text) }
{
    match kind {
        PartKind::Octal => mode_text(alloc, register),
        PartKind::Domain => domain_text(alloc, register),
        PartKind::SockType => type_text(alloc, register),
        _ => decimal_text(alloc, register),
    }
}
