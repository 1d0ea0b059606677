ghost use Rattle.std.specs.Prelude.{◌≡◌, ℕ, false, List, [], ◌∷◌, ◌++◌, ◌<◌, length, take, OnOk, OnErr};
ghost use Rattle.st_lex.specs.Quote.{hex_digit, quoted, quoted_byte, quoted_bytes, AreBytes, one_token};
ghost use Rattle.st_lex.specs.Tokens.{lexed_text};

use st_base::Text;
use std::alloc::AllocError;

/// The lower-case hexadecimal digit of a number below 16.
pub fn hex_digit(value: u8) -> u8
    requires { value < 16 }
    ensures { result ≡ hex_digit value }
{
    if value < 10 {
        b'0' + value
    } else {
        b'a' + (value - 10)
    }
}

// Appends a byte as it is spelled between quotes.
fn quote_byte(byte: u8, out: &mut Text) -> Result<(), AllocError>
    ensures ok { OnOk result (out.new ≡ out.old ++ quoted_byte byte) }
    ensures err { OnErr result (out.new ≡ out.old) }
{
    match byte {
        b'"' | b'\\' => out.append(&[b'\\', byte]),
        b'$' | 0..=0x1f | 0x7f..=0xff => out.append(&[
            b'\\',
            b'x',
            hex_digit(byte / 16),
            hex_digit(byte % 16),
        ]),
        _ => out.push(byte),
    }
}

// Whether a byte has to be escaped between quotes.
fn is_escaped(byte: u8) -> bool
    ensures { result ≡ false → quoted_byte byte ≡ byte ∷ [] }
{
    (byte < 0x20) | (byte > 0x7e) | (byte == b'"') | (byte == b'\\') | (byte == b'$')
}

// Whether any of these bytes has to be escaped. The loop has no early exit, so that it can be compiled to test many bytes at a time.
fn has_escaped(bytes: &[u8]) -> bool
    ensures { result ≡ false → quoted_bytes bytes.now ≡ bytes.now }
{
    let mut found = false;
    for &byte in bytes {
        found |= is_escaped(byte);
    }
    found
}

// Appends bytes as they are spelled between quotes. If out of memory, it may have appended a part of them.
fn quote_bytes(bytes: &[u8], out: &mut Text) -> Result<(), AllocError>
    ensures ok { OnOk result (out.new ≡ out.old ++ quoted_bytes bytes.now) }
    ensures front { take (length out.old) out.new ≡ out.old }
{
    for &byte in bytes {
        quote_byte(byte, out)?;
    }
    Ok(())
}

// Appends the quoted form. If out of memory, it may have appended a part of it.
fn append_quoted(bytes: &[u8], out: &mut Text) -> Result<(), AllocError>
    ensures ok { OnOk result (out.new ≡ out.old ++ quoted bytes.now) }
    ensures front { take (length out.old) out.new ≡ out.old }
{
    out.push(b'"')?;
    if has_escaped(bytes) {
        quote_bytes(bytes, out)?;
    } else {
        out.append(bytes)?;
    }
    out.push(b'"')
}

/// Appends the canonical quoted form of these bytes. If out of memory, the text doesn't change.
pub fn quote(bytes: &[u8], out: &mut Text) -> Result<(), AllocError>
    ensures ok { OnOk result (out.new ≡ out.old ++ quoted bytes.now) }
    ensures err { OnErr result (out.new ≡ out.old) }
{
    let len = out.len();
    let written = append_quoted(bytes, out);
    if written.is_err() {
        out.truncate(len);
    }
    written
}

/// The text that `quote` prints for bytes that aren't zero is lexed as one quoted token without a fault.
pub fn quoted_is_one_token()
    ensures { (bytes : List ℕ) → AreBytes bytes → lexed_text (quoted bytes) ≡ one_token (quoted bytes) }
{}
