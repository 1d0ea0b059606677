ghost use Rattle.std.specs.Prelude.{◌≡◌, ◌++◌, OnOk};
ghost use Rattle.std.specs.List.{flat_map};
ghost use Rattle.st_report.specs.Fields.{word_field, number_field, number_fields, mode_field, text_field, name_field, hex_byte, bytes_word, bytes_field, four_ids, ids_fields};

use st_base::{Ids, Text};
use st_lex::{hex_digit, quote};
use st_names::AbsName;
use std::alloc::{AllocError, Global};

/// Appends a word after a blank.
pub fn append_word(text: &mut Text, word: &[u8]) -> Result<(), AllocError>
    ensures { OnOk result (text.new ≡ text.old ++ word_field word.now) }
{
    text.push(b' ')?;
    text.append(word)
}

// Appends a number after a blank.
fn append_number(text: &mut Text, number: u64) -> Result<(), AllocError>
    ensures { OnOk result (text.new ≡ text.old ++ number_field number) }
{
    text.push(b' ')?;
    text.append_number(number)
}

/// Appends numbers, each after a blank.
pub fn append_numbers(text: &mut Text, numbers: &[u64]) -> Result<(), AllocError>
    ensures { OnOk result (text.new ≡ text.old ++ number_fields numbers.now) }
{
    for &number in numbers {
        append_number(text, number)?;
    }
    Ok(())
}

/// Appends a word without a blank, and numbers, each after a blank.
pub fn append_numbered(text: &mut Text, word: &[u8], numbers: &[u64]) -> Result<(), AllocError>
    ensures { OnOk result (text.new ≡ text.old ++ word.now ++ number_fields numbers.now) }
{
    text.append(word)?;
    append_numbers(text, numbers)
}

/// Appends a mode in octal digits after a blank.
pub fn append_mode(alloc: Global, text: &mut Text, mode: u32) -> Result<(), AllocError>
    ensures { OnOk result (text.new ≡ text.old ++ mode_field mode) }
{
    let digits = format!(in alloc; "{mode:o}")?;
    append_word(text, digits.as_bytes())
}

/// Appends a text, quoted, after a blank.
pub fn append_text(text: &mut Text, bytes: &[u8]) -> Result<(), AllocError>
    ensures { OnOk result (text.new ≡ text.old ++ text_field bytes.now) }
{
    text.push(b' ')?;
    quote(bytes, text)
}

/// Appends a name, quoted, after a blank.
pub fn append_name(alloc: Global, text: &mut Text, name: &AbsName) -> Result<(), AllocError>
    ensures { OnOk result (text.new ≡ text.old ++ name_field name.now) }
{
    append_text(text, name.print(alloc)?.bytes())
}

// Appends bytes as hexadecimal digits, two for each.
fn append_digits(text: &mut Text, bytes: &[u8]) -> Result<(), AllocError>
    ensures { OnOk result (text.new ≡ text.old ++ flat_map hex_byte bytes.now) }
{
    for &byte in bytes {
        text.append(&[hex_digit(byte / 16), hex_digit(byte % 16)])?;
    }
    Ok(())
}

/// Appends bytes after a blank, as one word of hexadecimal digits, or `-` if there are none.
pub fn append_bytes(text: &mut Text, bytes: &[u8]) -> Result<(), AllocError>
    ensures { OnOk result (text.new ≡ text.old ++ bytes_field bytes.now) }
{
    if bytes.is_empty() {
        text.append(b" -")
    } else {
        text.push(b' ')?;
        append_digits(text, bytes)
    }
}

/// Appends a word without a blank, then real and effective user and real and effective group, each after a blank.
pub fn append_ids(text: &mut Text, word: &[u8], ids: Ids) -> Result<(), AllocError>
    ensures { OnOk result (text.new ≡ text.old ++ word.now ++ four_ids ids) }
{
    let numbers = [
        u64::from(ids.ruid),
        u64::from(ids.euid),
        u64::from(ids.rgid),
        u64::from(ids.egid),
    ];
    append_numbered(text, word, &numbers)
}
