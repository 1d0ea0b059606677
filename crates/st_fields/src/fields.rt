ghost use Rattle.std.specs.Prelude.{◌≡◌, ◌≤◌, ◌↔◌, [], ◌∷◌, ◌++◌, nat_eq, length, take, drop, IsTrue};
ghost use Rattle.std.specs.List.{prefix_len, starts_with};
ghost use Rattle.st_calls.specs.Argument.{label_named};
ghost use Rattle.st_calls.specs.Call.{call_named};
ghost use Rattle.st_fields.specs.Reads.{Reads, ReadsAs, Skips};
ghost use Rattle.st_fields.specs.Words.{after_byte, comma, is_inner, number_of_16, number_of_32, number_of_64, octal_number, error_of_name, rule_after_prefix, seq_of_word, result_of_word, bytes_of_word};
ghost use Rattle.st_fields.specs.Fields.{word_at, spelled_at, text_at, name_at, ids_at, regs_at, arg_at, args_from, args_at};

use crate::LineFault;
use crate::words::{
    after_byte, bytes_of_word, closing_len, error_of_name, number_of_16, number_of_32,
    number_of_64, octal_number, result_of_word, rule_after_prefix, seq_of_word, word_len,
};
use st_base::{Errno, Ids, Seq, Sequence, Text};
use st_calls::{ArgText, Label, Rule, SysCall};
use st_lex::unquote_plain;
use st_names::AbsName;
use st_trace::CallResult;
use std::alloc::Global;
use std::marker::Model;

/// The bytes of a line that remain to be read, field by field.
#[derive(Drop)]
pub struct Fields<'t> {
    rest: &'t [u8],
    // What remained at the start of the field that was taken last, or that couldn't be read.
    last: &'t [u8],
}

impl<'t> Model for Fields<'t> {
    ghost use Rattle.std.specs.Prelude.{List, ℕ};

    ghost Value = { List ℕ };

    ghost view = { λ f. f.rest.now };
}

impl<'t> Fields<'t> {
    /// The fields of a line.
    pub fn of(line: &'t [u8]) -> Self
        ensures { result ≡ line.now }
    {
        Fields {
            rest: line,
            last: line,
        }
    }

    /// How many bytes remain.
    pub fn len(&self) -> usize
        ensures { result ≡ length self.now }
    {
        self.rest.len()
    }

    /// How many bytes there are from the start of the field on that was taken last, or that couldn't be read.
    pub fn last_len(&self) -> usize {
        self.last.len()
    }

    /// Whether no bytes remain.
    pub fn is_empty(&self) -> bool
        ensures { IsTrue result ↔ (self.now ≡ []) }
    {
        self.rest.is_empty()
    }

    /// Whether the bytes that remain begin so.
    pub fn begins(&self, front: &[u8]) -> bool
        ensures { result ≡ starts_with nat_eq self.now front.now }
    {
        self.rest.starts_with(front)
    }

    /// Takes the bytes up to the next blank or comma.
    pub fn first_word(&mut self) -> &'t [u8]
        ensures word { result.now ≡ take (prefix_len is_inner self.old) self.old }
        ensures rest { self.new ≡ drop (prefix_len is_inner self.old) self.old }
    {
        let (word, rest) = self.rest.split_at(word_len(self.rest));
        self.rest = rest;
        word
    }

    /// Takes a comma.
    pub fn comma(&mut self) -> Result<(), LineFault>
        ensures { Skips result (after_byte comma self.old) self.new }
    {
        self.last = self.rest;
        match after_byte(b',', self.rest) {
            Some(rest) => {
                self.rest = rest;
                Ok(())
            }
            None => Err(LineFault::NotInGrammar),
        }
    }

    /// Takes a word after a blank.
    #[tactic(auto, unfolding(crate::specs::Fields::word_at))]
    pub fn word(&mut self) -> Result<&'t [u8], LineFault>
        ensures { ReadsAs (λ word. word.now) result (word_at self.old) self.new }
    {
        self.last = self.rest;
        let Some(after) = after_byte(b' ', self.rest) else {
            return Err(LineFault::NotInGrammar);
        };
        self.last = after;
        let (word, rest) = after.split_at(word_len(after));
        self.rest = rest;
        Ok(word)
    }

    /// Takes a number of 16 bits.
    #[tactic(auto, unfolding(crate::specs::Fields::spelled_at))]
    pub fn u16(&mut self) -> Result<u16, LineFault>
        ensures { Reads result (spelled_at number_of_16 self.old) self.new }
    {
        let word = self.word()?;
        number_of_16(word).ok_or(LineFault::NotInGrammar)
    }

    /// Takes a number of 32 bits.
    #[tactic(auto, unfolding(crate::specs::Fields::spelled_at))]
    pub fn u32(&mut self) -> Result<u32, LineFault>
        ensures { Reads result (spelled_at number_of_32 self.old) self.new }
    {
        let word = self.word()?;
        number_of_32(word).ok_or(LineFault::NotInGrammar)
    }

    /// Takes a number of 64 bits.
    #[tactic(auto, unfolding(crate::specs::Fields::spelled_at))]
    pub fn u64(&mut self) -> Result<u64, LineFault>
        ensures { Reads result (spelled_at number_of_64 self.old) self.new }
    {
        let word = self.word()?;
        number_of_64(word).ok_or(LineFault::NotInGrammar)
    }

    /// Takes a mode.
    #[tactic(auto, unfolding(crate::specs::Fields::spelled_at))]
    pub fn mode(&mut self) -> Result<u32, LineFault>
        ensures { Reads result (spelled_at octal_number self.old) self.new }
    {
        let word = self.word()?;
        octal_number(word).ok_or(LineFault::NotInGrammar)
    }

    /// Takes the number of a held call, or `-` for another call.
    #[tactic(auto, unfolding(crate::specs::Fields::spelled_at))]
    pub fn seq(&mut self) -> Result<Option<Seq>, LineFault>
        ensures { Reads result (spelled_at seq_of_word self.old) self.new }
    {
        let word = self.word()?;
        seq_of_word(word).ok_or(LineFault::NotInGrammar)
    }

    /// Takes the name of a call.
    #[tactic(auto, unfolding(crate::specs::Fields::spelled_at))]
    pub fn call(&mut self) -> Result<SysCall, LineFault>
        ensures { Reads result (spelled_at call_named self.old) self.new }
    {
        let word = self.word()?;
        SysCall::of_word(word).ok_or(LineFault::NotInGrammar)
    }

    /// Takes the name of a rule.
    #[tactic(auto, unfolding(crate::specs::Fields::spelled_at))]
    pub fn rule(&mut self) -> Result<Rule, LineFault>
        ensures { Reads result (spelled_at rule_after_prefix self.old) self.new }
    {
        let word = self.word()?;
        rule_after_prefix(word).ok_or(LineFault::NotInGrammar)
    }

    /// Takes the name of an error.
    #[tactic(auto, unfolding(crate::specs::Fields::spelled_at))]
    pub fn error(&mut self) -> Result<Errno, LineFault>
        ensures { Reads result (spelled_at error_of_name self.old) self.new }
    {
        let word = self.word()?;
        error_of_name(word).ok_or(LineFault::NotInGrammar)
    }

    /// Takes the result of a call.
    #[tactic(auto, unfolding(crate::specs::Fields::spelled_at))]
    pub fn result(&mut self) -> Result<CallResult, LineFault>
        ensures { Reads result (spelled_at result_of_word self.old) self.new }
    {
        let word = self.word()?;
        result_of_word(word).ok_or(LineFault::NotInGrammar)
    }

    // Takes the label of an argument.
    #[tactic(auto, unfolding(crate::specs::Fields::spelled_at))]
    fn label(&mut self) -> Result<Label, LineFault>
        ensures { Reads result (spelled_at label_named self.old) self.new }
    {
        let word = self.word()?;
        Label::of_word(word).ok_or(LineFault::NotInGrammar)
    }

    /// Takes bytes that are written as hexadecimal digits.
    #[tactic(auto, unfolding(crate::specs::Fields::spelled_at))]
    pub fn bytes(&mut self, alloc: Global) -> Result<Text, LineFault>
        ensures { Reads result (spelled_at bytes_of_word self.old) self.new }
    {
        let word = self.word()?;
        bytes_of_word(alloc, word)
    }

    /// Takes a quoted text.
    #[tactic(auto, unfolding(crate::specs::Fields::text_at))]
    pub fn text(&mut self, alloc: Global) -> Result<Text, LineFault>
        ensures { Reads result (text_at self.old) self.new }
    {
        self.last = self.rest;
        let Some(quoted) = after_byte(b' ', self.rest) else {
            return Err(LineFault::NotInGrammar);
        };
        self.last = quoted;
        let Some(inner) = after_byte(b'"', quoted) else {
            return Err(LineFault::NotInGrammar);
        };
        let Some(len) = closing_len(inner) else {
            return Err(LineFault::NotInGrammar);
        };
        let (source, rest) = quoted.split_at(len + 1);
        let text = unquote_plain(alloc, source)?;
        self.rest = rest;
        Ok(text)
    }

    /// Takes a quoted name.
    #[tactic(auto, unfolding(crate::specs::Fields::name_at))]
    pub fn name(&mut self, alloc: Global) -> Result<AbsName, LineFault>
        ensures { Reads result (name_at self.old) self.new }
    {
        let text = self.text(alloc)?;
        let name = AbsName::of(alloc, text.bytes())?;
        Ok(name)
    }

    /// Takes real and effective user, and real and effective group.
    #[tactic(auto, unfolding(crate::specs::Fields::ids_at))]
    pub fn ids(&mut self) -> Result<Ids, LineFault>
        ensures { Reads result (ids_at self.old) self.new }
    {
        let ruid = self.u32()?;
        let euid = self.u32()?;
        let rgid = self.u32()?;
        let egid = self.u32()?;
        Ok(Ids {
            ruid,
            euid,
            rgid,
            egid,
        })
    }

    /// Takes the six registers of a call.
    #[tactic(auto, unfolding(crate::specs::Fields::regs_at))]
    pub fn regs(&mut self) -> Result<[u64; 6], LineFault>
        ensures { Reads result (regs_at self.old) self.new }
    {
        let first = self.u64()?;
        let second = self.u64()?;
        let third = self.u64()?;
        let fourth = self.u64()?;
        let fifth = self.u64()?;
        let sixth = self.u64()?;
        Ok([first, second, third, fourth, fifth, sixth])
    }
}

// Takes an argument.
#[tactic(auto, unfolding(crate::specs::Fields::arg_at))]
fn read_arg(alloc: Global, fields: &mut Fields<'_>) -> Result<ArgText, LineFault>
    ensures { Reads result (arg_at fields.old) fields.new }
{
    fields.word()?;
    let label = fields.label()?;
    let index = fields.u32()?;
    let text = fields.text(alloc)?;
    Ok(ArgText { label, index, text })
}

/// Takes all arguments that come next. There are fewer of them than bytes.
pub fn read_args(alloc: Global, fields: &mut Fields<'_>) -> Result<Sequence<ArgText>, LineFault>
    ensures { Reads result (args_at fields.old) fields.new }
{
    let most = fields.len();
    let mut args = Sequence::new(alloc);
    for _ in 0..most {
        if !fields.begins(b" arg ") {
            return Ok(args);
        }
        args.push(read_arg(alloc, fields)?)?;
    }
    Ok(args)
}
