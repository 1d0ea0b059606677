// An argument of a message under way: what is copied and seen of it.
ghost use Rattle.std.specs.Prelude.{◌≡◌, ◌<◌, ℕ, Bool, true, false, List, [], ◌∷◌, ◌++◌, length, slice_index_or, Option, Some, None, is_some, IsSome, IfOk, OnOk, OnErr};
ghost use Rattle.st_calls.specs.Call.{follows};
ghost use Rattle.st_calls.specs.declared.argument.ArgText.{ArgText};
ghost use Rattle.st_calls.specs.declared.argument.PartKind.TheVariants as kind;
ghost use Rattle.st_effects.specs.Progress.{Look, Ready, text_arg};
ghost use Rattle.st_lookaside.specs.Head.{arg_request};
ghost use Rattle.st_lookaside.specs.Need.{is_finished, IsShort, IsWord};
ghost use Rattle.st_lookaside.specs.declared.need.Need.TheVariants as need;
ghost use Rattle.st_names.specs.Seen.{seen_text};
ghost use Rattle.st_names.specs.declared.seen.SeenText.{SeenText};
ghost use Rattle.st_translate.specs.Copied.{lies_in_memory, HasAllWords};

use crate::head::Head;
use crate::need::Need;
use st_base::Text;
use st_calls::{ArgSpec, ArgText, PartKind, follows};
use st_names::{AbsName, Seen, SeenText};
use st_resolve::Walk;
use st_translate::{Copying, plain_text};
use std::alloc::{AllocError, Global};

#[derive(Debug, Drop)]
pub struct Part {
    pub spec: ArgSpec,
    // What is copied of an argument in memory; none for any other argument.
    pub copying: Option<Copying>,
    // The answers to the looks of its name's walk.
    pub lookups: Vec<SeenText>,
    // That walk, once it is readied. It has nothing that isn't copied or seen, and saves walking again.
    pub walk: Option<Walk>,
    // What the argument needs next, whether the walk is readied or not.
    pub need: Need,
}

fn lies_in_memory(kind: PartKind) -> bool
    ensures { result ≡ lies_in_memory kind }
{
    matches!(
        kind,
        PartKind::Name | PartKind::Plain | PartKind::Addr | PartKind::Argv
    )
}

// The register of an argument.
fn register_of(head: &Head, spec: ArgSpec) -> u64
    ensures { result ≡ slice_index_or head.now.regs spec.register 0 }
{
    head.regs.get(spec.register as usize).copied().unwrap_or(0)
}

// The answer to a look, with its target borrowed.
fn seen_of(seen: &SeenText) -> Seen<'_>
    ensures { seen_text result ≡ seen.now }
{
    match seen {
        SeenText::Missing => Seen::Missing,
        SeenText::NotDir => Seen::NotDir,
        SeenText::Dir => Seen::Dir,
        SeenText::File => Seen::File,
        SeenText::Link(target) => Seen::Link(target.bytes()),
    }
}

impl Part {
    ghost use Rattle.st_lookaside.specs.Part.{Filled, filled_of, is_begun, nothing_filled, progress_of_arg, spelled_of, with_word, with_lookup, words_in, IsCopyOf, IsPart, IsWalk};

    /// An argument of which nothing is copied or seen, with room for every word.
    pub fn begin(alloc: Global, head: &Head, spec: ArgSpec) -> Result<Self, AllocError>
        requires short { IsShort head.now.cwd }
        ensures part { IfOk result (λ part. IsPart (arg_request head.now) part) }
        ensures spec { IfOk result (λ part. part.spec ≡ spec) }
        ensures filled { IfOk result (λ part. filled_of part ≡ nothing_filled) }
    {
        let copying = if lies_in_memory(spec.kind) {
            Some(Copying::begin(alloc, spec.kind, register_of(head, spec))?)
        } else {
            None
        };
        let mut part = Part {
            spec,
            copying,
            lookups: Vec::new(alloc),
            walk: None,
            need: Need::Nothing,
        };
        part.note_need(head);
        Ok(part)
    }

    // Notes what the argument needs by its words, if nothing is seen of it.
    #[inline]
    fn note_need(&mut self, head: &Head)
        requires copied { IsCopyOf (arg_request head.now) self.old.spec self.old.copying }
        requires unseen { self.old.lookups.items ≡ [] }
        requires no_walk { self.old.walk ≡ None }
        requires short { IsShort head.now.cwd }
        ensures part { IsPart (arg_request head.now) self.new }
        ensures rest { self.new ≡ record self.old { need = self.new.need } }
    {
        self.need = match &self.copying {
            Some(copying) => Need::before_looks(self.spec, copying, head.cwd.get()),
            None => Need::Nothing,
        };
    }

    /// Appends the word that is needed next.
    pub fn fill(&mut self, head: &Head, word: u64)
        requires part { IsPart (arg_request head.now) self.old }
        requires need { IsWord self.old.need }
        requires short { IsShort head.now.cwd }
        ensures part { IsPart (arg_request head.now) self.new }
        ensures spec { self.new.spec ≡ self.old.spec }
        ensures filled { filled_of self.new ≡ with_word (filled_of self.old) word }
    {
        let Some(copying) = &mut self.copying else {
            unreachable!()
        };
        copying.take(word);
        self.note_need(head);
    }

    // The walk of the name that was copied, after what was seen.
    fn walk_again(&self, alloc: Global, head: &Head) -> Result<Walk, AllocError>
        requires part { IsPart (arg_request head.now) self.now }
        requires name { self.now.spec.kind ≡ kind.Name }
        requires done { HasAllWords (spelled_of (arg_request head.now) self.now.spec (words_in self.now.copying)) }
        ensures { IfOk result (λ walk. IsWalk (arg_request head.now) self.now.spec (words_in self.now.copying) self.now.lookups.items walk) }
    {
        let Some(copying) = &self.copying else {
            unreachable!()
        };
        let follow = follows(head.call, &head.regs, self.spec.register);
        // The text has no fault, so this is out of memory.
        let Ok(mut walk) = Walk::begin(alloc, copying.text(), head.cwd.get(), follow) else {
            return Err(AllocError);
        };
        for seen in &self.lookups {
            walk.advance(alloc, seen_of(seen))?;
        }
        Ok(walk)
    }

    // Readies the walk of the name that is looked up. If memory runs out, nothing changes.
    fn begin_walk(&mut self, alloc: Global, head: &Head) -> Result<(), AllocError>
        requires part { IsPart (arg_request head.now) self.old }
        requires need { self.old.need ≡ need.Look }
        ensures part { IsPart (arg_request head.now) self.new }
        ensures spec { self.new.spec ≡ self.old.spec }
        ensures need { self.new.need ≡ need.Look }
        ensures filled { filled_of self.new ≡ filled_of self.old }
        ensures ok { OnOk result (IsSome self.new.walk) }
        ensures err { OnErr result (self.new ≡ self.old) }
    {
        if self.walk.is_none() {
            self.walk = Some(self.walk_again(alloc, head)?);
        }
        Ok(())
    }

    /// The name that is looked at next. Its walk is readied, and what is copied and seen is unchanged.
    pub fn next_name(&mut self, alloc: Global, head: &Head) -> Result<AbsName, AllocError>
        requires part { IsPart (arg_request head.now) self.old }
        requires need { self.old.need ≡ need.Look }
        ensures part { IsPart (arg_request head.now) self.new }
        ensures spec { self.new.spec ≡ self.old.spec }
        ensures filled { filled_of self.new ≡ filled_of self.old }
        ensures name { IfOk result (λ name. progress_of_arg (arg_request head.now) self.new.spec (words_in self.new.copying) self.new.lookups.items ≡ Look 0 name) }
    {
        self.begin_walk(alloc, head)?;
        let Some(walk) = &self.walk else {
            unreachable!()
        };
        let Some(name) = walk.next_look(alloc)? else {
            unreachable!()
        };
        Ok(name)
    }

    /// Appends the answer to the look at the next name, and readies its walk if necessary. If memory runs out, no answer is appended.
    pub fn take_look(
        &mut self,
        alloc: Global,
        head: &Head,
        seen: Seen<'_>,
    ) -> Result<(), AllocError>
        requires part { IsPart (arg_request head.now) self.old }
        requires need { self.old.need ≡ need.Look }
        ensures part { IsPart (arg_request head.now) self.new }
        ensures spec { self.new.spec ≡ self.old.spec }
        ensures ok { OnOk result (filled_of self.new ≡ with_lookup (filled_of self.old) (seen_text seen.entry)) }
        ensures err { OnErr result (filled_of self.new ≡ filled_of self.old) }
    {
        self.begin_walk(alloc, head)?;
        let Some(walk) = &mut self.walk else {
            unreachable!()
        };
        let kept = seen.copy(alloc)?;
        self.lookups.reserve(1)?;
        let step = walk.advance(alloc, seen)?;
        self.lookups.push_reserved(kept);
        self.need = Need::of_step(step);
        Ok(())
    }

    // The text of the name that was found.
    fn name_text(&self, alloc: Global, head: &Head) -> Result<Text, AllocError>
        requires part { IsPart (arg_request head.now) self.now }
        requires need { self.now.need ≡ need.Nothing }
        requires name { self.now.spec.kind ≡ kind.Name }
        ensures { IfOk result (λ text. progress_of_arg (arg_request head.now) self.now.spec (words_in self.now.copying) self.now.lookups.items ≡ Ready (text_arg self.now.spec text ∷ [])) }
    {
        match &self.walk {
            Some(walk) => walk.name().print(alloc),
            None => self.walk_again(alloc, head)?.name().print(alloc),
        }
    }

    // The text of a complete argument.
    fn text(&self, alloc: Global, head: &Head) -> Result<Text, AllocError>
        requires part { IsPart (arg_request head.now) self.now }
        requires need { self.now.need ≡ need.Nothing }
        ensures { IfOk result (λ text. progress_of_arg (arg_request head.now) self.now.spec (words_in self.now.copying) self.now.lookups.items ≡ Ready (text_arg self.now.spec text ∷ [])) }
    {
        match &self.copying {
            None => plain_text(alloc, self.spec.kind, register_of(head, self.spec)),
            Some(copying) => match self.spec.kind {
                PartKind::Name => self.name_text(alloc, head),
                _ => Text::of(alloc, copying.text()),
            },
        }
    }

    /// The argument, which has to be complete.
    pub fn arg(&self, alloc: Global, head: &Head) -> Result<ArgText, AllocError>
        requires part { IsPart (arg_request head.now) self.now }
        requires need { self.now.need ≡ need.Nothing }
        ensures { IfOk result (λ arg. progress_of_arg (arg_request head.now) self.now.spec (words_in self.now.copying) self.now.lookups.items ≡ Ready (arg ∷ [])) }
    {
        Ok(ArgText {
            label: self.spec.label,
            index: self.spec.index,
            text: self.text(alloc, head)?,
        })
    }

    /// Whether it is complete.
    pub fn is_finished(&self) -> bool
        ensures { result ≡ is_finished self.now.need }
    {
        matches!(self.need, Need::Nothing)
    }

    /// Whether a word of it is copied.
    pub fn is_begun(&self) -> bool
        ensures { result ≡ is_begun (filled_of self.now) }
    {
        match &self.copying {
            Some(copying) => copying.is_begun(),
            None => false,
        }
    }

    /// Undoes the last `fill` or `take_look`, at the cost of what was copied before. The walk is no longer readied.
    pub fn take_back(&mut self, head: &Head)
        requires part { IsPart (arg_request head.now) self.old }
        requires some { is_begun (filled_of self.old) ≡ true }
        requires short { IsShort head.now.cwd }
        ensures part { IsPart (arg_request head.now) self.new }
        ensures spec { self.new.spec ≡ self.old.spec }
        ensures seen { (before : Filled) (seen : SeenText) → filled_of self.old ≡ with_lookup before seen → filled_of self.new ≡ before }
        ensures word { (before : Filled) (word : ℕ) → before.lookups ≡ [] → filled_of self.old ≡ with_word before word → filled_of self.new ≡ before }
    {
        self.walk = None;
        if self.lookups.pop().is_some() {
            self.need = Need::Look;
            return;
        }
        let Some(copying) = &mut self.copying else {
            unreachable!()
        };
        copying.take_back();
        self.note_need(head);
    }

    /// Begins anew in the existing room: nothing is copied, seen or readied.
    pub fn restart(&mut self, head: &Head)
        requires copied { IsCopyOf (arg_request head.now) self.old.spec self.old.copying }
        requires short { IsShort head.now.cwd }
        ensures part { IsPart (arg_request head.now) self.new }
        ensures spec { self.new.spec ≡ self.old.spec }
        ensures filled { filled_of self.new ≡ nothing_filled }
    {
        if let Some(copying) = &mut self.copying {
            copying.restart();
        }
        self.lookups.clear();
        self.walk = None;
        self.note_need(head);
    }
}
