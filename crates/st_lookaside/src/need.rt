// What an argument needs next.
ghost use Rattle.std.specs.Prelude.{◌≡◌, Bool, [], None};
ghost use Rattle.st_calls.specs.declared.argument.PartKind.TheVariants as kind;
ghost use Rattle.st_lookaside.specs.Need.{need_of, need_of_walk, progress_alone, IsInside, IsShort};
ghost use Rattle.st_resolve.specs.Walk.{walk_step};
ghost use Rattle.st_translate.specs.Copied.{asked_word, HasAllWords, spelled_words};

use st_base::Errno;
use st_calls::{ArgSpec, PartKind};
use st_names::AbsName;
use st_resolve::{WalkStep, first_step};
use st_translate::Copying;

/// What an argument needs next, whatever the others need.
#[derive(Clone, Copy, Debug, PartialEq, Eq)]
pub enum Need {
    /// The word with this index in memory.
    Word(u32),
    /// A look at the next name of its walk.
    Look,
    /// Nothing: it has this fault.
    Fault(Errno),
    /// Nothing: it is complete.
    Nothing,
}

impl Need {
    /// What a name needs next, by the last step of its walk.
    pub fn of_step(step: WalkStep) -> Self
        ensures { result ≡ need_of_walk step }
    {
        match step {
            WalkStep::More => Need::Look,
            WalkStep::Name => Need::Nothing,
            WalkStep::Fault(errno) => Need::Fault(errno),
        }
    }

    /// What an argument in memory needs by its words, before any look.
    #[inline]
    pub fn before_looks(spec: ArgSpec, copying: &Copying, cwd: &AbsName) -> Self
        requires kind { copying.now.kind ≡ spec.kind }
        requires short { IsShort cwd.now }
        ensures inside { IsInside result }
        ensures need { (follow : Bool) → result ≡ need_of (progress_alone spec cwd.now follow [] (spelled_words copying.now)) }
    {
        match copying.next_word() {
            Some(place) => Need::Word(place),
            None => Need::after_words(spec, copying, cwd),
        }
    }

    // The same for an argument that needs no more words. It is a separate function because it is rare: words are needed again and again.
    #[inline(never)]
    fn after_words(spec: ArgSpec, copying: &Copying, cwd: &AbsName) -> Self
        requires kind { copying.now.kind ≡ spec.kind }
        requires short { IsShort cwd.now }
        requires copied { asked_word (spelled_words copying.now) ≡ None }
        ensures inside { IsInside result }
        ensures need { (follow : Bool) → result ≡ need_of (progress_alone spec cwd.now follow [] (spelled_words copying.now)) }
    {
        if let Some(errno) = copying.fault() {
            return Need::Fault(errno);
        }
        match spec.kind {
            PartKind::Name => Need::of_step(first_step(copying.text(), cwd)),
            _ => Need::Nothing,
        }
    }
}
