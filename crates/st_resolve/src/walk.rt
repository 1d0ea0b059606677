ghost use Rattle.std.specs.Prelude.{◌≡◌, ◌≢◌, ◌↔◌, ◌<◌, ◌≤◌, Bool, [], ◌∷◌, List, length, Some, IsErrOf, IsNone, IsSome, IfOk, OnOk, OnErr};
ghost use Rattle.st_base.specs.declared.errno.Errno.{Errno};
ghost use Rattle.st_names.specs.Name.{components_of, printed_name};
ghost use Rattle.st_names.specs.Seen.{seen_text};
ghost use Rattle.st_names.specs.declared.limits.TheConstants.{LONGEST_NAME};
ghost use Rattle.st_names.specs.declared.seen.SeenText.{SeenText};
ghost use Rattle.st_model.specs.Walk.{Fault, Name, start_of_name, start_walk, is_last, is_up, rest_after_ups};
ghost use Rattle.st_model.specs.declared.limits.TheConstants.{MOST_LINKS};
ghost use Rattle.st_resolve.specs.Walk.{asked_name, climbed, entered, followed, fault_before_lookups, walk_step, walk_from};
ghost use Rattle.st_resolve.specs.declared.walk.WalkFault.TheVariants.{Os};
ghost use Rattle.st_resolve.specs.declared.walk.WalkStep.TheVariants as step;

use crate::remaining::Remaining;
use st_base::Errno;
use st_model::MOST_LINKS;
use st_names::{AbsName, LONGEST_NAME, Seen, has_long_part, is_component, split_at_slashes};
use std::alloc::{AllocError, Global};
use std::marker::Model;
use thiserror::Error;

/// Why a walk doesn't begin.
#[derive(Clone, Copy, Debug, PartialEq, Eq, Drop, Error)]
pub enum WalkFault {
    /// The text isn't a name, or the name that it means is too long.
    #[error("the name can't be resolved")]
    Os(Errno),
    #[error("out of memory")]
    NoMemory,
}

impl From<AllocError> for WalkFault {
    ghost use Rattle.st_resolve.specs.declared.walk.WalkFault.TheVariants.{NoMemory};

    ghost from_gives = { λ _ fault. fault ≡ NoMemory };

    fn from(_error: AllocError) -> Self {
        WalkFault::NoMemory
    }
}

/// How far a walk is.
#[derive(Clone, Copy, Debug, PartialEq, Eq)]
pub enum WalkStep {
    /// The walk asks for a look.
    More,
    /// The walk has its name.
    Name,
    /// The walk has ended with this error.
    Fault(Errno),
}

/// The resolution of one name, a component at a time. The walk asks for a look at one name after another and goes on by what was
/// seen. It stores nothing of what was seen but the links that still have components left.
#[derive(Debug, Drop)]
pub struct Walk {
    done: AbsName,
    left: Remaining,
    links: u32,
    follow: bool,
    fault: Option<Errno>,
}

impl Model for Walk {
    ghost use Rattle.std.specs.Prelude.{◌≤◌};
    ghost use Rattle.st_model.specs.declared.limits.TheConstants.{MOST_LINKS};
    ghost use Rattle.st_resolve.specs.Walk as walk;

    ghost Value = { walk.Walk };

    ghost view = { λ w. record { done = w.done; left = w.left; links = w.links; follow = w.follow; fault = w.fault } };

    ghost invariant = { λ w. w.links ≤ MOST_LINKS };
}

fn is_up(part: &[u8]) -> bool
    ensures { result ≡ is_up part.now }
{
    part == b"..".as_slice()
}

// Where a text begins: at the root if it is absolute, otherwise at this name.
fn origin_of(alloc: Global, text: &[u8], from: &AbsName) -> Result<AbsName, AllocError>
    ensures { IfOk result (λ name. name ≡ start_of_name text.now from.now) }
{
    if text.starts_with(b"/") {
        AbsName::root_with_room(alloc, text.len())
    } else {
        from.copy(alloc)
    }
}

// The error of a text before any look.
fn first_fault(text: &[u8]) -> Option<Errno>
    ensures { result ≡ fault_before_lookups text.now }
{
    if text.is_empty() {
        Some(Errno::ENOENT)
    } else if has_long_part(text) {
        Some(Errno::ENAMETOOLONG)
    } else {
        None
    }
}

// Whether a text has no component but `..`, so that no look is needed.
fn is_way_up(text: &[u8]) -> bool
    ensures { result ≡ is_last (rest_after_ups (components_of text.now)) }
{
    split_at_slashes(text).all(|part| !is_component(part) || is_up(part))
}

/// How far the walk of a text is before its first look. Takes no memory. The directory's name has at most 1,024 bytes. ENOENT if
/// the text is empty, ENAMETOOLONG if a part of it has more than 255 bytes.
pub fn first_step(text: &[u8], cwd: &AbsName) -> WalkStep
    requires { length (printed_name cwd.now) ≤ LONGEST_NAME }
    ensures { (follow : Bool) → result ≡ walk_step (start_walk text.now cwd.now follow []) }
{
    match first_fault(text) {
        Some(errno) => WalkStep::Fault(errno),
        None if is_way_up(text) => WalkStep::Name,
        None => WalkStep::More,
    }
}

impl Walk {
    /// The walk of a text from this directory; `follow` says whether a link that is last is followed. ENOENT if the text is empty,
    /// ENAMETOOLONG if a part of it has more than 255 bytes, both before memory is taken. ENAMETOOLONG also if no look is needed
    /// and the name has more than 1,024 bytes.
    pub fn begin(alloc: Global, text: &[u8], cwd: &AbsName, follow: bool) -> Result<Walk, WalkFault>
        ensures walk { IfOk result (λ walk. (lookups : List SeenText) → walk_from walk lookups ≡ start_walk text.now cwd.now follow lookups) }
        ensures may { IfOk result (λ _. (errno : Errno) → start_walk text.now cwd.now follow [] ≢ Fault errno) }
        ensures text { (errno : Errno) → fault_before_lookups text.now ≡ Some errno → IsErrOf result (Os errno) }
        ensures fault { (errno : Errno) → IsErrOf result (Os errno) → start_walk text.now cwd.now follow [] ≡ Fault errno }
    {
        if let Some(errno) = first_fault(text) {
            return Err(WalkFault::Os(errno));
        }
        let mut walk = Walk {
            done: origin_of(alloc, text, cwd)?,
            left: Remaining::of(alloc, text)?,
            links: 0,
            follow,
            fault: None,
        };
        walk.climb();
        match walk.step() {
            WalkStep::Fault(errno) => Err(WalkFault::Os(errno)),
            _ => Ok(walk),
        }
    }

    /// How far the walk is.
    pub fn step(&self) -> WalkStep
        ensures { result ≡ walk_step (walk_from self.now []) }
    {
        match self.fault {
            Some(errno) => WalkStep::Fault(errno),
            None if !self.left.is_empty() => WalkStep::More,
            None if self.done.print_len() > LONGEST_NAME as u64 => {
                WalkStep::Fault(Errno::ENAMETOOLONG)
            }
            None => WalkStep::Name,
        }
    }

    /// The name to look at next; `None` exactly when the walk has its name.
    pub fn next_look(&self, alloc: Global) -> Result<Option<AbsName>, AllocError>
        requires { (errno : Errno) → walk_step (walk_from self.now []) ≢ step.Fault errno }
        ensures look { IfOk result (λ look. look ≡ asked_name (walk_from self.now [])) }
        ensures none { IfOk result (λ look. IsNone look ↔ (walk_step (walk_from self.now []) ≡ step.Name)) }
        ensures some { IfOk result (λ look. IsSome look ↔ (walk_step (walk_from self.now []) ≡ step.More)) }
    {
        let Some(part) = self.left.first() else {
            return Ok(None);
        };
        let name = self.done.child(alloc, part)?;
        Ok(Some(name))
    }

    /// Goes on by what was seen of the name that `next_look` gave, and returns how far the walk is then. ENOENT if a component that
    /// isn't last is missing, ENOTDIR if it is a file or if NotDir was seen, ELOOP at the 33rd link, ENAMETOOLONG if the finished
    /// name has more than 1,024 bytes. If memory runs out, the walk is unchanged.
    pub fn advance(&mut self, alloc: Global, seen: Seen<'_>) -> Result<WalkStep, AllocError>
        requires { walk_step (walk_from self.old []) ≡ step.More }
        ensures walk { OnOk result ((lookups : List SeenText) → walk_from self.new lookups ≡ walk_from self.old (seen_text seen.entry ∷ lookups)) }
        ensures step { IfOk result (λ step. step ≡ walk_step (walk_from self.new [])) }
        ensures err { OnErr result (self.new ≡ self.old) }
    {
        self.go(alloc, seen)?;
        Ok(self.step())
    }

    // Goes on by what was seen of the next component.
    fn go(&mut self, alloc: Global, seen: Seen<'_>) -> Result<(), AllocError>
        requires { walk_step (walk_from self.old []) ≡ step.More }
        ensures walk { OnOk result ((lookups : List SeenText) → walk_from self.new lookups ≡ walk_from self.old (seen_text seen.entry ∷ lookups)) }
        ensures err { OnErr result (self.new ≡ self.old) }
    {
        match seen {
            Seen::Dir => self.enter()?,
            Seen::File | Seen::Missing if self.left.is_last() => self.enter()?,
            Seen::File | Seen::NotDir => self.fault = Some(Errno::ENOTDIR),
            Seen::Missing => self.fault = Some(Errno::ENOENT),
            Seen::Link(_) if !self.follow && self.left.is_last() => self.enter()?,
            Seen::Link(_) if self.links == MOST_LINKS => self.fault = Some(Errno::ELOOP),
            Seen::Link(target) => self.follow_link(alloc, target)?,
        }
        Ok(())
    }

    /// The name that the walk has found.
    pub fn name(&self) -> &AbsName
        requires { walk_step (walk_from self.now []) ≡ step.Name }
        ensures { walk_from self.now [] ≡ Name result.now }
    {
        &self.done
    }

    /// The name that the walk has found. Takes no memory.
    pub fn into_name(self) -> AbsName
        requires { walk_step (walk_from self []) ≡ step.Name }
        ensures { walk_from self [] ≡ Name result }
    {
        self.done
    }

    // Drops each `..` that is next, with the component that it steps up from.
    #[inline]
    fn climb(&mut self)
        ensures { self.new ≡ climbed self.old }
    {
        while let Some(part) = self.left.first() {
            if !is_up(part) {
                return;
            }
            self.left.drop_first();
            self.done.pop();
        }
    }

    // Appends the next component to the name.
    fn enter(&mut self) -> Result<(), AllocError>
        requires { 0 < length self.old.left }
        ensures ok { OnOk result (self.new ≡ entered self.old) }
        ensures err { OnErr result (self.new ≡ self.old) }
    {
        if let Some(part) = self.left.first() {
            self.done.push(part)?;
            self.left.drop_first();
        }
        self.climb();
        Ok(())
    }

    // Replaces the next component with a link's target.
    fn follow_link(&mut self, alloc: Global, target: &[u8]) -> Result<(), AllocError>
        requires next { 0 < length self.old.left }
        requires links { self.old.links < MOST_LINKS }
        ensures ok { OnOk result (self.new ≡ followed self.old target.now) }
        ensures err { OnErr result (self.new ≡ self.old) }
    {
        self.left.replace_first(alloc, target)?;
        if target.starts_with(b"/") {
            self.done = AbsName::root(alloc);
        }
        self.links += 1;
        self.climb();
        Ok(())
    }
}
