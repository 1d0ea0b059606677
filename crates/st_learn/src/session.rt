ghost use Rattle.std.specs.Prelude.{◌≡◌, ℕ, List, ◌≤◌, ◌<◌, ◌^◌, ◌&&◌, [], ◌∷◌, ◌++◌, false, if◌then◌else◌, length, slice_get, take, Some, IfOk, OnOk, OnErr};
ghost use Rattle.std.specs.List.{list_any};
ghost use Rattle.std.specs.Str.{bytes_eq};
ghost use Rattle.st_filter.specs.Policies.{filters_of, with_binary};
ghost use Rattle.st_compile.specs.Answers.{AreAnswersBy};
ghost use Rattle.st_compile.specs.Places.{HasRoomAt};
ghost use Rattle.st_law.specs.Sessions.{session_filters};
ghost use Rattle.st_learn.specs.Deciding.{asks_first, decides, first_at, lesser, NumberIs};
ghost use Rattle.st_learn.specs.Kept.{filter_of};
ghost use Rattle.st_learn.specs.Sessions.{added, places_asking, places_of, version_of, KeepsSession, KeepsVersions};

use crate::added_filter::AddedFilter;
use crate::kept_filter::KeptFilter;
use st_base::{Shared, Text};
use st_calls::{Rule, Snapshot};
use st_compile::{OwnAnswers, Places, asked_text};
use st_filter::{BinaryPolicy, fast_answer, holds};
use std::alloc::{AllocError, Global};
use std::marker::Model;

// The greatest number of filters, so that the number of each fits in 32 bits.
const MOST_KEPT: usize = 0x7fff_ffff;

/// What a run changes of the policies that were read. It adds filters for policies and rules, in order: the filters of a policy, and those
/// that ask for a text, are found without looking at the others. And its reloads put policies of the script in force.
#[derive(Debug)]
pub struct Session<'a> {
    // In the order in which they were added.
    kept: Vec<AddedFilter<'a>>,
    // For each filter, how many before it are for its policy and rule.
    numbers: Vec<u32>,
    // The indices of the filters of each policy that has some or was reloaded, in the order in which policies got the first of these,
    policies: Places,
    // and of the filters that ask for each text first.
    texts: Places,
    // Whether some filter asks for no text.
    has_textless: bool,
    // For each binary, the numbers of the script's policies that reloads have put in force, in order.
    reloads: Places,
}

// Written out, so that another crate that drops one calls this, and doesn't drop its parts one by one.
impl<'a> Drop for Session<'a> {
    fn drop(self) {
        let Self {
            kept: _,
            numbers: _,
            policies: _,
            texts: _,
            has_textless: _,
            reloads: _,
        } = self;
    }
}

impl<'a> Model for Session<'a> {
    ghost use Rattle.std.specs.Coded.{codes};
    ghost use Rattle.st_filter.specs.FormulaCode.{formula_code};
    ghost use Rattle.st_learn.specs.Sessions.{IsSession, Session, session_with};

    ghost Value = { Session };

    ghost coded = { Prim.hlevel (codes, formula_code) };

    ghost view = { λ s. session_with s.kept.items s.policies s.reloads };

    ghost invariant = { λ s. IsSession s.kept.items s.numbers.items s.policies s.texts s.reloads s.has_textless };
}

// The lesser of two indices, or the only one that exists.
fn lesser(first: Option<usize>, other: Option<usize>) -> Option<usize>
    ensures { result ≡ lesser first other }
{
    match (first, other) {
        (None, _) => other,
        (Some(_), None) => first,
        (Some(a), Some(b)) => { if b < a { other } else { first } }
    }
}

impl<'a> Session<'a> {
    /// No filters and no reloads. It takes no memory.
    pub fn new(alloc: Global) -> Self
        ensures { result ≡ record { filters = []; changed = []; reloads = [] } }
    {
        Session {
            kept: Vec::new(alloc),
            numbers: Vec::new(alloc),
            policies: Places::new(alloc),
            texts: Places::new(alloc),
            has_textless: false,
            reloads: Places::new(alloc),
        }
    }

    /// Appends a filter for a policy and a rule, and returns how many there were for them. If memory runs out, or if the session has
    /// `MOST_KEPT` filters, nothing changes.
    pub fn add(
        &mut self,
        alloc: Global,
        policy: &Shared<Text>,
        rule: Rule,
        filter: KeptFilter<'a>,
    ) -> Result<u32, AllocError>
        ensures few { IfOk result (λ number. number ≤ 2 ^ 31) }
        ensures number { IfOk result (λ number. number ≡ length (session_filters self.old.filters policy.now rule)) }
        ensures ok { OnOk result (self.new.filters ≡ self.old.filters ++ added policy.now rule (filter_of filter.entry) ∷ []) }
        ensures changed { OnOk result (self.new.changed ≡ with_binary self.old.changed policy.now) }
        ensures reloads { self.new.reloads ≡ self.old.reloads }
        ensures err { OnErr result (self.new ≡ self.old) }
    {
        let place = self.kept.len();
        if place >= MOST_KEPT {
            return Err(AllocError);
        }
        let binary = policy.share()?;
        let bytes = policy.get().bytes();
        let text = asked_text(filter.get().expr());
        self.kept.reserve(1)?;
        self.numbers.reserve(1)?;
        let text_row = self.texts.reserve(alloc, text)?;
        // The last: a policy has a row only once it has a filter.
        let row = self.policies.reserve(alloc, bytes)?;
        let number = self.count_at(self.policies.at(row), rule) as u32;
        self.policies.push_at(row, place);
        self.texts.push_at(text_row, place);
        self.has_textless |= text.is_empty();
        self.numbers.push_reserved(number);
        self.kept
            .push_reserved(AddedFilter::new(binary, rule, filter));
        Ok(number)
    }

    /// The filters, in order.
    pub fn filters(&self) -> &[AddedFilter<'a>]
        ensures { result.now ≡ self.now.filters }
    {
        self.kept.as_slice()
    }

    /// The filter at an index.
    pub fn kept(&self, place: usize) -> &AddedFilter<'a>
        requires { place < length self.now.filters }
        ensures { slice_get self.now.filters place ≡ Some result.now }
    {
        &self.kept[place]
    }

    /// The indices of a policy's filters, in order.
    pub fn places_of(&self, policy: &[u8]) -> &[usize]
        ensures few { length result.now < 2 ^ 31 }
        ensures is { result.now ≡ places_of self.now.filters policy.now }
    {
        self.policies.of(policy)
    }

    // The indices of the filters that ask for a text first.
    fn places_asking(&self, text: &[u8]) -> &[usize]
        ensures { result.now ≡ places_asking self.now.filters text.now }
    {
        // Learnt filters usually ask for a text. Then nothing is hashed for the filters that ask for none.
        if text.is_empty() && !self.has_textless {
            return &[];
        }
        self.texts.of(text)
    }

    /// How many policies have filters here or were reloaded.
    pub fn changed_count(&self) -> usize
        ensures { result ≡ length self.now.changed }
    {
        self.policies.len()
    }

    /// The binary of one of them. They are in the order in which they got the first of these.
    pub fn changed(&self, row: usize) -> &[u8]
        requires { row < length self.now.changed }
        ensures is { slice_get self.now.changed row ≡ Some result.now }
        ensures once { list_any (bytes_eq result.now) (take row self.now.changed) ≡ false }
    {
        self.policies.binary(row)
    }

    /// The version in force of the policy of a binary: the number of the script's policy that its last reload has put in force, or 0.
    pub fn version(&self, policy: &[u8]) -> u32
        ensures { result ≡ version_of self.now.reloads policy.now }
    {
        match self.reloads.of(policy).last() {
            Some(version) => *version as u32,
            None => 0,
        }
    }

    /// The kernel's own answers under a policy of the script, if it is in force: its filters decide, and then the session's filters of its
    /// binary.
    pub(crate) fn answers_under(
        &self,
        alloc: Global,
        block: &BinaryPolicy,
    ) -> Result<OwnAnswers, AllocError>
        ensures { IfOk result (AreAnswersBy (λ rule. filters_of rule block.now.filters ++ session_filters self.now.filters block.now.binary rule)) }
    {
        let mut answers = OwnAnswers::under(alloc, &block.filters)?;
        for place in self.places_of(block.binary.bytes()) {
            let kept = self.kept(*place);
            answers.appended(kept.rule(), fast_answer(kept.filter()));
        }
        Ok(answers)
    }

    /// Makes room for a reload of the policy of a binary, and returns the row of its reloads. If memory runs out, nothing changes but room.
    pub(crate) fn reserve_reload(
        &mut self,
        alloc: Global,
        binary: &[u8],
    ) -> Result<usize, AllocError>
        ensures room { IfOk result (λ row. HasRoomAt row self.new.reloads binary.now) }
        ensures changed { OnOk result (self.new.changed ≡ with_binary self.old.changed binary.now) }
        ensures filters { self.new.filters ≡ self.old.filters }
        ensures versions { KeepsVersions self.old.reloads self.new.reloads }
        ensures err { OnErr result (KeepsSession self.old self.new) }
    {
        let row = self.reloads.reserve(alloc, binary)?;
        // The last: a policy has a row only once it was changed.
        self.policies.reserve(alloc, binary)?;
        Ok(row)
    }

    /// Puts the script's policy with this number in force. The room was made before, so this takes no memory.
    pub(crate) fn put_in_force(&mut self, row: usize, version: u32)
        requires { (binary : List ℕ) × HasRoomAt row self.old.reloads binary }
        ensures filters { self.new.filters ≡ self.old.filters }
        ensures changed { self.new.changed ≡ self.old.changed }
        ensures versions { (binary : List ℕ) → HasRoomAt row self.old.reloads binary → (other : List ℕ) → version_of self.new.reloads other ≡ (if bytes_eq binary other then version else version_of self.old.reloads other) }
    {
        self.reloads.push_at(row, version as usize);
    }

    // How many filters before an index are for the policy and the rule of the filter at it.
    pub(crate) fn number_before(&self, place: usize) -> u32
        requires { place < length self.now.filters }
        ensures few { result < 2 ^ 31 }
        ensures is { NumberIs self.now.filters place result }
    {
        self.numbers[place]
    }

    // How many filters of a policy are for a rule, by the policy's indices: one more than before the last of them.
    fn count_at(&self, places: &[usize], rule: Rule) -> usize
        requires { (policy : List ℕ) × (places.now ≡ places_of self.now.filters policy) }
        ensures few { result ≤ 2 ^ 31 }
        ensures is { (policy : List ℕ) → places.now ≡ places_of self.now.filters policy → result ≡ length (session_filters self.now.filters policy rule) }
    {
        let mut left = places.len();
        while left > 0 {
            left -= 1;
            if self.kept(places[left]).rule() == rule {
                return self.number_before(places[left]) as usize + 1;
            }
        }
        0
    }

    // The first index whose filter asks for this text first, is for the policy and the rule of a call, and holds of it.
    fn first_asking(&self, text: &[u8], copies: &Snapshot) -> Option<usize>
        ensures { result ≡ first_at (λ kept. asks_first text.now kept && decides copies.now kept) self.now.filters }
    {
        let policy = copies.policy.get().bytes();
        for place in self.places_asking(text) {
            let kept = self.kept(*place);
            if kept.is_for(policy, copies.rule) && holds(kept.filter(), copies) {
                return Some(*place);
            }
        }
        None
    }

    // The first index whose filter is for the policy and the rule of a call, and holds of it. A filter that asks for a text first holds of
    // no call without an argument of that text.
    pub(crate) fn first_deciding(&self, copies: &Snapshot) -> Option<usize>
        ensures { result ≡ first_at (decides copies.now) self.now.filters }
    {
        let mut first = self.first_asking(&[], copies);
        for part in copies.parts.as_slice() {
            let other = self.first_asking(part.text.bytes(), copies);
            first = lesser(first, other);
        }
        first
    }
}
