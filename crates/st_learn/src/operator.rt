ghost use Rattle.std.specs.Prelude.{◌≡◌, ◌++◌, ◌∷◌, [], suc, true, false, is_some, length, slice_get, None, Some, IfSome, IfOk, OnOk, OnErr};
ghost use Rattle.std.specs.List.{position};
ghost use Rattle.st_filter.specs.Judging.{verdict_from};
ghost use Rattle.st_base.specs.Numbered.{item_at_number};
ghost use Rattle.st_filter.specs.Policies.{filters_in_force, with_binary};
ghost use Rattle.st_law.specs.Machine.{first_state};
ghost use Rattle.st_law.specs.Sessions.{kept_for, session_filters};
ghost use Rattle.st_law.specs.State.{State};
ghost use Rattle.st_law.specs.declared.input.Input.{Input};
ghost use Rattle.st_law.specs.declared.input.Mode.TheVariants.{AskText, Learn};
ghost use Rattle.st_compile.specs.Answers.{with_appended, AllFilters, AreAnswersUnder};
ghost use Rattle.st_compile.specs.Places.{policy_row};
ghost use Rattle.st_learn.specs.Answers.{KeepsAll};
ghost use Rattle.st_learn.specs.Kept.{filter_of};
ghost use Rattle.st_learn.specs.Operator.{answers, is_for_rule, next_reply_left, AreRepliesLeft, IsAdded, IsAnsweredBy, IsPutInForce, KeepsAdded};
ghost use Rattle.st_learn.specs.Sessions.{version_of};

use crate::answers::Answers;
use crate::kept_filter::KeptFilter;
use crate::learnt::learnt_filter;
use crate::session::Session;
use st_calls::{Rule, Snapshot, Verdict};
use st_compile::{Compiled, Places};
use st_filter::{Reply, fast_answer};
use st_law::{Input, Mode};
use st_trace::Entry;
use std::alloc::{AllocError, Global};
use std::marker::Model;

// A list of this many replies is refused, so that their numbers fit in 32 bits.
const MOST_REPLIES: usize = 0xffff_ffff;

/// What the operator has added to a run: the filters of the session, and which of the script's replies were given. The replies left for a
/// policy are found without looking at the others.
#[derive(Debug, Drop)]
pub struct Operator<'a> {
    session: Session<'a>,
    // Reply n is at index n - 1.
    replies: &'a [Reply],
    // For each policy, the indices of its replies that were not given yet.
    left: Places,
}

impl<'a> Model for Operator<'a> {
    ghost use Rattle.std.specs.Coded.{codes};
    ghost use Rattle.st_filter.specs.FormulaCode.{formula_code};
    ghost use Rattle.std.specs.Prelude.{◌<◌, ◌-◌, ◌^◌, length};
    ghost use Rattle.st_learn.specs.Operator.{Added};

    ghost Value = { Added };

    ghost coded = { Prim.hlevel (codes, formula_code) };

    ghost view = { λ o. record { filters = o.session.filters; changed = o.session.changed; reloads = o.session.reloads; replies = o.replies.now; left = o.left } };

    ghost invariant = { λ o. length o.replies.now < 2 ^ 32 - 1 };
}

// The indices of the replies for each policy.
fn places_of(alloc: Global, replies: &[Reply]) -> Result<Places, AllocError>
    ensures { IfOk result (AreRepliesLeft replies.now (λ number. false) (length replies.now)) }
{
    let mut places = Places::new(alloc);
    for (place, reply) in replies.iter().enumerate() {
        let policy = reply.binary.bytes();
        places.add(alloc, policy, place)?;
    }
    Ok(places)
}

impl<'a> Operator<'a> {
    /// Nothing learnt, and none of these replies given. More replies than have a number of 32 bits are reported as out of memory.
    pub fn new(alloc: Global, replies: &'a [Reply]) -> Result<Self, AllocError>
        ensures law { IfOk result (λ operator. (input : Input) → input.replies ≡ replies.now → IsAdded input (first_state input) operator) }
    {
        if replies.len() >= MOST_REPLIES {
            return Err(AllocError);
        }
        Ok(Operator {
            session: Session::new(alloc),
            replies,
            left: places_of(alloc, replies)?,
        })
    }

    /// The session: the filters that were learnt or replied.
    pub fn session(&self) -> &Session<'a>
        ensures filters { result.now.filters ≡ self.now.filters }
        ensures changed { result.now.changed ≡ self.now.changed }
        ensures reloads { result.now.reloads ≡ self.now.reloads }
    {
        &self.session
    }

    /// The version in force of the policy of a binary.
    pub fn version(&self, policy: &[u8]) -> u32
        ensures is { result ≡ version_of self.now.reloads policy.now }
        ensures law { (input : Input) (st : State) → IsAdded input st self.now → result ≡ st.versions policy.now }
    {
        self.session.version(policy)
    }

    /// The verdict of the session's filters on a held call on which the filters in force don't decide, by the copies of its arguments.
    pub fn verdict(&self, compiled: &Compiled<'_>, copies: &Snapshot) -> Verdict
        ensures { result ≡ verdict_from (suc (length (filters_in_force compiled.now copies.now.policy (version_of self.now.reloads copies.now.policy) copies.now.rule))) (session_filters self.now.filters copies.now.policy copies.now.rule) copies.now }
    {
        self.session.verdict(compiled, copies)
    }

    // Whether the reply at an index is for a rule.
    fn is_for(&self, place: usize, rule: Rule) -> bool
        ensures { result ≡ is_for_rule rule (slice_get self.now.replies place) }
    {
        match self.replies.get(place) {
            Some(reply) => reply.filter.is_for(rule),
            None => false,
        }
    }

    // Where, among these indices of replies, the first reply for a rule is.
    fn first_for(&self, places: &[usize], rule: Rule) -> Option<usize>
        ensures { result ≡ position (λ place. is_for_rule rule (slice_get self.now.replies place)) places.now }
    {
        places.iter().position(|place| self.is_for(*place, rule))
    }

    // The row of the replies left for a policy, and where in it the first reply for a rule is.
    fn next_left(&self, policy: &[u8], rule: Rule) -> Option<(usize, usize)>
        ensures none { result ≡ None → next_reply_left self.now policy.now rule ≡ None }
        ensures row { IfSome result (λ found. policy_row self.now.left policy.now ≡ Some found.0) }
        ensures index { IfSome result (λ found. next_reply_left self.now policy.now rule ≡ Some found.1) }
    {
        let row = self.left.row_of(policy)?;
        let index = self.first_for(self.left.at(row), rule)?;
        Some((row, index))
    }

    /// Whether the operator would answer a held call that no filter decides, by the copies of its arguments. As the mode says, each call is
    /// learnt, or a reply has to be left for the policy and the rule of the call.
    pub fn answers(&self, input: &Input, copies: &Snapshot) -> bool
        ensures { result ≡ answers input.now self.now copies.now }
    {
        match input.options.mode {
            Mode::Enforce => false,
            Mode::Learn => true,
            Mode::AskText => self
                .next_left(copies.policy.get().bytes(), copies.rule)
                .is_some(),
        }
    }

    // Keeps a filter for the policy and the rule of these copies, and returns its number. If memory runs out, nothing changes, and calls are
    // answered as before.
    fn keep(
        &mut self,
        alloc: Global,
        answering: &mut Answers<'_>,
        copies: &Snapshot,
        filter: KeptFilter<'a>,
    ) -> Result<u32, AllocError>
        ensures number { IfOk result (λ number. number ≡ suc (length (filters_in_force answering.old.policies copies.now.policy (version_of self.old.reloads copies.now.policy) copies.now.rule ++ session_filters self.old.filters copies.now.policy copies.now.rule))) }
        ensures filters { OnOk result (self.new.filters ≡ self.old.filters ++ kept_for (filter_of filter.entry) copies.now ∷ []) }
        ensures changed { OnOk result (self.new.changed ≡ with_binary self.old.changed copies.now.policy) }
        ensures reloads { self.new.reloads ≡ self.old.reloads }
        ensures replies { self.new.replies ≡ self.old.replies }
        ensures left { self.new.left ≡ self.old.left }
        ensures err { OnErr result (self.new ≡ self.old) }
        ensures policies { answering.new.policies ≡ answering.old.policies }
        ensures own { OnOk result ((filters : AllFilters) → AreAnswersUnder filters answering.old.own → AreAnswersUnder (with_appended filters copies.now.policy copies.now.rule (filter_of filter.entry)) answering.new.own) }
        ensures kept { OnErr result (KeepsAll answering.old answering.new) }
    {
        let policy = copies.policy.get().bytes();
        let rule = copies.rule;
        let row = answering.own.make_row(alloc, policy)?;
        let answer = fast_answer(filter.get());
        let before = self.session.add(alloc, &copies.policy, rule, filter)?;
        answering.own.appended(row, rule, answer);
        let version = self.session.version(policy);
        Ok(answering.compiled.filter_count(policy, version, rule) + before + 1)
    }

    // Keeps the filter that is learnt from these copies.
    fn learn(
        &mut self,
        alloc: Global,
        answering: &mut Answers<'_>,
        copies: &Snapshot,
    ) -> Result<Entry, AllocError>
        ensures law { IfOk result (λ entry. (input : Input) → IsAnsweredBy input Learn copies.now self.old answering.old entry self.new answering.new) }
        ensures err { OnErr result (self.new ≡ self.old) }
        ensures kept { OnErr result (KeepsAll answering.old answering.new) }
    {
        let filter = learnt_filter(alloc, copies)?;
        let number = self.keep(alloc, answering, copies, KeptFilter::Learnt(filter))?;
        Ok(Entry::Learned {
            seq: copies.seq,
            number,
        })
    }

    // Keeps the filter of the next reply for these copies. Its index is at this position in the row of the replies left for the policy.
    #[tactic(auto, using(crate::proofs::Replies::place_within))]
    fn reply(
        &mut self,
        alloc: Global,
        answering: &mut Answers<'_>,
        copies: &Snapshot,
        row: usize,
        index: usize,
    ) -> Result<Entry, AllocError>
        requires row { policy_row self.old.left copies.now.policy ≡ Some row }
        requires next { next_reply_left self.old copies.now.policy copies.now.rule ≡ Some index }
        ensures law { IfOk result (λ entry. (input : Input) → IsAnsweredBy input AskText copies.now self.old answering.old entry self.new answering.new) }
        ensures err { OnErr result (self.new ≡ self.old) }
        ensures kept { OnErr result (KeepsAll answering.old answering.new) }
    {
        let place = self.left.at(row)[index];
        let replies = self.replies;
        let filter = KeptFilter::Replied(&replies[place].filter);
        let number = self.keep(alloc, answering, copies, filter)?;
        self.left.take_out_at(row, index);
        Ok(Entry::Replied {
            seq: copies.seq,
            reply: place as u32 + 1,
            number,
        })
    }

    /// Answers the question of the call with these copies, as the mode says, and returns the entry that this adds. From then on calls are
    /// answered by the filter, too. If memory runs out, nothing changes, and calls are answered as before.
    pub fn answer(
        &mut self,
        alloc: Global,
        input: &Input,
        answering: &mut Answers<'_>,
        copies: &Snapshot,
    ) -> Result<Entry, AllocError>
        requires { answers input.now self.old copies.now ≡ true }
        ensures law { IfOk result (λ entry. IsAnsweredBy input.now input.now.options.mode copies.now self.old answering.old entry self.new answering.new) }
        ensures err { OnErr result (self.new ≡ self.old) }
        ensures kept { OnErr result (KeepsAll answering.old answering.new) }
    {
        match input.options.mode {
            Mode::Enforce => unreachable!(),
            Mode::Learn => self.learn(alloc, answering, copies),
            Mode::AskText => {
                let policy = copies.policy.get().bytes();
                let Some((row, index)) = self.next_left(policy, copies.rule) else {
                    unreachable!()
                };
                self.reply(alloc, answering, copies, row, index)
            }
        }
    }

    /// Puts the script's policy with this number in force for its binary. The session's filters of the binary stay, and follow it: from then on
    /// calls are answered by them, too. If memory runs out, nothing changes, and calls are answered as before.
    pub fn reload(
        &mut self,
        alloc: Global,
        answering: &mut Answers<'_>,
        version: u32,
    ) -> Result<(), AllocError>
        requires { is_some (item_at_number answering.old.policies.blocks version) ≡ true }
        ensures law { OnOk result (IsPutInForce version self.old answering.old self.new answering.new) }
        ensures err { OnErr result (KeepsAdded self.old self.new) }
        ensures kept { OnErr result (KeepsAll answering.old answering.new) }
    {
        let Some(block) = answering.compiled.policies().block(version) else {
            unreachable!()
        };
        let binary = block.binary.bytes();
        let answers = self.session.answers_under(alloc, block)?;
        let row = answering.own.make_row(alloc, binary)?;
        let place = self.session.reserve_reload(alloc, binary)?;
        answering.own.reload(row, answers);
        self.session.put_in_force(place, version);
        Ok(())
    }
}
