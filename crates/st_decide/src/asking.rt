// Finds the questions that the operator can answer.
ghost use Rattle.std.specs.Prelude.{◌≡◌, true, Some, is_some, IfSome};
ghost use Rattle.st_law.specs.Machine.{entry_of};
ghost use Rattle.st_law.specs.State.{State, is_question, is_undecided};
ghost use Rattle.st_messages.specs.Messages.{message_state};
ghost use Rattle.st_workers.specs.Refinement.{HasAnswer};
ghost use Rattle.st_decide.specs.Machine.{Refines};
ghost use Rattle.st_learn.specs.Deciding.{lesser};
ghost use Rattle.st_decide.specs.Questions.{is_at_most, is_unmatched, later_decision, least_held, session_verdict, IsLeastFound, IsLeastWith};
ghost use Rattle.st_trace.specs.declared.entry.Choice.TheVariants.{Operator};

use crate::view::View;
use st_base::Drawing;
use st_calls::{Snapshot, Verdict};
use st_messages::MsgState;

// Whether a message was answered, and no filter in force decides.
fn is_unmatched(state: Option<MsgState>) -> bool
    ensures { result ≡ is_unmatched state }
{
    matches!(state, Some(MsgState::Answered(Verdict::Unmatched)))
}

// Whether a verdict is unmatched.
fn is_undecided(verdict: Verdict) -> bool
    ensures { result ≡ is_undecided verdict }
{
    matches!(verdict, Verdict::Unmatched)
}

// Whether a question was found with this drawing or a smaller one.
fn is_at_most(least: Option<Drawing>, drawing: Drawing) -> bool
    ensures { result ≡ is_at_most least drawing }
{
    match least {
        Some(found) => found <= drawing,
        None => false,
    }
}

// The lesser of two drawings, or the only one that exists.
fn lesser_drawing(one: Option<Drawing>, other: Option<Drawing>) -> Option<Drawing>
    ensures { result ≡ lesser one other }
{
    match (one, other) {
        (None, _) => other,
        (Some(_), None) => one,
        (Some(a), Some(b)) => { if b < a { other } else { one } }
    }
}

impl<'v, 'a> View<'v, 'a> {
    // The verdict of the session's filters on a held call on which the filters in force don't decide.
    fn session_verdict(&self, copies: &Snapshot) -> Verdict
        ensures { result ≡ session_verdict self.now copies.now }
    {
        self.operator.verdict(self.answers.compiled(), copies)
    }

    // The decision on such a call: this verdict, or none if it decides nothing and the operator would answer.
    pub(crate) fn later_decision(&self, copies: &Snapshot) -> Option<Verdict>
        ensures { result ≡ later_decision self.now copies.now }
    {
        let verdict = self.session_verdict(copies);
        if is_undecided(verdict) && self.operator.answers(self.input, copies) {
            return None;
        }
        Some(verdict)
    }

    // Whether a drawing is a question: it is answered, no filter decides it, and the operator would answer it.
    pub(crate) fn is_question(&self, drawing: Drawing) -> bool
        ensures question { (st : State) → Refines self.now st → is_question self.now.input st drawing ≡ result }
        ensures answered { result ≡ true → HasAnswer (message_state self.now.workers.calls drawing) }
    {
        if !is_unmatched(self.workers.state(drawing)) {
            return false;
        }
        let copies = self.workers.snapshot(drawing);
        match self.later_decision(copies.get()) {
            None => true,
            Some(_) => false,
        }
    }

    // The lesser of two questions: the question that was found before, and this drawing if it is a question.
    fn lesser(&self, least: Option<Drawing>, drawing: Drawing) -> Option<Drawing>
        ensures { IsLeastWith self.now least drawing result }
    {
        if is_at_most(least, drawing) {
            return least;
        }
        if self.is_question(drawing) {
            Some(drawing)
        } else {
            least
        }
    }

    // The least drawing of a call that a thread holds.
    fn least_held(&self) -> Option<Drawing>
        ensures { result ≡ least_held self.now.threads }
    {
        let mut least = None;
        for thread in self.threads {
            least = lesser_drawing(least, thread.drawing_held());
        }
        least
    }

    // The least drawing that is held, if it is a question. Then it is the least question.
    fn first_held_question(&self) -> Option<Drawing>
        ensures { IfSome result (λ drawing. IsLeastFound self.now (Some drawing)) }
    {
        let drawing = self.least_held()?;
        if self.is_question(drawing) {
            Some(drawing)
        } else {
            None
        }
    }

    // The least question, by a look at each call that is held.
    fn least_held_question(&self) -> Option<Drawing>
        ensures { IsLeastFound self.now result }
    {
        let mut least = None;
        for thread in self.threads {
            if let Some(drawing) = thread.drawing_held() {
                least = self.lesser(least, drawing);
            }
        }
        least
    }

    /// The least question. Usually it is the least drawing that is held, and then no other call is looked at.
    pub fn least_question(&self) -> Option<Drawing>
        ensures { IsLeastFound self.now result }
    {
        match self.first_held_question() {
            Some(drawing) => Some(drawing),
            None => self.least_held_question(),
        }
    }

    /// Whether the operator can answer: there is a question.
    pub fn can_ask(&self) -> bool
        ensures { (st : State) → Refines self.now st → result ≡ is_some (entry_of self.now.input st Operator) }
    {
        self.least_question().is_some()
    }
}
