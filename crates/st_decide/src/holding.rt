// The messages of the calls that threads hold.
ghost use Rattle.std.specs.Prelude.{◌≡◌, None, Some, IfSome};
ghost use Rattle.st_decide.specs.Holding.{is_same_rule, held_head, message_held};

use crate::view::View;
use st_base::{Drawing, Tid, is_same_text};
use st_lookaside::Head;

impl<'v, 'a> View<'v, 'a> {
    /// The message of a drawing, if the drawing is live.
    pub fn message(&self, drawing: Drawing) -> Option<&Head>
        ensures none { result ≡ None → held_head self.now drawing ≡ None }
        ensures some { IfSome result (λ head. held_head self.now drawing ≡ Some head.now) }
    {
        self.workers.thread(drawing)?;
        Some(self.workers.head(drawing))
    }

    // The message of the call that a thread holds, if it holds one.
    fn message_held(&self, tid: Tid) -> Option<&Head>
        ensures none { result ≡ None → message_held self.now tid ≡ None }
        ensures some { IfSome result (λ head. message_held self.now tid ≡ Some head.now) }
    {
        let drawing = self.thread(tid)?.drawing_held()?;
        Some(self.workers.head(drawing))
    }

    /// Whether a thread holds a call of the same policy and rule as a message.
    pub fn holds_alike(&self, tid: Tid, message: &Head) -> bool
        ensures { result ≡ is_same_rule message.now (message_held self.now tid) }
    {
        match self.message_held(tid) {
            Some(held) => message.rule == held.rule
                && is_same_text(message.policy.get().bytes(), held.policy.get().bytes()),
            None => false,
        }
    }
}
