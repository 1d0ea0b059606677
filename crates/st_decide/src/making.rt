// The requests with which calls are made.
ghost use Rattle.std.specs.Prelude.{◌≡◌};
ghost use Rattle.st_base.specs.Numbered.{item_at_number};
ghost use Rattle.st_decide.specs.Making.{child_of_row, request_with};

use crate::step::ReadyCall;
use crate::view::View;
use st_base::Tid;
use st_request::Request;

impl<'v, 'a> View<'v, 'a> {
    /// The thread that a thread's pending call starts; 0 if the call is no fork.
    pub fn child_of(&self, tid: Tid) -> Tid
        ensures { result ≡ child_of_row (item_at_number self.now.threads tid) }
    {
        match self.thread(tid) {
            Some(thread) => thread.child(),
            None => 0,
        }
    }

    /// The request with which a thread makes its call.
    pub fn request_with<'b>(&self, tid: Tid, ready: &'b ReadyCall) -> Request<'b>
        ensures { result ≡ request_with self.now tid ready.now }
    {
        Request {
            tid,
            pid: ready.pid,
            ids: ready.ids,
            regs: ready.regs,
            args: ready.args.as_slice(),
            child: self.child_of(tid),
            inherit: self.input.options.inherit,
        }
    }
}
