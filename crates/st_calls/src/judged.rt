ghost use Rattle.std.specs.Prelude.{◌≡◌, ◌↔◌, IsTrue};

use crate::argument::{ArgText, are_same_arguments};
use crate::call::SysCall;
use crate::rule::Rule;
use st_base::{Errno, Ids, Pid, Seq, Sequence, Shared, Text, is_same_text};

/// A held call with the copies of its arguments. Policies judge it, and the call is made with it.
#[derive(Debug, Drop)]
pub struct Snapshot {
    pub seq: Seq,
    pub pid: Pid,
    pub ids: Ids,
    /// The binary whose policy judges the call.
    pub policy: Shared<Text>,
    /// The version of that policy: 0 as it was read, or the number of the script's policy that a reload has put in its place.
    pub version: u32,
    pub rule: Rule,
    pub call: SysCall,
    pub regs: [u64; 6],
    pub parts: Sequence<ArgText>,
}

impl Snapshot {
    /// Whether two held calls are the same, with the same copies. Mostly the number decides.
    pub fn is_same(&self, other: &Snapshot) -> bool
        ensures { IsTrue result ↔ (self.now ≡ other.now) }
    {
        self.has_same_caller(other)
            && self.has_same_call(other)
            && self.has_same_policy(other)
            && are_same_arguments(self.parts.as_slice(), other.parts.as_slice())
    }

    // Whether the number, the process and its ids are the same.
    fn has_same_caller(&self, other: &Snapshot) -> bool
        ensures { IsTrue result ↔ (self.now.seq ≡ other.now.seq) × (self.now.pid ≡ other.now.pid) × (self.now.ids ≡ other.now.ids) }
    {
        self.seq == other.seq && self.pid == other.pid && self.ids == other.ids
    }

    // Whether the call, its registers and its rule are the same.
    fn has_same_call(&self, other: &Snapshot) -> bool
        ensures { IsTrue result ↔ (self.now.rule ≡ other.now.rule) × (self.now.call ≡ other.now.call) × (self.now.regs ≡ other.now.regs) }
    {
        self.rule == other.rule && self.call == other.call && self.regs == other.regs
    }

    // Whether the same version of the policy of the same binary judges them.
    fn has_same_policy(&self, other: &Snapshot) -> bool
        ensures { IsTrue result ↔ (self.now.policy ≡ other.now.policy) × (self.now.version ≡ other.now.version) }
    {
        self.version == other.version
            && is_same_text(self.policy.get().bytes(), other.policy.get().bytes())
    }
}

/// The verdict of the filters on a snapshot.
#[derive(Clone, Copy, Debug, PartialEq, Eq)]
pub enum Verdict {
    /// The filter with this number permits the call, under these ids.
    Permit(u32, Ids),
    /// The filter with this number refuses the call, with this error.
    Refuse(u32, Errno),
    /// No filter decides.
    Unmatched,
}
