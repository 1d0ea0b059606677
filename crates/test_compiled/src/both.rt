// Policies, plain and compiled.
use st_base::Text;
use st_calls::{Snapshot, Verdict};
use st_compile::Compiled;
use st_filter::{Policies, decide};
use std::alloc::{AllocError, Global};

/// Policies, and the same policies compiled.
#[derive(Drop)]
pub struct Both<'a> {
    policies: &'a Policies,
    compiled: Compiled<'a>,
}

impl<'a> Both<'a> {
    /// Compiles policies.
    pub fn new(alloc: Global, policies: &'a Policies) -> Result<Self, AllocError> {
        Ok(Both {
            policies,
            compiled: Compiled::build(alloc, policies)?,
        })
    }

    /// What the policy of a call says of it, at the call's version.
    pub fn plain(&self, call: &Snapshot) -> Verdict {
        let binary = call.policy.get().bytes();
        decide(self.policies.in_force(binary, call.version), call)
    }

    /// What the compiled policies say of a call.
    pub fn compiled(&self, call: &Snapshot) -> Verdict {
        self.compiled.decide(call)
    }
}

// Appends a number after a word.
fn append_numbered(out: &mut Text, word: &[u8], number: u32) -> Result<(), AllocError> {
    out.append(word)?;
    out.append_number(u64::from(number))
}

/// Appends a verdict, such as `permit 1 as 0:67`, `deny 2 ENOENT` or `unmatched`.
pub fn append_verdict(out: &mut Text, verdict: Verdict) -> Result<(), AllocError> {
    match verdict {
        Verdict::Permit(number, ids) => {
            append_numbered(out, b"permit ", number)?;
            append_numbered(out, b" as ", ids.euid)?;
            append_numbered(out, b":", ids.egid)
        }
        Verdict::Refuse(number, errno) => {
            append_numbered(out, b"deny ", number)?;
            out.push(b' ')?;
            out.append(errno.name())
        }
        Verdict::Unmatched => out.append(b"unmatched"),
    }
}
