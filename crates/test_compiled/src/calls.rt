// Held calls.
use st_base::{Ids, Sequence, Shared, Text};
use st_calls::{ArgSpec, ArgText, Rule, Snapshot, SysCall};
use std::alloc::{AllocError, Global};

// A call that policies judge under a rule.
fn call_of(rule: Rule) -> SysCall {
    match rule {
        Rule::Call(call) => call,
        Rule::FsRead => SysCall::Stat,
        Rule::FsWrite => SysCall::Mkdir,
    }
}

/// An argument with this text.
pub fn argument(alloc: Global, spec: &ArgSpec, text: &[u8]) -> Result<ArgText, AllocError> {
    Ok(ArgText {
        label: spec.label,
        index: spec.index,
        text: Text::of(alloc, text)?,
    })
}

/// A call that is held under a version of the policy of a binary, with this number as the ids of its user and group.
pub fn held_call(
    alloc: Global,
    (binary, version): (&[u8], u32),
    rule: Rule,
    id: u32,
    parts: Sequence<ArgText>,
) -> Result<Snapshot, AllocError> {
    let policy = Shared::new(alloc, Text::of(alloc, binary)?)?;
    Ok(Snapshot {
        seq: 1,
        pid: 1,
        ids: Ids {
            ruid: id,
            euid: id,
            rgid: id,
            egid: id,
        },
        policy,
        version,
        rule,
        call: call_of(rule),
        regs: [0; 6],
        parts,
    })
}
