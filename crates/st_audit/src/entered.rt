ghost use Rattle.std.specs.Prelude.{◌≡◌, ℕ, OnOk};
ghost use Rattle.st_audit.specs.Ledger.{entered_after, entered_in};

use st_base::Tid;
use st_calls::SysCall;
use st_trace::Entry;
use std::alloc::AllocError;
use std::collections::BTreeMap;

/// A call that a thread has entered, with its registers.
#[derive(Clone, Copy, Debug, PartialEq, Eq)]
pub struct EnteredCall {
    pub call: SysCall,
    pub regs: [u64; 6],
}

/// Updates the map of entered calls by an entry.
pub fn note_entered(
    entered: &mut BTreeMap<Tid, EnteredCall>,
    entry: &Entry,
) -> Result<(), AllocError>
    ensures { OnOk result ((t : ℕ) → entered_in entered.new t ≡ entered_after entry.now t (entered_in entered.old t)) }
{
    match entry {
        Entry::Entered {
            tid,
            call,
            regs,
            ..
        } => {
            let called = EnteredCall {
                call: *call,
                regs: *regs,
            };
            entered.insert(*tid, called)?;
        }
        Entry::Used { tid, .. } | Entry::Denied { tid, .. } => {
            entered.remove(tid);
        }
        _ => {}
    }
    Ok(())
}
