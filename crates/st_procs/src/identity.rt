ghost use Rattle.std.specs.Prelude.{◌≡◌};
ghost use Rattle.st_model.specs.Identity.{ids_after_set, set_refused};
ghost use Rattle.st_procs.specs.Calls.{set_ids_result};

use st_base::{Errno, Ids};
use st_calls::SysCall;

/// The ids of a process after a call that sets them. EINVAL if the value isn't an id, otherwise EPERM if the process may not set
/// it.
pub fn ids_after(call: SysCall, ids: Ids, value: u64) -> Result<Ids, Errno>
    ensures { result ≡ set_ids_result (set_refused call ids value) (ids_after_set call ids value) }
{
    let Ok(id) = u32::try_from(value) else {
        return Err(Errno::EINVAL);
    };
    let is_root = ids.euid == 0;
    match call {
        SysCall::SetUid if is_root => Ok(Ids {
            ruid: id,
            euid: id,
            ..ids
        }),
        SysCall::SetUid if id == ids.ruid => Ok(Ids { euid: id, ..ids }),
        SysCall::SetEuid if is_root || id == ids.ruid || id == ids.euid => {
            Ok(Ids { euid: id, ..ids })
        }
        SysCall::SetGid if is_root => Ok(Ids {
            rgid: id,
            egid: id,
            ..ids
        }),
        SysCall::SetGid if id == ids.rgid => Ok(Ids { egid: id, ..ids }),
        SysCall::SetEgid if is_root || id == ids.rgid || id == ids.egid => {
            Ok(Ids { egid: id, ..ids })
        }
        _ => Err(Errno::EPERM),
    }
}
