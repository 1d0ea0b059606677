ghost use Rattle.std.specs.Prelude.{◌≡◌, ◌++◌, OnOk};
ghost use Rattle.st_calls.specs.Argument.{index_text};

use st_base::Text;
use std::alloc::AllocError;

/// Appends the index of an argument among those with the same label, as policies and audits write it: nothing for index 0, and `[N]`
/// for any other index. If out of memory, it may have appended a part of it.
pub fn append_index(index: u32, out: &mut Text) -> Result<(), AllocError>
    ensures { OnOk result (out.new ≡ out.old ++ index_text index) }
{
    if index == 0 {
        return Ok(());
    }
    out.push(b'[')?;
    out.append_number(u64::from(index))?;
    out.push(b']')
}
