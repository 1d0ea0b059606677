// Reading and overwriting the bytes of files.
ghost use Rattle.std.specs.Prelude.{◌≡◌, ◌+◌, ◌≤◌, ◌++◌, drop, length, take, OnOk, OnErr};
ghost use Rattle.st_model.specs.Tree.{bytes_after_write};
ghost use Rattle.st_model.specs.declared.limits.TheConstants.{LONGEST_FILE};

use std::alloc::AllocError;

// `count` bytes from offset `at` on, or fewer if the bytes end before.
pub(crate) fn part(bytes: &[u8], at: u64, count: u64) -> &[u8]
    ensures { result.now ≡ take count (drop at bytes.now) }
{
    let start = bytes.len().min(at as usize);
    let rest = &bytes[start..];
    let end = rest.len().min(count as usize);
    &rest[..end]
}

// Overwrites bytes from offset `at` on with as many new bytes.
fn put(bytes: &mut [u8], at: usize, new: &[u8])
    requires { at + length new.now ≤ length bytes.old }
    ensures { bytes.new ≡ take at bytes.old ++ new.now ++ drop (at + length new.now) bytes.old }
{
    bytes[at..at + new.len()].copy_from_slice(new);
}

// Overwrites or extends bytes from offset `at` on with new bytes. A gap before `at` is filled with zeros.
pub(crate) fn overwrite(bytes: &mut Vec<u8>, at: usize, new: &[u8]) -> Result<(), AllocError>
    requires { at + length new.now ≤ LONGEST_FILE }
    ensures ok { OnOk result (bytes.new.items ≡ bytes_after_write bytes.old.items at new.now) }
    ensures err { OnErr result (bytes.new.items ≡ bytes.old.items) }
{
    if new.is_empty() {
        return Ok(());
    }
    bytes.resize(bytes.len().max(at + new.len()), 0)?;
    put(bytes, at, new);
    Ok(())
}
