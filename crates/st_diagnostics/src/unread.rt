use st_base::Text;
use st_outside::Unread;
use std::alloc::{AllocError, Global};

/// The message about a file that could not be read, without its newline.
pub fn unread_message(alloc: Global, name: &[u8], why: Unread) -> Result<Text, AllocError> {
    let mut line = Text::of(alloc, b"systrace: ")?;
    line.append(name)?;
    line.append(match why {
        Unread::Directory => b": is a directory",
        Unread::Denied => b": permission denied",
        Unread::Other => b": cannot be read",
    })?;
    Ok(line)
}
