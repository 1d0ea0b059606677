//! Any call on names and files, made over the real tree, descriptors, processes and memories: opening and truncating files here,
//! and each other call by its own function.
#![tactic(auto)]

mod execution;
mod opening;

pub use execution::execute_fs;
pub use opening::{open, truncate};
pub use st_exec_fds::{close, dup, lseek, read, write};
pub use st_exec_names::{link, mkdir, rename, rmdir, symlink, unlink};
pub use st_exec_objects::{access, chdir, chmod, chown, readlink, resolve, stat};
pub use st_request::{Outcome, Request, open_files_stay_real};
