//! The modelled system, and calls on it.

use crate::is_shareable;
use st_arguments::{Arguments, Asked};
use st_exec_objects::walking::Place;
use st_fds::{FdFault, Fds};
use st_memory::{MemFault, Spaces};
use st_model::{FileKind, Kind, NewKind, NewNode, OpenFile, Permission, Want};
use st_procs::{ProcRow, Procs};
use st_request::{Outcome, Request};
use st_resolve::{Walk, WalkFault, WalkStep};
use st_system::System;
use st_translate::{Copying, Took};
use st_tree::{Node, Tree, TreeFault};

/// Objects, descriptors, processes and memories.
pub fn parts_are_shareable() {
    is_shareable::<Kind>();
    is_shareable::<NewKind>();
    is_shareable::<NewNode>();
    is_shareable::<FileKind>();
    is_shareable::<OpenFile>();
    is_shareable::<Permission>();
    is_shareable::<Want>();
    is_shareable::<Tree>();
    is_shareable::<Node>();
    is_shareable::<TreeFault>();
    is_shareable::<Place>();
    is_shareable::<Fds>();
    is_shareable::<FdFault>();
    is_shareable::<Procs>();
    is_shareable::<ProcRow>();
    is_shareable::<Spaces>();
    is_shareable::<MemFault>();
    is_shareable::<System>();
}

/// Names and arguments that are read, and calls.
pub fn calls_are_shareable() {
    is_shareable::<Walk>();
    is_shareable::<WalkStep>();
    is_shareable::<WalkFault>();
    is_shareable::<Copying>();
    is_shareable::<Took>();
    is_shareable::<Arguments>();
    is_shareable::<Asked<'_>>();
    is_shareable::<Request<'_>>();
    is_shareable::<Outcome>();
}
