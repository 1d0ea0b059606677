use st_base::{Pid, Tid};

/// The thread that makes a call, and its process.
#[derive(Clone, Copy, Debug)]
pub struct CallingThread {
    pub pid: Pid,
    pub tid: Tid,
}
