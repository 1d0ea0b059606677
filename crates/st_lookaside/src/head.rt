use st_base::{Drawing, Ids, Pid, Seq, Shared, Text};
use st_calls::{Rule, SysCall};
use st_names::AbsName;

/// A message: the call that is held, and what it is judged by.
#[derive(Debug, Drop)]
pub struct Head {
    pub drawing: Drawing,
    /// The number by which entries name it.
    pub seq: Seq,
    pub pid: Pid,
    pub ids: Ids,
    /// The directory in which its relative names are resolved. Its name has at most 1,024 bytes.
    pub cwd: Shared<AbsName>,
    /// The binary whose policy judges it.
    pub policy: Shared<Text>,
    /// The version of that policy: 0 as it was read, or the number of the script's policy that a reload has put in its place.
    pub version: u32,
    /// The rule by which it is judged, which determines its arguments.
    pub rule: Rule,
    pub call: SysCall,
    pub regs: [u64; 6],
}

/// What a renewed message is judged by from now on: the ids and the directory of its process, and the version of its policy.
#[derive(Debug, Drop)]
pub struct Renewal {
    pub ids: Ids,
    /// Its name has at most 1,024 bytes.
    pub cwd: Shared<AbsName>,
    pub version: u32,
}

/// A drawing that a message gets, with its number.
#[derive(Clone, Copy, Debug)]
pub struct NewNumber {
    pub drawing: Drawing,
    pub seq: Seq,
}
