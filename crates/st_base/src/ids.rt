ghost use Rattle.std.specs.Prelude.{◌≡◌};
ghost use Rattle.st_base.specs.Ids.{identity};

/// A process's number, counted from 1 in the order of the script.
pub type Pid = u32;

/// A thread's number, counted from 1 in the order of the script.
pub type Tid = u32;

/// A worker's number, counted from 1.
pub type Worker = u32;

/// The number of a process's memory, counted from 1. The memory of each initial process has that process's number. Each memory that is
/// made later has the next number.
pub type Space = u32;

/// The number of an object of the file tree, counted from 1. The root has number 1.
pub type Obj = u32;

/// The drawing of a message: 1 for the message that is posted first, 2 for the next, and so on. None comes again.
pub type Drawing = u64;

/// The sequence number by which entries name a message: from 1 to 65,535, and then again from 1, without those in use.
pub type Seq = u16;

/// The ids of a process: its real and effective user and group, as in credentials(7) and setuid(2).
#[derive(Clone, Copy, Debug, PartialEq, Eq)]
pub struct Ids {
    pub ruid: u32,
    pub euid: u32,
    pub rgid: u32,
    pub egid: u32,
}

impl Ids {
    /// The ids whose real and effective user are `uid`, and whose real and effective group are `gid`.
    pub fn of(uid: u32, gid: u32) -> Self
        ensures { result ≡ identity uid gid }
    {
        Ids {
            ruid: uid,
            euid: uid,
            rgid: gid,
            egid: gid,
        }
    }
}
