use st_grammar::{Place, PolicyFault, PolicyRefusal};
use st_outside::Unread;
use st_script_faults::ScriptFault;
use st_top::{Status, Which};

const REFUSAL: PolicyRefusal = PolicyRefusal {
    fault: PolicyFault::Expected(0),
    place: Place::Start,
};

// The status of a file that is refused, or isn't read.
fn status_of_file(number: u32) -> Status {
    match number {
        5 => Status::Missing(Which::Policy(1)),
        6 => Status::Missing(Which::Policy(2)),
        7 => Status::Missing(Which::Script),
        8 => Status::TooLong(Which::Schedule),
        9 => Status::Policy(1, REFUSAL),
        10 => Status::Policy(2, REFUSAL),
        11 => Status::Script(ScriptFault::Expected(1)),
        _ => Status::Schedule(1),
    }
}

/// The status that this number means in a table.
pub fn status_of(number: u32) -> Status {
    match number {
        0 => Status::Done,
        1 => Status::Usage,
        2 => Status::ReadFault,
        3 => Status::WriteFault,
        4 => Status::NoMemory,
        _ => status_of_file(number),
    }
}

/// The reason of a number by which a table names it, why a file can't be read.
pub fn reason_of(number: u32) -> Unread {
    match number {
        0 => Unread::Directory,
        1 => Unread::Denied,
        _ => Unread::Other,
    }
}
