use st_base::{Drawing, Errno, Pid};

/// What a worker does next. A message's arguments are numbered from 0 in their order.
#[derive(Clone, Copy)]
pub enum Task {
    /// Nothing: it is at no drawing, and no drawing is waiting.
    Rest,
    /// It claims the least waiting drawing.
    Claim,
    /// It copies the word with this index in the memory of the message's process, for an argument.
    Copy {
        drawing: Drawing,
        pid: Pid,
        part: u32,
        place: u32,
    },
    /// It looks at the next name of an argument's walk.
    Look {
        drawing: Drawing,
        part: u32,
    },
    /// It marks a message as faulted with this error.
    Fault {
        drawing: Drawing,
        errno: Errno,
    },
    /// It answers a complete message.
    Answer,
}
