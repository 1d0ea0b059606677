use st_base::Obj;

/// The most descriptors that a process may have open.
pub const DESCRIPTORS: usize = 64;

/// The target of an open file.
#[derive(Clone, Copy, Debug, PartialEq, Eq)]
pub enum FileKind {
    /// The console.
    Console,
    /// An object of the file tree.
    Node(Obj),
    /// A socket: the port to which it is bound, if any, and whether it is connected.
    Socket { port: Option<u16>, connected: bool },
}

/// An open file. All descriptors that dup(2) or fork(2) made from one descriptor share it.
#[derive(Clone, Copy, Debug, PartialEq, Eq)]
pub struct OpenFile {
    pub kind: FileKind,
    /// Whether it is open for reading.
    pub read: bool,
    /// Whether it is open for writing.
    pub write: bool,
    /// Whether each write goes to the end of the file.
    pub append: bool,
    /// The offset at which the next read or write begins.
    pub offset: u64,
}

impl OpenFile {
    /// The console, for reading and writing, without append, at offset 0.
    pub const CONSOLE: OpenFile = OpenFile {
        kind: FileKind::Console,
        read: true,
        write: true,
        append: false,
        offset: 0,
    };
}
