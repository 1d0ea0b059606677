use st_policy_diagnostics::row::Row;

/// What is written at one place of a row, after the row's first word.
#[derive(Clone, Copy, Debug, PartialEq, Eq)]
pub enum Slot {
    UserName,
    GroupName,
    ProcessName,
    ThreadName,
    PolicyName,
    /// The process in which a thread starts.
    Process,
    /// The thread that a fork starts.
    Thread,
    /// The policy that is reloaded.
    Policy,
    UserId,
    GroupId,
    Mode,
    Traced,
    In,
    Path,
    Binary,
    Directory,
    /// A binary in which names are replaced, so that it is read with the whole script.
    ReplacedBinary,
    Home,
    Content,
    Target,
    /// The place of a word of memory.
    Place,
    Word,
    /// The byte of memory at which a text begins.
    At,
    Text,
    Call,
    Register,
}

const USER: [Slot; 4] = [Slot::UserName, Slot::UserId, Slot::GroupId, Slot::Home];

const GROUP: [Slot; 2] = [Slot::GroupName, Slot::GroupId];

const DIR: [Slot; 4] = [Slot::Path, Slot::UserId, Slot::GroupId, Slot::Mode];

const FILE: [Slot; 5] = [
    Slot::Path,
    Slot::UserId,
    Slot::GroupId,
    Slot::Mode,
    Slot::Content,
];

const LINK: [Slot; 4] = [Slot::Path, Slot::UserId, Slot::GroupId, Slot::Target];

const PROCESS: [Slot; 6] = [
    Slot::ProcessName,
    Slot::Traced,
    Slot::Binary,
    Slot::UserId,
    Slot::GroupId,
    Slot::Directory,
];

const THREAD: [Slot; 3] = [Slot::ThreadName, Slot::In, Slot::Process];

// The rest of a reply is in the language of policies.
const REPLY: [Slot; 1] = [Slot::ReplacedBinary];

const POLICY: [Slot; 2] = [Slot::PolicyName, Slot::ReplacedBinary];

const STORE: [Slot; 2] = [Slot::Place, Slot::Word];

const PUT: [Slot; 2] = [Slot::At, Slot::Text];

const CALL: [Slot; 7] = [
    Slot::Call,
    Slot::Register,
    Slot::Register,
    Slot::Register,
    Slot::Register,
    Slot::Register,
    Slot::Register,
];

const FORK: [Slot; 1] = [Slot::Thread];

const RELOAD: [Slot; 1] = [Slot::Policy];

/// What a row has after its first word, in order.
pub fn form_of(row: Row) -> &'static [Slot] {
    match row {
        Row::User => &USER,
        Row::Group => &GROUP,
        Row::Dir => &DIR,
        Row::File => &FILE,
        Row::Link => &LINK,
        Row::Process => &PROCESS,
        Row::Thread => &THREAD,
        Row::Reply => &REPLY,
        Row::Policy => &POLICY,
        Row::Store => &STORE,
        Row::Put => &PUT,
        Row::Call => &CALL,
        Row::Fork => &FORK,
        Row::Reload => &RELOAD,
        Row::End | Row::Unknown => &[],
    }
}
