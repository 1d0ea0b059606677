//! Interfaces to the outside, that is files by name and sinks of bytes, each implemented in memory and on the host.
#![tactic(auto)]

mod count;
pub mod files;
pub mod history;
pub mod memory_files;
pub mod memory_sink;
pub mod sink;
pub mod std_files;
pub mod std_sink;

pub use files::{FILE_LIMIT, FetchFault, Files};
pub use history::History;
pub use memory_files::MemoryFiles;
pub use memory_sink::MemorySink;
pub use sink::{Failed, Sink, write_all};
pub use std_files::{StdFiles, Unread};
pub use std_sink::StdSink;
