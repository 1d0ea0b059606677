//! Keeps the messages of held calls by their drawings: which are waiting, claimed, answered or faulted, of which threads they are, and which
//! numbers they have. A number comes again once no live message and no ready worker has it. Hands tickets from one poster to the workers
//! that take them, in a queue without a lock.
#![tactic(auto)]

mod circle;
mod kept;
pub mod laws;
mod live;
pub mod message;
pub mod messages;
pub mod queue;
pub mod ticket;

pub use laws::{drawings_are_used_once, numbers_come_again, tickets_are_taken_once};
pub use message::{Delivered, MsgState};
pub use messages::Messages;
pub use queue::{Poster, Taker, tickets};
pub use ticket::Ticket;
