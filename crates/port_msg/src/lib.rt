//! Messages, the ports that hold them, and the records that a trace is made of.
#![tactic(auto)]

mod message;
mod port;
mod records;

pub use message::{DATA_BYTES, Msg, MsgId, MsgKind};
pub use port::{Full, MOST_MESSAGES, Port};
pub use records::{Cause, RecList, Record, What};
