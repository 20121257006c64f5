//! The lines of a trace: each record of a run as a line of text, written to a sink.
#![tactic(auto)]

mod line;
mod message;
mod names;
mod record_line;
mod write;

pub use line::{Line, add};
pub use names::{Names, PortName};
pub use record_line::add_cause;
pub use write::write_records;
