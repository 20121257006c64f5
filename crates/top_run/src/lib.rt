//! The program's calls: from its words to what it writes and the status that it ends with.
#![tactic(auto)]

mod carry;
mod command;
mod job;
mod machine;
mod nowhere;
mod program_breach;
mod programs;
mod refusal;
mod run;
mod status;
mod storm;
mod summary;
mod top;
mod words;

pub use command::{Command, Detail, FileName, Options, Ring};
pub use job::{Job, Work};
pub use machine::Machine;
pub use program_breach::{ProgramBreach, ProgramRule};
pub use run::Engine;
pub use status::Status;
pub use top::plain;
