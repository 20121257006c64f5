//! The outside: what text is written to and files are read from, each with a count of its faults, in memory and over the host's.
#![tactic(auto)]

mod files;
mod host_files;
mod mem_files;
mod mem_sink;
mod sink;
mod stream;

pub use files::{FileFault, Files};
pub use host_files::HostFiles;
pub use mem_files::{MemFile, MemFiles};
pub use mem_sink::MemSink;
pub use sink::{Sink, SinkFault};
pub use stream::Stream;
