//! The memory: a part that holds bytes, and serves reads and writes of them in order, each after a latency.
#![tactic(auto)]

mod memory;
mod waiting;

pub use memory::{LONGEST_LATENCY, MOST_BYTES, MOST_WAITING, Memory, MemoryText};
pub use waiting::Waiting;
