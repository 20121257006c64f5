//! Counts of the requests that each part sent: how many there were, how many were answered, and how long that took.
#![tactic(auto)]

mod stats;
mod tasks;

pub use stats::{Stats, TaskCount};
