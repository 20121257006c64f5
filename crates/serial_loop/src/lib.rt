//! The loop that ticks everything: every actor at every edge of its clock.
#![tactic(auto)]

mod edges;
mod pass;
mod run;
mod serial;
mod table;
mod time;
mod verdict;
mod wake;

pub use serial::run_serial;
pub use table::NextTables;
