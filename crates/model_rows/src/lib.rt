//! Small facts about the definitions of the model, worked out by hand or with other tools. Each function here does nothing: its
//! contract is the fact, so that a definition that is changed is refused by the numbers that stand beside it.
#![tactic(auto)]

mod cache;
mod cache_lines;
mod core_lines;
mod link;
mod memory;
mod outside;
mod report;
mod ring;
mod traffic;
mod two_agents;

pub use cache::{used_lines, victims};
pub use cache_lines::printed_caches;
pub use core_lines::printed_cores;
pub use link::contending_ports;
pub use memory::whole_answers;
pub use outside::rising_counts;
pub use report::printed_reports;
pub use ring::three_relays;
pub use traffic::{drawn_requests, drawn_values, summed_answers};
pub use two_agents::{one_at_a_time, two_at_once};
