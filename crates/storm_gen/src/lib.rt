//! Generated machines: a storm of agents on four memories.
#![tactic(auto)]

mod names;
mod parts;
mod storm;

pub use parts::MOST_AGENTS;
pub use storm::storm_plan;
