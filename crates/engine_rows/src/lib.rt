//! Machines whose ticks are counted while the sleeping engine runs them.
#![tactic(auto)]

mod counted;
mod pair;

pub use counted::{Counted, counted_plan};
pub use pair::pair_plan;
