//! Rings of relays whose runs were computed by hand, against the definitions of the model and the loop that ticks everything.
#![tactic(auto)]

mod first_time;
mod lone;
#[cfg(test)]
mod tests;

pub use first_time::lone_first_time;
pub use lone::lone_plan;
