//! The plan of a ring: relays that pass a token round one link.
#![tactic(auto)]

mod names;
mod plan;
mod wiring;

pub use names::{link_names, relay_names};
pub use plan::{MOST_RELAYS, ring_plan};
