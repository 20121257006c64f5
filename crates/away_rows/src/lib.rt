//! Actors that go away for a step with their ports in a row of their own, and come back, in any order.
#![tactic(auto)]

mod body;
mod leave;
mod marks;
mod seat;

pub use body::Body;
pub use leave::{link_leaves, link_returns, part_leaves, part_returns};
pub use marks::Marks;
pub use seat::{rise, sit};
