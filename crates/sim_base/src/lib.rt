//! Times, numbers and names that every other crate speaks of.
#![tactic(auto)]

mod body;
mod list;
mod memory;
mod mode;
mod name;
mod numbers;
mod phase;
mod steps;
mod time;

pub use body::Body;
pub use list::{ItemList, PortList};
pub use memory::OutOfMemory;
pub use mode::Mode;
pub use name::{LONGEST_NAME, Name};
pub use numbers::{ActorNo, LinkNo, PartNo, PortNo};
pub use phase::Phase;
pub use steps::Steps;
pub use time::{
    LATEST_EDGE, LATEST_TICK, LATEST_TIME, LONGEST_PERIOD, Time, first_edge_after, first_edge_from,
};
