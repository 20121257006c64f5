//! What a run takes and how it ends: a plan's world and gear as they are opened, its ending time, and its verdict.
#![tactic(auto)]

mod ending;
mod fault;
mod gear;
mod kept;
mod names;
mod open;
mod opened;
mod ports;
mod tables;
mod verdict;
mod wires;

pub use ending::{Ending, later};
pub use fault::{RunFault, TraceFault};
pub use gear::Gear;
pub use kept::{Kept, count};
pub use names::plan_names;
pub use open::open_run;
pub use opened::Opened;
pub use ports::open_ports;
pub use verdict::{are_done, verdict_at_rest};
