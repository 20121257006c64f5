//! A run whose actors step in any order: who waits leaves with its ports, steps, and comes back, and the passes of each time open
//! and close on the way.
#![tactic(auto)]

mod asked;
mod back;
mod begin;
mod close;
mod floor;
mod open;
mod out;
mod step;

pub use back::{link_back, part_back};
pub use begin::{Begun, are_back, begin_time, least_time};
pub use close::close_time;
pub use floor::Floor;
pub use open::{open_links, open_parts};
pub use out::{link_out, part_out};
pub use step::{link_steps, part_steps};
