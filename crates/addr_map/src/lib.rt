//! Which port an address goes to: ranges of addresses, each interleaved over its targets.
#![tactic(auto)]

mod map;
mod range;
mod start;

pub use map::AddrMap;
pub use range::{Range, Ranges, Targets};
