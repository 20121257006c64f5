//! The cache, a kind of part: it holds lines of a memory, and writes them back when it needs their place.
#![tactic(auto)]

mod cache;
mod line_tag;
mod lines;
mod miss;
mod phase;
mod stage;

pub use cache::{Cache, CacheText};
pub use phase::CachePhase;
