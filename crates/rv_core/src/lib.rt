//! The core, a kind of part: it runs a program of RV32I whose instructions and data it asks for in messages.
#![tactic(auto)]

mod access;
mod core_part;
mod phase;
mod stage;

pub use core_part::{Core, CoreText};
pub use phase::CorePhase;
