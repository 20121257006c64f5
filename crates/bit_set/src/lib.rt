//! Sets of small numbers, 64 to a word.
#![tactic(auto)]

mod set;
#[cfg(test)]
mod tests;
mod word;

pub use set::BitSet;
