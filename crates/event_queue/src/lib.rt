//! The next times of actors: the least of them at one look, and each change in as many looks as their number has binary digits. Where most actors have one of two times, few changes need any.
#![tactic(auto)]

mod due;
mod edits;
mod key;
mod key_row;
mod lesser;
mod mark;
mod next_times;
mod one_time;
mod sift;
mod time_heap;
mod two_times;

pub use key::Key;
pub use key_row::KeyRow;
pub use next_times::NextTimes;
