//! The program on its host: its words, files, standard output and standard error are handed to one call, and it ends with the
//! status that this call answers.
#![tactic(auto)]

mod host;

pub use host::run_on_host;
