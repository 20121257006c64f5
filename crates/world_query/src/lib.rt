//! Questions about a world at a boundary: what can be asked, which part and which field a name means, and who answers.
#![tactic(auto)]

mod directory;
mod name_table;
mod query;
mod viewer;

pub use directory::Directory;
pub use query::{FieldNo, Query};
pub use viewer::Viewer;
