//! The kinds of parts and links that machines are made of, each as one variant.
#![tactic(auto)]

mod link_kind;
mod part;

pub use link_kind::LinkKind;
pub use part::Part;
